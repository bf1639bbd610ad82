//! Rules as a whole: whether two lists of rules have the same verdict on every path, and which lines of a
//! file can be deleted together without a change of any verdict.
#![tactic(auto)]

mod blocks;
mod chain;
mod closed;
pub mod compare;
mod item;
pub mod lines;
pub mod needless;
mod pool;
mod refine;
pub mod rule;
pub mod same;
mod search;
mod side;
mod state;
pub mod texts;
pub mod theorems;
mod witnesses;
