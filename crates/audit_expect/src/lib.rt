//! Files with a line for each URL: the expectations of `--expect`, with the report on them, and the URLs of
//! `--urls-from`.
#![tactic(auto)]

mod any;
mod checks;
mod entries;
mod expect;
pub mod expectations;
mod patterns;
pub mod theorems;
pub mod url_list;
