//! What an audit and its warnings promise: theorems about the specification, each written as the contract of
//! an empty function.
#![tactic(auto)]

pub mod theorems;
