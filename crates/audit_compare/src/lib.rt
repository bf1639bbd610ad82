//! Two versions of a robots.txt file compared, and the report on what differs.
#![tactic(auto)]

pub mod compare;
pub mod compared;
mod differences;
pub mod every_url;
pub mod report;
mod rule_sets;
mod sitemaps;
pub mod theorems;
pub mod vendor;
