//! What the parts of an audit share: the request, the audit of a file for the crawlers that the request
//! names, and what it found; the answer, the errors and the exit status of a run; texts that several reports
//! contain.
#![tactic(auto)]

pub mod agents;
pub mod answer;
pub mod audit;
pub mod chosen;
mod closed;
pub mod color;
pub mod counts;
pub mod crawler;
pub mod error;
pub mod findings;
pub mod group;
pub mod joined;
mod needless;
pub mod not_robots;
pub mod reach;
pub mod readings;
pub mod request;
pub mod rows;
mod rulings;
pub mod sitemaps;
pub mod standard;
pub mod syntax;
pub mod target;
pub mod texts;
pub mod together;
pub mod version;
