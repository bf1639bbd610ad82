//! The reports of an audit: as text and as annotations for GitHub, as JSON and as a SARIF log, and as an
//! HTML page; the list of all warnings, and the explanation of one.
#![tactic(auto)]

mod crawlers;
pub mod denied;
pub mod explain;
pub mod github;
pub mod json;
mod lines;
mod listed;
mod object;
pub mod page;
mod proved;
pub mod report;
pub mod sarif;
pub mod theorems;
mod verdicts;
