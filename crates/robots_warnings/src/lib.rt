//! Warnings about what is valid in a robots.txt file or in a request, but probably not intended. Each has a name,
//! possibly the number of a line, and a message that states what to write instead.
#![tactic(auto)]

mod candidates;
pub mod checks;
pub mod closed;
mod conflicts;
pub mod contents;
pub mod crawlers;
pub mod empty_disallows;
pub mod facts;
pub mod field_names;
pub mod file;
mod known;
pub mod names;
mod names_past_limit;
mod numbers;
pub mod own_rules;
pub mod positions;
pub mod read;
mod repeated;
mod replaced;
mod rows;
pub mod rules;
pub mod several_values;
pub mod site_patterns;
mod sitemaps;
pub mod spellings;
pub mod table;
pub mod targets;
pub mod texts;
pub mod tokens;
pub mod urls;
mod values;
pub mod warning;
pub mod warnings;
