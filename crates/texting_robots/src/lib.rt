//! Reads a robots.txt file for a crawler: which URLs it may fetch, how long it has to wait between
//! two requests, and which sitemaps the file lists. It is an independent rewrite of the Rust crate
//! `texting_robots`, which follows Google's interpretation of the Robots Exclusion Protocol (RFC
//! 9309). `docs/COMPATIBILITY.md` lists the differences.
//!
//! Start with [`Robot`]: `Robot::new` reads a file for a crawler, and `allowed` decides about a
//! URL. [`Site`] reads a file once for many crawlers, and `Site::robot` makes the same robots.
//! [`allowed_in_file`] reads a file and decides about one match target; its contract is the main
//! theorem. [`get_robots_url`] returns the address of a site's file. [`parser`], [`minregex`] and
//! [`view`] are the layers below.
//!
//! ```
//! use std::alloc::Global;
//! use texting_robots::{Error, Robot};
//!
//! /// Whether the crawler `FerrisBot` may fetch a page, and how many microseconds it waits before the next.
//! fn may_fetch(alloc: Global, file: &[u8], page: &str) -> Result<Option<u64>, Error> {
//!     let robot = Robot::new(alloc, "FerrisBot", file)?;
//!     if robot.allowed(alloc, page)? {
//!         // a file may ask for any delay, so it is capped at a minute
//!         Ok(Some(robot.delay.unwrap_or(1_000_000).min(60_000_000)))
//!     } else {
//!         Ok(None)
//!     }
//! }
//! ```
//!
//! Only calls that take an allocator may allocate, and [`push_escaped_bytes`], as its string does.
//! If that fails, it returns an error, usually `Error::Memory`. Others are listed under 'Errors'.
#![tactic(auto)]

pub mod address;
mod builder;
pub mod byte_set;
mod decision;
mod error;
mod escape;
mod groups;
mod haystack;
mod in_file;
pub mod labels;
mod lanes;
pub mod laws;
mod matching;
pub mod minregex;
mod normalized;
pub mod parser;
mod plain;
mod prefilter;
mod prepared;
pub mod robot;
mod rules;
mod segments;
pub mod site;
pub mod view;

pub use address::{get_robots_url, robots_url_of};
pub use error::{Error, RobotError, TooCostly};
pub use escape::push_escaped_bytes;
pub use in_file::allowed_in_file;
pub use prepared::match_target;
pub use robot::{Decision, Robot};
pub use site::Site;
