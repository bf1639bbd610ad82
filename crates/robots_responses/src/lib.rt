//! What the response to a request for a robots.txt file means, by RFC 9309, 2.3.1: whether the crawler parses
//! the body, asks elsewhere, or may fetch everything or nothing.
//!
//! A file is used for at most [`LIFETIME`], but longer while the server can't be reached: if the meaning is
//! [`Meaning::DenyAll`] and the crawler has an earlier file, it may keep that one.
#![tactic(auto)]

pub mod response;
pub mod site;
pub mod theorems;

pub use response::{LIFETIME, Meaning, REDIRECT_LIMIT, Response};
pub use site::{allow_all, deny_all};
