//! What can't be a robots.txt file: a side of a comparison, and what expectations are checked against.

use crate::error::{Error, Flaw, argument};
use robots_warnings::facts::FileFacts;
use robots_warnings::read::FileRead;
use std::alloc::Global;

fn flaw_of(facts: FileFacts) -> Option<Flaw> {
    if facts.is_html {
        Some(Flaw::Html)
    } else if facts.is_utf_16 {
        Some(Flaw::Utf16)
    } else if facts.is_other_text {
        Some(Flaw::NoDirectives)
    } else {
        None
    }
}

/// Fails if the file with this name has text, but no directive.
pub fn check_content(alloc: Global, name: &str, file: &[u8]) -> Result<(), Error> {
    let read = FileRead::new(alloc, "*", file)?;
    match flaw_of(read.facts) {
        Some(flaw) => Err(argument(alloc, name, flaw)),
        None => Ok(()),
    }
}
