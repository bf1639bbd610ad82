//! A file that was read once: what warnings and reports need of it.
ghost use Rattle.std.specs.Prelude.{◌≡◌, IfOk, map};
ghost use Rattle.texting_robots.specs.Callers.{label_by_value};
ghost use Rattle.robots_warnings.specs.{File.labels_for, Read.IsRead};

use crate::facts::{FileFacts, facts_of};
use crate::file::labels_for;
use std::alloc::{AllocError, Global};
use texting_robots::Site;
use texting_robots::labels::LabeledLine;

/// A file as it was read.
#[derive(Drop)]
pub struct FileRead<'a> {
    pub bytes: &'a [u8],
    /// The lines within the size limit, with their membership in one crawler's group.
    pub labels: Vec<LabeledLine<'a>>,
    pub facts: FileFacts,
    pub site: Site,
}

impl<'a> FileRead<'a> {
    /// Reads a file, and labels its lines for the crawler.
    pub fn new(alloc: Global, agent: &str, bytes: &'a [u8]) -> Result<Self, AllocError>
        ensures bytes { IfOk result (λ read. read.bytes.now ≡ bytes.entry.now) }
        ensures labels { IfOk result (λ read. map label_by_value read.labels.items
            ≡ labels_for agent.now bytes.entry.now) }
        ensures read { IfOk result IsRead }
    {
        let labels = labels_for(alloc, agent, bytes)?;
        let facts = facts_of(bytes, &labels);
        let site = Site::new(alloc, bytes)?;
        Ok(FileRead {
            bytes,
            labels,
            facts,
            site,
        })
    }
}
