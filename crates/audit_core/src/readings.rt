//! A file in both readings: this library's, and that of RFC 9309.
ghost use Rattle.std.specs.Prelude.{◌≡◌, IfOk, map};
ghost use Rattle.texting_robots.specs.Callers.{label_by_value};
ghost use Rattle.robots_warnings.specs.File.{labels_for};
ghost use Rattle.audit_core.specs.Standard.{AreReadings};

use rfc9309::site::StandardSite;
use robots_warnings::read::FileRead;
use std::alloc::{AllocError, Global};
use std::fmt;
use std::fmt::Write;
use texting_robots::robot::{Decision, FILE_LIMIT};

/// A file as it is read here, with its lines labeled for one crawler, and as RFC 9309 reads it.
#[derive(Drop)]
pub struct FileReadings<'a> {
    pub here: FileRead<'a>,
    pub standard: StandardSite,
}

impl<'a> FileReadings<'a> {
    pub fn new(alloc: Global, agent: &str, file: &'a [u8]) -> Result<Self, AllocError>
        ensures readings { IfOk result (AreReadings file.entry.now) }
        ensures labels { IfOk result (λ readings. map label_by_value readings.here.labels.items
            ≡ labels_for agent.now file.entry.now) }
    {
        let here = FileRead::new(alloc, agent, file)?;
        let standard = StandardSite::new(alloc, file, FILE_LIMIT)?;
        Ok(FileReadings { here, standard })
    }
}

/// The verdict, and the line that decides.
#[derive(Clone, Copy)]
pub struct Decided(pub Decision);

impl fmt::Display for Decided {
    fn fmt<W: fmt::Write>(&self, f: &mut fmt::Formatter<W>) -> fmt::Result {
        f.write_str(if self.0.allowed { "allow" } else { "deny" })?;
        match self.0.line {
            Some(line) => write!(f, " {line}"),
            None => Ok(()),
        }
    }
}
