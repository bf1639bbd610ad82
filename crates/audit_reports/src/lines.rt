//! Lines of a report, written piece by piece.
use audit_core::audit::AgentAudit;
use audit_core::texts::rejection_of;
use safe_output::level::Level;
use safe_output::report::Report;
use std::fmt;
use std::fmt::Write;

/// Once a write has failed, `finish` gives the error, whatever else is written.
#[derive(Drop)]
pub(crate) struct Lines<'a> {
    pub(crate) report: &'a mut Report,
    pub(crate) has_failed: bool,
}

impl<'a> Lines<'a> {
    pub(crate) fn finish(self) -> fmt::Result {
        if self.has_failed {
            Err(fmt::Error)
        } else {
            Ok(())
        }
    }

    /// What `write!` calls.
    pub(crate) fn write_fmt<D: fmt::Display + Drop>(&mut self, text: D) {
        self.has_failed |= self.report.write_fmt(text).is_err();
    }

    pub(crate) fn end_line(&mut self) {
        self.has_failed |= self.report.end_line().is_err();
    }

    /// A whole line.
    pub(crate) fn line<D: fmt::Display + Drop>(&mut self, text: D) {
        self.write_fmt(text);
        self.end_line();
    }

    /// The word for a level.
    pub(crate) fn level(&mut self, level: Level) {
        self.has_failed |= self.report.level(level).is_err();
    }

    /// Writes that the file is rejected for the crawler, if it is.
    pub(crate) fn rejected(&mut self, audit: &AgentAudit<'_>) {
        if let Some(rejected) = rejection_of(audit) {
            self.line(rejected);
        }
    }
}
