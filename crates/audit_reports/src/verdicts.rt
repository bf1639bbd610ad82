//! The lines with verdicts.
use crate::lines::Lines;
use audit_core::audit::{AgentAudit, Verdict};
use audit_core::texts::{other_decision, other_reader};
use std::fmt;
use texting_robots::Decision;

/// A decision as a text such as `deny 3`, or `allow -` if no line decides.
#[derive(Clone, Copy)]
struct Decided(Decision);

impl fmt::Display for Decided {
    fn fmt<W: fmt::Write>(&self, f: &mut fmt::Formatter<W>) -> fmt::Result {
        let word = if self.0.allowed { "allow" } else { "deny" };
        match self.0.line {
            Some(line) => write!(f, "{word} {line}"),
            None => write!(f, "{word} -"),
        }
    }
}

/// Writes a line such as `deny 3 https://example.com/search`; a crawler's name precedes the URL, and RFC
/// 9309's verdict follows it, if that is another one, which `by` have.
fn write_verdict(out: &mut Lines<'_>, by: &str, name: Option<&str>, verdict: &Verdict<'_>) {
    let (decided, url) = (Decided(verdict.decision), verdict.url);
    write!(out, "{decided}");
    if let Some(name) = name {
        write!(out, " {name}");
    }
    write!(out, " {url}");
    if let Some(other) = other_decision(verdict) {
        let decided = Decided(other);
        write!(out, "   (by {by}: {decided})");
    }
    out.end_line();
}

pub(crate) fn write_verdicts(
    out: &mut Lines<'_>,
    by: &str,
    name: Option<&str>,
    audit: &AgentAudit<'_>,
) {
    let by = other_reader(by, audit);
    for verdict in &audit.verdicts {
        write_verdict(out, by, name, verdict);
    }
}
