//! What a report says of a file by RFC 9309.

use crate::audit::{AgentAudit, Audit};
use crate::group::AtVendor;
use crate::standard::Alike;
use rfc9309::conformance::Conformance;
use rfc9309::text::is_empty_disallow;
use safe_output::bytes::after_byte;
use std::fmt;
use std::fmt::Write;
use texting_robots::labels::LabeledLine;
use texting_robots::parser::Line;

/// Whether a line is one of a robots.txt file.
pub fn has_directive(labels: &[LabeledLine<'_>]) -> bool {
    labels
        .iter()
        .any(|labeled| !matches!(labeled.line, Line::Raw(_)))
}

/// Says that a line isn't in the standard's grammar, and none above it.
#[derive(Clone, Copy)]
pub struct OtherSyntax(pub usize);

impl fmt::Display for OtherSyntax {
    fn fmt<W: fmt::Write>(&self, f: &mut fmt::Formatter<W>) -> fmt::Result {
        let line = self.0;
        write!(f, "not RFC 9309 syntax, first at line {line}")
    }
}

/// Whether the file has something that Google is known to read as RFC 9309 says, and not as this library
/// does: a delay between names, a rule above the first name, an empty Disallow, or a `$` inside a rule.
fn has_read_otherwise(labels: &[LabeledLine<'_>]) -> bool {
    let (mut has_agent, mut is_list, mut is_delayed) = (false, false, false);
    for labeled in labels {
        match labeled.line {
            Line::UserAgent(_) if is_delayed => return true,
            Line::UserAgent(_) => (has_agent, is_list) = (true, true),
            Line::CrawlDelay(_) => is_delayed = is_list,
            Line::Allow(value) | Line::Disallow(value) => {
                let is_empty = is_empty_disallow(labeled.line, labeled.body);
                if !has_agent || is_empty || !after_byte(b'$', value).is_empty() {
                    return true;
                }
                (is_list, is_delayed) = (false, false);
            }
            Line::Sitemap(_) | Line::Raw(_) => {}
        }
    }
    false
}

/// Who reads the file otherwise, where RFC 9309 does.
pub fn other_readers(labels: &[LabeledLine<'_>]) -> &'static str {
    if has_read_otherwise(labels) {
        "RFC 9309 and Google"
    } else {
        "RFC 9309"
    }
}

/// Whether RFC 9309 reads the file alike for the crawlers of a report, or for which of them it doesn't. A
/// crawler to which its vendor applies another group isn't named.
#[derive(Clone, Copy)]
pub struct ReadAlike<'a, 'b>(pub &'a [AgentAudit<'b>]);

/// How many crawlers are named.
const MOST: usize = 3;

/// Whether the file is read otherwise for the crawler, or if `is_decided` is false, whether that isn't known.
fn is_named(is_decided: bool, audit: &AgentAudit<'_>) -> bool {
    audit.vendor == AtVendor::Same
        && match audit.standard.alike {
            Alike::Yes => false,
            Alike::No(_) => is_decided,
            Alike::Unknown => !is_decided,
        }
}

fn count_of(is_decided: bool, audits: &[AgentAudit<'_>]) -> usize {
    audits
        .iter()
        .filter(|audit| is_named(is_decided, audit))
        .count()
}

fn is_alike(audit: &AgentAudit<'_>) -> bool {
    audit.standard.alike == Alike::Yes
}

/// Whether a report says how RFC 9309 reads the file. That it reads it alike isn't said of one that only has
/// comments, or whose syntax isn't looked at, or that it reads otherwise for a crawler that isn't named.
pub fn is_reading_told(audit: &Audit<'_>) -> bool {
    let has_syntax = match audit.syntax {
        Conformance::OtherFile => false,
        Conformance::OtherLine(_) => true,
        Conformance::InGrammar => has_directive(&audit.labels),
    };
    if audit.agents.iter().all(is_alike) {
        return has_syntax;
    }
    count_of(true, &audit.agents) > 0 || count_of(false, &audit.agents) > 0
}

/// Whether the file is in the standard's grammar, and the standard is known to read it alike for each crawler
/// of the report.
pub fn has_standard_verdicts(audit: &Audit<'_>) -> bool {
    audit.syntax.has_syntax() && audit.agents.iter().all(is_alike)
}

impl<'a, 'b> fmt::Display for ReadAlike<'a, 'b> {
    fn fmt<W: fmt::Write>(&self, f: &mut fmt::Formatter<W>) -> fmt::Result {
        let is_decided = count_of(true, self.0) > 0;
        let count = count_of(is_decided, self.0);
        if count == 0 {
            return f.write_str("RFC 9309 reads this file alike");
        }
        let verb = if is_decided { "reads" } else { "may read" };
        write!(f, "RFC 9309 {verb} this file otherwise for")?;
        let mut named = 0;
        for audit in self.0 {
            if named < MOST && is_named(is_decided, audit) {
                let (comma, name) = (if named == 0 { "" } else { "," }, audit.agent);
                write!(f, "{comma} {name}")?;
                if let Alike::No(line) = audit.standard.alike {
                    write!(f, " (line {line})")?;
                }
                named += 1;
            }
        }
        if count > MOST {
            let more = count - MOST;
            write!(f, " and {more} more")?;
        }
        Ok(())
    }
}
