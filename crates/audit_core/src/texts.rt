//! Texts that several reports share: a delay, which group applies to a crawler, and that the file is
//! rejected.

use crate::audit::{AgentAudit, Verdict};
use crate::group::{AtVendor, Group};
use crate::reach::Reach;
use crate::standard::Alike;
use robots_warnings::crawlers::is_wrong;
use robots_warnings::positions::is_ignored;
use safe_output::bytes::first;
use safe_output::delay::Delay;
use std::fmt;
use std::fmt::Write;
use texting_robots::parser::Line;
use texting_robots::robot::Decision;

fn reach_word(reach: Reach) -> &'static str {
    match reach {
        Reach::Everything => "everything",
        Reach::Nothing => "nothing",
        Reach::Listed => "only-what-lines-allow",
        Reach::Part => "depends-on-rules",
    }
}

/// What the crawler may fetch, in a word; `None` if the file is rejected for it.
pub fn may_fetch(rejected: Option<usize>, reach: Reach) -> Option<&'static str> {
    match rejected {
        None => Some(reach_word(reach)),
        Some(_) => None,
    }
}

/// Some things, of which three are named, such as `3, 5, 8 and 2 more`; nothing if there are none.
#[derive(Clone, Copy)]
struct Several<'a, T>(&'a [T]);

impl<'a, T: fmt::Display> fmt::Display for Several<'a, T> {
    fn fmt<W: fmt::Write>(&self, f: &mut fmt::Formatter<W>) -> fmt::Result {
        match self.0 {
            [] => Ok(()),
            [one] => write!(f, "{one}"),
            [one, two] => write!(f, "{one} and {two}"),
            [one, two, three] => write!(f, "{one}, {two} and {three}"),
            [one, two, three, more @ ..] => {
                let more = more.len();
                write!(f, "{one}, {two}, {three} and {more} more")
            }
        }
    }
}

/// Some lines, of which three are named, such as `lines 3, 5, 8 and 2 more`.
#[derive(Clone, Copy)]
pub struct Lines<'a>(pub &'a [usize]);

impl<'a> fmt::Display for Lines<'a> {
    fn fmt<W: fmt::Write>(&self, f: &mut fmt::Formatter<W>) -> fmt::Result {
        let (end, lines) = (if self.0.len() == 1 { "" } else { "s" }, Several(self.0));
        write!(f, "line{end} {lines}")
    }
}

/// What a crawler may fetch; if that is listed, with the lines of the Allows.
#[derive(Clone, Copy)]
pub struct Fetched<'a>(pub Reach, pub &'a [usize]);

impl<'a> fmt::Display for Fetched<'a> {
    fn fmt<W: fmt::Write>(&self, f: &mut fmt::Formatter<W>) -> fmt::Result {
        match self.0 {
            Reach::Everything | Reach::Nothing => f.write_str(reach_word(self.0)),
            Reach::Listed => {
                let lines = Lines(self.1);
                let end = if self.1.len() == 1 { "s" } else { "" };
                write!(f, "only what {lines} allow{end}")
            }
            Reach::Part => f.write_str("some"),
        }
    }
}

/// What the crawler may fetch by RFC 9309, if both readings are known not to be alike, and this isn't what it
/// may fetch here.
pub fn standard_fetched<'a>(audit: &'a AgentAudit<'_>) -> Option<Fetched<'a>> {
    let standard = &audit.standard;
    let is_same = audit.rejected.is_none()
        && audit.reach == standard.reach
        && audit.allows.as_slice() == standard.allows.as_slice();
    if is_same || standard.alike == Alike::Yes || standard.rejected.is_some() {
        None
    } else {
        Some(Fetched(standard.reach, &standard.allows))
    }
}

/// RFC 9309's decision on the URL, if its verdict is another one.
pub fn other_decision(verdict: &Verdict<'_>) -> Option<Decision> {
    verdict
        .standard
        .filter(|decision| decision.allowed != verdict.decision.allowed)
}

/// A delay, or `none`.
#[derive(Clone, Copy)]
pub struct DelayOrNone(pub Option<u64>);

impl fmt::Display for DelayOrNone {
    fn fmt<W: fmt::Write>(&self, f: &mut fmt::Formatter<W>) -> fmt::Result {
        match self.0 {
            Some(micros) => {
                let delay = Delay(micros);
                write!(f, "{delay}")
            }
            None => f.write_str("none"),
        }
    }
}

/// Whether the crawler has a delay, and by its name probably ignores it.
pub fn ignores_delay(audit: &AgentAudit<'_>) -> bool {
    is_ignored(Some(audit.agent.as_bytes()), Line::CrawlDelay(audit.delay))
}

/// The delay of a crawler, or `none`, and whether the crawler probably ignores it.
#[derive(Clone, Copy)]
pub struct Delayed<'a, 'b>(pub &'a AgentAudit<'b>);

impl<'a, 'b> fmt::Display for Delayed<'a, 'b> {
    fn fmt<W: fmt::Write>(&self, f: &mut fmt::Formatter<W>) -> fmt::Result {
        let audit = self.0;
        let (agent, delay) = (audit.agent, DelayOrNone(audit.delay));
        write!(f, "{delay}")?;
        if ignores_delay(audit) {
            write!(f, " ({agent} probably ignores it)")?;
        }
        Ok(())
    }
}

/// If a crawler's vendor applies another group than the one that is compared, the end of what is said of it.
impl fmt::Display for AtVendor {
    fn fmt<W: fmt::Write>(&self, f: &mut fmt::Formatter<W>) -> fmt::Result {
        match *self {
            AtVendor::Same => Ok(()),
            AtVendor::NoGroup => {
                f.write_str(
                    "; but it ignores the group *, and obeys only one with its own name, so it may fetch \
                    all: the verdicts are the file's, not the crawler's",
                )
            }
            AtVendor::OtherGroup => f.write_str(
                "; but its vendor applies another group, whose verdicts may differ",
            ),
        }
    }
}

fn begins_with(agent: &str, front: &[u8]) -> bool {
    first(front.len(), agent.as_bytes()).eq_ignore_ascii_case(front)
}

/// The vendor of a known crawler that gets another group than the one with its name.
pub fn vendor_of(agent: &str) -> &'static str {
    if agent.contains("Google") || agent.contains("google") {
        "Google"
    } else if begins_with(agent, b"Yandex") {
        "Yandex"
    } else if begins_with(agent, b"Applebot") {
        "Apple"
    } else {
        "its vendor"
    }
}

/// Who reads the file otherwise for this crawler: `others`, or its vendor, if that applies another group to
/// it.
pub fn other_reader<'a>(others: &'a str, audit: &AgentAudit<'_>) -> &'a str {
    if audit.vendor == AtVendor::OtherGroup {
        vendor_of(audit.agent)
    } else {
        others
    }
}

/// The end of what is said of `*`, if some crawlers don't obey its group, which denies something.
#[derive(Clone, Copy)]
pub struct Elsewhere<'a, 'b>(pub &'a AgentAudit<'b>);

impl<'a, 'b> fmt::Display for Elsewhere<'a, 'b> {
    fn fmt<W: fmt::Write>(&self, f: &mut fmt::Formatter<W>) -> fmt::Result {
        let audit = self.0;
        let names = Several(&audit.ignored_by);
        if audit.reach != Reach::Everything && !audit.ignored_by.is_empty() {
            write!(
                f,
                "; but crawlers that obey only a group with their own name may fetch all: {names}"
            )?;
        }
        Ok(())
    }
}

/// The group that applies to a crawler, and the reason if it isn't the crawler's own.
#[derive(Clone, Copy)]
pub struct Applied<'a, 'b>(pub &'a AgentAudit<'b>);

impl<'a, 'b> fmt::Display for Applied<'a, 'b> {
    fn fmt<W: fmt::Write>(&self, f: &mut fmt::Formatter<W>) -> fmt::Result {
        let audit = self.0;
        let (agent, asked) = (audit.agent, audit.asked);
        if audit.vendor == AtVendor::OtherGroup {
            let vendor = vendor_of(agent);
            return write!(f, "{asked} ({vendor} applies it to {agent})");
        }
        match audit.group {
            Group::Named => f.write_str(agent),
            Group::Star if is_wrong(agent.as_bytes()) => {
                write!(f, "* (no crawler has the name {agent})")
            }
            Group::Star => write!(f, "* ({agent} has no group of its own)"),
            Group::Nobody if audit.vendor == AtVendor::NoGroup => {
                write!(
                    f,
                    "none ({agent} ignores the group *, and obeys only one with its own name; everything is \
                    allowed)"
                )
            }
            Group::Nobody if agent == "*" => {
                f.write_str("none (no group for *; everything is allowed)")
            }
            Group::Nobody => write!(f, "none (no group for {agent} or *; everything is allowed)"),
            Group::Everyone => {
                f.write_str("everyone (no User-agent line is read; all rules are applied)")
            }
        }
    }
}

/// Says that the file is rejected for a crawler because of this line, or that RFC 9309 has no verdict because
/// of it.
#[derive(Clone, Copy)]
pub struct Rejected<'a> {
    pub agent: &'a str,
    pub line: usize,
    pub is_standard: bool,
}

impl<'a> fmt::Display for Rejected<'a> {
    fn fmt<W: fmt::Write>(&self, f: &mut fmt::Formatter<W>) -> fmt::Result {
        let (agent, line) = (self.agent, self.line);
        let (front, form) = if self.is_standard {
            ("no verdict by RFC 9309", " in normal form")
        } else {
            ("rejected", "")
        };
        write!(
            f,
            "{front} for {agent}: line {line}: a pattern with $ longer than 4,096 bytes{form} isn't \
            supported; shorten it"
        )
    }
}

/// Why the file is rejected for the crawler, in one of the readings or in both.
pub fn rejection_of<'a>(audit: &AgentAudit<'a>) -> Option<Rejected<'a>> {
    Some(Rejected {
        agent: audit.agent,
        line: audit.rejected.or(audit.standard.rejected)?,
        is_standard: audit.rejected.is_none(),
    })
}
