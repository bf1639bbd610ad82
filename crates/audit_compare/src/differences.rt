//! What differs between two files for a crawler, as findings.
ghost use Rattle.std.specs.Prelude.{◌≡◌};
ghost use Rattle.std.specs.List.{list_all};
ghost use Rattle.audit_compare.specs.Compare.{is_rejected, is_same_group, is_unchanged};

use crate::compared::{Compared, UrlChange, are_none, keep_verdicts};
use crate::every_url::Verdicts;
use audit_core::audit::AgentAudit;
use audit_core::findings::{Findings, Subject, add, message};
use audit_core::group::{AtVendor, Group};
use audit_core::reach::Reach;
use audit_core::readings::Decided;
use audit_core::texts::{DelayOrNone, Fetched, Rejected};
use robots_rules::rule::Rule;
use safe_output::level::Level;
use safe_output::report::Line;
use std::alloc::Global;
use std::fmt;
use std::fmt::Write;

/// A section of what is reported on a crawler. If a file is rejected for it, the other sections are empty.
#[derive(Clone, Copy)]
pub(crate) enum Section {
    Rejections,
    Groups,
    Rules,
    Urls,
    EveryUrl,
}

fn is_same_group(one: Group, other: Group) -> bool
    ensures { result ≡ is_same_group one other }
{
    one == other
}

fn group_name<'a>(agent: &'a str, group: Group) -> &'a str {
    match group {
        Group::Named => agent,
        Group::Star => "*",
        Group::Nobody => "none",
        Group::Everyone => "everyone",
    }
}

/// Adds another group, and another delay.
fn add_group(alloc: Global, found: &mut Findings, compared: &Compared<'_>) -> fmt::Result {
    let (agent, older, newer) = (compared.agent, &compared.older, &compared.newer);
    let subject = Subject(None, Some(agent), None);
    if !is_same_group(older.group, newer.group) {
        let old = group_name(agent, older.group);
        let new = group_name(agent, newer.group);
        let message = message(alloc, format_args!("crawler {agent}: group {old} -> {new}"));
        add(alloc, found, Level::Note, subject, "group", message)?;
    }
    if older.delay == newer.delay {
        return Ok(());
    }
    let (old, new) = (DelayOrNone(older.delay), DelayOrNone(newer.delay));
    let message = message(alloc, format_args!("crawler {agent}: delay {old} -> {new}"));
    add(alloc, found, Level::Note, subject, "delay", message)
}

fn add_rules(
    alloc: Global,
    found: &mut Findings,
    agent: &str,
    is_added: bool,
    rules: &[Rule],
) -> fmt::Result {
    let (sign, name) = if is_added {
        ("+", "rule-added")
    } else {
        ("-", "rule-removed")
    };
    for rule in rules {
        let kind = if rule.is_allow { "Allow" } else { "Disallow" };
        let (pattern, number) = (rule.pattern.as_str(), rule.line);
        let line = if is_added { Some(number) } else { None };
        let subject = Subject(line, Some(agent), None);
        let message = message(
            alloc,
            format_args!("crawler {agent}: {sign} {kind}: {pattern} (line {number})"),
        );
        add(alloc, found, Level::Note, subject, name, message)?;
    }
    Ok(())
}

/// What a crawler's vendor does otherwise in the new file, or else that it did in the old one; and whether
/// one of the files alone has rules without a user-agent line.
#[derive(Clone, Copy)]
struct Vendors {
    older: AtVendor,
    newer: AtVendor,
    is_ungrouped: bool,
}

impl fmt::Display for Vendors {
    fn fmt<W: fmt::Write>(&self, f: &mut fmt::Formatter<W>) -> fmt::Result {
        match (self.older, self.newer) {
            (AtVendor::NoGroup | AtVendor::OtherGroup, AtVendor::Same) => {
                f.write_str("; but before, its vendor applied no group or another one")?;
            }
            (_, vendor) => write!(f, "{vendor}")?,
        }
        if self.is_ungrouped {
            f.write_str(
                "; but for RFC 9309 and Google, rules without a User-agent line are for no crawler",
            )?;
        }
        Ok(())
    }
}

/// The first file has rules, but no user-agent line, and the other one has such a line.
fn is_ungrouped(audit: &AgentAudit<'_>, other: &AgentAudit<'_>) -> bool {
    matches!(audit.group, Group::Everyone)
        && audit.rules > 0
        && !matches!(other.group, Group::Everyone)
}

const NO_REMARK: Vendors = Vendors {
    older: AtVendor::Same,
    newer: AtVendor::Same,
    is_ungrouped: false,
};

fn vendors_of(compared: &Compared<'_>) -> Vendors {
    let (older, newer) = (&compared.older, &compared.newer);
    Vendors {
        older: older.vendor,
        newer: newer.vendor,
        is_ungrouped: is_ungrouped(older, newer) || is_ungrouped(newer, older),
    }
}

/// Adds what becomes of the verdict on a URL.
fn add_url(
    alloc: Global,
    found: &mut Findings,
    compared: &Compared<'_>,
    change: &UrlChange<'_>,
) -> fmt::Result {
    let (older, newer) = (change.older, change.newer);
    let (level, name, effect) = match (older.allowed, newer.allowed) {
        (true, false) => (Level::Warning, "closed", ", closed"),
        (false, true) => (Level::Note, "opened", ", opened"),
        _ => (Level::Note, "other-rule", ""),
    };
    let (agent, url, vendors) = (compared.agent, change.url, vendors_of(compared));
    let reading = if change.is_standard {
        ", by RFC 9309"
    } else {
        ""
    };
    let (old, new) = (Decided(older), Decided(newer));
    let message = message(
        alloc,
        format_args!("crawler {agent} {url}{reading}: {old} -> {new}{effect}{vendors}"),
    );
    let subject = Subject(newer.line, Some(agent), Some(url.as_bytes()));
    add(alloc, found, level, subject, name, message)
}

pub(crate) fn is_rejected(compared: &Compared<'_>) -> bool
    ensures { result ≡ is_rejected compared.now }
{
    let (older, newer) = (&compared.older, &compared.newer);
    older.rejected.is_some()
        || newer.rejected.is_some()
        || older.standard.rejected.is_some()
        || newer.standard.rejected.is_some()
}

pub(crate) fn is_unchanged(compared: &Compared<'_>) -> bool
    ensures { result ≡ is_unchanged compared.now }
{
    let (older, newer) = (&compared.older, &compared.newer);
    !is_rejected(compared)
        && is_same_group(older.group, newer.group)
        && older.delay == newer.delay
        && (are_none(&compared.rules) && keep_verdicts(compared))
}

pub(crate) fn all_unchanged(crawlers: &[Compared<'_>]) -> bool
    ensures { result ≡ list_all is_unchanged crawlers.now }
{
    crawlers.iter().all(is_unchanged)
}

/// What becomes of verdicts in one reading, and what the crawler may fetch by each file.
#[derive(Clone, Copy)]
struct Change<'a> {
    verdicts: &'a Verdicts,
    older: Fetched<'a>,
    newer: Fetched<'a>,
}

impl<'a> fmt::Display for Change<'a> {
    fn fmt<W: fmt::Write>(&self, f: &mut fmt::Formatter<W>) -> fmt::Result {
        let (older, newer) = (self.older, self.newer);
        let example = match self.verdicts {
            Verdicts::Same => return f.write_str("no URL's verdict changes"),
            Verdicts::Undecided => {
                return f.write_str("it isn't decided whether a URL's verdict changes");
            }
            Verdicts::Other(example) => example,
        };
        if older.0 == newer.0 {
            f.write_str("verdicts change")?;
        } else {
            write!(f, "may fetch {older} -> {newer}")?;
        }
        let (old, new) = (Decided(example.older), Decided(example.newer));
        let path = example.path.as_str();
        write!(f, ", for example {path}: {old} -> {new}")
    }
}

/// An error for a crawler that loses everything, a warning for one that loses the home page, else a note.
fn level_of(change: &Change<'_>) -> Level {
    let Verdicts::Other(example) = change.verdicts else {
        return Level::Note;
    };
    match change.newer.0 {
        Reach::Nothing => Level::Error,
        _ if example.path.as_str() == "/" && example.older.allowed => Level::Warning,
        _ => Level::Note,
    }
}

/// Both readings say the same of the verdicts, in the same direction, if they change.
fn are_alike(one: &Change<'_>, other: &Change<'_>) -> bool {
    match (one.verdicts, other.verdicts) {
        (Verdicts::Other(first), Verdicts::Other(second)) => {
            one.newer.0 == other.newer.0 && first.newer.allowed == second.newer.allowed
        }
        (Verdicts::Same, Verdicts::Same) | (Verdicts::Undecided, Verdicts::Undecided) => true,
        _ => false,
    }
}

/// What becomes of verdicts here, a remark on that, and what becomes of them in the other reading, if that
/// isn't alike.
#[derive(Clone, Copy)]
struct InReadings<'a> {
    here: Change<'a>,
    remark: Vendors,
    name: &'a str,
    other: Option<Change<'a>>,
}

impl<'a> fmt::Display for InReadings<'a> {
    fn fmt<W: fmt::Write>(&self, f: &mut fmt::Formatter<W>) -> fmt::Result {
        let (here, remark, name) = (self.here, self.remark, self.name);
        write!(f, "{here}{remark}")?;
        match self.other {
            Some(other) => write!(f, "; {name}: {other}"),
            None => Ok(()),
        }
    }
}

/// What becomes of verdicts in the other reading, if it has other rules, and that isn't alike.
fn other_change<'a>(
    here: &Change<'a>,
    verdicts: &'a Option<Verdicts>,
    older: Fetched<'a>,
    newer: Fetched<'a>,
) -> Option<Change<'a>> {
    let verdicts = verdicts.as_ref()?;
    let other = Change {
        verdicts,
        older,
        newer,
    };
    if are_alike(here, &other) {
        return None;
    }
    Some(other)
}

/// What says more of the verdicts: the more serious one, or that with an example.
fn weightier<'a>(here: Change<'a>, other: Change<'a>) -> Change<'a> {
    let is_serious = !level_of(&here).reaches(level_of(&other));
    match (here.verdicts, other.verdicts) {
        _ if is_serious => other,
        (Verdicts::Other(_), _) | (_, Verdicts::Same) => here,
        _ => other,
    }
}

/// Adds what becomes of the verdicts of a crawler, which a message says of it.
fn add_change(
    alloc: Global,
    found: &mut Findings,
    agent: &str,
    said: &InReadings<'_>,
    message: Result<Line, fmt::Error>,
) -> fmt::Result {
    let change = weightier(said.here, said.other.unwrap_or(said.here));
    let (name, line, url) = match change.verdicts {
        Verdicts::Other(example) => {
            let path = example.path.as_bytes();
            ("verdicts", example.newer.line, Some(path))
        }
        Verdicts::Same => ("same-verdicts", None, None),
        Verdicts::Undecided => ("undecided-verdicts", None, None),
    };
    let (level, subject) = (level_of(&change), Subject(line, Some(agent), url));
    add(alloc, found, level, subject, name, message)
}

/// Of the group that the vendor applies to the crawler: this one, if it is another than here.
fn name_at_vendor<'a>(audit: &AgentAudit<'a>, name: &'a str) -> &'a str {
    match audit.vendor {
        AtVendor::Same if !name.is_empty() => group_name(audit.agent, audit.group),
        AtVendor::Same | AtVendor::NoGroup => "none",
        AtVendor::OtherGroup => name,
    }
}

/// Adds what becomes of verdicts by the groups that the vendor of a crawler applies to it. It isn't said what
/// the crawler may fetch.
fn add_at_vendor(alloc: Global, found: &mut Findings, compared: &Compared<'_>) -> fmt::Result {
    let Some(vendor) = &compared.vendor else {
        return Ok(());
    };
    let agent = compared.agent;
    let old = name_at_vendor(&compared.older, &vendor.older);
    let new = name_at_vendor(&compared.newer, &vendor.newer);
    let some = Fetched(Reach::Part, &[]);
    let here = Change {
        verdicts: &vendor.verdicts.here,
        older: some,
        newer: some,
    };
    let said = InReadings {
        here,
        remark: NO_REMARK,
        name: "in the other reading",
        other: other_change(&here, &vendor.verdicts.standard, some, some),
    };
    let message = message(
        alloc,
        format_args!("crawler {agent}, whose vendor applies the group {old} -> {new}: {said}"),
    );
    add_change(alloc, found, agent, &said, message)
}

/// Adds what becomes of the verdicts of all URLs, if something differs for the crawler.
fn add_verdicts(alloc: Global, found: &mut Findings, compared: &Compared<'_>) -> fmt::Result {
    if is_unchanged(compared) {
        return Ok(());
    }
    let (agent, older, newer) = (compared.agent, &compared.older, &compared.newer);
    let here = Change {
        verdicts: &compared.verdicts.here,
        older: Fetched(older.reach, &older.allows),
        newer: Fetched(newer.reach, &newer.allows),
    };
    let was = Fetched(older.standard.reach, &older.standard.allows);
    let is = Fetched(newer.standard.reach, &newer.standard.allows);
    let said = InReadings {
        here,
        remark: vendors_of(compared),
        name: "by RFC 9309",
        other: other_change(&here, &compared.verdicts.standard, was, is),
    };
    let message = message(alloc, format_args!("crawler {agent}: {said}"));
    add_change(alloc, found, agent, &said, message)?;
    add_at_vendor(alloc, found, compared)
}

/// Adds that a file is rejected, here or else by RFC 9309.
fn add_rejection(
    alloc: Global,
    found: &mut Findings,
    agent: &str,
    is_new: bool,
    audit: &AgentAudit<'_>,
) -> fmt::Result {
    let (front, rejected) = match audit.rejected {
        Some(_) => ("", audit.rejected),
        None => ("by RFC 9309, ", audit.standard.rejected),
    };
    let Some(line) = rejected else {
        return Ok(());
    };
    let (version, name, place) = if is_new {
        ("new", "rejected", rejected)
    } else {
        ("old", "old-rejected", None)
    };
    let reason = Rejected {
        agent,
        line,
        is_standard: false,
    };
    let message = message(alloc, format_args!("{front}the {version} file is {reason}"));
    let subject = Subject(place, Some(agent), None);
    add(alloc, found, Level::Error, subject, name, message)
}

/// Adds what a section says of a crawler.
fn add_section(
    alloc: Global,
    found: &mut Findings,
    section: Section,
    compared: &Compared<'_>,
) -> fmt::Result {
    let (agent, older, newer) = (compared.agent, &compared.older, &compared.newer);
    match section {
        Section::Rejections => {
            add_rejection(alloc, found, agent, false, older)?;
            add_rejection(alloc, found, agent, true, newer)
        }
        _ if is_rejected(compared) => Ok(()),
        Section::Groups => add_group(alloc, found, compared),
        Section::Rules => {
            add_rules(alloc, found, agent, false, &compared.rules.removed)?;
            add_rules(alloc, found, agent, true, &compared.rules.added)
        }
        Section::Urls => {
            for change in &compared.changes {
                if !(change.is_standard && compared.vendor.is_some()) {
                    add_url(alloc, found, compared, change)?;
                }
            }
            Ok(())
        }
        Section::EveryUrl => add_verdicts(alloc, found, compared),
    }
}

/// Adds what these sections say of a crawler.
pub(crate) fn add_crawler(
    alloc: Global,
    found: &mut Findings,
    sections: &[Section],
    compared: &Compared<'_>,
) -> fmt::Result {
    for section in sections {
        add_section(alloc, found, *section, compared)?;
    }
    Ok(())
}
