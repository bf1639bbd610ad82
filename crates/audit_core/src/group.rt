//! The group that applies to a crawler.
ghost use Rattle.std.specs.Prelude.{◌≡◌, IfOk, map};
ghost use Rattle.std.specs.Str.{str_to_ascii_lowercase};
ghost use Rattle.texting_robots.specs.Callers.{by_value, file_lines, is_agent_named, label_by_value};
ghost use Rattle.robots_warnings.specs.{File.lines_of, Read.IsRead};
ghost use Rattle.robots_warnings.specs.{Crawlers.other_group, Internal.row_value};
ghost use Rattle.audit_core.specs.Audit.{at_vendor, group_of, ignored_by, ignoring_among, naming_line};

use robots_warnings::crawlers::{Crawler, crawlers, ignores_star, other_group};
use robots_warnings::read::FileRead;
use safe_output::bytes::as_text;
use std::alloc::{AllocError, Global};
use texting_robots::Site;
use texting_robots::labels::LabeledLine;
use texting_robots::parser::Line;

/// Which user-agent lines determine the group of a crawler.
#[derive(Clone, Copy, PartialEq, Eq)]
pub enum Group {
    /// The lines that name the crawler.
    Named,
    /// The lines of `*`, as no line names the crawler.
    Star,
    /// No line names the crawler or `*`, so no group applies.
    Nobody,
    /// The file has no user-agent line, so all rules and delays apply to every crawler.
    Everyone,
}

pub(crate) fn group_of(agent: &str, site: &Site) -> Group
    ensures { result ≡ group_of agent.now (file_lines site.now) }
{
    if site.is_named(agent) {
        Group::Named
    } else if site.is_named("*") {
        Group::Star
    } else if site.has_agents() {
        Group::Nobody
    } else {
        Group::Everyone
    }
}

/// Which group the vendor of a known crawler applies to it.
#[derive(Clone, Copy, PartialEq, Eq)]
pub enum AtVendor {
    /// The group that applies here.
    Same,
    NoGroup,
    OtherGroup,
}

pub(crate) fn at_vendor(agent: &str, site: &Site) -> AtVendor
    ensures { result ≡ at_vendor (other_group (file_lines site.now) agent.now) }
{
    match other_group(site, agent) {
        None => AtVendor::Same,
        Some(group) if group.is_empty() => AtVendor::NoGroup,
        Some(_) => AtVendor::OtherGroup,
    }
}

fn ignoring_among(
    alloc: Global,
    site: &Site,
    rows: &'static [Crawler],
) -> Result<Vec<&'static str>, AllocError>
    ensures { IfOk result (λ names. map (λ name. name.now) names.items
        ≡ ignoring_among (file_lines site.now) (map row_value rows.now)) }
{
    let mut names = Vec::new(alloc);
    for row in rows {
        if ignores_star(site, row) {
            names.push(row.0)?;
        }
    }
    Ok(names)
}

/// The known crawlers that ignore the group that is reported for this one, and so may fetch all.
pub(crate) fn ignored_by(
    alloc: Global,
    agent: &str,
    site: &Site,
) -> Result<Vec<&'static str>, AllocError>
    ensures { IfOk result (λ names. map (λ name. name.now) names.items
        ≡ ignored_by (file_lines site.now) agent.now) }
{
    if agent != "*" {
        return Ok(Vec::new(alloc));
    }
    ignoring_among(alloc, site, crawlers())
}

fn has_name(name: &[u8], line: Line<'_>) -> bool
    ensures { result ≡ is_agent_named (str_to_ascii_lowercase name.now) (by_value line.entry) }
{
    match line {
        Line::UserAgent(value) => value.eq_ignore_ascii_case(name),
        _ => false,
    }
}

/// The labels are those of the site's lines.
pub(crate) fn naming_line(agent: &str, site: &Site, labels: &[LabeledLine<'_>]) -> Option<usize>
    requires { lines_of (map label_by_value labels.now) ≡ file_lines site.now }
    ensures { result ≡ naming_line agent.now (file_lines site.now) }
{
    let name = site.group_name(agent);
    for (at, labeled) in labels.iter().enumerate() {
        if has_name(name, labeled.line) {
            return Some(at + 1);
        }
    }
    None
}

fn name_in<'a>(labels: &[LabeledLine<'a>], line: Option<usize>) -> Option<&'a str> {
    match labels.get(line?.saturating_sub(1))?.line {
        Line::UserAgent(value) => as_text(value),
        _ => None,
    }
}

/// The name for which the file is read for this crawler: its own, or that of the group that its vendor
/// applies to it.
pub(crate) fn name_asked<'a>(agent: &'a str, read: &FileRead<'a>) -> &'a str
    requires { IsRead read.now }
{
    match other_group(&read.site, agent) {
        Some(group) if !group.is_empty() => {
            let line = naming_line(group, &read.site, &read.labels);
            name_in(&read.labels, line).unwrap_or(agent)
        }
        _ => agent,
    }
}
