//! Conditions on the position of a line.
ghost use Rattle.std.specs.Prelude.{◌≡◌, IfOk, map};
ghost use Rattle.texting_robots.specs.Callers.{by_value, label_by_value};
ghost use Rattle.robots_warnings.specs.Positions.{first_delay, is_above_agents, is_other_delay, later_delays};

use crate::facts::has_text;
use crate::field_names::begins_with;
use crate::file::is_blank;
use crate::numbers::push_if;
use safe_output::bytes::{has, somewhere};
use std::alloc::{AllocError, Global};
use texting_robots::labels::{LabeledLine, Membership};
use texting_robots::parser::Line;

/// What precedes a line, as far as it matters to a user-agent line.
#[derive(Clone, Copy, PartialEq, Eq)]
pub enum Preceding {
    Other,
    /// A user-agent line with no rule or delay after it.
    Agent,
    /// A user-agent line with delays but no rule after it.
    Delay,
}

pub(crate) fn preceding_with(preceding: Preceding, line: Line<'_>) -> Preceding {
    match line {
        Line::UserAgent(_) => Preceding::Agent,
        Line::Allow(_) | Line::Disallow(_) => Preceding::Other,
        Line::CrawlDelay(_) => match preceding {
            Preceding::Other => Preceding::Other,
            Preceding::Agent | Preceding::Delay => Preceding::Delay,
        },
        _ => preceding,
    }
}

/// `first` is the first delay of the group in the lines above this one.
fn first_delay(first: Option<u64>, line: Line<'_>) -> Option<u64>
    ensures { result ≡ first_delay first (by_value line.entry) }
{
    match line {
        Line::UserAgent(_) => None,
        Line::CrawlDelay(delay) => first.or(delay),
        _ => first,
    }
}

/// `name` is the result for this line.
pub(crate) fn sole_name<'a>(
    preceding: Preceding,
    name: Option<&'a [u8]>,
    line: Line<'a>,
) -> Option<&'a [u8]> {
    match line {
        Line::UserAgent(value) if preceding == Preceding::Other => Some(value),
        Line::UserAgent(_) => None,
        _ => name,
    }
}

pub(crate) fn last_group(labels: &[LabeledLine<'_>]) -> Option<usize> {
    let mut last = None;
    for labeled in labels {
        match labeled.line {
            Line::Allow(_) | Line::Disallow(_) | Line::CrawlDelay(_) => last = Some(labeled.number),
            _ => {}
        }
    }
    last
}

/// Parts of the names of crawlers that ignore delays: developers.google.com/search/docs/crawling-indexing/robots/robots_txt
/// doesn't support them, and yandex.com/support/webmaster/robot-workings/crawl-delay.html says so since 2018.
pub(crate) const IGNORE_DELAYS: [&str; 2] = ["google", "yandex"];

fn begins_ignoring(text: &[u8]) -> bool {
    IGNORE_DELAYS.iter().any(|part| begins_with(part, text))
}

/// `name` is the only name of the group.
pub fn is_ignored(name: Option<&[u8]>, line: Line<'_>) -> bool {
    match (name, line) {
        (Some(name), Line::CrawlDelay(Some(_))) => somewhere(name, begins_ignoring),
        _ => false,
    }
}

pub(crate) fn is_empty_group(last: Option<usize>, labeled: &LabeledLine<'_>) -> bool {
    match labeled.line {
        Line::UserAgent(_) => match last {
            Some(last) => last < labeled.number,
            None => true,
        },
        _ => false,
    }
}

fn begin_with_rules(labels: &[LabeledLine<'_>]) -> bool {
    let mut begun = false;
    for labeled in labels {
        match labeled.line {
            Line::UserAgent(_) if begun => return false,
            Line::Allow(_) | Line::Disallow(_) => return true,
            Line::CrawlDelay(_) => begun = true,
            _ => {}
        }
    }
    false
}

fn begin_with_name(name: &[u8], labels: &[LabeledLine<'_>]) -> bool {
    for labeled in labels {
        match labeled.line {
            Line::UserAgent(value) if value.eq_ignore_ascii_case(name) => return true,
            Line::Allow(_) | Line::Disallow(_) | Line::CrawlDelay(_) => return false,
            _ => {}
        }
    }
    false
}

pub(crate) fn name_star(labels: &[LabeledLine<'_>]) -> bool {
    for labeled in labels {
        match labeled.line {
            Line::UserAgent(value) if value == b"*".as_slice() => return true,
            Line::Allow(_) | Line::Disallow(_) => return false,
            _ => {}
        }
    }
    false
}

fn is_bare(line: Line<'_>) -> bool {
    match line {
        Line::Raw(body) => is_blank(body) && !has(b'#', body),
        _ => false,
    }
}

fn begin_bare(labels: &[LabeledLine<'_>]) -> bool {
    match labels {
        [labeled, ..] => is_bare(labeled.line),
        [] => false,
    }
}

fn reach_name(labels: &[LabeledLine<'_>]) -> bool {
    let (mut other, mut bare) = (false, false);
    for (index, labeled) in labels.iter().enumerate() {
        match labeled.line {
            Line::UserAgent(_) => return other || (bare && !begin_bare(&labels[index + 1..])),
            Line::Allow(_) | Line::Disallow(_) | Line::CrawlDelay(_) => return false,
            _ => {}
        }
        other |= has_text(labeled.line);
        bare |= is_bare(labeled.line);
    }
    false
}

pub(crate) fn are_joined(labels: &[LabeledLine<'_>]) -> bool {
    match labels {
        [labeled, after @ ..] => matches!(labeled.line, Line::UserAgent(_)) && reach_name(after),
        [] => false,
    }
}

/// `above` is the only name above the line. `from_here` are the lines from this one on.
pub(crate) fn is_split(
    preceding: Preceding,
    above: Option<&[u8]>,
    labeled: &LabeledLine<'_>,
    from_here: &[LabeledLine<'_>],
) -> bool {
    matches!(labeled.line, Line::UserAgent(_))
        && preceding == Preceding::Delay
        && begin_with_rules(from_here)
        && match above {
            Some(name) => !begin_with_name(name, from_here),
            None => true,
        }
}

fn is_other_delay(first: Option<u64>, labeled: &LabeledLine<'_>) -> bool
    ensures { result ≡ is_other_delay first (label_by_value labeled.now) }
{
    match (first, labeled.line) {
        (Some(first), Line::CrawlDelay(Some(delay))) => {
            labeled.membership != Membership::Ungrouped && first != delay
        }
        _ => false,
    }
}

/// The numbers of the delays that differ from the first one of their group.
pub(crate) fn later_delays(
    alloc: Global,
    labels: &[LabeledLine<'_>],
) -> Result<Vec<usize>, AllocError>
    ensures { IfOk result (λ found. found.items ≡ later_delays (map label_by_value labels.now)) }
{
    let mut found = Vec::new(alloc);
    let mut first = None;
    let mut rest = labels;
    while let [labeled, after @ ..] = rest {
        push_if(&mut found, is_other_delay(first, labeled), labeled.number)?;
        first = first_delay(first, labeled.line);
        rest = after;
    }
    Ok(found)
}

pub(crate) fn is_above_agents(labeled: &LabeledLine<'_>) -> bool
    ensures { result ≡ is_above_agents (label_by_value labeled.now) }
{
    match labeled.line {
        Line::Allow(_) | Line::Disallow(_) => labeled.membership == Membership::Ungrouped,
        _ => false,
    }
}
