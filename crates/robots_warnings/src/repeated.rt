//! Rules that repeat a rule above them in their group.
ghost use Rattle.std.specs.Prelude.{◌≡◌, ℕ, All, IfOk, List, false, true, map};
ghost use Rattle.texting_robots.specs.Callers.{LineValue, by_value, label_by_value};
ghost use Rattle.texting_robots.specs.{Group.is_agent};
ghost use Rattle.robots_warnings.specs.Internal.Values.{AddsLine, HasSeen};
ghost use Rattle.robots_warnings.specs.{File.lines_of, Repeated.IsRepeat};

use crate::checks::is_in_scope_of;
use crate::numbers::push_if;
use crate::values::{Value, Values};
use rfc9309::text::is_empty_disallow;
use std::alloc::{AllocError, Global};
use std::collections::HashSet;
use texting_robots::labels::{LabeledLine, Membership};
use texting_robots::parser::Line;

/// The rules of a group that were seen so far, by their values.
#[derive(Drop)]
pub(crate) struct Seen<'a> {
    pub(crate) allows: Values<'a>,
    pub(crate) disallows: Values<'a>,
}

pub(crate) fn nothing<'a>(alloc: Global) -> Seen<'a>
    ensures { (lines : List LineValue) (position : ℕ) → HasSeen result lines position }
{
    Seen {
        allows: HashSet::new(alloc),
        disallows: HashSet::new(alloc),
    }
}

/// The result is whether the line, if it begins no group, repeats a rule.
pub(crate) fn add_rule<'a>(seen: &mut Seen<'a>, line: Line<'a>) -> Result<bool, AllocError>
    ensures { is_agent (by_value line.entry) ≡ false
        → IfOk result (λ is. AddsLine seen.old seen.new (by_value line.entry) is) }
{
    match line {
        Line::Allow(bytes) => Ok(!seen.allows.insert(Value { bytes })?),
        Line::Disallow(bytes) => Ok(!seen.disallows.insert(Value { bytes })?),
        _ => Ok(false),
    }
}

/// The result is whether the line repeats a rule. A user-agent line drops all rules.
fn add_line<'a>(alloc: Global, seen: &mut Seen<'a>, line: Line<'a>) -> Result<bool, AllocError>
    ensures { IfOk result (λ is. AddsLine seen.old seen.new (by_value line.entry) is) }
{
    match line {
        Line::UserAgent(_) => {
            *seen = nothing(alloc);
            Ok(false)
        }
        _ => add_rule(seen, line),
    }
}

fn is_checked(all_groups: bool, membership: Membership) -> bool {
    is_in_scope_of(all_groups, membership) && membership != Membership::Ungrouped
}

/// An Allow of `/` that is written as such: an empty Disallow is read as one, but is no rule for others.
fn is_written_allow(labeled: &LabeledLine<'_>) -> bool {
    matches!(labeled.line, Line::Allow([b'/'])) && !is_empty_disallow(labeled.line, labeled.body)
}

/// Whether this repeats a rule and is checked, and isn't an Allow of `/` that repeats only empty Disallows.
fn is_reported(all_groups: bool, repeats: bool, has_allow: bool, labeled: &LabeledLine<'_>) -> bool
    ensures { result ≡ true → repeats ≡ true }
{
    repeats
        && is_checked(all_groups, labeled.membership)
        && (has_allow || !is_written_allow(labeled))
}

/// The numbers of rules that are checked and repeat a rule above them in their group.
pub(crate) fn repeated(
    alloc: Global,
    all_groups: bool,
    labels: &[LabeledLine<'_>],
) -> Result<Vec<usize>, AllocError>
    ensures { IfOk result
        (λ found. All (IsRepeat (lines_of (map label_by_value labels.now))) found.items) }
{
    let mut seen = nothing(alloc);
    let mut found = Vec::new(alloc);
    let mut has_allow = false;
    for (index, labeled) in labels.iter().enumerate() {
        let repeats = add_line(alloc, &mut seen, labeled.line)?;
        let is = is_reported(all_groups, repeats, has_allow, labeled);
        push_if(&mut found, is, index + 1)?;
        let is_group = matches!(labeled.line, Line::UserAgent(_));
        has_allow = is_written_allow(labeled) || has_allow && !is_group;
    }
    Ok(found)
}
