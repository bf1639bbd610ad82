//! Rules with percent escapes that a spelling doesn't have, and that their group lacks in that spelling.
ghost use Rattle.std.specs.{Prelude.◌≡◌, Prelude.true, Char.is_ascii_hexdigit};

use crate::checks::is_in_scope_of;
use crate::numbers::push_if;
use crate::repeated::{Seen, add_rule, nothing};
use crate::rules::{begins_delimiter, begins_odd_escape, is_delimiter};
use crate::values::{Value, Values};
use safe_output::bytes::{hex_value, needs_no_escape, somewhere};
use std::alloc::{AllocError, Global};
use texting_robots::labels::LabeledLine;
use texting_robots::parser::Line;

/// How bytes are written in a rule.
#[derive(Clone, Copy)]
pub enum Spelling {
    /// As RFC 9309 compares rules: only bytes that need no escape have none.
    Standard,
    /// Delimiters have no escape.
    Plain,
}

fn is_unescaped(spelling: Spelling, byte: u8) -> bool {
    match spelling {
        Spelling::Standard => needs_no_escape(byte),
        Spelling::Plain => is_delimiter(byte),
    }
}

fn has_other_escape(spelling: Spelling, value: &[u8]) -> bool {
    match spelling {
        Spelling::Standard => somewhere(value, begins_odd_escape),
        Spelling::Plain => somewhere(value, begins_delimiter),
    }
}

fn push_escape(text: &mut Vec<u8>, spelling: Spelling, high: u8, low: u8) -> Result<(), AllocError>
    requires high { is_ascii_hexdigit high ≡ true }
    requires low { is_ascii_hexdigit low ≡ true }
{
    let byte = hex_value(high) * 16 + hex_value(low);
    if is_unescaped(spelling, byte) {
        text.push(byte)?;
        return Ok(());
    }
    text.push(b'%')?;
    text.push(high.to_ascii_uppercase())?;
    text.push(low.to_ascii_uppercase())?;
    Ok(())
}

/// The value with each percent escape in this spelling.
pub fn spelled(alloc: Global, spelling: Spelling, value: &[u8]) -> Result<Vec<u8>, AllocError> {
    let mut text = Vec::new(alloc);
    let mut rest = value;
    while let [first, next @ ..] = rest {
        match rest {
            [b'%', high, low, after @ ..] if high.is_ascii_hexdigit() && low.is_ascii_hexdigit() =>
                {
                    push_escape(&mut text, spelling, *high, *low)?;
                    rest = after;
                }
            _ => {
                text.push(*first)?;
                rest = next;
            }
        }
    }
    Ok(text)
}

fn seen_in<'a>(alloc: Global, group: &[LabeledLine<'a>]) -> Result<Seen<'a>, AllocError> {
    let mut seen = nothing(alloc);
    for labeled in group {
        add_rule(&mut seen, labeled.line)?;
    }
    Ok(seen)
}

fn has_value(values: &Values<'_>, bytes: &[u8]) -> bool {
    values.contains(&Value { bytes })
}

fn is_unpaired(
    alloc: Global,
    spelling: Spelling,
    values: &Values<'_>,
    value: &[u8],
) -> Result<bool, AllocError> {
    if !has_other_escape(spelling, value) {
        return Ok(false);
    }
    let other = spelled(alloc, spelling, value)?;
    Ok(!has_value(values, &other))
}

fn is_unpaired_at(
    alloc: Global,
    spelling: Spelling,
    all_groups: bool,
    seen: &Seen<'_>,
    labeled: &LabeledLine<'_>,
) -> Result<bool, AllocError> {
    if !is_in_scope_of(all_groups, labeled.membership) {
        return Ok(false);
    }
    match labeled.line {
        Line::Allow(value) => is_unpaired(alloc, spelling, &seen.allows, value),
        Line::Disallow(value) => is_unpaired(alloc, spelling, &seen.disallows, value),
        _ => Ok(false),
    }
}

fn has_other_line(spelling: Spelling, labeled: &LabeledLine<'_>) -> bool {
    match labeled.line {
        Line::Allow(value) | Line::Disallow(value) => has_other_escape(spelling, value),
        _ => false,
    }
}

fn add_unpaired(
    alloc: Global,
    found: &mut Vec<usize>,
    spelling: Spelling,
    all_groups: bool,
    group: &[LabeledLine<'_>],
) -> Result<(), AllocError> {
    if !group
        .iter()
        .any(|labeled| has_other_line(spelling, labeled))
    {
        return Ok(());
    }
    let seen = seen_in(alloc, group)?;
    for labeled in group {
        let is = is_unpaired_at(alloc, spelling, all_groups, &seen, labeled)?;
        push_if(found, is, labeled.number)?;
    }
    Ok(())
}

fn is_agent_line(labeled: &LabeledLine<'_>) -> bool {
    matches!(labeled.line, Line::UserAgent(_))
}

fn groups<'a, 'b>(
    alloc: Global,
    labels: &'a [LabeledLine<'b>],
) -> Result<Vec<&'a [LabeledLine<'b>]>, AllocError> {
    labels.split(is_agent_line).collect(alloc)
}

pub(crate) fn unpaired(
    alloc: Global,
    spelling: Spelling,
    all_groups: bool,
    labels: &[LabeledLine<'_>],
) -> Result<Vec<usize>, AllocError> {
    let mut found = Vec::new(alloc);
    for group in &groups(alloc, labels)? {
        add_unpaired(alloc, &mut found, spelling, all_groups, group)?;
    }
    Ok(found)
}
