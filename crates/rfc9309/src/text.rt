//! The text that stands for a file in RFC 9309's reading.
ghost use Rattle.std.specs.Prelude.{◌≡◌, ◌++◌, ◌||◌, IfOk, OnOk, take};
ghost use Rattle.texting_robots.specs.{Group.is_agent, Line.by_value};
ghost use Rattle.rfc9309.specs.StandardReading.{line_for, stated_in, standard_text, written_pattern};
ghost use Rattle.rfc9309.specs.EmptyDisallow.{is_empty_disallow};

use crate::normal::push_pattern;
use safe_output::bytes::{first, trim_blanks_start};
use std::alloc::{AllocError, Global};
use texting_robots::parser::{Line, file_bodies, file_lines};

/// Whether this is an empty Disallow.
pub fn is_empty_disallow(line: Line<'_>, body: &[u8]) -> bool
    ensures { result ≡ is_empty_disallow (by_value line.entry) body.now }
{
    match line {
        Line::Allow(_) => matches!(trim_blanks_start(body), [b'd' | b'D', ..]),
        _ => false,
    }
}

#[tactic(auto, using(std::proofs::Common::append_assoc))]
fn push_field(text: &mut Vec<u8>, field: &[u8], value: &[u8]) -> Result<(), AllocError>
    ensures { OnOk result (text.new.items ≡ text.old.items ++ (field.now ++ value.now)) }
{
    text.extend_from_slice(field)?;
    text.extend_from_slice(value)
}

#[tactic(auto, using(std::proofs::Common::append_assoc))]
fn push_rule(text: &mut Vec<u8>, field: &[u8], path: &[u8]) -> Result<(), AllocError>
    ensures { OnOk result (text.new.items ≡ text.old.items ++ (field.now ++ written_pattern path.now)) }
{
    if path.is_empty() {
        return push_field(text, field, b"$/");
    }
    text.extend_from_slice(field)?;
    push_pattern(text, path)
}

/// Appends what is written for a line from the first user-agent line on.
fn push_entry(text: &mut Vec<u8>, line: Line<'_>, body: &[u8]) -> Result<(), AllocError>
    ensures { OnOk result (text.new.items
        ≡ text.old.items ++ line_for (stated_in (by_value line.entry) body.now)) }
{
    match line {
        Line::UserAgent(token) => push_field(text, b"User-agent: ", token),
        Line::Allow(_) if is_empty_disallow(line, body) => push_field(text, b"Disallow: ", b"$/"),
        Line::Allow(path) => push_rule(text, b"Allow: ", path),
        Line::Disallow(path) => push_rule(text, b"Disallow: ", path),
        Line::Sitemap(_) | Line::CrawlDelay(_) | Line::Raw(_) => Ok(()),
    }
}

/// Whether the line is a user-agent line or below one.
fn is_below(was_below: bool, line: Line<'_>) -> bool
    ensures { result ≡ (was_below || is_agent (by_value line.entry)) }
{
    was_below || matches!(line, Line::UserAgent(_))
}

/// The text that stands for the first `limit` bytes of a file, whatever is in it, in RFC 9309's reading: it
/// has one line for each line of the file. Rules are in normal form, and delays and rules above the first
/// user-agent line are left out. Read all of it, since it may be longer than the file.
pub fn standard_text(alloc: Global, file: &[u8], limit: usize) -> Result<Vec<u8>, AllocError>
    ensures { IfOk result (λ text. text.items ≡ standard_text (take limit file.now)) }
{
    let file = first(limit, file);
    let mut text = Vec::new(alloc);
    let mut lines = file_lines(file);
    let mut below = false;
    for body in file_bodies(file) {
        let Some(line) = lines.next() else {
            unreachable!()
        };
        below = is_below(below, line);
        if below {
            push_entry(&mut text, line, body)?;
        }
        text.push(b'\n')?;
    }
    Ok(text)
}
