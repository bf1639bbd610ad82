//! The rows of a report: one for each line of the file.

use itoa::Buffer;
use rfc9309::text::is_empty_disallow;
use robots_warnings::contents::split_content;
use robots_warnings::file::is_blank;
use safe_output::delay::Delay;
use safe_output::report::{Report, Untrusted};
use std::fmt;
use std::fmt::Write;
use texting_robots::labels::{LabeledLine, Membership};
use texting_robots::parser::Line;

/// `+` in the crawler's group, `-` in another, a space in none.
fn mark_of(membership: Membership) -> &'static str {
    match membership {
        Membership::Own => "+",
        Membership::Other => "-",
        Membership::Ungrouped => " ",
    }
}

/// The name of the line's directive, or `empty` or `ignored`.
pub fn field_text(line: Line<'_>) -> &'static str {
    match line {
        Line::UserAgent(_) => "user-agent",
        Line::Allow(_) => "allow",
        Line::Disallow(_) => "disallow",
        Line::CrawlDelay(_) => "crawl-delay",
        Line::Sitemap(_) => "sitemap",
        Line::Raw(body) if is_blank(body) => "empty",
        Line::Raw(_) => "ignored",
    }
}

fn has_value(line: Line<'_>) -> bool {
    match line {
        Line::UserAgent(value)
        | Line::Allow(value)
        | Line::Disallow(value)
        | Line::Sitemap(value)
        | Line::Raw(value) => !value.is_empty(),
        Line::CrawlDelay(delay) => delay.is_some(),
    }
}

/// The comment of a directive; other lines are shown with their comments, so they have none here.
pub fn comment_of<'a>(line: Line<'_>, body: &'a [u8]) -> &'a [u8] {
    match line {
        Line::Raw(_) => b"",
        _ => split_content(body).1,
    }
}

/// [`field_text`] for people: what is read as an Allow may be an empty Disallow.
pub fn shown_field(labeled: &LabeledLine<'_>) -> &'static str {
    if is_empty_disallow(labeled.line, labeled.body) {
        "disallow"
    } else {
        field_text(labeled.line)
    }
}

/// What is shown of a line with this content: a delay in seconds, or another value.
#[derive(Clone, Copy)]
pub struct Shown<'a>(pub Line<'a>, pub &'a [u8]);

impl<'a> fmt::Display for Shown<'a> {
    fn fmt<W: fmt::Write>(&self, f: &mut fmt::Formatter<W>) -> fmt::Result {
        match self.0 {
            Line::Allow(_) if is_empty_disallow(self.0, self.1) => {
                f.write_str("(empty: an Allow of / here)")
            }
            Line::UserAgent(value)
            | Line::Allow(value)
            | Line::Disallow(value)
            | Line::Sitemap(value)
            | Line::Raw(value) => {
                let value = Untrusted(value);
                write!(f, "{value}")
            }
            Line::CrawlDelay(Some(micros)) => {
                let delay = Delay(micros);
                write!(f, "{delay}")
            }
            Line::CrawlDelay(None) => Ok(()),
        }
    }
}

fn write_row(out: &mut Report, width: usize, labeled: &LabeledLine<'_>) -> fmt::Result {
    let (number, mark) = (labeled.number, mark_of(labeled.membership));
    write!(out, "{number:>width$} {mark} ")?;
    let field = shown_field(labeled);
    if has_value(labeled.line) {
        let value = Shown(labeled.line, labeled.body);
        write!(out, "{field:<12}{value}")?;
    } else {
        out.write_str(field)?;
    }
    let comment = comment_of(labeled.line, labeled.body);
    if !comment.is_empty() {
        let comment = Untrusted(comment);
        write!(out, "  {comment}")?;
    }
    out.end_line()
}

/// Writes a row for each of these lines.
pub fn write_rows(out: &mut Report, labels: &[LabeledLine<'_>]) -> fmt::Result {
    let width = digits(labels.len());
    for labeled in labels {
        write_row(out, width, labeled)?;
    }
    Ok(())
}

fn digits(number: usize) -> usize {
    Buffer::new().format(number).len()
}

/// The name of a membership in the JSON.
pub fn membership_word(membership: Membership) -> &'static str {
    match membership {
        Membership::Own => "own",
        Membership::Other => "other",
        Membership::Ungrouped => "ungrouped",
    }
}
