//! The findings of a page: the list at the top, and the rows below their lines.
use crate::page::elements::{Page, put_text};
use audit_core::audit::Audit;
use audit_core::counts::counts_of;
use audit_core::joined::{AlsoIn, joined, shared_lines};
use audit_core::request::Request;
use audit_core::together::{Message, Together};
use robots_warnings::warning::Warning;
use safe_output::level::Level;
use std::alloc::{AllocError, Global};
use std::fmt::Write;

const LISTED_WARNINGS: usize = 100;

fn level_front(level: Level) -> &'static str {
    match level {
        Level::Error => "Error",
        Level::Warning => "Warning",
        Level::Note => "Note",
    }
}

/// Writes a warning, which stands for all in these lines.
fn write_warning(page: &mut Page, together: Together<'_>, lines: &[usize], warning: &Warning<'_>) {
    let (level, name) = (level_front(warning.cause.level()), warning.cause.name());
    let (message, also) = (Message(warning, together), AlsoIn(lines, warning));
    put_text!(page, "{level}: {message}{also} [{name}]");
}

/// The warnings that have no row in the table of lines, which has so many rows.
fn without_row<'a>(
    alloc: Global,
    rows: usize,
    warnings: &[Warning<'a>],
) -> Result<Vec<Warning<'a>>, AllocError> {
    let mut found = Vec::new(alloc);
    for warning in warnings {
        match warning.line {
            Some(number) if number <= rows => {}
            _ => found.push(warning.copy())?,
        }
    }
    Ok(found)
}

fn write_place(page: &mut Page, rows: usize, line: Option<usize>) {
    let Some(number) = line else {
        return;
    };
    if number <= rows {
        page.line_link(number);
    } else {
        put_text!(page, "line {number}");
    }
    page.write_str(": ");
}

/// `all` are the warnings with which these may be written as one.
fn write_items(
    alloc: Global,
    page: &mut Page,
    rows: usize,
    together: Together<'_>,
    all: &[Warning<'_>],
    warnings: &[Warning<'_>],
) -> Result<(), AllocError> {
    for warning in warnings {
        let lines = shared_lines(alloc, warning, all)?;
        page.open_class("li", warning.cause.level().word());
        write_place(page, rows, warning.line);
        write_warning(page, together, &lines, warning);
        page.close();
    }
    Ok(())
}

fn write_count(page: &mut Page, level: Level, count: usize) {
    if count == 0 {
        return;
    }
    let (word, end) = (level.word(), if count > 1 { "s" } else { "" });
    page.open_class("b", word);
    put_text!(page, "{count} {word}{end}");
    page.close();
}

fn write_counts(page: &mut Page, warnings: &[Warning<'_>]) {
    if warnings.is_empty() {
        page.write_str("none");
        return;
    }
    let counts = counts_of(warnings);
    write_count(page, Level::Error, counts.errors);
    write_count(page, Level::Warning, counts.warnings);
    write_count(page, Level::Note, counts.notes);
}

/// Lists the first of these warnings, and of the others those without a row. `all` are the warnings that are
/// shown, and `rows` is how many rows the table of lines has.
fn write_findings(
    alloc: Global,
    page: &mut Page,
    rows: usize,
    together: Together<'_>,
    all: &[Warning<'_>],
) -> Result<(), AllocError> {
    let found = joined(alloc, all)?;
    let (listed, later) = found.split_at(LISTED_WARNINGS.min(found.len()));
    let others = without_row(alloc, rows, later)?;
    page.open("ul");
    write_items(alloc, page, rows, together, all, listed)?;
    write_items(alloc, page, rows, together, all, &others)?;
    page.close();
    let more = later.len().saturating_sub(others.len());
    if more > 0 {
        page.open("p");
        put_text!(page, "and {more} more, below their lines");
        page.close();
    }
    Ok(())
}

pub(crate) fn write_warning_entry(
    alloc: Global,
    page: &mut Page,
    request: &Request<'_>,
    audit: &Audit<'_>,
    together: Together<'_>,
    shown: &[Warning<'_>],
) -> Result<(), AllocError> {
    page.element("dt", "Findings");
    page.open("dd");
    write_counts(page, &audit.warnings);
    if let Some(agent) = request.agent {
        let others = request.for_others();
        put_text!(page, " (rules for crawlers other than {agent} {others})");
    }
    write_findings(alloc, page, audit.labels.len(), together, shown)?;
    page.close();
    Ok(())
}

pub(crate) fn write_warning_row(page: &mut Page, together: Together<'_>, warning: &Warning<'_>) {
    page.open_class("tr", warning.cause.level().word());
    page.open_with("td", &[("colspan", "4")]);
    write_warning(page, together, &[], warning);
    page.close();
    page.close();
}
