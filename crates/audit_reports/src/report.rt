//! The audit as lines of text, and the warnings.
use crate::crawlers::{Otherwise, is_fetch_told, write_crawlers, write_wrong};
use crate::denied::Totals;
use crate::lines::Lines;
use crate::listed::{More, listing_of};
use crate::verdicts::write_verdicts;
use audit_core::audit::{AgentAudit, Audit};
use audit_core::counts::counts_of;
use audit_core::group::Group;
use audit_core::joined::{AlsoIn, in_order, shared_lines};
use audit_core::request::Request;
use audit_core::rows::write_rows;
use audit_core::syntax::{OtherSyntax, ReadAlike, is_reading_told, other_readers};
use audit_core::texts::{Applied, Delayed, Elsewhere, Fetched};
use audit_core::together::{Message, Together, keep_shown, needless_lines};
use rfc9309::conformance::Conformance;
use robots_warnings::warning::Warning;
use safe_output::level::Level;
use safe_output::report::Report;
use std::alloc::Global;
use std::fmt;
use std::fmt::Write;

fn write_agent(out: &mut Lines<'_>, is_quiet: bool, by: &str, audit: &AgentAudit<'_>) {
    let (applied, elsewhere, delayed) = (Applied(audit), Elsewhere(audit), Delayed(audit));
    write!(out, "group: {applied}{elsewhere}");
    if audit.group != Group::Star {
        write_wrong(out, audit.agent);
    }
    out.end_line();
    out.line(format_args!("delay: {delayed}"));
    if !is_quiet && is_fetch_told(audit) {
        let (fetched, otherwise) = (Fetched(audit.reach, &audit.allows), Otherwise(by, audit));
        out.line(format_args!("may fetch: {fetched}{otherwise}"));
    }
    out.rejected(audit);
    write_verdicts(out, by, None, audit);
}

fn write_agents(out: &mut Lines<'_>, request: &Request<'_>, audit: &Audit<'_>) {
    let by = other_readers(&audit.labels);
    if request.agent.is_none() {
        write_crawlers(out, request.is_denied_only, by, audit);
        return;
    }
    for agent in &audit.agents {
        write_agent(out, !request.has_rows(), by, agent);
    }
}

/// Writes which line isn't in the standard's grammar, and whether the standard reads the file alike.
fn write_standard(out: &mut Lines<'_>, audit: &Audit<'_>) {
    if let Conformance::OtherLine(line) = audit.syntax {
        out.line(OtherSyntax(line));
    }
    if is_reading_told(audit) {
        out.line(ReadAlike(&audit.agents));
    }
}

/// Writes the requested report on an audit.
pub fn write_report(out: &mut Report, request: &Request<'_>, audit: &Audit<'_>) -> fmt::Result {
    if request.has_rows() {
        write_rows(out, &audit.labels)?;
    }
    let mut lines = Lines {
        report: out,
        has_failed: false,
    };
    write_agents(&mut lines, request, audit);
    write_standard(&mut lines, audit);
    lines.finish()
}

/// Writes the line with the numbers of allowed and denied URLs.
pub fn write_totals(out: &mut Report, totals: Totals) -> fmt::Result {
    let (allowed, denied) = (totals.allowed, totals.denied);
    write!(out, "{allowed} allowed, {denied} denied")?;
    out.end_line()
}

/// Begins a line as compilers do, such as `robots.txt:5: warning: `.
fn write_front(out: &mut Lines<'_>, file: &str, line: Option<usize>, level: Level) {
    match line {
        Some(line) => write!(out, "{file}:{line}: "),
        None => write!(out, "{file}: "),
    }
    out.level(level);
    write!(out, ": ");
}

/// `lines` are those of all warnings that are written as this one.
fn write_warning(
    out: &mut Lines<'_>,
    file: &str,
    together: Together<'_>,
    lines: &[usize],
    warning: &Warning<'_>,
) {
    write_front(out, file, warning.line, warning.cause.level());
    let (message, also) = (Message(warning, together), AlsoIn(lines, warning));
    let name = warning.cause.name();
    out.line(format_args!("{message}{also} [{name}]"));
}

fn write_more(out: &mut Lines<'_>, file: &str, more: &More) {
    let (level, name, number) = (more.cause.level().word(), more.cause.name(), more.number);
    out.line(format_args!("{file}: {level}: and {number} more [{name}]"));
}

/// How many warnings of each level there are, and in how many messages; and for which crawler alone rules are
/// checked.
fn write_counts(
    out: &mut Lines<'_>,
    request: &Request<'_>,
    warnings: &[Warning<'_>],
    messages: usize,
) {
    let (file, counts) = (request.shown_name(), counts_of(warnings));
    write!(out, "{file}: {counts}");
    if messages < warnings.len() {
        let end = if messages > 1 { "s" } else { "" };
        write!(out, " in {messages} message{end}");
    }
    if let Some(agent) = request.agent {
        let others = request.for_others();
        write!(out, " (rules for crawlers other than {agent} {others})");
    }
    out.end_line();
}

/// Writes the warnings that are listed, how many more there are, and how many there are of each level; and
/// for which crawler alone rules are checked.
pub fn write_warnings(
    alloc: Global,
    out: &mut Report,
    request: &Request<'_>,
    warnings: &[Warning<'_>],
) -> fmt::Result {
    if warnings.is_empty() {
        return Ok(());
    }
    let file = request.shown_name();
    let mut all = in_order(alloc, warnings)?;
    let ranges = needless_lines(alloc, &all)?;
    let together = Together {
        ranges: &ranges,
        is_one: true,
    };
    keep_shown(together, &mut all);
    let found = listing_of(alloc, &all)?;
    let mut lines = Lines {
        report: out,
        has_failed: false,
    };
    for warning in &found.warnings {
        let shared = shared_lines(alloc, warning, &all)?;
        write_warning(&mut lines, file, together, &shared, warning);
    }
    let mut messages = found.warnings.len();
    for more in &found.more {
        write_more(&mut lines, file, more);
        messages = messages.saturating_add(more.number);
    }
    write_counts(&mut lines, request, warnings, messages);
    lines.finish()
}
