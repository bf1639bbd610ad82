//! What an audit found, as one list, for formats that don't distinguish verdicts and warnings.
ghost use Rattle.std.specs.Prelude.{◌<◌, OnOk, length};

use crate::audit::{AgentAudit, Audit, Verdict};
use crate::syntax::other_readers;
use crate::texts::{other_decision, other_reader, rejection_of};
use crate::together::{Message, Together, is_shown, needless_lines};
use robots_warnings::warning::Warning;
use safe_output::level::Level;
use safe_output::report::Line;
use safe_output::sanitize::push_sanitized;
use std::alloc::{AllocError, Global};
use std::fmt;
use std::fmt::Write;

/// A denied URL, a rejected file or a warning.
#[derive(Drop)]
pub struct Finding {
    pub level: Level,
    pub line: Option<usize>,
    pub name: &'static str,
    pub message: String,
    pub agent: Option<String>,
    pub url: Option<String>,
}

pub type Findings = Vec<Finding>;

/// What a finding is about: a line, a crawler, and a URL or a sitemap.
#[derive(Clone, Copy)]
pub struct Subject<'a>(pub Option<usize>, pub Option<&'a str>, pub Option<&'a [u8]>);

/// A finding's message, for `add`.
pub fn message<M: fmt::Display + Drop>(alloc: Global, text: M) -> Result<Line, fmt::Error> {
    let mut message = Line::new(alloc);
    write!(message, "{text}")?;
    Ok(message)
}

pub fn sanitized(alloc: Global, bytes: &[u8]) -> Result<String, AllocError> {
    let mut text = String::new(alloc);
    push_sanitized(&mut text, bytes)?;
    Ok(text)
}

/// In the message, the start of a command of a workflow is escaped, too. Its error is returned.
pub fn add(
    alloc: Global,
    found: &mut Findings,
    level: Level,
    subject: Subject<'_>,
    name: &'static str,
    message: Result<Line, fmt::Error>,
) -> fmt::Result
    ensures { OnOk result (0 < length found.new.items) }
{
    let Subject(line, agent, url) = subject;
    let finding = Finding {
        level,
        line,
        name,
        message: sanitized(alloc, message?.as_str().as_bytes())?,
        agent: agent
            .map(|name| sanitized(alloc, name.as_bytes()))
            .transpose()?,
        url: url.map(|url| sanitized(alloc, url)).transpose()?,
    };
    match found.push(finding) {
        Ok(()) => Ok(()),
        Err(_) => Err(fmt::Error),
    }
}

/// Adds the URL if one of the readings denies it; the other one is that of `by`.
fn add_verdict(
    alloc: Global,
    found: &mut Findings,
    name: &str,
    by: &str,
    verdict: &Verdict<'_>,
) -> fmt::Result {
    let (url, here) = (verdict.url, verdict.decision);
    let (line, front, reader, end) = match other_decision(verdict) {
        None if here.allowed => return Ok(()),
        None => (here.line, "", "", ""),
        Some(other) if other.allowed => (here.line, ", but may by ", by, ""),
        Some(other) => (other.line, " by ", by, ", but may here"),
    };
    let message = message(
        alloc,
        format_args!("{name} may not fetch {url}{front}{reader}{end}"),
    );
    let subject = Subject(line, Some(name), Some(url.as_bytes()));
    add(alloc, found, Level::Error, subject, "denied", message)
}

/// Why the file is rejected for the crawler, and the denied URLs.
fn add_agent(alloc: Global, found: &mut Findings, by: &str, audit: &AgentAudit<'_>) -> fmt::Result {
    let (name, by) = (audit.agent, other_reader(by, audit));
    if let Some(rejected) = rejection_of(audit) {
        let subject = Subject(Some(rejected.line), Some(name), None);
        let message = message(alloc, rejected);
        add(alloc, found, Level::Error, subject, "rejected", message)?;
    }
    for verdict in &audit.verdicts {
        add_verdict(alloc, found, name, by, verdict)?;
    }
    Ok(())
}

fn add_warning(
    alloc: Global,
    found: &mut Findings,
    together: Together<'_>,
    warning: &Warning<'_>,
) -> fmt::Result {
    let (level, name) = (warning.cause.level(), warning.cause.name());
    let (line, about) = (warning.line, warning.about);
    let subject = if warning.kind() == "crawler" {
        Subject(line, about, None)
    } else {
        Subject(line, None, about.map(|url| url.as_bytes()))
    };
    let message = message(alloc, Message(warning, together));
    add(alloc, found, level, subject, name, message)
}

/// The errors among the warnings, or the other warnings.
fn add_warnings(
    alloc: Global,
    found: &mut Findings,
    errors: bool,
    together: Together<'_>,
    warnings: &[Warning<'_>],
) -> fmt::Result {
    for warning in warnings {
        if warning.cause.level().reaches(Level::Error) == errors && is_shown(together, warning) {
            add_warning(alloc, found, together, warning)?;
        }
    }
    Ok(())
}

/// The errors among the warnings; for each crawler why the file is rejected or which URLs are denied; and
/// then the other warnings. If `is_one`, one finding stands for all needless rules; else the message about
/// each names them all.
pub fn findings_of(alloc: Global, audit: &Audit<'_>, is_one: bool) -> Result<Findings, fmt::Error> {
    let ranges = needless_lines(alloc, &audit.warnings)?;
    let together = Together {
        ranges: &ranges,
        is_one,
    };
    let mut found = Vec::new(alloc);
    add_warnings(alloc, &mut found, true, together, &audit.warnings)?;
    let by = other_readers(&audit.labels);
    for agent in &audit.agents {
        add_agent(alloc, &mut found, by, agent)?;
    }
    add_warnings(alloc, &mut found, false, together, &audit.warnings)?;
    Ok(found)
}

/// All warnings, in order.
pub fn warnings_found(alloc: Global, warnings: &[Warning<'_>]) -> Result<Findings, fmt::Error> {
    let mut found = Vec::new(alloc);
    let together = Together {
        ranges: &[],
        is_one: false,
    };
    for warning in warnings {
        add_warning(alloc, &mut found, together, warning)?;
    }
    Ok(found)
}
