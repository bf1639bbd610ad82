//! The audit, or other findings, as one line of JSON.
ghost use Rattle.std.specs.Prelude.{IfOk, string_bytes};
ghost use Rattle.safe_output.specs.Text.{IsReport};

use crate::object::Object;
use audit_core::audit::{AgentAudit, Audit, Verdict, rejects_some};
use audit_core::findings::{Finding, sanitized, warnings_found};
use audit_core::group::{AtVendor, Group};
use audit_core::rows::{comment_of, field_text, membership_word};
use audit_core::sitemaps::sitemaps_of;
use audit_core::standard::Alike;
use audit_core::syntax::has_standard_verdicts;
use audit_core::texts::may_fetch;
use rfc9309::conformance::Conformance;
use safe_output::report::Report;
use serde_json::Value;
use std::alloc::{AllocError, Global};
use std::fmt;
use std::fmt::Write;
use texting_robots::labels::LabeledLine;
use texting_robots::parser::Line;
use texting_robots::robot::Decision;

/// A value with a JSON form.
pub(crate) trait Json {
    fn json(&self, alloc: Global) -> Result<Value, AllocError>;
}

pub(crate) fn list_json<T: Json>(alloc: Global, items: &[T]) -> Result<Value, AllocError> {
    let mut list = Vec::with_capacity(alloc, items.len())?;
    for item in items {
        list.push(item.json(alloc)?)?;
    }
    Ok(Value::Array(list))
}

fn sanitized_json(alloc: Global, bytes: &[u8]) -> Result<Value, AllocError> {
    Ok(Value::String(sanitized(alloc, bytes)?))
}

fn optional_json(alloc: Global, text: Option<&str>) -> Result<Value, AllocError> {
    match text {
        Some(text) => sanitized_json(alloc, text.as_bytes()),
        None => Ok(Value::Null),
    }
}

/// The bytes as a sanitized text, or null if there are none.
fn text_json(alloc: Global, bytes: &[u8]) -> Result<Value, AllocError> {
    if bytes.is_empty() {
        Ok(Value::Null)
    } else {
        sanitized_json(alloc, bytes)
    }
}

/// RFC 9309's decision; null if there is none.
fn decision_json(alloc: Global, decision: Option<Decision>) -> Result<Value, AllocError> {
    let Some(decision) = decision else {
        return Ok(Value::Null);
    };
    let object = Object::new(alloc)
        .with("allowed", Ok(Value::Bool(decision.allowed)))?
        .with("line", Ok(Value::from(decision.line)))?;
    Ok(object.value())
}

impl<'a> Json for Verdict<'a> {
    fn json(&self, alloc: Global) -> Result<Value, AllocError> {
        let object = Object::new(alloc)
            .with("allowed", Ok(Value::Bool(self.decision.allowed)))?
            .with("line", Ok(Value::from(self.decision.line)))?
            .with("rfc_9309", decision_json(alloc, self.standard))?
            .with("url", sanitized_json(alloc, self.url.as_bytes()))?;
        Ok(object.value())
    }
}

fn group_word(group: Group) -> &'static str {
    match group {
        Group::Named => "named",
        Group::Star => "star",
        Group::Nobody => "none",
        Group::Everyone => "everyone",
    }
}

fn vendor_word(vendor: AtVendor) -> &'static str {
    match vendor {
        AtVendor::Same => "same",
        AtVendor::NoGroup => "none",
        AtVendor::OtherGroup => "other",
    }
}

impl Json for &'static str {
    fn json(&self, alloc: Global) -> Result<Value, AllocError> {
        Value::try_from_str(alloc, self)
    }
}

fn group_json(alloc: Global, audit: &AgentAudit<'_>) -> Result<Value, AllocError> {
    let object = Object::new(alloc)
        .with("ignored_by", list_json(alloc, &audit.ignored_by))?
        .text("kind", group_word(audit.group))?
        .with("line", Ok(Value::from(audit.group_line)))?;
    Ok(object.value())
}

/// What RFC 9309 says of the file for the crawler. User-agent lines are the same for it.
fn standard_json(alloc: Global, audit: &AgentAudit<'_>) -> Result<Value, AllocError> {
    let standard = &audit.standard;
    let fetched = may_fetch(standard.rejected, standard.reach);
    let object = Object::new(alloc)
        .with("group_line", Ok(Value::from(audit.group_line)))?
        .with("may_fetch", optional_json(alloc, fetched))?
        .with("rejected_line", Ok(Value::from(standard.rejected)))?
        .with("rules", Ok(Value::from(standard.rules)))?;
    Ok(object.value())
}

impl<'a> Json for AgentAudit<'a> {
    fn json(&self, alloc: Global) -> Result<Value, AllocError> {
        let fetched = may_fetch(self.rejected, self.reach);
        let object = Object::new(alloc)
            .with("agent", sanitized_json(alloc, self.agent.as_bytes()))?
            .with("delay_microseconds", Ok(Value::from(self.delay)))?
            .with("group", group_json(alloc, self))?
            .with("may_fetch", optional_json(alloc, fetched))?
            .with("rejected_line", Ok(Value::from(self.rejected)))?
            .with("rfc_9309", standard_json(alloc, self))?
            .with("rules", Ok(Value::from(self.rules)))?
            .text("vendor_group", vendor_word(self.vendor))?
            .with("verdicts", list_json(alloc, &self.verdicts))?;
        Ok(object.value())
    }
}

/// A delay in microseconds, or the bytes of another value.
fn value_json(alloc: Global, line: Line<'_>) -> Result<Value, AllocError> {
    match line {
        Line::CrawlDelay(delay) => Ok(Value::from(delay)),
        Line::UserAgent(value)
        | Line::Allow(value)
        | Line::Disallow(value)
        | Line::Sitemap(value)
        | Line::Raw(value) => text_json(alloc, value),
    }
}

impl<'a> Json for LabeledLine<'a> {
    fn json(&self, alloc: Global) -> Result<Value, AllocError> {
        let comment = comment_of(self.line, self.body);
        let object = Object::new(alloc)
            .with("comment", text_json(alloc, comment))?
            .text("field", field_text(self.line))?
            .with("line", Ok(Value::from(self.number)))?
            .text("membership", membership_word(self.membership))?
            .with("value", value_json(alloc, self.line))?;
        Ok(object.value())
    }
}

impl<'a> Json for &'a [u8] {
    fn json(&self, alloc: Global) -> Result<Value, AllocError> {
        sanitized_json(alloc, self)
    }
}

impl Json for Finding {
    fn json(&self, alloc: Global) -> Result<Value, AllocError> {
        let object = Object::new(alloc)
            .with("agent", optional_json(alloc, self.agent.as_deref()))?
            .text("level", self.level.word())?
            .with("line", Ok(Value::from(self.line)))?
            .text("name", self.name)?
            .text("text", &self.message)?
            .with("url", optional_json(alloc, self.url.as_deref()))?;
        Ok(object.value())
    }
}

fn rows_json(
    alloc: Global,
    has_rows: bool,
    labels: &[LabeledLine<'_>],
) -> Result<Value, AllocError> {
    if has_rows {
        list_json(alloc, labels)
    } else {
        Ok(Value::Null)
    }
}

/// The first line that isn't in the standard's grammar; or else, of the first crawler for which verdicts
/// aren't the standard's, the line because of which.
fn other_line(audit: &Audit<'_>) -> Option<usize> {
    if let Conformance::OtherLine(line) = audit.syntax {
        return Some(line);
    }
    for agent in &audit.agents {
        let line = match agent.standard.alike {
            Alike::No(line) => Some(line),
            Alike::Yes | Alike::Unknown => agent.rejected,
        };
        if line.is_some() && audit.syntax.has_syntax() {
            return line;
        }
    }
    None
}

/// `found` are the warnings.
fn audit_json(
    alloc: Global,
    has_rows: bool,
    audit: &Audit<'_>,
    found: &[Finding],
) -> Result<Value, AllocError> {
    let sitemaps = sitemaps_of(alloc, &audit.labels)?;
    let has_verdicts = has_standard_verdicts(audit) && !rejects_some(&audit.agents);
    let object = Object::new(alloc)
        .with("agents", list_json(alloc, &audit.agents))?
        .with("findings", list_json(alloc, found))?
        .with(
            "has_rfc_9309_syntax",
            Ok(Value::Bool(audit.syntax.has_syntax())),
        )?
        .with("has_rfc_9309_verdicts", Ok(Value::Bool(has_verdicts)))?
        .with("lines", rows_json(alloc, has_rows, &audit.labels))?
        .with("rfc_9309_line", Ok(Value::from(other_line(audit))))?
        .with("sitemaps", list_json(alloc, &sitemaps))?;
    Ok(object.value())
}

/// The start of a report, since the other members of an object are in the order of their names.
const FORMAT: &str = "{\"format\":1,";

/// An object as one line with this start, after which its first member comes.
pub(crate) fn json_line(alloc: Global, start: &str, object: &Value) -> Result<String, fmt::Error>
    ensures { IfOk result (λ text. IsReport (string_bytes text)) }
{
    let text = object.to_string(alloc)?;
    let mut out = Report::new(alloc);
    out.write_str(start)?;
    out.write_str(text.strip_prefix("{").unwrap_or(&text))?;
    out.end_line()?;
    Ok(out.into_string())
}

/// The audit as one line of JSON.
pub fn json_text(alloc: Global, has_rows: bool, audit: &Audit<'_>) -> Result<String, fmt::Error>
    ensures { IfOk result (λ text. IsReport (string_bytes text)) }
{
    let found = warnings_found(alloc, &audit.warnings)?;
    let object = audit_json(alloc, has_rows, audit, &found)?;
    json_line(alloc, FORMAT, &object)
}

/// The names of the files of a report.
#[derive(Clone, Copy)]
pub struct Names<'a> {
    pub file: &'a str,
    pub expectations: Option<&'a str>,
    pub old: Option<&'a str>,
}

impl<'a> Names<'a> {
    /// Of the file whose lines the findings have.
    pub fn of_lines(self) -> &'a str {
        self.expectations.unwrap_or(self.file)
    }
}

fn findings_json(
    alloc: Global,
    names: Names<'_>,
    findings: &[Finding],
) -> Result<Value, AllocError> {
    let object = Object::new(alloc)
        .with(
            "expectations_file",
            optional_json(alloc, names.expectations),
        )?
        .with("file", sanitized_json(alloc, names.file.as_bytes()))?
        .with("findings", list_json(alloc, findings))?
        .with("old", optional_json(alloc, names.old))?;
    Ok(object.value())
}

/// A report on these files as one line.
pub fn findings_text(
    alloc: Global,
    names: Names<'_>,
    findings: &[Finding],
) -> Result<String, fmt::Error>
    ensures { IfOk result (λ text. IsReport (string_bytes text)) }
{
    json_line(alloc, FORMAT, &findings_json(alloc, names, findings)?)
}
