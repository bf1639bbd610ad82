//! Findings as a log of SARIF 2.1.0, in one line.
ghost use Rattle.std.specs.Prelude.{◌≡◌, ◌++◌, IfOk, OnOk, encode_utf8_all, flat_map, string_bytes};
ghost use Rattle.std.specs.Str.{chars};
ghost use Rattle.safe_output.specs.Text.{IsReport};
ghost use Rattle.audit_reports.specs.Sarif.{IsMessage, literal_char};

use crate::json::{Json, json_line, list_json};
use crate::object::{Object, array_of_one, with_one};
use audit_core::audit::Audit;
use audit_core::findings::{Finding, findings_of};
use audit_core::version::VERSION;
use percent_encoding::{AsciiSet, NON_ALPHANUMERIC, ascii_set, percent_encode};
use robots_warnings::table::{Cause, causes};
use safe_output::level::Level;
use serde_json::Value;
use std::alloc::{AllocError, Global};
use std::fmt;

const IN_PATHS: AsciiSet = ascii_set!(
    NON_ALPHANUMERIC
        .remove(b'-')
        .remove(b'.')
        .remove(b'_')
        .remove(b'~')
        .remove(b'/')
);

/// What findings with this name are about.
#[derive(Drop)]
struct SarifRule {
    name: &'static str,
    level: Level,
    text: &'static str,
    example: &'static str,
}

/// The file as a URI reference. At its start a single slash stands for several, which would precede the name
/// of a host.
fn uri_of(alloc: Global, file: &str) -> Result<String, AllocError> {
    let path = file.trim_start_matches('/');
    let mut uri = String::new(alloc);
    if path.len() < file.len() {
        uri.push('/')?;
    }
    percent_encode(path.as_bytes(), IN_PATHS).append_to(&mut uri)?;
    Ok(uri)
}

fn push_literal_char(message: &mut String, char: char) -> Result<(), AllocError>
    ensures { OnOk result (string_bytes message.new
        ≡ string_bytes message.old ++ encode_utf8_all (literal_char char)) }
{
    match char {
        '{' | '}' => {
            message.push(char)?;
            message.push(char)
        }
        '[' | ']' | '\\' => {
            message.push('\\')?;
            message.push(char)
        }
        _ => message.push(char),
    }
}

fn literal_text(alloc: Global, text: &str) -> Result<String, AllocError>
    ensures { IfOk result (λ message. string_bytes message
        ≡ encode_utf8_all (flat_map literal_char (chars text.now))) }
{
    let mut message = String::with_capacity(alloc, text.len())?;
    for char in text.chars() {
        push_literal_char(&mut message, char)?;
    }
    Ok(message)
}

/// Each message of the log is made here, of a text that is escaped.
fn escaped_json(alloc: Global, message: String) -> Result<Value, AllocError>
    requires { IsMessage (string_bytes message) }
{
    with_one(alloc, "text", Ok(Value::String(message)))
}

fn message_json(alloc: Global, text: &str) -> Result<Value, AllocError> {
    escaped_json(alloc, literal_text(alloc, text)?)
}

/// The most serious level of the warnings with this name.
fn worst_level(causes: &[Cause], name: &str) -> Level {
    let mut worst = Level::Note;
    for cause in causes {
        if cause.name() == name && cause.level().reaches(worst) {
            worst = cause.level();
        }
    }
    worst
}

/// The message of the warning, unless the messages with its name differ in their reasons.
fn description_of(cause: Cause) -> &'static str {
    if cause.name() == "needless-rule" {
        "this rule can be deleted together with all other needless rules, and every verdict stays the same"
    } else {
        cause.text()
    }
}

/// A rule for each name of a warning. It has the description of the last warning with this name.
fn add_rules(rules: &mut Vec<SarifRule>, causes: &[Cause]) -> Result<(), AllocError> {
    for (at, cause) in causes.iter().enumerate() {
        let name = cause.name();
        if causes[at + 1..].iter().any(|later| later.name() == name) {
            continue;
        }
        rules.push(SarifRule {
            name,
            level: worst_level(causes, name),
            text: description_of(*cause),
            example: cause.example(),
        })?;
    }
    Ok(())
}

fn all_rules(alloc: Global) -> Result<Vec<SarifRule>, AllocError> {
    let mut rules = Vec::new(alloc);
    rules.push(SarifRule {
        name: "denied",
        level: Level::Error,
        text: "a crawler may not fetch a URL",
        example: "# robots_audit FerrisBot /search\nUser-agent: *\nDisallow: /search",
    })?;
    rules.push(SarifRule {
        name: "rejected",
        level: Level::Error,
        text: "the file is rejected for a crawler",
        example: "User-agent: *\nDisallow: /\\{4096 a}$",
    })?;
    add_rules(&mut rules, &causes(alloc)?)?;
    Ok(rules)
}

fn help_json(alloc: Global, example: &str) -> Result<Value, AllocError> {
    let mut text = String::from_str(alloc, "for example:\n")?;
    text.push_str(example)?;
    message_json(alloc, &text)
}

impl Json for SarifRule {
    fn json(&self, alloc: Global) -> Result<Value, AllocError> {
        let level = Value::try_from_str(alloc, self.level.word());
        let object = Object::new(alloc)
            .with("defaultConfiguration", with_one(alloc, "level", level))?
            .with("fullDescription", message_json(alloc, self.text))?
            .with("help", help_json(alloc, self.example))?
            .text("id", self.name)?
            .with("shortDescription", message_json(alloc, self.text))?;
        Ok(object.value())
    }
}

/// The file and the line, or the first line for a finding about the whole file or an argument.
fn place_json(alloc: Global, uri: &str, line: Option<usize>) -> Result<Value, AllocError> {
    let uri = Value::try_from_str(alloc, uri);
    let line = Ok(Value::from(line.unwrap_or(1)));
    let object = Object::new(alloc)
        .with("artifactLocation", with_one(alloc, "uri", uri))?
        .with("region", with_one(alloc, "startLine", line))?;
    Ok(object.value())
}

fn locations_json(alloc: Global, uri: &str, line: Option<usize>) -> Result<Value, AllocError> {
    let place = place_json(alloc, uri, line);
    array_of_one(alloc, with_one(alloc, "physicalLocation", place))
}

fn result_json(alloc: Global, uri: &str, finding: &Finding) -> Result<Value, AllocError> {
    let object = Object::new(alloc)
        .text("level", finding.level.word())?
        .with("locations", locations_json(alloc, uri, finding.line))?
        .with("message", message_json(alloc, &finding.message))?
        .text("ruleId", finding.name)?;
    Ok(object.value())
}

fn results_json(alloc: Global, uri: &str, findings: &[Finding]) -> Result<Value, AllocError> {
    let mut list = Vec::with_capacity(alloc, findings.len())?;
    for finding in findings {
        list.push(result_json(alloc, uri, finding)?)?;
    }
    Ok(Value::Array(list))
}

fn tool_json(alloc: Global) -> Result<Value, AllocError> {
    let rules = all_rules(alloc)?;
    let driver = Object::new(alloc)
        .text("name", "robots_audit")?
        .with("rules", list_json(alloc, &rules))?
        .text("version", VERSION)?
        .value();
    with_one(alloc, "driver", Ok(driver))
}

fn run_json(alloc: Global, uri: &str, findings: &[Finding]) -> Result<Value, AllocError> {
    let object = Object::new(alloc)
        .with("results", results_json(alloc, uri, findings))?
        .with("tool", tool_json(alloc))?;
    Ok(object.value())
}

fn log_json(alloc: Global, uri: &str, findings: &[Finding]) -> Result<Value, AllocError> {
    let schema = "https://json.schemastore.org/sarif-2.1.0.json";
    let object = Object::new(alloc)
        .text("$schema", schema)?
        .with("runs", array_of_one(alloc, run_json(alloc, uri, findings)))?
        .text("version", "2.1.0")?;
    Ok(object.value())
}

/// The log of the findings of an audit of the file with this name, as one line of JSON.
pub fn sarif_text(alloc: Global, file: &str, audit: &Audit<'_>) -> Result<String, fmt::Error>
    ensures { IfOk result (λ text. IsReport (string_bytes text)) }
{
    let findings = findings_of(alloc, audit, false)?;
    let log = log_json(alloc, &uri_of(alloc, file)?, &findings)?;
    json_line(alloc, "{", &log)
}
