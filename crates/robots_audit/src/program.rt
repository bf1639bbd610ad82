//! The audit of a file and the report on it, without the command line, input and output.
ghost use Rattle.std.specs.Prelude.{◌≡◌, IfOk, Some, string_bytes};
ghost use Rattle.robots_audit.specs.Answer.{AreAnnotations, IsAudited, IsCompared, IsExpected, IsListed};
ghost use Rattle.robots_audit.specs.Answer.{IsReportIn, has_passed, is_warned};
ghost use Rattle.safe_output.specs.Text.{IsReport, IsShownReport};
ghost use Rattle.audit_core.specs.{Request.requested_by};

use audit_compare::compare::{
    Comparison, NamedFile, compare, differs_nowhere, keeps_verdicts, rejects_some as rejects_one,
};
use audit_compare::report::reported;
use audit_core::answer::{Answer, Outcome};
use audit_core::audit::{Audit, all_allowed, audit_of, rejects_some};
use audit_core::error::Error;
use audit_core::findings::{Finding, Findings, findings_of};
use audit_core::request::{Format, Request};
use audit_expect::expectations::check;
use audit_reports::denied::{Totals, shown, totals_of};
use audit_reports::github::github_text;
use audit_reports::json::{Names, findings_text, json_text};
use audit_reports::page::page_text;
use audit_reports::report::{write_report, write_totals, write_warnings};
use audit_reports::sarif::sarif_text;
use robots_warnings::warning::Warning;
use safe_output::level::Level;
use safe_output::report::Report;
use std::alloc::{AllocError, Global};
use std::fmt;

#[tactic(auto, using(crate::proofs::MessageLemmas::warned_next))]
fn has_level(least: Level, warnings: &[Warning<'_>]) -> bool
    ensures { result ≡ is_warned (Some least) warnings.now }
{
    for warning in warnings {
        if warning.cause.level().reaches(least) {
            return true;
        }
    }
    false
}

fn is_warned(strict: Option<Level>, warnings: &[Warning<'_>]) -> bool
    ensures { result ≡ is_warned strict warnings.now }
{
    match strict {
        Some(least) => has_level(least, warnings),
        None => false,
    }
}

fn text_output(
    alloc: Global,
    request: &Request<'_>,
    totals: Totals,
    audit: &Audit<'_>,
) -> Result<Vec<u8>, fmt::Error>
    ensures { IfOk result (λ text. IsReport text.items) }
{
    let mut out = Report::new(alloc);
    write_report(&mut out, request, audit)?;
    if request.has_totals {
        write_totals(&mut out, totals)?;
    }
    Ok(out.into_string().into_bytes())
}

fn annotations(alloc: Global, file: &str, findings: &[Finding]) -> Result<Vec<u8>, AllocError>
    ensures { IfOk result (λ text. AreAnnotations text.items) }
{
    Ok(github_text(alloc, file, findings)?.into_bytes())
}

fn output(alloc: Global, request: &Request<'_>, audit: Audit<'_>) -> Result<Vec<u8>, Error>
    ensures { IfOk result (λ report. IsReportIn request.now.format report.items) }
{
    let totals = totals_of(&audit.agents);
    // A page has all URLs, since its tables have a row or a column for each.
    let is_page = matches!(request.format, Format::Html);
    let reported = shown(request.is_denied_only && !is_page, audit);
    match request.format {
        Format::Text => Ok(text_output(alloc, request, totals, &reported)?),
        Format::Json => Ok(json_text(alloc, request.has_rows(), &reported)?.into_bytes()),
        Format::Html => Ok(page_text(alloc, request, &reported)?),
        Format::Github => {
            let found = findings_of(alloc, &reported, true)?;
            Ok(annotations(alloc, request.shown_name(), &found)?)
        }
        Format::Sarif => { Ok(sarif_text(alloc, request.shown_name(), &reported)?.into_bytes()) }
    }
}

/// The warnings, unless they are in the report.
fn message(alloc: Global, request: &Request<'_>, audit: &Audit<'_>) -> Result<String, fmt::Error>
    ensures { IfOk result (λ text. IsShownReport request.now.has_colors (string_bytes text)) }
{
    let mut out = Report::new(alloc);
    if let Format::Text = request.format {
        write_warnings(alloc, &mut out, request, &audit.warnings)?;
    }
    out.shown(request.has_colors)
}

/// Audits a file for the crawlers and URLs of the request, and writes the report in the requested format. A
/// file that is rejected for a crawler isn't an error: the outcome says so. The error is `Error::Memory`,
/// also if a URL is too long for `url`.
pub fn audited<'a>(alloc: Global, request: &Request<'a>, file: &'a [u8]) -> Result<Answer, Error>
    ensures { IfOk result (IsAudited (requested_by request.now) file.now) }
{
    let audit = audit_of(alloc, request, file)?;
    let outcome = Outcome {
        is_rejected: rejects_some(&audit.agents),
        has_passed: all_allowed(&audit.agents),
        is_warned: is_warned(request.strict, &audit.warnings),
        warnings: message(alloc, request, &audit)?,
    };
    let report = output(alloc, request, audit)?;
    Ok(Answer { report, outcome })
}

/// The answer in this format: a report as text, or findings.
fn listed(
    alloc: Global,
    format: Format,
    names: Names<'_>,
    reported: (Report, Findings),
    is_rejected: bool,
    has_passed: bool,
) -> Result<Answer, Error>
    ensures { IfOk result (IsListed format is_rejected has_passed) }
{
    let (text, found) = reported;
    let report = match format {
        Format::Text => text.into_string().into_bytes(),
        Format::Json => findings_text(alloc, names, &found)?.into_bytes(),
        Format::Github => annotations(alloc, names.of_lines(), &found)?,
        Format::Html | Format::Sarif => return Err(Error::Format),
    };
    let outcome = Outcome {
        is_rejected,
        has_passed,
        is_warned: false,
        warnings: String::new(alloc),
    };
    Ok(Answer { report, outcome })
}

fn has_passed(only_verdicts: bool, compared: &Comparison<'_>) -> bool
    ensures { result ≡ has_passed only_verdicts compared.now }
{
    if only_verdicts {
        keeps_verdicts(compared)
    } else {
        differs_nowhere(compared)
    }
}

/// Compares two files for the crawlers and URLs of the request, and writes the report. Either the verdicts
/// alone decide whether all is well, or everything that differs.
///
/// # Errors
///
/// `Error::Format` if the format is one of audits alone, and `Error::Memory` if an allocation fails or a URL
/// is too long for `url`.
pub fn comparison<'a>(
    alloc: Global,
    request: &Request<'a>,
    older: NamedFile<'a>,
    newer: NamedFile<'a>,
    only_verdicts: bool,
) -> Result<Answer, Error>
    ensures { IfOk result (IsCompared only_verdicts (requested_by request.now) older.entry.bytes.now
        newer.entry.bytes.now) }
{
    let compared = compare(alloc, &request.agents, &request.urls, older, newer)?;
    let (is_rejected, has_passed) = (rejects_one(&compared), has_passed(only_verdicts, &compared));
    let names = Names {
        file: request.shown_name(),
        expectations: None,
        old: Some(older.name),
    };
    let found = reported(alloc, &compared)?;
    Ok(listed(alloc, request.format, names, found, is_rejected, has_passed)?)
}

/// Checks the expectations in a text against a robots.txt file, and writes the report. The errors are those of
/// `check`, and `Error::Format` if the format is one of audits alone.
pub fn expectations(
    alloc: Global,
    format: Format,
    names: Names<'_>,
    text: &[u8],
    file: &[u8],
) -> Result<Answer, Error>
    ensures { IfOk result (IsExpected format text.now file.now) }
{
    let found = check(alloc, names.of_lines(), text, file)?;
    let has_passed = found.1.is_empty();
    Ok(listed(alloc, format, names, found, false, has_passed)?)
}

/// The error for a file that can't be opened or read, for this reason.
pub fn unread(alloc: Global, name: &str, reason: &'static str) -> Error {
    match String::from_str(alloc, name) {
        Ok(text) => Error::File(text, reason),
        Err(AllocError) => Error::Memory,
    }
}
