//! Explains how crawlers interpret a robots.txt file, which is a named one or standard input. The report has
//! a row for each line of the first 512,000 bytes; then the group and the delay that apply to the crawler;
//! then for each URL whether the crawler may fetch it, and which line decides. Warnings go to standard error.
//! All of this can be written as JSON or as an HTML page instead, and what was found as annotations or as a
//! SARIF log.
//!
//! `robots_audit [OPTIONS] FILE [URL]..`
//!
//! With `--compare` it writes instead what differs from an older version of the file, and with `--expect`
//! which lines of a file of expectations fail: as text, JSON or annotations.
//!
//! With `--list-warnings` or `--explain` it writes what warnings there are, or what one means, and reads
//! nothing.
#![tactic(auto)]

ghost use Rattle.std.specs.Prelude.{◌≡◌, IfOk, string_bytes};
ghost use Rattle.std.specs.Process.{exit_status};
ghost use Rattle.safe_output.specs.Text.{IsReport};
ghost use Rattle.audit_core.specs.Error.{status_after};
ghost use Rattle.robots_audit.specs.Answer.{Answers, IsSafeAnswer};

mod command;
mod options;
mod program;
mod theorems;

use crate::command::{check_files, command, file_read, format_of, requested, without_brackets};
use crate::program::{audited, comparison, expectations, unread};
use audit_compare::compare::NamedFile;
use audit_core::answer::{Answer, Outcome, text_answer, write_answer};
use audit_core::color::colors_by_default;
use audit_core::error::{Error, status_after, write_error};
use audit_core::not_robots::check_content;
use audit_core::request::Request;
use audit_expect::url_list::with_urls;
use audit_reports::explain::{explain, list_warnings};
use audit_reports::json::Names;
use clap::ArgMatches;
use clap::error::ErrorKind as WordsKind;
use safe_output::report::Report;
use safe_output::streams::{ReadError, read_all};
use std::alloc::Global;
use std::fs::File;
use std::io::ErrorKind;
use std::process::ExitCode;
use std::{env, fmt};

fn words(rt: &HostRuntime) -> Result<Vec<String>, Error> {
    match env::args(rt) {
        Ok(args) => Ok(args.collect(rt.alloc())?),
        Err(error) => match error.kind() {
            ErrorKind::OutOfMemory => Err(Error::Memory),
            _ => Err(Error::NotUtf8),
        },
    }
}

fn reason(kind: ErrorKind) -> &'static str {
    match kind {
        ErrorKind::NotFound => ": no such file",
        ErrorKind::PermissionDenied => ": permission denied",
        _ => "",
    }
}

fn read_named(rt: &HostRuntime, name: &str) -> Result<Vec<u8>, Error> {
    let mut file = match File::open(rt, name) {
        Ok(file) => file,
        Err(error) => return Err(unread(rt.alloc(), name, reason(error.kind()))),
    };
    match read_all(rt.alloc(), &mut file) {
        Ok(bytes) => Ok(bytes),
        Err(ReadError::Folder) => Err(unread(rt.alloc(), name, ": it is a folder")),
        Err(ReadError::Read) => Err(unread(rt.alloc(), name, "")),
        Err(ReadError::Memory) => Err(Error::Memory),
    }
}

/// The bytes of standard input. Fails if there are none, as after a failed download.
fn read_stdin(rt: &HostRuntime) -> Result<Vec<u8>, Error> {
    let bytes = read_all(rt.alloc(), &mut rt.stdin())?;
    if bytes.is_empty() {
        return Err(Error::NoInput);
    }
    Ok(bytes)
}

/// The bytes of the file with this name, or of standard input for `-` or without a name.
fn read(rt: &HostRuntime, name: Option<&str>) -> Result<Vec<u8>, Error> {
    match file_read(name) {
        Some(name) => read_named(rt, name),
        None => read_stdin(rt),
    }
}

/// The bytes of the file with this name, or of standard input for `-`. Fails if that can't be a robots.txt
/// file.
fn read_robots(rt: &HostRuntime, name: &str) -> Result<Vec<u8>, Error> {
    let bytes = read(rt, Some(name))?;
    check_content(rt.alloc(), name, &bytes)?;
    Ok(bytes)
}

fn url_text(rt: &HostRuntime, matches: &ArgMatches<'_>) -> Result<Vec<u8>, Error> {
    match matches.get_str("urls-from") {
        Some(name) => read(rt, Some(name)),
        None => Ok(Vec::new(rt.alloc())),
    }
}

/// The request with the URLs in this text, if that is of a file of `--urls-from`, which has this name.
fn extended<'a>(
    alloc: Global,
    request: Request<'a>,
    name: Option<&str>,
    text: &'a [u8],
) -> Result<Request<'a>, Error> {
    match name {
        Some(name) => with_urls(alloc, request, name, text),
        None => Ok(request),
    }
}

/// `has_colors` is as for `requested`.
#[tactic(auto, using(crate::proofs::MessageLemmas::audit_answers))]
fn audit(rt: &HostRuntime, matches: &ArgMatches<'_>, has_colors: bool) -> Result<Answer, Error>
    ensures { IfOk result Answers }
{
    let request = requested(rt.alloc(), matches, has_colors)?;
    let text = url_text(rt, matches)?;
    let whole = extended(rt.alloc(), request, matches.get_str("urls-from"), &text)?;
    audited(rt.alloc(), &whole, &read(rt, whole.file)?)
}

/// Checks the expectations in the file `expected` against the file that the arguments name.
#[tactic(auto, using(crate::proofs::MessageLemmas::expectations_answer))]
fn checked<'m>(
    rt: &HostRuntime,
    matches: &'m ArgMatches<'_>,
    expected: &'m str,
) -> Result<Answer, Error>
    ensures { IfOk result Answers }
{
    check_files(matches)?;
    let text = read(rt, Some(expected))?;
    let named = matches.get_str("file");
    let name = file_read(named);
    let file = read_robots(rt, name.unwrap_or("-"))?;
    let names = Names {
        file: name.unwrap_or("robots.txt"),
        expectations: Some(expected),
        old: None,
    };
    expectations(rt.alloc(), format_of(matches), names, &text, &file)
}

/// Compares the file `older` with the file that the arguments name.
#[tactic(auto, using(crate::proofs::MessageLemmas::comparison_answers))]
fn compared(rt: &HostRuntime, matches: &ArgMatches<'_>, older: &str) -> Result<Answer, Error>
    ensures { IfOk result Answers }
{
    let request = requested(rt.alloc(), matches, false)?;
    let text = url_text(rt, matches)?;
    let whole = extended(rt.alloc(), request, matches.get_str("urls-from"), &text)?;
    let name = whole.file.unwrap_or("-");
    let old = read_robots(rt, older)?;
    let new = read_robots(rt, name)?;
    let old_file = NamedFile {
        name: older,
        bytes: &old,
    };
    let new_file = NamedFile { name, bytes: &new };
    comparison(
        rt.alloc(),
        &whole,
        old_file,
        new_file,
        matches.get_flag("only-verdicts"),
    )
}

/// `has_colors` is as for `requested`.
#[tactic(auto, using(crate::proofs::MessageLemmas::text_answers))]
fn answered(rt: &HostRuntime, matches: &ArgMatches<'_>, has_colors: bool) -> Result<Answer, Error>
    ensures { IfOk result Answers }
{
    if matches.get_flag("list-warnings") {
        return list_warnings(rt.alloc());
    }
    if let Some(name) = matches.get_str("explain") {
        return explain(rt.alloc(), without_brackets(name));
    }
    if let Some(expected) = matches.get_str("expect") {
        return checked(rt, matches, expected);
    }
    match matches.get_str("compare") {
        Some(older) => compared(rt, matches, older),
        None => audit(rt, matches, has_colors),
    }
}

/// The answer if the arguments request help or the version; else the error for arguments that `clap` rejects.
#[tactic(auto, using(crate::proofs::MessageLemmas::text_safe))]
fn reported(rt: &HostRuntime, error: clap::Error) -> Result<Answer, Error>
    ensures { IfOk result IsSafeAnswer }
{
    let text = error.to_string(rt.alloc())?;
    if error.use_stderr() {
        Err(Error::Words(text))
    } else {
        let mut out = Report::new(rt.alloc());
        out.lines(&text)?;
        Ok(text_answer(rt.alloc(), out))
    }
}

/// The report is safe, and the warnings are printable apart from color codes, whatever the arguments, the
/// files and their names are.
#[tactic(auto, using(crate::proofs::MessageLemmas::answers_safe))]
fn answer(rt: &HostRuntime) -> Result<Answer, Error>
    ensures { IfOk result IsSafeAnswer }
{
    let words = words(rt)?;
    match command(rt.alloc())?.try_get_matches_from(&words) {
        Ok(matches) => answered(rt, &matches, colors_by_default(rt)),
        Err(error) => match error.kind() {
            WordsKind::OutOfMemory => Err(Error::Memory),
            _ => reported(rt, error),
        },
    }
}

fn error_message(alloc: Global, error: &Error) -> Result<String, fmt::Error>
    ensures { IfOk result (λ text. IsReport (string_bytes text)) }
{
    let mut out = Report::new(alloc);
    write_error(&mut out, error)?;
    Ok(out.into_string())
}

/// Prints the warnings of a run, or the message for its error or for a failed allocation, and returns the
/// exit status.
fn ended(rt: &HostRuntime, outcome: Result<Outcome, Error>) -> ExitCode
    ensures { exit_status result ≡ status_after outcome }
{
    let status = status_after(&outcome);
    let _ = match outcome {
        Ok(outcome) => rt.eprint(&outcome.warnings),
        Err(error) => match error_message(rt.alloc(), &error) {
            Ok(text) => rt.eprint(&text),
            Err(_) => rt.eprint("robots_audit: out of memory\n"),
        },
    };
    ExitCode::from(status)
}

fn main(rt: HostRuntime) -> ExitCode {
    let outcome = write_answer(answer(&rt), &mut rt.stdout());
    ended(&rt, outcome)
}
