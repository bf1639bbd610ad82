//! Errors, their messages, and the exit status.
ghost use Rattle.std.specs.Prelude.{◌≡◌};
ghost use Rattle.audit_core.specs.Error.{status_after};

use crate::answer::Outcome;
use rfc9309::target::begins_as_url;
use robots_warnings::crawlers::{is_near, row_at};
use robots_warnings::table::{Cause, causes};
use safe_output::bytes::{before_byte, has};
use safe_output::report::{Named, Report};
use safe_output::streams::{ReadError, WriteError};
use std::alloc::{AllocError, AllocFailed, Global};
use std::fmt;
use std::fmt::Write;

/// What is wrong with a line of the file of `--expect` or `--urls-from`, with a crawler's name or a URL in
/// arguments, or with a file that can't be a robots.txt file.
#[derive(Clone, Copy)]
pub enum Flaw {
    /// The line isn't of the form `allow AGENT URL`, or with another of four words.
    Form,
    /// A rule with this pattern is rejected or matches no path, or something follows a `$`.
    Pattern,
    NotUtf8,
    /// No crawler has this name.
    Agent,
    /// No crawler has this name; the known crawler with this index is probably meant.
    Meant(usize),
    /// Neither a known crawler nor a group of the file has this name; the known one with this index may be
    /// meant.
    Near(usize),
    /// The text is neither a path nor an http(s) URL that can be parsed.
    Url,
    /// The text is no path or URL, but may be the name of a crawler.
    Name,
    /// Crawlers ask for the path in another form.
    Path,
    /// There is no directive, and the file looks like HTML.
    Html,
    Utf16,
    /// The file has text, but no directive.
    NoDirectives,
    /// The URL has white space.
    Space,
    /// A comma, and then another URL.
    Comma,
    /// `<` or `>`.
    Tag,
    /// A comma.
    Names,
    Both,
}

pub type MalformedLine = (usize, Flaw);

/// What a file has a list of.
#[derive(Clone, Copy)]
pub enum EntryKind {
    Expectation,
    Url,
}

/// Texts are as they were given.
#[derive(Drop)]
pub enum Error {
    /// The message of `clap`, with the usage.
    Words(String),
    /// FILE is missing.
    Usage,
    /// The option `--denied` is given, but no URL.
    NoUrl,
    /// An argument isn't UTF-8.
    NotUtf8,
    /// The warning with a similar name may be meant.
    UnknownWarning(String, Option<Cause>),
    /// The file with this name can't be opened or read, for a reason that may be empty.
    File(String, &'static str),
    /// These lines, of the file with this name, are malformed.
    Malformed(String, Vec<MalformedLine>),
    /// This argument isn't the name of a crawler, no URL, or the name of a file that can't be a robots.txt
    /// file.
    Argument(String, Flaw),
    /// The file with this name has none of these entries.
    Empty(String, EntryKind),
    /// Standard input has no bytes.
    NoInput,
    /// Standard input would have to be both the robots.txt file and another one.
    StdinTwice,
    /// A comparison or a check of expectations can't be written in this format.
    Format,
    /// A read failed, or the input didn't end within the maximum number of reads.
    Read,
    /// The reader of the output has closed it, as `head` does. There is no message.
    Closed,
    /// A write or a flush failed in another way, or a write accepted no bytes.
    Write,
    /// An allocation failed, or a URL is too long for the crate `url`.
    Memory,
}

impl From<AllocError> for Error {
    ghost use Rattle.std.specs.Prelude.{◌≡◌};
    ghost use Rattle.audit_core.specs.declared.error.Error.TheVariants.{Memory};

    ghost from_gives = { λ _ error. error ≡ Memory };

    fn from(_: AllocError) -> Error {
        Error::Memory
    }
}

impl From<fmt::Error> for Error {
    fn from(_: fmt::Error) -> Error {
        Error::Memory
    }
}

impl<T: Drop> From<AllocFailed<T>> for Error {
    ghost use Rattle.std.specs.Prelude.{◌≡◌};
    ghost use Rattle.audit_core.specs.declared.error.Error.TheVariants.{Memory};

    ghost from_gives = { λ _ error. error ≡ Memory };

    fn from(_: AllocFailed<T>) -> Error {
        Error::Memory
    }
}

impl From<ReadError> for Error {
    fn from(error: ReadError) -> Error {
        match error {
            ReadError::Folder | ReadError::Read => Error::Read,
            ReadError::Memory => Error::Memory,
        }
    }
}

impl From<WriteError> for Error {
    ghost use Rattle.std.specs.Prelude.{◌≡◌};
    ghost use Rattle.audit_core.specs.Error.{error_of_write};

    ghost from_gives = { λ error own. own ≡ error_of_write error };

    fn from(error: WriteError) -> Error {
        match error {
            WriteError::Closed => Error::Closed,
            WriteError::Write => Error::Write,
        }
    }
}

fn write_flaw(out: &mut Report, flaw: Flaw) -> fmt::Result {
    out.write_str(flaw_text(flaw))?;
    match flaw {
        Flaw::Meant(crawler) | Flaw::Near(crawler) => match row_at(crawler).0 {
            "*" => out.write_str(
                "any, for every crawler, or *, for those without a group of their own?",
            ),
            name => write!(out, "{name}?"),
        },
        _ => Ok(()),
    }
}

fn flaw_text(flaw: Flaw) -> &'static str {
    match flaw {
        Flaw::Meant(_) => "no crawler has this name; did you mean ",
        Flaw::Near(_) => "no known crawler and no group of the file has this name; did you mean ",
        Flaw::Form =>
            "write \"allow AGENT URL\" or \"deny AGENT URL\", or for a pattern allow-all or deny-all",
        Flaw::Pattern =>
            "a pattern starts with / or *, has no #, a $ only at its end (a rule with text after it matches \
            nothing), and with a $ at most 4,096 bytes",
        Flaw::NotUtf8 => "the line isn't valid UTF-8",
        Flaw::Agent => "a crawler's name is a product token without a version, such as Googlebot",
        Flaw::Url =>
            "this is neither a path that starts with / nor a valid http:// or https:// URL",
        Flaw::Name =>
            "this is neither a path that starts with / nor a URL; for a crawler, write --agent NAME, for a \
            file of URLs --urls-from FILE, for a level --strict=LEVEL",
        Flaw::Path =>
            "URL has a . or .. segment or a #, which crawlers resolve or drop; write the path that they ask \
            for",
        Flaw::Html => "this looks like HTML, not like a robots.txt file",
        Flaw::Utf16 => "this looks like UTF-16, not like a robots.txt file; save it as UTF-8",
        Flaw::NoDirectives =>
            "this has no line of a robots.txt file, such as User-agent or Disallow",
        Flaw::Space =>
            "white space in a URL; write it as %20, and another URL or a comment on a line of its own",
        Flaw::Comma =>
            "another URL after a comma; write each URL as a line or an argument of its own",
        Flaw::Tag =>
            "< or > in a URL; write %3C or %3E, and each URL of a sitemap on a line of its own",
        Flaw::Names => "a comma in a crawler's name; repeat --agent for each crawler",
        Flaw::Both => "--only and --ignore both name this warning",
    }
}

fn entry_text(entry: EntryKind) -> &'static str {
    match entry {
        EntryKind::Expectation => "there are no expectations",
        EntryKind::Url => "there are no URLs",
    }
}

/// Follows an error in the arguments that `clap` doesn't report.
const USAGE: &str = "; usage: robots_audit [OPTIONS] FILE [URL]..";

/// Examples of commands, which follow the usage if FILE is missing.
const EXAMPLES: &str = "example: robots_audit robots.txt /search\n\
    example: curl -fsSL https://example.com/robots.txt | robots_audit --agent Googlebot -";

fn is_level(name: &[u8]) -> bool {
    name == b"error".as_slice() || (name == b"warning".as_slice() || name == b"note".as_slice())
}

fn begins_as_host(name: &[u8]) -> bool {
    let host = before_byte(b'/', name);
    has(b'.', host) && !(host.starts_with(b".") || host.ends_with(b".txt"))
}

fn file_hint(name: &[u8]) -> &'static str {
    if begins_as_url(name) {
        "; a URL isn't a file, try: curl -fsSL https://example.com/robots.txt | robots_audit -"
    } else if begins_as_host(name) {
        "; for a host, try: curl -fsSL https://example.com/robots.txt | robots_audit -"
    } else if is_level(name) {
        "; for a level, write --strict=LEVEL"
    } else if name.starts_with(b"/") {
        "; before a path to check, write FILE, or - for standard input"
    } else {
        ""
    }
}

fn write_unknown(out: &mut Report, name: &str, near: Option<Cause>) -> fmt::Result {
    let name = Named(name);
    write!(out, ": unknown warning {name}")?;
    if let Some(near) = near {
        let near = near.name();
        write!(out, "; a similar one is {near}")?;
    }
    out.write_str("; all are in --list-warnings")
}

fn write_malformed(out: &mut Report, file: &str, lines: &[MalformedLine]) -> fmt::Result {
    for (line, flaw) in lines {
        write!(out, "robots_audit: {file}:{line}: ")?;
        write_flaw(out, *flaw)?;
        out.end_line()?;
    }
    Ok(())
}

/// What follows the name of the program.
fn write_reason(out: &mut Report, error: &Error) -> fmt::Result {
    match error {
        Error::Words(_) | Error::Closed | Error::Malformed(_, _) => Ok(()),
        Error::Usage => write!(out, ": missing FILE{USAGE}"),
        Error::NoUrl => write!(
            out,
            ": --denied needs URLs, as arguments or by --urls-from FILE{USAGE}"
        ),
        Error::NotUtf8 => write!(out, ": arguments must be valid UTF-8{USAGE}"),
        Error::UnknownWarning(name, near) => write_unknown(out, name, *near),
        Error::File(file, reason) => {
            let (name, hint) = (Named(file), file_hint(file.as_bytes()));
            write!(out, ": cannot read {name}{reason}{hint}")
        }
        Error::Argument(text, flaw) => {
            let text = Named(text);
            write!(out, ": {text}: ")?;
            write_flaw(out, *flaw)
        }
        Error::Empty(file, entry) => {
            let entry = entry_text(*entry);
            write!(out, ": {file}: {entry}")
        }
        Error::NoInput => out.write_str(
            ": standard input is empty; did the download fail? To audit an empty file, give its name",
        ),
        Error::StdinTwice => write!(
            out,
            ": standard input can't be two files; give the name of one{USAGE}"
        ),
        Error::Format => write!(
            out,
            ": --compare and --expect write text, json or github, not html or sarif{USAGE}"
        ),
        Error::Read => out.write_str(": cannot read standard input"),
        Error::Write => out.write_str(": cannot write the report"),
        Error::Memory => out.write_str(": out of memory"),
    }
}

/// Writes a line, one for each malformed line, or the message of `clap`.
pub fn write_error(out: &mut Report, error: &Error) -> fmt::Result {
    match error {
        Error::Words(words) => out.lines(words),
        Error::Malformed(file, lines) => write_malformed(out, file, lines),
        Error::Closed => Ok(()),
        _ => {
            out.write_str("robots_audit")?;
            write_reason(out, error)?;
            out.end_line()?;
            match error {
                Error::Usage => out.lines(EXAMPLES),
                _ => Ok(()),
            }
        }
    }
}

/// The exit status of the process.
pub fn status_after(outcome: &Result<Outcome, Error>) -> u8
    ensures { result ≡ status_after outcome.now }
{
    match outcome {
        Ok(outcome) if outcome.is_rejected => 2,
        Ok(outcome) if outcome.is_warned => 3,
        Ok(outcome) if !outcome.has_passed => 1,
        Ok(_) => 0,
        Err(Error::Closed) => 141,
        Err(_) => 2,
    }
}

fn near_warning(alloc: Global, name: &[u8]) -> Result<Option<Cause>, AllocError> {
    let all = causes(alloc)?;
    for cause in &all {
        if is_near(alloc, name, cause.name())? {
            return Ok(Some(*cause));
        }
    }
    Ok(None)
}

/// The error for a name that no warning has.
pub fn unknown(alloc: Global, name: &str) -> Result<Error, AllocError> {
    let near = near_warning(alloc, name.as_bytes())?;
    Ok(Error::UnknownWarning(String::from_str(alloc, name)?, near))
}

/// The error for an argument that is malformed in this way; `Error::Memory` if an allocation fails.
pub fn argument(alloc: Global, text: &str, flaw: Flaw) -> Error {
    match String::from_str(alloc, text) {
        Ok(text) => Error::Argument(text, flaw),
        Err(AllocError) => Error::Memory,
    }
}
