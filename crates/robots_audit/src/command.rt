//! The command line, and the request that it results in.

use crate::options::with_options;
use audit_core::chosen::are_apart;
use audit_core::color::requested_colors;
use audit_core::crawler::{are_crawlers, single};
use audit_core::error::{Error, unknown};
use audit_core::request::{Format, Request};
use audit_core::version::VERSION_AND_TOOLCHAIN;
use audit_expect::url_list::are_paths_or_urls;
use clap::{ArgMatches, Command};
use robots_warnings::crawlers::crawlers;
use robots_warnings::table::is_name;
use safe_output::level::Level;
use std::alloc::{AllocError, Global};

const AFTER_HELP: &str = "\
The report goes to standard output; as text, its warnings go to standard error. \"deny 2 /a\" means that
line 2 denies /a, and \"allow - /b\" that no line decides about /b, so it is allowed. With one --agent, the
lines of the file come first: + before one of the crawler's group, - before one of another.

\"(by RFC 9309: deny 10)\" follows a verdict if RFC 9309 has another one. \"RFC 9309 reads this file alike\"
means with the same verdicts on all URLs in normal form (%20 for a space, not %41 for A). A URL is denied, and
a file rejected, if it is in one of the readings.

In a line of --expect, AGENT is a crawler's name, * (those without a group of their own) or \"any\" (*, those
that FILE names, and known ones whose vendor applies another group). PATTERN means all paths that begin with
it, or, with a $ at its end, all that end there, except /robots.txt; a * in it is any text. One that matches a
single path means that path. An expectation has to hold in both readings, for the group that the crawler's
vendor applies; a crawler that ignores *, as AdsBot-Google does, is denied nothing.

With --expect, give only FILE; with --compare only FILE, URLs, --urls-from, --agent, --known-crawlers and
--only-verdicts; with either also --json, --github or --format; with --list-warnings or --explain nothing
else. With --denied, give URLs or --urls-from.

Exit status, the first that applies; without --strict, warnings change nothing, even of level error:
  2  if the program couldn't do its work, or the file is rejected for a crawler (with --expect: 1)
  3  if a warning at the level of --strict is reported: correct the file before you trust verdicts
  1  if a URL is denied, an expectation fails or something differs
  0  otherwise, also for an HTML page or an empty file; --strict makes both 3

Examples:
  robots_audit robots.txt
  curl -fsSL https://example.com/robots.txt | robots_audit --agent Googlebot - /search
  robots_audit --denied --urls-from urls.txt robots.txt
  robots_audit --compare old.txt robots.txt /search /products/tea
  robots_audit --expect expect.txt robots.txt
  robots_audit --strict=error robots.txt > /dev/null";

/// The program's options and arguments.
pub fn command<'a>(alloc: Global) -> Result<Command<'a>, AllocError> {
    let called = Command::new(alloc, "robots_audit")
        .version(VERSION_AND_TOOLCHAIN)
        .about("Explains how crawlers interpret a robots.txt file")
        .override_usage("robots_audit [OPTIONS] FILE [URL]..")
        .after_help(AFTER_HELP);
    with_options(alloc, called)
}

/// `None` for standard input, which `-` means too.
pub fn file_read<'a>(name: Option<&'a str>) -> Option<&'a str> {
    match name {
        Some(name) if name != "-" => Some(name),
        _ => None,
    }
}

/// Without a name, no file is read.
fn is_stdin(name: Option<&str>) -> bool {
    matches!(name, Some(name) if name == "-")
}

/// The robots.txt file and one of the others, or URLs and an older version.
fn reads_stdin_twice(matches: &ArgMatches<'_>) -> bool {
    let urls = is_stdin(matches.get_str("urls-from"));
    let expected = is_stdin(matches.get_str("expect"));
    let older = is_stdin(matches.get_str("compare"));
    let has_no_file = file_read(matches.get_str("file")).is_none();
    has_no_file && (urls || expected || older) || urls && older
}

/// Fails if FILE is missing, if standard input would be read twice, or if `--denied` has no URL to list.
pub fn check_files(matches: &ArgMatches<'_>) -> Result<(), Error> {
    let has_urls = matches.get_str("url").is_some() || matches.get_str("urls-from").is_some();
    match matches.get_str("file") {
        None => Err(Error::Usage),
        Some(_) if reads_stdin_twice(matches) => Err(Error::StdinTwice),
        Some(_) if matches.get_flag("denied") && !has_urls => Err(Error::NoUrl),
        Some(_) => Ok(()),
    }
}

/// `clap` accepts none but the words of the three levels.
fn level_named(word: &str) -> Level {
    if word == "error" {
        Level::Error
    } else if word == "note" {
        Level::Note
    } else {
        Level::Warning
    }
}

pub fn format_of(matches: &ArgMatches<'_>) -> Format {
    match matches.get_str("format") {
        _ if matches.get_flag("json") => Format::Json,
        _ if matches.get_flag("html") => Format::Html,
        _ if matches.get_flag("github") => Format::Github,
        _ if matches.get_flag("sarif") => Format::Sarif,
        Some(name) => Format::named(name),
        None => Format::Text,
    }
}

fn values_of<'a>(
    alloc: Global,
    matches: &ArgMatches<'a>,
    id: &str,
) -> Result<Vec<&'a str>, AllocError> {
    let mut values = Vec::new(alloc);
    if let Some(given) = matches.get_strs(id) {
        values.extend_from_slice(given)?;
    }
    Ok(values)
}

/// Fails with the first that isn't the name of a warning.
fn names_of<'a>(alloc: Global, matches: &ArgMatches<'a>, id: &str) -> Result<Vec<&'a str>, Error> {
    let names = values_of(alloc, matches, id)?;
    for name in &names {
        if !is_name(name) {
            return Err(unknown(alloc, name)?);
        }
    }
    Ok(names)
}

/// The names of the known crawlers, and `*`.
fn known_names(alloc: Global) -> Result<Vec<&'static str>, AllocError> {
    let mut names = Vec::new(alloc);
    for row in crawlers() {
        names.push(row.0)?;
    }
    Ok(names)
}

/// Fails with the first name that no crawler has.
fn agents_of<'a>(alloc: Global, matches: &ArgMatches<'a>) -> Result<Vec<&'a str>, Error> {
    let agents = if matches.get_flag("known-crawlers") {
        known_names(alloc)?
    } else {
        values_of(alloc, matches, "agent")?
    };
    are_crawlers(alloc, &agents)?;
    Ok(agents)
}

/// Fails with the first argument that is neither a URL nor a path.
fn urls_of<'a>(alloc: Global, matches: &ArgMatches<'a>) -> Result<Vec<&'a str>, Error> {
    let urls = values_of(alloc, matches, "url")?;
    are_paths_or_urls(alloc, &urls)?;
    Ok(urls)
}

/// Whether needless rules are looked for: by their option, or as `--only` names a warning about them.
fn has_needless(matches: &ArgMatches<'_>, only: &[&str]) -> bool {
    matches.get_flag("needless")
        || only
            .iter()
            .any(|name| name.as_bytes().starts_with(b"needless-"))
}

/// A name without the brackets that it has in a report, and any other name as it is.
pub fn without_brackets(name: &str) -> &str {
    match name.strip_prefix("[") {
        Some(rest) => rest.strip_suffix("]").unwrap_or(name),
        None => name,
    }
}

/// The request that the arguments contain, without the URLs in a file; `has_colors` is whether warnings have
/// colors without `--color` or with `--color auto`.
pub fn requested<'a>(
    alloc: Global,
    matches: &ArgMatches<'a>,
    has_colors: bool,
) -> Result<Request<'a>, Error> {
    check_files(matches)?;
    let agents = agents_of(alloc, matches)?;
    let urls = urls_of(alloc, matches)?;
    let only = names_of(alloc, matches, "only")?;
    let ignored = names_of(alloc, matches, "ignore")?;
    are_apart(alloc, &only, &ignored)?;
    let is_denied_only = matches.get_flag("denied");
    let has_needless = has_needless(matches, &only);
    Ok(Request {
        file: file_read(matches.get_str("file")),
        is_quiet: matches.get_flag("quiet"),
        format: format_of(matches),
        date: matches.get_str("date"),
        has_colors: requested_colors(matches.get_str("color"), has_colors),
        strict: matches.get_str("strict").map(level_named),
        agent: single(&agents),
        agents,
        urls,
        only,
        ignored,
        is_denied_only,
        has_totals: is_denied_only || matches.get_str("urls-from").is_some(),
        has_needless,
    })
}
