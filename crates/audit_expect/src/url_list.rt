//! The URLs in the file of `--urls-from`, one per line, and those in arguments.

use crate::entries::{Line, check_lines, without_entries};
use crate::expect::is_path_or_url;
use audit_core::crawler::is_crawler_name;
use audit_core::error::{EntryKind, Error, Flaw, argument};
use audit_core::request::Request;
use rfc9309::target::begins_as_url;
use robots_warnings::facts::without_utf8_bom;
use safe_output::bytes::{as_text, has, somewhere};
use std::alloc::{AllocError, Global};

/// White space of ASCII, or a no-break space.
fn begins_space(text: &[u8]) -> bool {
    match text {
        [0xC2, 0xA0, ..] => true,
        [first, ..] => first.is_ascii_whitespace(),
        [] => false,
    }
}

fn begins_next_url(text: &[u8]) -> bool {
    match text {
        [b',', url @ ..] => begins_as_url(url),
        _ => false,
    }
}

fn url_flaw(alloc: Global, url: &[u8]) -> Result<Option<Flaw>, AllocError> {
    if has(b'<', url) || has(b'>', url) {
        Ok(Some(Flaw::Tag))
    } else if somewhere(url, begins_space) {
        Ok(Some(Flaw::Space))
    } else if somewhere(url, begins_next_url) {
        Ok(Some(Flaw::Comma))
    } else if is_path_or_url(alloc, url)? {
        Ok(None)
    } else {
        Ok(Some(Flaw::Url))
    }
}

fn url_in<'a>(alloc: Global, number: usize, line: &'a [u8]) -> Result<Line<&'a str>, AllocError> {
    let line = line.trim_ascii();
    if line.starts_with(b"#") {
        return Ok(Ok(None));
    }
    let Some(url) = as_text(line) else {
        return Ok(Err((number, Flaw::NotUtf8)));
    };
    if url.is_empty() {
        return Ok(Ok(None));
    }
    match url_flaw(alloc, line)? {
        Some(flaw) => Ok(Err((number, flaw))),
        None => Ok(Ok(Some(url))),
    }
}

fn line_urls<'a>(alloc: Global, name: &str, text: &'a [u8]) -> Result<Vec<&'a str>, Error> {
    let mut found = Vec::new(alloc);
    let mut malformed = Vec::new(alloc);
    let mut number: usize = 0;
    for line in text.split(|byte| *byte == b'\n') {
        number = number.saturating_add(1);
        match url_in(alloc, number, line)? {
            Ok(Some(url)) => found.push(url)?,
            Ok(None) => (),
            Err(line) => malformed.push(line)?,
        }
    }
    check_lines(alloc, name, malformed)?;
    Ok(found)
}

/// Fails if there are no URLs.
fn urls_in<'a>(alloc: Global, name: &str, text: &'a [u8]) -> Result<Vec<&'a str>, Error> {
    let found = line_urls(alloc, name, without_utf8_bom(text))?;
    if found.is_empty() {
        return Err(without_entries(alloc, name, EntryKind::Url));
    }
    Ok(found)
}

/// The request with the URLs in a text, of a file with this name, after its own.
///
/// # Errors
///
/// `Error::Malformed` for all lines that aren't UTF-8, are neither a path nor an http(s) URL that can be
/// parsed, or have what URLs only have escaped, and `Error::Empty` if there are no URLs in the text.
pub fn with_urls<'a>(
    alloc: Global,
    request: Request<'a>,
    name: &str,
    text: &'a [u8],
) -> Result<Request<'a>, Error> {
    let mut extended = request;
    let urls = urls_in(alloc, name, text)?;
    extended.urls.extend_from_slice(&urls)?;
    Ok(extended)
}

fn argument_flaw(alloc: Global, text: &str) -> Result<Option<Flaw>, AllocError> {
    if is_crawler_name(text) {
        return Ok(Some(Flaw::Name));
    }
    url_flaw(alloc, text.as_bytes())
}

/// Fails with the first of these arguments that isn't a URL or path, or has what URLs only have escaped.
pub fn are_paths_or_urls(alloc: Global, urls: &[&str]) -> Result<(), Error> {
    for url in urls {
        if let Some(flaw) = argument_flaw(alloc, url)? {
            return Err(argument(alloc, url, flaw));
        }
    }
    Ok(())
}
