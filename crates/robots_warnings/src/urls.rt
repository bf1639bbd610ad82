//! Conditions on URLs and paths.
ghost use Rattle.std.specs.Prelude.{◌≡◌, ◌&&◌, IfOk, not};
ghost use Rattle.rfc9309.specs.StandardTarget.{begins_as_url};
ghost use Rattle.robots_warnings.specs.Urls.{is_unparsable};

use rfc9309::target::{begins_as_url, begins_in_any_case};
use safe_output::bytes::as_text;
use std::alloc::{AllocError, Global};
use url::{ParseError, Url};

fn is_unparsable(alloc: Global, text: &str) -> Result<bool, AllocError>
    ensures { IfOk result (λ answer. answer ≡ is_unparsable text.now) }
{
    match Url::parse(alloc, text) {
        Ok(_) => Ok(false),
        Err(ParseError::OutOfMemory | ParseError::Overflow) => Err(AllocError),
        Err(_) => Ok(true),
    }
}

pub(crate) fn is_parsable_url(alloc: Global, text: &str) -> Result<bool, AllocError>
    ensures { IfOk result (λ answer. answer ≡ (begins_as_url text.now && not (is_unparsable text.now))) }
{
    Ok(begins_as_url(text.as_bytes()) && !is_unparsable(alloc, text)?)
}

/// Whether the value is an absolute http(s) URL.
pub fn is_absolute_url(alloc: Global, value: &[u8]) -> Result<bool, AllocError> {
    match as_text(value) {
        Some(text) => is_parsable_url(alloc, text),
        None => Ok(false),
    }
}

fn begins_without_host(text: &[u8]) -> bool {
    begins_in_any_case(b"http:///", text) || begins_in_any_case(b"https:///", text)
}

fn is_local(url: &Url) -> bool {
    match url.domain() {
        Some(name) => name == "localhost" || name == "undefined" || name == "null",
        None => true,
    }
}

pub(crate) fn has_odd_host(alloc: Global, value: &[u8]) -> Result<bool, AllocError> {
    let Some(text) = as_text(value) else {
        return Ok(false);
    };
    if !begins_as_url(value) {
        return Ok(false);
    }
    match Url::parse(alloc, text) {
        Ok(url) => Ok(begins_without_host(value) || is_local(&url)),
        Err(ParseError::OutOfMemory | ParseError::Overflow) => Err(AllocError),
        Err(_) => Ok(false),
    }
}
