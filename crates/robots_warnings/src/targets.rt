//! Match targets of URLs and paths, as crawlers ask for them.
ghost use Rattle.std.specs.Prelude.{◌≡◌, IfOk, string_bytes};
ghost use Rattle.texting_robots.specs.{Address.is_web};
ghost use Rattle.robots_warnings.specs.Targets.{asked_target, begins_dot_segment, has_dot_segment};
ghost use Rattle.robots_warnings.specs.Targets.{has_odd_target, is_asked_as_written, requested_target};

use crate::rules::begins_lone_percent;
use crate::urls::is_parsable_url;
use rfc9309::StandardTarget;
use rfc9309::normal::is_normal;
use safe_output::bytes::{before_byte, somewhere};
use std::alloc::{AllocError, Global};
use texting_robots::match_target;
use url::{ParseError, Position, Url};

fn is_web(scheme: &str) -> bool
    ensures { result ≡ is_web scheme.now }
{
    scheme == "http" || scheme == "https"
}

fn requested_target(url: &Url) -> &str
    ensures { result.now ≡ requested_target url.now }
{
    url.slice(Position::BeforePath, Position::AfterQuery)
}

/// The match target of a URL or a path, as crawlers ask for it: that of an http(s) URL has no fragment. An
/// error if an allocation fails or the URL is too long for `url`.
pub fn asked_target(alloc: Global, text: &str) -> Result<String, AllocError>
    ensures { IfOk result (λ target. string_bytes target ≡ asked_target text.now) }
{
    match Url::parse(alloc, text) {
        Ok(url) if is_web(url.scheme()) => String::from_str(alloc, requested_target(&url)),
        Ok(_) => match_target(alloc, text),
        Err(ParseError::OutOfMemory | ParseError::Overflow) => Err(AllocError),
        Err(_) => match_target(alloc, text),
    }
}

fn begins_dot_segment(text: &[u8]) -> bool
    ensures { result ≡ begins_dot_segment text.now }
{
    text.starts_with(b"/./")
        || text.starts_with(b"/../")
        || text == b"/.".as_slice()
        || text == b"/..".as_slice()
}

/// Whether a segment of the path is `.` or `..`.
pub fn has_dot_segment(target: &[u8]) -> bool
    ensures { result ≡ has_dot_segment target.now }
{
    somewhere(before_byte(b'?', target), begins_dot_segment)
}

fn is_asked_as_written(alloc: Global, text: &str) -> Result<bool, AllocError>
    ensures { IfOk result (λ answer. answer ≡ is_asked_as_written text.now) }
{
    let asked = asked_target(alloc, text)?;
    let target = asked.as_bytes();
    let written = StandardTarget::new(alloc, text)?;
    let is_odd = has_dot_segment(target) || somewhere(target, begins_lone_percent);
    Ok(asked.as_str() == written.as_str() && is_normal(target) && !is_odd)
}

pub(crate) fn has_odd_target(alloc: Global, text: &str) -> Result<bool, AllocError>
    ensures { IfOk result (λ answer. answer ≡ has_odd_target text.now) }
{
    if !text.as_bytes().starts_with(b"/") && !is_parsable_url(alloc, text)? {
        return Ok(false);
    }
    Ok(!is_asked_as_written(alloc, text)?)
}
