//! Strings for C: the sitemaps and the crawlers of a site, and the address of robots.txt.
ghost use Rattle.std.specs.Prelude.{◌≡◌, ◌≢◌, ◌<◌, ◌⊎◌, IfErr, IfOk, length, map, pos, string_bytes};
ghost use Rattle.safe_output.specs.Lines.{ended};
ghost use Rattle.c_calls.specs.Status.{IsRobotsUrl, IsWhyNoRobotsUrl, status_of};
ghost use Rattle.c_calls.specs.{File.AreTexts, Text.IsPutIn};

use crate::error::Error;
use crate::file::text_of;
use safe_output::lines::push_line;
use std::alloc::{AllocError, Global};
use texting_robots::{Site, get_robots_url};
use url::ParseError;

fn lines_of(alloc: Global, texts: &[&str]) -> Result<String, AllocError>
    ensures { IfOk result (λ lines. string_bytes lines ≡ ended (map (λ text. text.now) texts.now)) }
{
    let mut lines = String::new(alloc);
    for text in texts {
        push_line(&mut lines, text, "")?;
    }
    Ok(lines)
}

pub(crate) fn texts_in(alloc: Global, site: &Site, are_agents: bool) -> Result<String, AllocError>
    ensures { IfOk result (λ text. AreTexts are_agents site.now (string_bytes text)) }
{
    if are_agents {
        let agents = site.agents(alloc)?;
        return lines_of(alloc, &agents);
    }
    let sitemaps = site.sitemaps(alloc)?;
    lines_of(alloc, &sitemaps)
}

pub fn robots_url(alloc: Global, url: &[u8]) -> Result<String, Error>
    ensures ok { IfOk result (λ text. IsRobotsUrl url.now (string_bytes text)) }
    ensures error { IfErr result (IsWhyNoRobotsUrl url.now) }
{
    match get_robots_url(alloc, text_of(url)?) {
        Ok(text) => Ok(text),
        Err(ParseError::OutOfMemory | ParseError::Overflow) => Err(Error::Memory),
        Err(_) => Err(Error::NoRobotsUrl),
    }
}

/// Copies the string to the start of `out` if it fits, and writes its length in any case.
pub fn put(text: &str, out: &mut [u8], len: &mut usize) -> i32
    ensures put { result ≡ pos 0 → IsPutIn out.old out.new text.now }
    ensures buffer_too_small { result ≡ status_of Error.BufferTooSmall → length out.old < length text.now }
    ensures kept { result ≢ pos 0 → out.new ≡ out.old }
    ensures status { (result ≡ pos 0) ⊎ (result ≡ status_of Error.BufferTooSmall) }
    ensures length { len.new ≡ length text.now }
{
    *len = text.len();
    if out.len() < text.len() {
        return Error::BufferTooSmall.status();
    }
    out[..text.len()].copy_from_slice(text.as_bytes());
    0
}
