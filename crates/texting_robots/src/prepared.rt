//! Match targets: what patterns are compared with.
ghost use Rattle.std.specs.{Prelude.◌≡◌, Prelude.IfOk, Prelude.string_bytes, Cow.cow_str_bytes};
ghost use Rattle.texting_robots.specs.Prepared.{prepared, target_of};

use crate::escape::escaped;
use crate::normalized::borrowed_target;
use std::alloc::{AllocError, Global};
use std::borrow::CowStr;
use url::{ParseError, Position, Url};

/// The match target. It is borrowed for a path in which no byte is escaped, and for a URL that
/// [`borrowed_target`] accepts. A string that begins with a slash isn't a URL, so it isn't parsed.
pub(crate) fn prepare<'a>(alloc: Global, url: &'a str) -> Result<CowStr<'a, Global>, AllocError>
    ensures { IfOk result (λ text. cow_str_bytes text ≡ prepared url.now) }
{
    if url.is_empty() {
        return Ok(CowStr::Borrowed("/"));
    }
    if url.starts_with('/') {
        return escaped(alloc, url);
    }
    if let Some(target) = borrowed_target(url) {
        return Ok(CowStr::Borrowed(target));
    }
    match Url::parse(alloc, url) {
        Ok(parsed) => Ok(CowStr::Owned(into_target(parsed)?)),
        Err(ParseError::OutOfMemory | ParseError::Overflow) => Err(AllocError),
        Err(_) => escaped(alloc, url),
    }
}

/// The match target of a URL, as [`Robot::prepare_url`](crate::Robot::prepare_url) describes it. An error if an
/// allocation fails, or if the URL has more bytes than `url` can count.
pub fn match_target(alloc: Global, url: &str) -> Result<String, AllocError>
    ensures { IfOk result (λ text. string_bytes text ≡ prepared url.now) }
{
    prepare(alloc, url)?.into_owned(alloc)
}

/// The match target, in the allocation of the URL.
fn into_target(url: Url) -> Result<String, AllocError>
    ensures { IfOk result (λ text. string_bytes text ≡ target_of url) }
{
    let front = url.as_str().len() - target(&url).len();
    let mut text = String::from(url);
    text.replace_range(..front, "")?;
    Ok(text)
}

/// The path, query and fragment, which are adjacent at the end of a URL.
pub(crate) fn target(url: &Url) -> &str
    ensures { result.now ≡ target_of url.now }
{
    url.slice(Position::BeforePath, Position::AfterFragment)
}
