//! Directives. A directive consists of a field name, a separator, and a tail, which is a raw value and
//! possibly a comment.
ghost use Rattle.std.specs.Prelude.{◌≡◌, ◌+◌, ◌≤◌, ◌++◌, ◌∷◌, bytes_eq, IfSome, MatchOption, Some, None, map, true, false, drop, length};
ghost use Rattle.std.specs.Str.{byte, str_to_ascii_lowercase};
ghost use Rattle.texting_robots.specs.Statement.{field_names};
ghost use Rattle.texting_robots.specs.Internal.{Plain.IsPlain};
ghost use Rattle.texting_robots.specs.Internal.Statement.{skip_blanks, kind_by, begins, after_any, tail_of, tail_as, region_of, trimmed, value_of};

use crate::plain::first_in_plain;
use bstr::ByteSlice;
use memchr::memchr;
use std::simd::prelude::*;

/// The kind of a directive, which its field name determines.
#[derive(Clone, Copy, PartialEq, Eq)]
pub enum Kind {
    UserAgent,
    Allow,
    Disallow,
    Sitemap,
    CrawlDelay,
}

/// The accepted field names of a directive, ASCII letters in any case. The first is the usual one.
pub fn field_names(kind: Kind) -> &'static [&'static str]
    ensures { map (λ name. str_to_ascii_lowercase name.now) result.now ≡ field_names kind }
{
    match kind {
        Kind::UserAgent => &["User-agent", "user agent", "useragent"],
        Kind::Allow => &["Allow"],
        Kind::Disallow => &[
            "Disallow",
            "dissallow",
            "dissalow",
            "disalow",
            "diasllow",
            "disallaw",
        ],
        Kind::Sitemap => &["Sitemap", "site-map", "site map"],
        Kind::CrawlDelay => &["Crawl-delay", "crawl delay", "crawldelay"],
    }
}

pub(crate) fn skip_blanks<'a>(text: &'a [u8]) -> &'a [u8]
    ensures { result.now ≡ skip_blanks text.now }
{
    let mut rest = text;
    while let [b' ' | b'\t', after @ ..] = rest {
        rest = after;
    }
    rest
}

/// The only kind that the text may be, by its first letter.
#[inline(always)]
pub(crate) fn kind_by(text: &[u8]) -> Option<Kind>
    ensures { result ≡ kind_by text.now }
{
    match text.first()? {
        b'U' | b'u' => Some(Kind::UserAgent),
        b'A' | b'a' => Some(Kind::Allow),
        b'D' | b'd' => Some(Kind::Disallow),
        b'S' | b's' => Some(Kind::Sitemap),
        b'C' | b'c' => Some(Kind::CrawlDelay),
        _ => None,
    }
}

fn after_name<'a>(name: &str, text: &'a [u8]) -> Option<&'a [u8]>
    ensures { let small = str_to_ascii_lowercase name.now in MatchOption result
        (begins small text.now ≡ false)
        (λ rest. (begins small text.now ≡ true) × (rest.now ≡ drop (length small) text.now)) }
{
    let (key, rest) = text.split_at_checked(name.len())?;
    if key.eq_ignore_ascii_case(name.as_bytes()) {
        Some(rest)
    } else {
        None
    }
}

/// What follows the first of these names that the text begins with.
fn after_any<'a>(field_names: &[&str], text: &'a [u8]) -> Option<&'a [u8]>
    ensures { let small = map (λ name. str_to_ascii_lowercase name.now) field_names.now
        in MatchOption result (after_any small text.now ≡ None)
        (λ rest. after_any small text.now ≡ Some rest.now) }
{
    for name in field_names {
        if let Some(rest) = after_name(name, text) {
            return Some(rest);
        }
    }
    None
}

/// What follows a leading separator. It usually is a colon and a space.
#[inline(always)]
fn tail_of<'a>(rest: &'a [u8]) -> Option<&'a [u8]>
    ensures { MatchOption result (tail_of rest.now ≡ None) (λ tail. tail_of rest.now ≡ Some tail.now) }
{
    if let [b':', b' ', tail @ ..] = rest {
        return Some(skip_blanks(tail));
    }
    let after = skip_blanks(rest);
    match after {
        [b':', tail @ ..] => Some(skip_blanks(tail)),
        _ if after.len() < rest.len() => Some(after),
        _ => None,
    }
}

/// What follows the name, whose eight bytes are compared at once.
#[inline(always)]
fn strip_eight<'a>(text: &'a [u8], name: &[u8]) -> Option<&'a [u8]>
    requires { length name.now ≡ 8 }
    ensures { IfSome result (λ rest. text.now ≡ name.now ++ rest.now) }
{
    let (front, rest) = text.split_at_checked(8)?;
    if u8x8::from_slice(front)
        .simd_eq(u8x8::from_slice(name))
        .all()
    {
        Some(rest)
    } else {
        None
    }
}

/// What follows `name` and `nt`, the end of `User-agent`.
#[inline(always)]
fn strip_agent<'a>(text: &'a [u8], name: &[u8]) -> Option<&'a [u8]>
    requires { length name.now ≡ 8 }
    ensures { IfSome result (λ rest. text.now ≡ name.now ++ (byte "n" ∷ byte "t" ∷ rest.now)) }
{
    match strip_eight(text, name)? {
        [b'n', b't', rest @ ..] => Some(rest),
        _ => None,
    }
}

/// What follows the field name, if that is written as usual. Others are left to [`after_any`].
#[inline(always)]
fn after_usual<'a>(kind: Kind, text: &'a [u8]) -> Option<&'a [u8]>
    ensures { IfSome result (λ rest. after_any (field_names kind) text.now ≡ Some rest.now) }
{
    match kind {
        Kind::UserAgent => match strip_agent(text, b"User-age") {
            Some(rest) => Some(rest),
            None => strip_agent(text, b"User-Age"),
        },
        Kind::Allow => match text {
            [b'A', b'l', b'l', b'o', b'w', rest @ ..] => Some(rest),
            _ => None,
        },
        Kind::Disallow => strip_eight(text, b"Disallow"),
        Kind::Sitemap => match text {
            [b'S', b'i', b't', b'e', b'm', b'a', b'p', rest @ ..] => Some(rest),
            _ => None,
        },
        Kind::CrawlDelay => text.strip_prefix(b"Crawl-delay"),
    }
}

#[inline(never)]
fn tail_by_field_names<'a>(kind: Kind, text: &'a [u8]) -> Option<&'a [u8]>
    ensures { MatchOption result (tail_as kind text.now ≡ None) (λ tail. tail_as kind text.now ≡ Some tail.now) }
{
    tail_of(after_any(field_names(kind), text)?)
}

/// The tail, if the text is a directive of this kind.
#[inline(always)]
pub(crate) fn tail_as<'a>(kind: Kind, text: &'a [u8]) -> Option<&'a [u8]>
    ensures { MatchOption result (tail_as kind text.now ≡ None) (λ tail. tail_as kind text.now ≡ Some tail.now) }
{
    match after_usual(kind, text) {
        Some(rest) => tail_of(rest),
        None => tail_by_field_names(kind, text),
    }
}

/// The tail without its comment.
#[tactic(auto, using(crate::proofs::LabelLemmas::take_if_first, crate::proofs::LabelLemmas::all_if_nowhere))]
fn region_of<'a>(tail: &'a [u8]) -> &'a [u8]
    ensures { result.now ≡ region_of tail.now }
{
    match memchr(b'#', tail) {
        Some(at) => &tail[..at],
        None => tail,
    }
}

/// Trims Unicode white space, and so decodes the characters at both ends.
#[inline(never)]
fn trimmed_by_chars<'a>(text: &'a [u8]) -> &'a [u8]
    ensures { result.now ≡ trimmed text.now }
{
    text.trim()
}

/// Trims Unicode white space. If both ends are visible ASCII, nothing is decoded.
#[tactic(auto, using(crate::proofs::TrimLemmas::graphic_ends))]
fn trimmed<'a>(text: &'a [u8]) -> &'a [u8]
    ensures { result.now ≡ trimmed text.now }
{
    if text.is_empty() {
        return text;
    }
    match (text.first(), text.last()) {
        (Some(first), Some(last)) if first.is_ascii_graphic() && last.is_ascii_graphic() => text,
        _ => trimmed_by_chars(text),
    }
}

pub(crate) fn value_of<'a>(tail: &'a [u8]) -> &'a [u8]
    ensures { result.now ≡ value_of tail.now }
{
    trimmed(region_of(tail))
}

/// The value in a tail, and the index of its first wildcard if [`first_in_plain`] finds it.
#[tactic(auto, using(crate::proofs::PlainLemmas::plain_value))]
#[inline(always)]
pub(crate) fn seen_value<'a>(tail: &'a [u8]) -> (&'a [u8], Option<usize>)
    ensures value { result.0.now ≡ value_of tail.now }
    ensures plain { IfSome result.1 (IsPlain result.0.now) }
{
    match first_in_plain(tail) {
        Some(first) => (tail, Some(first)),
        None => (value_of(tail), None),
    }
}

/// Whether the value in a tail is the name, ASCII letters in any case. Most values begin with
/// another visible byte than the name, and aren't cut out then.
#[tactic(auto, using(crate::proofs::NameLemmas::tested_names))]
#[inline(always)]
pub(crate) fn value_is(tail: &[u8], name: &[u8]) -> bool
    ensures { result ≡ bytes_eq (str_to_ascii_lowercase (value_of tail.now)) (str_to_ascii_lowercase name.now) }
{
    if let (Some(first), Some(letter)) = (tail.first(), name.first()) {
        if *first != b'#' && first.is_ascii_graphic() && !first.eq_ignore_ascii_case(letter) {
            return false;
        }
    }
    value_of(tail).eq_ignore_ascii_case(name)
}
