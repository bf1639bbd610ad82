//! Absolute URLs that the crate `url` would leave unchanged. Their match target is their last part, so it can be
//! borrowed.
ghost use Rattle.std.specs.Prelude.{◌≡◌, ◌<◌, ◌≤◌, ◌≢◌, ◌↔◌, false, true, length, map, slice_index, IfSome};
ghost use Rattle.std.specs.Prelude.{IsTrue};
ghost use Rattle.std.specs.{Char.is_ascii_lowercase, List.prefix_len, Simd.Lanes.Each1};
ghost use Rattle.url.specs.{Input.rsplit_once, Path.dot_count, Path.dot_len};
ghost use Rattle.texting_robots.specs.Prepared.{prepared};
ghost use Rattle.texting_robots.specs.Internal.Normalized.{after, after_delimited, begins_dotted};
ghost use Rattle.texting_robots.specs.Internal.Normalized.{begins_plainly, kept_prefix, IsAuthority, IsOther};
ghost use Rattle.texting_robots.specs.Internal.Normalized.{IsPath, IsPort, IsSite, IsTarget, Leaves, is_kept};

use crate::byte_set::{ByteSet, prefix_len_in};
use crate::escape::UNESCAPED;

// The tables are sets of bytes that `url` leaves unchanged in a part of a URL.

const NAME: &ByteSet = &[
    200, 204, 204, 200, 204, 200, 204, 204, 204, 204, 196, 204, 68, 204, 196, 96,
];

const SEGMENT: &ByteSet = &[
    184, 252, 248, 248, 252, 252, 252, 252, 252, 252, 252, 124, 212, 124, 212, 112,
];

/// The bytes of `SEGMENT` without `.` and `%`, but with `/`.
const OPEN: &ByteSet = &[
    184, 252, 248, 248, 252, 248, 252, 252, 252, 252, 252, 124, 212, 124, 208, 116,
];

const QUERY: &ByteSet = &[
    248, 252, 248, 248, 252, 252, 252, 248, 252, 252, 252, 252, 244, 252, 244, 124,
];

const NUMBER: &ByteSet = &[8, 8, 8, 8, 8, 8, 8, 8, 8, 8, 0, 0, 0, 0, 0, 0];

/// The text without its leading bytes in the set.
fn after<'a>(part: &ByteSet, text: &'a [u8]) -> &'a [u8]
    ensures { result.now ≡ after part.now text.now }
{
    &text[prefix_len_in(part, text)..]
}

fn split<'a>(part: &ByteSet, text: &'a [u8]) -> (&'a [u8], &'a [u8])
    ensures front { result.0.now ≡ kept_prefix part.now text.now }
    ensures rest { result.1.now ≡ after part.now text.now }
{
    let rest = after(part, text);
    (&text[..text.len() - rest.len()], rest)
}

fn last_label(host: &[u8]) -> &[u8]
    ensures { result.now ≡ (rsplit_once 46 host.now).1 }
{
    match host.iter().rposition(|byte| *byte == b'.') {
        Some(dot) => &host[dot + 1..],
        None => host,
    }
}

fn begins_with_letter(text: &[u8]) -> bool
    ensures { result ≡ is_ascii_lowercase (slice_index text.now 0) }
{
    match text {
        [b'a'..=b'z', ..] => true,
        _ => false,
    }
}

fn begins_plainly(digits: &[u8]) -> bool
    ensures { result ≡ begins_plainly digits.now }
{
    match digits {
        [b'+', ..] | [b'0', _, ..] => false,
        _ => true,
    }
}

/// If true, the digits are a port other than `own`, as `url` writes it. Not inlined, as few URLs have one.
#[inline(never)]
fn is_port(own: u16, digits: &[u8]) -> bool
    ensures { IsTrue result → IsOther own digits.now }
{
    let Ok(text) = str::from_utf8(digits) else {
        return false;
    };
    match u16::from_str_radix(text, 10) {
        Ok(port) => (port != own) & begins_plainly(digits),
        Err(_) => false,
    }
}

/// What follows a port, if any. `None` if it is the default, `own`, or `url` might change it.
fn after_port(own: u16, text: &[u8]) -> Option<&[u8]>
    ensures { IfSome result (λ rest. Leaves (IsPort own) text.now rest.now) }
{
    let [b':', following @ ..] = text else {
        return Some(text);
    };
    let (digits, rest) = split(NUMBER, following);
    if is_port(own, digits) {
        Some(rest)
    } else {
        None
    }
}

/// What follows a host and a port. `None` if `url` may write them otherwise.
#[inline(always)]
fn after_authority(own: u16, text: &[u8]) -> Option<&[u8]>
    ensures { IfSome result (λ rest. Leaves (IsAuthority own) text.now rest.now) }
{
    let (host, rest) = split(NAME, text);
    if begins_with_letter(last_label(host)) {
        after_port(own, rest)
    } else {
        None
    }
}

/// What follows scheme, host and port. `None` if `url` may write them otherwise.
fn after_site(url: &[u8]) -> Option<&[u8]>
    ensures { IfSome result (λ rest. Leaves IsSite url.now rest.now) }
{
    match url.strip_prefix(b"https://") {
        Some(authority) => after_authority(443, authority),
        None => after_authority(80, url.strip_prefix(b"http://")?),
    }
}

/// How many bytes a leading dot or escaped dot has, or 0 if there is none.
fn dot_len(text: &[u8]) -> usize
    ensures value { result ≡ dot_len text.now }
    ensures within { result ≤ length text.now }
{
    match text {
        [b'.', ..] => 1,
        [b'%', b'2', b'e' | b'E', ..] => 3,
        _ => 0,
    }
}

/// Whether the segment is one or two dots, each of which may be escaped.
#[tactic(auto, unfolding(url::specs::Path::dot_count))]
fn is_dots(segment: &[u8]) -> bool
    ensures { IsTrue result ↔ (dot_count segment.now ≢ 0) }
{
    let dot = dot_len(segment);
    let rest = &segment[dot..];
    dot != 0 && dot_len(rest) == rest.len()
}

fn begins_dotted(text: &[u8]) -> bool
    ensures { result ≡ begins_dotted text.now }
{
    match text {
        [b'.' | b'%', ..] => true,
        _ => false,
    }
}

/// Skips leading segments of a path that begin with neither a dot nor an escape.
#[inline(always)]
fn after_plain(text: &[u8]) -> &[u8]
    ensures passed { Leaves IsPath text.now result.now }
    ensures within { length result.now ≤ length text.now }
{
    let [b'/', following @ ..] = text else {
        return text;
    };
    if begins_dotted(following) {
        return text;
    }
    let (plain, rest) = split(OPEN, following);
    if !begins_dotted(rest) {
        return rest;
    }
    match &text[plain.len()..] {
        last @ [b'/', ..] => last,
        last => after(SEGMENT, last),
    }
}

/// What follows a path, or `None` if a segment of it is `.` or `..`, where each dot may be escaped.
fn after_path(text: &[u8]) -> Option<&[u8]>
    ensures { IfSome result (λ rest. Leaves IsPath text.now rest.now) }
{
    let mut rest = after_plain(text);
    while let [b'/', following @ ..] = rest {
        if begins_dotted(following) {
            // a shortcut for `..`, without the tables
            if let [b'.', b'.', b'/', ..] = following {
                return None;
            }
            let (segment, more) = split(SEGMENT, following);
            if is_dots(segment) {
                return None;
            }
            rest = more;
        } else {
            rest = after_plain(after(SEGMENT, following));
        }
    }
    Some(rest)
}

/// What follows the delimiter and bytes of the set; all, if the text has no such delimiter.
fn after_delimited<'a>(delimiter: u8, part: &ByteSet, text: &'a [u8]) -> &'a [u8]
    ensures { result.now ≡ after_delimited delimiter part.now text.now }
{
    match text {
        [first, following @ ..] if *first == delimiter => after(part, following),
        _ => text,
    }
}

/// If true, the text is a path, query and fragment that `url` leaves unchanged.
fn is_target(text: &[u8]) -> bool
    ensures { IsTrue result → IsTarget text.now }
{
    let Some(query) = after_path(text) else {
        return false;
    };
    let fragment = after_delimited(b'?', QUERY, query);
    after_delimited(b'#', UNESCAPED, fragment).is_empty()
}

/// The match target of a URL that `url` would leave unchanged, or of which only the slash of the path is
/// missing. `None` says nothing about the URL; that it isn't returned for usual ones is tested.
pub(crate) fn borrowed_target(url: &str) -> Option<&str>
    ensures { IfSome result (λ target. target.now ≡ prepared url.now) }
{
    let target = after_site(url.as_bytes())?;
    match target {
        [] => Some("/"),
        [b'/', ..] if is_target(target) => Some(&url[url.len() - target.len()..]),
        _ => None,
    }
}
