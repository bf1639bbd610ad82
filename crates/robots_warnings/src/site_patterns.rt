//! Patterns of a whole site, of its home page, and of little of it.
ghost use Rattle.std.specs.{Prelude.◌≡◌, Prelude.nat_eq, List.list_all, List.list_any, List.starts_with};
ghost use Rattle.robots_warnings.specs.Closed.{are_signs, begins_name_end, is_anything, is_file_end};
ghost use Rattle.robots_warnings.specs.Closed.{is_name_end, is_root, is_star_or_dollar, is_whole_site};
ghost use Rattle.robots_warnings.specs.Closed.{matches_no_path, opens_little, without_stars};

use crate::rules::{begins_oddly, has_dollar_inside};
use safe_output::bytes::somewhere;

/// How the names of static files end.
pub(crate) const STATIC_FILES: [&str; 15] = [
    ".css", ".js", ".png", ".jpg", ".jpeg", ".gif", ".svg", ".ico", ".webp", ".woff", ".woff2",
    ".ttf", ".txt", ".xml", ".json",
];

/// How other paths begin that crawlers fetch besides pages.
pub(crate) const WELL_KNOWN: [&str; 2] = ["/.well-known", "/sitemap"];

fn are_file_ends(text: &[u8]) -> bool
    ensures { result ≡ list_all is_file_end text.now }
{
    text.iter().all(|byte| matches!(*byte, b'*' | b'$' | b'?'))
}

fn is_name_end(text: &[u8], end: &[u8]) -> bool
    ensures { result ≡ is_name_end text.now end.now }
{
    text.starts_with(end) && are_file_ends(&text[end.len()..])
}

fn begins_one_of(ends: &[&str], text: &[u8]) -> bool
    ensures { result ≡ list_any (λ end. is_name_end text.now end.now) ends.now }
{
    ends.iter().any(|end| is_name_end(text, end.as_bytes()))
}

fn begins_name_end(text: &[u8]) -> bool
    ensures { result ≡ begins_name_end text.now }
{
    begins_one_of(&STATIC_FILES, text)
}

fn begins_as_one_of(starts: &[&str], pattern: &[u8]) -> bool
    ensures { result ≡ list_any (λ start. starts_with nat_eq pattern.now start.now) starts.now }
{
    starts
        .iter()
        .any(|start| pattern.starts_with(start.as_bytes()))
}

/// Only static files, paths that are known to every crawler, or the home page and no other one.
pub(crate) fn opens_little(pattern: &[u8]) -> bool
    ensures { result ≡ opens_little pattern.now }
{
    (somewhere(pattern, begins_name_end) || pattern == b"/$".as_slice())
        || begins_as_one_of(&WELL_KNOWN, pattern)
}

fn are_stars_or_dollars(text: &[u8]) -> bool
    ensures { result ≡ list_all is_star_or_dollar text.now }
{
    text.iter().all(|byte| *byte == b'*' || *byte == b'$')
}

fn is_anything(value: &[u8]) -> bool
    ensures { result ≡ is_anything value.now }
{
    match value {
        [b'*', rest @ ..] => are_stars_or_dollars(rest),
        _ => false,
    }
}

fn is_root(value: &[u8]) -> bool
    ensures { result ≡ is_root value.now }
{
    match value {
        [b'/', rest @ ..] => rest.is_empty() || is_anything(rest),
        _ => false,
    }
}

fn without_stars<'a>(value: &'a [u8]) -> &'a [u8]
    ensures { result.now ≡ without_stars value.now }
{
    let mut rest = value;
    while let [b'*', after @ ..] = rest {
        rest = after;
    }
    rest
}

fn are_signs(value: &[u8]) -> bool
    ensures { result ≡ are_signs value.now }
{
    value
        .iter()
        .all(|byte| (*byte == b'*' || *byte == b'$') || *byte == b'/')
}

pub fn is_whole_site(value: &[u8]) -> bool
    ensures { result ≡ is_whole_site value.now }
{
    are_signs(value) && (is_anything(value) || is_root(without_stars(value)))
}

/// Whether a rule's value matches the path `/`: `/$` does, and so does every pattern of the whole site.
pub(crate) fn is_home(value: &[u8]) -> bool {
    match without_stars(value) {
        [b'/', rest @ ..] => are_stars_or_dollars(rest),
        _ => is_anything(value),
    }
}

pub(crate) fn matches_no_path(pattern: &[u8]) -> bool
    ensures { result ≡ matches_no_path pattern.now }
{
    begins_oddly(pattern) || has_dollar_inside(pattern)
}

pub(crate) fn has_star_or_dollar(text: &[u8]) -> bool
    ensures { result ≡ list_any is_star_or_dollar text.now }
{
    text.iter().any(|byte| *byte == b'*' || *byte == b'$')
}
