//! Conditions on the value of an Allow or a Disallow line.
ghost use Rattle.std.specs.{Prelude.◌≡◌};
ghost use Rattle.robots_warnings.specs.Rules.{begins_lone_percent, begins_oddly, has_dollar_inside};

use rfc9309::target::begins_as_url;
use safe_output::bytes::{
    after_byte, before_byte, from_first, has, hex_value, needs_no_escape, somewhere,
};

pub(crate) fn begins_oddly(value: &[u8]) -> bool
    ensures { result ≡ begins_oddly value.now }
{
    !matches!(value, [] | [b'/' | b'*', ..])
}

fn has_any(bytes: &[u8], text: &[u8]) -> bool {
    text.iter().any(|byte| has(*byte, bytes))
}

pub(crate) fn holds_otherwise(value: &[u8]) -> bool {
    has_any(b"\t\\^{}", before_byte(b'?', value)) || has_any(b"\t'`", after_byte(b'?', value))
}

pub(crate) fn begins_lone_percent(text: &[u8]) -> bool
    ensures { result ≡ begins_lone_percent text.now }
{
    match text {
        [b'%', high, low, ..] => !(high.is_ascii_hexdigit() && low.is_ascii_hexdigit()),
        [b'%', ..] => true,
        _ => false,
    }
}

pub(crate) fn has_odd_character(value: &[u8]) -> bool {
    has_any(b"|\"<>`\x7F", value)
        || somewhere(value, begins_lone_percent)
        || has_any(b"\\^{}'", after_byte(b'?', value))
        || has_any(b"\\^{}'", after_byte(b'*', value))
}

fn begins_quote(text: &[u8]) -> bool {
    matches!(
        text,
        [0xE2, 0x80, 0x98..=0x9F, ..] | [0xC2, 0xAB | 0xBB, ..]
    )
}

pub(crate) fn has_quote_at_end(value: &[u8]) -> bool {
    let rest = from_first(value, begins_quote);
    !begins_quote(value) && begins_quote(rest) && matches!(rest, [0xE2, _, _] | [0xC2, _])
}

pub(crate) fn is_quoted(value: &[u8]) -> bool {
    matches!(value, [b'"', .., b'"'] | [b'\'', .., b'\'']) || begins_quote(value)
}

pub(crate) fn has_odd_start(value: &[u8]) -> bool {
    begins_oddly(value) && !(begins_as_url(value) || is_quoted(value))
}

fn begins_host(text: &[u8]) -> bool {
    match text {
        [b'/', name @ ..] => has(b'/', name) && has(b'.', before_byte(b'/', name)),
        _ => false,
    }
}

pub(crate) fn is_url_in_path(value: &[u8]) -> bool {
    match value {
        [b'/', after @ ..] => begins_as_url(after) || begins_host(after),
        _ => false,
    }
}

/// The value is a slash, and then only letters, digits, slashes, `-` and `_`. So none of the warnings about
/// values of rules is about it.
pub(crate) fn is_plain(value: &[u8]) -> bool {
    match value {
        [b'/', rest @ ..] => rest.iter().all(|byte| byte.is_ascii_alphanumeric()
            || matches!(*byte, b'/' | b'-' | b'_')),
        _ => false,
    }
}

fn begins_sign(text: &[u8]) -> bool {
    match text {
        [b'[', _, b'-', _, ..] | [b'/' | b'(', b'.', b'*', ..] | [b'.', b'*', b'$', ..] => true,
        [b'(', b'?', ..] => true,
        [b'\\', letter, ..] => letter.is_ascii_alphanumeric(),
        _ => false,
    }
}

pub(crate) fn is_expression(value: &[u8]) -> bool {
    value.starts_with(b"^")
        || value.starts_with(b".*")
        || has(b')', after_byte(b'|', after_byte(b'(', value)))
        || somewhere(value, begins_sign)
        || value.ends_with(b".+")
        || value.ends_with(b"]+")
        || value.ends_with(b")+")
}

fn begins_question_marks(text: &[u8]) -> bool {
    text.starts_with(b"??")
}

pub(crate) fn has_question_marks(value: &[u8]) -> bool {
    somewhere(value, begins_question_marks)
}

pub(crate) fn has_dollar_inside(value: &[u8]) -> bool
    ensures { result ≡ has_dollar_inside value.now }
{
    after_byte(b'$', value)
        .iter()
        .any(|byte| !(*byte == b'*' || *byte == b'$'))
}

pub(crate) fn has_more_after_dollar(value: &[u8]) -> bool {
    !after_byte(b'$', value).is_empty() && !has_dollar_inside(value)
}

/// A reserved character of RFC 3986, but not `*` or `$`, which are special in a rule, nor `#`, which no path or
/// query has, nor `'`, which is written `%27` in the query of a URL.
pub(crate) fn is_delimiter(byte: u8) -> bool {
    has(byte, b":/?[]@!&()+,;=")
}

pub(crate) fn begins_odd_escape(text: &[u8]) -> bool {
    match text {
        [b'%', high, low, ..] if high.is_ascii_hexdigit() && low.is_ascii_hexdigit() => {
            high.is_ascii_lowercase()
                || low.is_ascii_lowercase()
                || needs_no_escape(hex_value(*high) * 16 + hex_value(*low))
        }
        _ => false,
    }
}

fn begins_wildcard(text: &[u8]) -> bool {
    text.starts_with(b"%2A") || text.starts_with(b"%2a") || text.starts_with(b"%24")
}

pub(crate) fn has_wildcard(value: &[u8]) -> bool {
    somewhere(value, begins_wildcard)
}

pub(crate) fn begins_delimiter(text: &[u8]) -> bool {
    match text {
        [b'%', high, low, ..] if high.is_ascii_hexdigit() && low.is_ascii_hexdigit() => {
            is_delimiter(hex_value(*high) * 16 + hex_value(*low))
        }
        _ => false,
    }
}

fn begins_dot_segment(text: &[u8]) -> bool {
    text.starts_with(b"/.")
        && (text.starts_with(b"/./")
            || text.starts_with(b"/../")
            || text == b"/.$".as_slice()
            || text == b"/..$".as_slice())
}

/// Whether the path has a segment `.` or `..`.
pub(crate) fn has_dot_segment(value: &[u8]) -> bool {
    somewhere(before_byte(b'?', value), begins_dot_segment)
}
