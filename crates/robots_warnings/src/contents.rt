//! Conditions on what the content of a directive has besides its value: white space, a comment, and the text
//! of a delay. Those on a raw value are for directives with a colon.
ghost use Rattle.std.specs.Prelude.{◌≡◌};
ghost use Rattle.robots_warnings.specs.Contents.{comment_of, is_cut, is_cut_to_root, raw_value, tail_of};

use crate::rules::begins_oddly;
use crate::site_patterns::is_whole_site;
use safe_output::bytes::{after_byte, before_byte, has, is_utf8, place, trim_blanks};

/// The tail, which is between the first colon and the comment, and the comment, which starts with `#` or is
/// empty.
pub fn split_content<'a>(body: &'a [u8]) -> (&'a [u8], &'a [u8])
    ensures tail { result.0.now ≡ tail_of body.now }
    ensures comment { result.1.now ≡ comment_of body.now }
{
    let (text, comment) = body.split_at(place(b'#', body));
    (after_byte(b':', text), comment)
}

fn raw_value<'a>(tail: &'a [u8]) -> &'a [u8]
    ensures { result.now ≡ raw_value tail.now }
{
    trim_blanks(tail)
}

pub(crate) fn has_odd_space(value: &[u8], tail: &[u8]) -> bool {
    let raw = raw_value(tail);
    !raw.is_empty() && raw != value
}

pub(crate) fn is_cut(value: &[u8], tail: &[u8], comment: &[u8]) -> bool
    ensures { result ≡ is_cut value.now tail.now comment.now }
{
    !comment.is_empty() && !value.is_empty() && tail.ends_with(value)
}

pub(crate) fn is_cut_to_root(value: &[u8], tail: &[u8], comment: &[u8]) -> bool
    ensures { result ≡ is_cut_to_root value.now tail.now comment.now }
{
    let is_path = comment.starts_with(b"#/") || comment.starts_with(b"#!/");
    (is_cut(value, tail, comment) || (is_path && raw_value(tail).is_empty()))
        && is_whole_site(value)
}

pub(crate) fn is_emptied(value: &[u8], tail: &[u8], comment: &[u8]) -> bool {
    raw_value(tail).is_empty()
        && is_whole_site(value)
        && matches!(comment, [_, letter, ..] if letter.is_ascii_alphanumeric())
}

pub(crate) fn is_cut_short(value: &[u8], tail: &[u8], comment: &[u8]) -> bool {
    is_cut(value, tail, comment) && is_utf8(value) && !begins_oddly(value) && !is_whole_site(value)
}

fn are_digits(text: &[u8]) -> bool {
    !text.is_empty() && text.iter().all(|byte| byte.is_ascii_digit())
}

pub(crate) fn has_odd_delay(tail: &[u8]) -> bool {
    let raw = raw_value(tail);
    !(are_digits(before_byte(b'.', raw)) && (!has(b'.', raw) || are_digits(after_byte(b'.', raw))))
}

pub(crate) fn has_odd_comment(comment: &[u8]) -> bool {
    comment.iter().any(|byte| *byte < b' ' && *byte != b'\t') || !is_utf8(comment)
}
