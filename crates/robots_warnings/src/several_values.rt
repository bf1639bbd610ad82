//! Values of a rule or a sitemap that seem to be several ones.

use crate::table::Cause;
use safe_output::bytes::{from_first, somewhere};

fn begins_wide_space(text: &[u8]) -> bool {
    matches!(
        text,
        [0xC2, 0x85 | 0xA0, ..]
            | [0xE1, 0x9A, 0x80, ..]
            | [0xE2, 0x80, 0x80..=0x8A | 0xA8 | 0xA9 | 0xAF, ..]
            | [0xE2, 0x81, 0x9F, ..]
            | [0xE3, 0x80, 0x80, ..]
    )
}

pub(crate) fn begins_unseen(text: &[u8]) -> bool {
    matches!(
        text,
        [0xC2, 0xAD, ..] | [0xE2, 0x80, 0x8B, ..] | [0xE2, 0x81, 0xA0, ..] | [0xEF, 0xBB, 0xBF, ..]
    )
}

fn begins_list(text: &[u8]) -> bool {
    match text {
        [b',' | b';', after @ ..] => after.starts_with(b"/") || after.starts_with(b"http"),
        _ => false,
    }
}

fn begins_tag(text: &[u8]) -> bool {
    match text {
        [b'<', next, ..] => next.is_ascii_alphabetic() || *next == b'/' || *next == b'!',
        _ => false,
    }
}

pub(crate) fn has_tag(value: &[u8]) -> bool {
    somewhere(value, begins_tag)
}

fn begins_next_value(text: &[u8]) -> bool {
    match text {
        [0..=b' ', ..] => true,
        _ => {
            begins_list(text) || begins_tag(text) || begins_wide_space(text) || begins_unseen(text)
        }
    }
}

/// The rest of the value seems to begin the next one.
fn cause_of(rest: &[u8]) -> Cause {
    if begins_list(rest) {
        Cause::CommaInValue
    } else if begins_tag(rest) {
        Cause::TagInValue
    } else if begins_unseen(rest) {
        Cause::UnseenInValue
    } else {
        Cause::SpaceInValue
    }
}

/// Whether the value seems to be several ones, and the warning for it.
pub(crate) fn several_values(value: &[u8]) -> (Cause, bool) {
    let rest = from_first(value, begins_next_value);
    (cause_of(rest), !rest.is_empty())
}
