//! Values as most are: without a comment, and without a byte that has to be escaped.
ghost use Rattle.std.specs.Prelude.{IfSome};
ghost use Rattle.texting_robots.specs.Internal.Plain.{IsPlain};

use crate::byte_set::{ByteSet, prefix_len_in};
use crate::segments::is_wildcard;

/// The bytes that need no escape, without `#`.
const PLAIN: &ByteSet = &[
    184, 252, 248, 248, 252, 252, 252, 252, 252, 252, 252, 252, 244, 252, 244, 124,
];

/// The bytes of `PLAIN` without wildcards.
const LITERAL: &ByteSet = &[
    184, 252, 248, 248, 248, 252, 252, 252, 252, 252, 248, 252, 244, 252, 244, 124,
];

/// The index of the first wildcard, or the length, of a text that isn't empty and in which no byte is `#` or
/// has to be escaped. `None` says nothing about the text.
#[tactic(auto, using(crate::proofs::PlainLemmas::literal_is_plain, crate::proofs::PlainLemmas::wildcard_is_plain))]
#[inline(always)]
pub(crate) fn first_in_plain(text: &[u8]) -> Option<usize>
    ensures { IfSome result (IsPlain text.now) }
{
    if text.is_empty() {
        return None;
    }
    let first = prefix_len_in(LITERAL, text);
    if first == text.len() {
        return Some(first);
    }
    if is_wildcard(text[first]) && prefix_len_in(PLAIN, text) == text.len() {
        return Some(first);
    }
    None
}
