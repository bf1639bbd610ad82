//! The prefilter: conditions on a text without which a pattern can't match it. Most rules are skipped by them.
ghost use Rattle.std.specs.Prelude.{◌≡◌, ◌+◌, ◌≤◌, length, max, true};
ghost use Rattle.texting_robots.specs.Internal.Segments.{AreApart, ArePrefilter, AreWithin, ending_pairs, IsEnding, pair_set};

pub(crate) mod bigrams;
pub(crate) mod head;

use crate::segments::{Ending, Pattern};
use bigrams::BigramSet;
use head::Head;

/// How a text has to begin, and the bigrams (pairs of adjacent bytes) that have to occur in it.
#[derive(Clone, Copy)]
pub(crate) struct Prefilter {
    pub(crate) head: Head,
    pub(crate) pairs: BigramSet,
}

impl Prefilter {
    pub(crate) fn of(pattern: &Pattern<'_>) -> Self
        ensures { ArePrefilter pattern.now result }
    {
        let head = Head::of(pattern.bytes, pattern.ends.first_len as usize);
        let mut pairs = BigramSet::none();
        for segment in pattern.segments {
            pairs = pairs.and(end_pairs(segment.span.part(pattern.bytes)));
        }
        Prefilter {
            head,
            pairs: pairs.and(ending_pairs(pattern.bytes, pattern.ends.ending)),
        }
    }
}

/// Bigrams of a segment: of a long one those of its ends, as others are rarely new.
fn end_pairs(segment: &[u8]) -> BigramSet
    ensures { AreWithin result.bits (pair_set segment.now) }
{
    let len = segment.len();
    if len > 64 {
        return BigramSet::of(&segment[..32]).and(BigramSet::of(&segment[len - 32..]));
    }
    BigramSet::of(segment)
}

/// The bigrams of what a text has to end with.
fn ending_pairs(pattern: &[u8], ending: Ending) -> BigramSet
    requires { IsEnding pattern.now ending }
    ensures { result.bits ≡ ending_pairs pattern.now ending }
{
    match ending {
        Ending::Last(span) => BigramSet::of(span.part(pattern)),
        _ => BigramSet::none(),
    }
}

/// Whether none of eight masks is a subset of the text's bigrams. No early exit, as that is usual.
fn are_apart(masks: &[u64], from: usize, text: u64) -> bool
    requires { from + 8 ≤ length masks.now }
    ensures { result ≡ true → AreApart masks.now text from (from + 8) }
{
    let mut apart = true;
    for k in 0..8 {
        apart &= masks[from + k] | text != text;
    }
    apart
}

/// The start of the first block of eight with a mask that is a subset of the text's bigrams, or the index
/// from which fewer than eight are left. Not inlined, so that few rules don't pay for it.
#[inline(never)]
pub(crate) fn first_near(masks: &[u64], from: usize, text: u64) -> usize
    ensures from { from ≤ result }
    ensures within { result ≤ max from (length masks.now) }
    ensures apart { AreApart masks.now text from result }
{
    let Some(last) = masks.len().checked_sub(8) else {
        return from;
    };
    let mut at = from;
    while at <= last && are_apart(masks, at, text) {
        at += 8;
    }
    at
}
