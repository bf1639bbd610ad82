//! Where a line ends.
ghost use Rattle.std.specs.Prelude.{◌≡◌, ◌<◌, ◌≤◌, MatchOption, drop, if◌then◌else◌, length, take};
ghost use Rattle.std.specs.List.{list_all};
ghost use Rattle.texting_robots.specs.Cut.{lf};
ghost use Rattle.texting_robots.specs.Internal.Cut.{body_len, empty_lines, end_len, is_feed, read_as};

use crate::lanes::{LANES, all_are, first_lane};
use memchr::{memchr2, memchr3};
use std::simd::prelude::*;

/// How many bytes are compared at once if fewer than `LANES` are left.
const HALF: usize = 16;

fn first_end(text: &[u8], nul_ends: bool) -> Option<usize>
    ensures { let len = body_len (read_as nul_ends text.now) in MatchOption result (len ≡ length text.now)
        (λ end. (len ≡ end) × (end < length text.now)) }
{
    if nul_ends {
        memchr3(b'\r', b'\n', 0, text)
    } else {
        memchr2(b'\r', b'\n', text)
    }
}

/// What ends lines besides CR and LF: NUL, or else LF once more.
fn third_end(nul_ends: bool) -> u8
    ensures { result ≡ (if nul_ends then 0 else lf) }
{
    if nul_ends { 0 } else { b'\n' }
}

/// How many of the first `N` bytes precede the first of them that ends a line.
#[inline(always)]
fn body_len_in<const N: usize>(text: &[u8], nul_ends: bool) -> usize
    requires { (N ≤ length text.now) × (N ≤ 64) }
    ensures { result ≡ body_len (read_as nul_ends (take N text.now)) }
{
    let bytes = Simd::<u8, N>::from_slice(text);
    let ends = bytes.simd_eq(Simd::splat(b'\r'))
        | bytes.simd_eq(Simd::splat(b'\n'))
        | bytes.simd_eq(Simd::splat(third_end(nul_ends)));
    first_lane(ends.to_bitmask(), N)
}

/// [`body_len`] of fewer than `LANES` bytes.
fn short_body_len(text: &[u8], nul_ends: bool) -> usize
    ensures value { result ≡ body_len (read_as nul_ends text.now) }
    ensures within { result ≤ length text.now }
{
    if text.len() < HALF {
        return first_end(text, nul_ends).unwrap_or(text.len());
    }
    let len = body_len_in::<HALF>(text, nul_ends);
    if len < HALF {
        return len;
    }
    let rest = text.split_at(HALF).1;
    HALF + first_end(rest, nul_ends).unwrap_or(rest.len())
}

/// How many bytes precede the first line terminator: all, if there is none.
pub(crate) fn body_len(text: &[u8], nul_ends: bool) -> usize
    ensures value { result ≡ body_len (read_as nul_ends text.now) }
    ensures within { result ≤ length text.now }
{
    let mut rest = text;
    while rest.len() >= LANES {
        let len = body_len_in::<LANES>(rest, nul_ends);
        if len < LANES {
            return text.len() - rest.len() + len;
        }
        rest = rest.split_at(LANES).1;
    }
    text.len() - rest.len() + short_body_len(rest, nul_ends)
}

fn feeds(byte: u8, nul_ends: bool) -> bool
    ensures { result ≡ is_feed nul_ends byte }
{
    byte == b'\n' || nul_ends && byte == 0
}

/// Skips most leading CRs, `LANES` at a time.
#[inline(never)]
fn skip_returns<'a>(text: &'a [u8], nul_ends: bool) -> &'a [u8]
    ensures { drop (end_len (read_as nul_ends result.now)) result.now ≡ drop (end_len (read_as nul_ends text.now)) text.now }
{
    let mut rest = text;
    while rest.len() >= LANES && all_are(&rest[..LANES], b'\r') {
        rest = rest.split_at(LANES).1;
    }
    rest
}

/// Skips most leading CRs if there are at least two. Most terminators have at most one.
#[inline(always)]
fn without_many_returns<'a>(text: &'a [u8], nul_ends: bool) -> &'a [u8]
    ensures { drop (end_len (read_as nul_ends result.now)) result.now ≡ drop (end_len (read_as nul_ends text.now)) text.now }
{
    match text {
        [b'\r', b'\r', ..] => skip_returns(text, nul_ends),
        _ => text,
    }
}

/// What follows a leading line terminator, whatever that is.
#[tactic(auto, using(crate::proofs::CutFromFront::past_return, crate::proofs::CutFromFront::past_feed, crate::proofs::CutFromFront::no_end))]
#[inline(never)]
fn after_any_end<'a>(text: &'a [u8], nul_ends: bool) -> &'a [u8]
    ensures { result.now ≡ drop (end_len (read_as nul_ends text.now)) text.now }
{
    let mut rest = without_many_returns(text, nul_ends);
    while let [b'\r', after @ ..] = rest {
        rest = after;
    }
    match rest {
        [byte, after @ ..] if feeds(*byte, nul_ends) => after,
        _ => rest,
    }
}

/// What follows a leading line terminator. A single LF, as usual, needs no call.
#[tactic(auto, using(crate::proofs::CutFromFront::past_line_feed))]
#[inline(always)]
pub(crate) fn after_end<'a>(text: &'a [u8], nul_ends: bool) -> &'a [u8]
    ensures { result.now ≡ drop (end_len (read_as nul_ends text.now)) text.now }
{
    match text {
        [b'\n', after @ ..] => after,
        _ => after_any_end(text, nul_ends),
    }
}

/// Tests all bytes without an early exit, so that the compiler can vectorize the loop.
fn all_feed(bytes: &[u8], nul_ends: bool) -> bool
    ensures { result ≡ list_all (is_feed nul_ends) bytes.now }
{
    let mut all = true;
    for byte in bytes {
        all &= feeds(*byte, nul_ends);
    }
    all
}

/// Counts the leading empty lines up to one with a CR, one by one.
fn few_empty_lines(text: &[u8], nul_ends: bool) -> usize
    ensures value { result ≡ empty_lines nul_ends text.now }
    ensures within { result ≤ length text.now }
{
    text.iter()
        .take_while(|byte| feeds(**byte, nul_ends))
        .count()
}

/// Counts the leading empty lines up to one with a CR, `LANES` at a time.
#[inline(never)]
fn many_empty_lines(text: &[u8], nul_ends: bool) -> usize
    ensures value { result ≡ empty_lines nul_ends text.now }
    ensures within { result ≤ length text.now }
{
    let mut rest = text;
    while rest.len() >= LANES && all_feed(&rest[..LANES], nul_ends) {
        rest = rest.split_at(LANES).1;
    }
    text.len() - rest.len() + few_empty_lines(rest, nul_ends)
}

/// Counts the leading empty lines up to one with a CR. If none, nothing is called.
#[tactic(auto, using(crate::proofs::CutFromFront::no_empty_line))]
#[inline(always)]
fn some_empty_lines(text: &[u8], nul_ends: bool) -> usize
    ensures value { result ≡ empty_lines nul_ends text.now }
    ensures within { result ≤ length text.now }
{
    match text {
        [first, ..] if feeds(*first, nul_ends) => many_empty_lines(text, nul_ends),
        _ => 0,
    }
}

/// Counts the leading empty lines up to one with a CR. If at most one, nothing is called.
#[tactic(auto, using(crate::proofs::CutFromFront::no_empty_line, crate::proofs::CutFromFront::an_empty_line))]
#[inline(always)]
pub(crate) fn empty_lines(text: &[u8], nul_ends: bool) -> usize
    ensures value { result ≡ empty_lines nul_ends text.now }
    ensures within { result ≤ length text.now }
{
    match text {
        [first, after @ ..] if feeds(*first, nul_ends) => 1 + some_empty_lines(after, nul_ends),
        _ => 0,
    }
}
