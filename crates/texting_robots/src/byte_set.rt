//! Sets of bytes as tables, in which sixteen bytes are looked up at once.
ghost use Rattle.std.specs.Prelude.{◌≡◌, ◌<◌, ◌≤◌, ◌++◌, length, map, slice_index};
ghost use Rattle.std.specs.{List.prefix_len, Simd.Lanes.Each1};
ghost use Rattle.texting_robots.specs.Internal.ByteSet.{ends_of, is_kept};

use std::simd::prelude::*;

/// A set of ASCII bytes: a byte is in the set if the table has, at the byte's lower half, the bit of its
/// upper half.
pub type ByteSet = [u8; 16];

/// One bit for each upper half of an ASCII byte.
const UPPER: &[u8; 16] = &[1, 2, 4, 8, 16, 32, 64, 128, 0, 0, 0, 0, 0, 0, 0, 0];

/// The entries of the table at these places.
fn looked_up(table: &[u8; 16], places: u8x16) -> u8x16
    requires { Each1 (λ k. k < 16) places }
    ensures { result ≡ map (slice_index table.now) places }
{
    u8x16::from_array(*table).swizzle_dyn_within::<16>(places)
}

/// How many of the sixteen bytes precede the first that isn't in the set.
#[inline(always)]
fn prefix_len_in_sixteen(set: &ByteSet, bytes: u8x16) -> usize
    ensures { result ≡ prefix_len (is_kept set.now) bytes }
{
    let lower = looked_up(set, bytes & u8x16::splat(15));
    let upper = looked_up(UPPER, bytes >> u8x16::splat(4));
    let others = (lower & upper).simd_eq(u8x16::splat(0)).to_bitmask();
    if others == 0 {
        16
    } else {
        others.trailing_zeros() as usize
    }
}

#[tactic(auto, unfolding(crate::specs::Internal::ByteSet::is_kept))]
fn is_in(set: &ByteSet, byte: u8) -> bool
    ensures { result ≡ is_kept set.now byte }
{
    set[usize::from(byte & 15)] & UPPER[usize::from(byte >> 4)] != 0
}

/// The first and then the last four bytes.
#[inline(always)]
fn both_fours(text: &[u8]) -> u8x8
    requires { 4 ≤ length text.now }
    ensures { result ≡ ends_of 4 text.now }
{
    let last = u8x4::from_slice(&text[text.len() - 4..]);
    u8x4::from_slice(text).shuffle(last, [0, 1, 2, 3, 4, 5, 6, 7])
}

/// The first and then the last eight bytes.
#[inline(always)]
fn both_eights(text: &[u8]) -> u8x16
    requires { 8 ≤ length text.now }
    ensures { result ≡ ends_of 8 text.now }
{
    let last = u8x8::from_slice(&text[text.len() - 8..]);
    u8x8::from_slice(text).shuffle(last, [0, 1, 2, 3, 4, 5, 6, 7, 8, 9, 10, 11, 12, 13, 14, 15])
}

/// How many leading bytes of eight to sixteen are in the set.
#[inline(always)]
fn len_by_eights(set: &ByteSet, text: &[u8]) -> usize
    requires { (8 ≤ length text.now) × (length text.now ≤ 16) }
    ensures { result ≡ prefix_len (is_kept set.now) text.now }
{
    let seen = prefix_len_in_sixteen(set, both_eights(text));
    if seen < 8 {
        seen
    } else {
        text.len() + seen - 16
    }
}

/// How many leading bytes of four to eight are in the set.
#[tactic(auto, using(crate::proofs::LaneLemmas::ends_len))]
#[inline(always)]
fn len_by_fours(set: &ByteSet, text: &[u8]) -> usize
    requires { (4 ≤ length text.now) × (length text.now ≤ 8) }
    ensures { result ≡ prefix_len (is_kept set.now) text.now }
{
    let seen = len_by_eights(set, &both_fours(text).to_array());
    if seen < 4 {
        seen
    } else {
        text.len() + seen - 8
    }
}

/// How many leading bytes of at most sixteen are in the set.
#[inline(always)]
fn len_in_few(set: &ByteSet, text: &[u8]) -> usize
    requires { length text.now ≤ 16 }
    ensures { result ≡ prefix_len (is_kept set.now) text.now }
{
    match text.len() {
        0..4 => text.iter().take_while(|byte| is_in(set, **byte)).count(),
        4..8 => len_by_fours(set, text),
        _ => len_by_eights(set, text),
    }
}

/// How many leading bytes are in the set. They are looked up sixteen at a time, and then the last sixteen.
#[tactic(auto, using(crate::proofs::LaneLemmas::sixteen_seen, crate::proofs::LaneLemmas::seen_within))]
#[inline(always)]
pub fn prefix_len_in(set: &ByteSet, text: &[u8]) -> usize
    ensures value { result ≡ prefix_len (is_kept set.now) text.now }
    ensures within { result ≤ length text.now }
{
    let Some(last) = text.len().checked_sub(16) else {
        return len_in_few(set, text);
    };
    let mut at = 0;
    while at < last {
        let len = prefix_len_in_sixteen(set, u8x16::from_slice(&text[at..]));
        if len < 16 {
            return at + len;
        }
        at += 16;
    }
    last + prefix_len_in_sixteen(set, u8x16::from_slice(&text[last..]))
}
