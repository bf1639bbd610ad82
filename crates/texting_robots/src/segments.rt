//! The segments of a pattern, which are the bytes between its stars, with their Knuth-Morris-Pratt failure tables.
ghost use Rattle.std.specs.Prelude.{◌≡◌, ℕ, ◌+◌, ◌-◌, ◌≤◌, ◌↔◌, ◌++◌, ◌==◌, IsTrue, IfOk, length, take};
ghost use Rattle.std.specs.Option.{IfSome};
ghost use Rattle.std.specs.List.{list_all, position_or_len, prefix_len};
ghost use Rattle.texting_robots.specs.Internal.Segments.{IsTable};
ghost use Rattle.texting_robots.specs.Internal.Segments.{AddsSegments, AreSegments, Closes, IsCutAtWildcard, IsSpan, is_wildcard, part_of};
ghost use Rattle.texting_robots.specs.Pattern.{IsOverlong, collapsed, star};

use crate::lanes::{LANES, all_are, first_lane};
use std::alloc::AllocError;
use std::marker::Model;
use std::simd::prelude::*;

pub(crate) const STAR: u8 = b'*';

const DOLLAR: u8 = b'$';

/// How many bytes a pattern with `$` may have, each run of stars counted as one.
const LONGEST_WITH_DOLLAR: usize = 4096;

/// A range of indexes of a list, in four bytes each, so that rules are small.
#[derive(Clone, Copy)]
pub(crate) struct Span {
    pub(crate) start: u32,
    pub(crate) end: u32,
}

impl Span {
    pub(crate) fn between(start: usize, end: usize) -> Result<Self, AllocError>
        ensures { IfOk result (λ span. span ≡ record { start = start; end = end }) }
    {
        Ok(Span {
            start: narrow(start)?,
            end: narrow(end)?,
        })
    }

    pub(crate) fn len(&self) -> u32
        ensures { result ≡ self.now.end - self.now.start }
    {
        self.end.saturating_sub(self.start)
    }

    #[inline(always)]
    pub(crate) fn part<'a, T>(&self, items: &'a [T]) -> &'a [T]
        requires { IsSpan items.now self.now }
        ensures { result.now ≡ part_of items.now self.now }
    {
        &items[self.start as usize..self.end as usize]
    }
}

/// A number in 32 bits, as rules are kept. One that has more counts as a lack of memory.
pub(crate) fn narrow(number: usize) -> Result<u32, AllocError>
    ensures { IfOk result (λ narrow. narrow ≡ number) }
{
    match u32::try_from(number) {
        Ok(narrow) => Ok(narrow),
        Err(_) => Err(AllocError),
    }
}

/// A segment that may occur anywhere after the one before, and where its failure table begins in the list of
/// all.
#[derive(Clone, Copy)]
pub(crate) struct Segment {
    pub(crate) span: Span,
    pub(crate) table: u32,
}

/// What has to follow the segments that are searched for.
#[derive(Clone, Copy)]
pub(crate) enum Ending {
    /// Anything: the pattern has no dollar.
    Open,
    /// The end of the text, right after the first segment: a dollar precedes any star.
    Closed,
    /// The bytes between the last star and the dollar, at the end of the text.
    Last(Span),
    /// The pattern matches no text: a byte other than a star or a dollar follows the dollar.
    Never,
}

/// How many bytes precede the first star or dollar, and what has to follow the segments that are searched for.
#[derive(Clone, Copy)]
pub(crate) struct Ends {
    pub(crate) first_len: u32,
    pub(crate) ending: Ending,
}

/// A pattern, borrowed with its segments.
#[derive(Drop)]
pub(crate) struct Pattern<'a> {
    pub(crate) bytes: &'a [u8],
    pub(crate) ends: Ends,
    pub(crate) segments: &'a [Segment],
    pub(crate) borders: &'a [u32],
}

impl<'a> Model for Pattern<'a> {
    ghost use Rattle.std.specs.Prelude.{ℕ, List};
    ghost use Rattle.texting_robots.specs.Internal.Segments.{AreSegments};

    ghost Value = { List ℕ };

    ghost view = { λ p. p.bytes.now };

    ghost invariant = { λ p. AreSegments p.bytes.now p.ends p.segments.now p.borders.now };
}

impl<'a> Pattern<'a> {
    pub(crate) fn new(
        bytes: &'a [u8],
        ends: Ends,
        segments: &'a [Segment],
        borders: &'a [u32],
    ) -> Self
        requires { AreSegments bytes.now ends segments.now borders.now }
        ensures { result ≡ bytes.now }
    {
        Pattern {
            bytes,
            ends,
            segments,
            borders,
        }
    }
}

pub(crate) fn is_wildcard(byte: u8) -> bool
    ensures { result ≡ is_wildcard byte }
{
    byte == STAR || byte == DOLLAR
}

/// The index of the first wildcard in the first `N` bytes, or `N`. They are compared at once.
#[inline(always)]
fn wildcard_in<const N: usize>(pattern: &[u8]) -> usize
    requires { (N ≤ length pattern.now) × (N ≤ 64) }
    ensures { result ≡ position_or_len is_wildcard (take N pattern.now) }
{
    let bytes = Simd::<u8, N>::from_slice(pattern);
    let labels = bytes.simd_eq(Simd::splat(STAR)) | bytes.simd_eq(Simd::splat(DOLLAR));
    first_lane(labels.to_bitmask(), N)
}

/// The first and then the last `N` bytes, which may overlap, and are all.
#[tactic(auto, using(crate::proofs::LaneLemmas::first_seen, crate::proofs::LaneLemmas::last_seen, crate::proofs::LaneLemmas::within_front))]
#[inline(always)]
fn wildcard_by_ends<const N: usize>(pattern: &[u8]) -> usize
    requires { (N ≤ length pattern.now) × (length pattern.now ≤ N + N) × (N ≤ 64) }
    ensures { result ≡ position_or_len is_wildcard pattern.now }
{
    let first = wildcard_in::<N>(pattern);
    if first < N {
        return first;
    }
    let last = pattern.len() - N;
    last + wildcard_in::<N>(&pattern[last..])
}

/// Four bytes or more are compared as two parts of equal length.
#[inline(always)]
fn wildcard_in_few(pattern: &[u8]) -> usize
    requires { length pattern.now ≤ 32 }
    ensures { result ≡ position_or_len is_wildcard pattern.now }
{
    match pattern.len() {
        0..4 => pattern.iter().take_while(|b| !is_wildcard(**b)).count(),
        4..8 => wildcard_by_ends::<4>(pattern),
        8..16 => wildcard_by_ends::<8>(pattern),
        _ => wildcard_by_ends::<16>(pattern),
    }
}

/// The index of the first wildcard, or the length. Many bytes are compared sixteen at a time.
fn first_wildcard(pattern: &[u8]) -> usize
    ensures { result ≡ position_or_len is_wildcard pattern.now }
{
    let mut rest = pattern;
    while rest.len() > 32 {
        let first = wildcard_in::<16>(rest);
        if first < 16 {
            return pattern.len() - rest.len() + first;
        }
        rest = rest.split_at(16).1;
    }
    pattern.len() - rest.len() + wildcard_in_few(rest)
}

/// The index of the first wildcard, which may be known.
#[inline(always)]
fn wildcard_at(pattern: &[u8], known: Option<usize>) -> usize
    requires { IfSome known (λ first. first ≡ position_or_len is_wildcard pattern.now) }
    ensures { result ≡ position_or_len is_wildcard pattern.now }
{
    match known {
        Some(first) => first,
        None => first_wildcard(pattern),
    }
}

#[tactic(auto, using(crate::proofs::SegmentLemmas::cut_at_first))]
fn cut_at_wildcard(pattern: &[u8], known: Option<usize>) -> (&[u8], &[u8])
    requires { IfSome known (λ first. first ≡ position_or_len is_wildcard pattern.now) }
    ensures { IsCutAtWildcard pattern.now result.0.now result.1.now }
{
    pattern.split_at(wildcard_at(pattern, known))
}

/// How many leading stars there are, counted one by one.
fn few_stars_len(pattern: &[u8]) -> usize
    ensures value { result ≡ prefix_len (λ b. b == star) pattern.now }
    ensures within { result ≤ length pattern.now }
{
    pattern.iter().take_while(|b| **b == STAR).count()
}

/// How many leading stars there are; many are counted `LANES` at a time.
fn stars_len(pattern: &[u8]) -> usize
    ensures value { result ≡ prefix_len (λ b. b == star) pattern.now }
    ensures within { result ≤ length pattern.now }
{
    let mut rest = pattern;
    while rest.len() >= LANES && all_are(&rest[..LANES], STAR) {
        rest = rest.split_at(LANES).1;
    }
    pattern.len() - rest.len() + few_stars_len(rest)
}

fn only_wildcards(pattern: &[u8]) -> bool
    ensures { result ≡ list_all is_wildcard pattern.now }
{
    pattern.iter().all(|b| is_wildcard(*b))
}

/// Whether the pattern matches only the end of a text: a dollar and then only wildcards.
#[tactic(auto, using(crate::proofs::SegmentLemmas::only_wildcards_match, std::proofs::lemmas::Slice::Eq::strip_prefix_is))]
fn closes(pattern: &[u8]) -> bool
    ensures { IsTrue result ↔ Closes pattern.now }
{
    match pattern.strip_prefix(b"$") {
        Some(following) => only_wildcards(following),
        None => false,
    }
}

/// The length, with each run of stars counted as one.
#[tactic(auto, using(crate::proofs::CollapseLemmas::length_last, crate::proofs::CollapseLemmas::length_plain, crate::proofs::CollapseLemmas::star_starts, crate::proofs::CollapseLemmas::length_merged, crate::proofs::CollapseLemmas::length_none))]
fn collapsed_len(pattern: &[u8]) -> usize
    ensures { result ≡ length (collapsed pattern.now) }
{
    let mut len = 0;
    let mut rest = pattern;
    while let Some((byte, after)) = rest.split_first() {
        if *byte != STAR || !after.starts_with(b"*") {
            len += 1;
        }
        rest = after;
    }
    len
}

#[tactic(auto, using(crate::proofs::CollapseLemmas::collapsed_within))]
pub(crate) fn is_overlong(pattern: &[u8]) -> bool
    ensures { IsTrue result ↔ IsOverlong pattern.now }
{
    if pattern.len() <= LONGEST_WITH_DOLLAR {
        return false;
    }
    pattern.contains(&DOLLAR) && collapsed_len(pattern) > LONGEST_WITH_DOLLAR
}

/// Appends the length of the longest border of each prefix of a segment, except the empty one and the segment
/// itself. A border is a shorter prefix that is also a suffix.
fn push_borders(borders: &mut Vec<u32>, segment: &[u8]) -> Result<(), AllocError>
    ensures { IfOk result (λ _. (table : _) × (borders.new.items ≡ borders.old.items ++ table)
        × IsTable segment.now table) }
{
    if segment.len() < 2 {
        return Ok(());
    }
    // each border is shorter than the segment
    narrow(segment.len())?;
    let table = borders.len();
    borders.reserve(segment.len() - 1)?;
    borders.push_reserved(0);
    let mut position = 1;
    let mut matched = 0;
    while position < segment.len() - 1 {
        if segment[position] == segment[matched] {
            matched += 1;
        } else if matched > 0 {
            matched = borders[table + matched - 1] as usize;
            continue;
        }
        position += 1;
        borders.push_reserved(matched as u32);
    }
    Ok(())
}

/// Cuts a pattern, and appends the segments that are searched for and their failure tables. The index of the
/// first wildcard may be known.
pub(crate) fn push_segments(
    pattern: &[u8],
    first: Option<usize>,
    segments: &mut Vec<Segment>,
    borders: &mut Vec<u32>,
) -> Result<Ends, AllocError>
    requires { IfSome first (λ first. first ≡ position_or_len is_wildcard pattern.now) }
    ensures { IfOk result (λ ends. AddsSegments pattern.now ends segments.old.items segments.new.items
        borders.old.items borders.new.items) }
{
    let (segment, mut left) = cut_at_wildcard(pattern, first);
    let first_len = narrow(segment.len())?;
    while let Some(following) = left.strip_prefix(b"*") {
        let (_, following) = following.split_at(stars_len(following));
        let (segment, rest) = cut_at_wildcard(following, None);
        let span = Span::between(pattern.len() - following.len(), pattern.len() - rest.len())?;
        if closes(rest) {
            let ending = Ending::Last(span);
            return Ok(Ends { first_len, ending });
        }
        let table = narrow(borders.len())?;
        push_borders(borders, segment)?;
        segments.push(Segment { span, table })?;
        left = rest;
    }
    let ending = if left.is_empty() {
        Ending::Open
    } else if closes(left) {
        Ending::Closed
    } else {
        Ending::Never
    };
    Ok(Ends { first_len, ending })
}
