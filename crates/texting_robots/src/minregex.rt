//! Patterns of rules: `*` matches any bytes, and `$` matches at the end of the text.
ghost use Rattle.std.specs.Prelude.{◌≡◌, ◌+◌, ◌*◌, ◌↔◌, ◌==◌, IsTrue, IfErr, IfOk, OnOk, length};
ghost use Rattle.std.specs.Prelude.{string_bytes};
ghost use Rattle.std.specs.Cmp.{partial_order_from_own_ties, Lexicographic.pointwise, Rules.comparing};
ghost use Rattle.std.{specs.Ordering.as_partial_cmp, specs.Ordering.on, proofs.Common.rules};
ghost use Rattle.texting_robots.specs.{Internal.Segments.IsCutAtStar, Error.IsMemoryErrorOr};
ghost use Rattle.texting_robots.specs.{Order.IsBefore, Order.pattern_cmp, View.LooksAtMost};
ghost use Rattle.texting_robots.specs.Pattern.{IsOverlong, Matches, MatchesStars, collapsed};

use crate::error::Error;
use crate::haystack::{Uncounted, after_first};
use crate::segments::{Ends, Pattern, STAR, Segment, is_overlong, push_segments};
use crate::view::View;
use memchr::memchr;
use std::alloc::{AllocError, Global};
use std::cmp::Ordering;
use std::fmt::{self, Debug, Formatter};
use std::marker::Model;

/// A pattern, ready for matching. By `cmp` the longer one is first, before collapsing, and patterns of the
/// same length are ordered by bytes.
#[derive(Drop)]
pub struct MinRegex {
    pattern: String,
    collapsed_text: String,
    ends: Ends,
    segments: Vec<Segment>,
    /// The failure tables of the segments.
    borders: Vec<u32>,
}

impl Model for MinRegex {
    ghost use Rattle.std.specs.Prelude.{◌≡◌, ℕ, List, string_bytes};
    ghost use Rattle.texting_robots.specs.{Internal.Segments.AreSegments, Pattern.collapsed};

    ghost Value = { List ℕ };

    ghost view = { λ r. string_bytes r.pattern };

    ghost invariant = { λ r. (string_bytes r.collapsed_text ≡ collapsed (string_bytes r.pattern))
        × AreSegments (string_bytes r.pattern) r.ends r.segments.items r.borders.items };
}

impl MinRegex {
    /// A pattern of these bytes, which aren't escaped here.
    ///
    /// # Errors
    ///
    /// `Error::InvalidRule` if the pattern contains `$` and has more than 4,096 bytes, each run of stars
    /// counted as one. `Error::Memory` if an allocation fails, or if an index into the pattern needs more
    /// than 32 bits.
    pub fn new(alloc: Global, pattern: &str) -> Result<Self, Error>
        ensures ok { IfOk result (λ regex. regex ≡ pattern.now) }
        ensures accepted { OnOk result (¬ IsOverlong pattern.now) }
        ensures rejected { IfErr result (IsMemoryErrorOr (IsOverlong pattern.now)) }
    {
        if is_overlong(pattern.as_bytes()) {
            return Err(Error::InvalidRule);
        }
        let collapsed_text = collapse_stars(alloc, pattern)?;
        let mut segments = Vec::new(alloc);
        let mut borders = Vec::new(alloc);
        let ends = push_segments(pattern.as_bytes(), None, &mut segments, &mut borders)?;
        let pattern = String::from_str(alloc, pattern)?;
        Ok(MinRegex {
            pattern,
            collapsed_text,
            ends,
            segments,
            borders,
        })
    }

    /// An equal pattern.
    pub fn clone(&self, alloc: Global) -> Result<Self, Error>
        ensures ok { IfOk result (λ regex. regex ≡ self.now) }
        ensures memory { IfErr result (λ e. e ≡ Error.Memory) }
    {
        Ok(MinRegex {
            pattern: String::from_str(alloc, self.pattern.as_str())?,
            collapsed_text: String::from_str(alloc, self.collapsed_text.as_str())?,
            ends: self.ends,
            segments: self.segments.to_vec(alloc)?,
            borders: self.borders.to_vec(alloc)?,
        })
    }

    /// Whether the pattern matches from the start of the view's text, not necessarily up to its end. It
    /// takes at most 2 × (length of the text) looks.
    pub fn matches_view(&self, view: &mut View<'_>) -> bool
        ensures answer { IsTrue result ↔ Matches self.now view.old.text }
        ensures looks { LooksAtMost view.old view.new (2 * length view.old.text) }
    {
        self.as_pattern().matches(view)
    }

    fn as_pattern(&self) -> Pattern<'_>
        ensures { result ≡ self.now }
    {
        Pattern::new(
            self.pattern.as_bytes(),
            self.ends,
            &self.segments,
            &self.borders,
        )
    }

    /// Whether the pattern matches from the start of the text, not necessarily up to its end.
    pub fn is_match(&self, text: &str) -> bool
        ensures { IsTrue result ↔ Matches self.now text.now }
    {
        self.as_pattern()
            .matches(&mut Uncounted::new(text.as_bytes()))
    }

    /// Whether `pattern` matches from the start of the text, with `$` as an ordinary byte. `self`
    /// isn't used.
    pub fn match_stars(&self, pattern: &[u8], text: &[u8]) -> bool
        ensures { IsTrue result ↔ MatchesStars pattern.now text.now }
    {
        let (first, mut left) = cut_at_star(pattern);
        let Some(mut rest) = text.strip_prefix(first) else {
            return false;
        };
        while let Some(pattern) = left {
            let (segment, next) = cut_at_star(pattern);
            let Some(following) = after_first(rest, segment) else {
                return false;
            };
            rest = following;
            left = next;
        }
        true
    }

    /// The pattern, collapsed: with one star in place of each run of stars.
    pub fn as_str(&self) -> &str
        ensures { result.now ≡ collapsed self.now }
    {
        self.collapsed_text.as_str()
    }
}

impl Debug for MinRegex {
    fn fmt<W: fmt::Write>(&self, f: &mut Formatter<W>) -> fmt::Result {
        f.debug_tuple("MinRegex").field(&self.pattern).finish()
    }
}

impl PartialEq for MinRegex {
    ghost eq = { on (λ p. p) (pointwise ◌==◌) };

    ghost laws = { Prim.search (comparing, rules) };

    fn eq(&self, other: &MinRegex) -> bool
        ensures { IsTrue result ↔ (self.now ≡ other.now) }
    {
        self.pattern.as_str() == other.pattern.as_str()
    }
}

impl Eq for MinRegex {
    ghost laws = { Prim.search (comparing, rules) };
}

impl Ord for MinRegex {
    ghost cmp = { pattern_cmp };

    ghost total = { Prim.search (comparing, rules) };

    ghost matches_partial_cmp = { Prim.search (comparing, rules) };

    ghost matches_eq = { Prim.search (comparing, rules) };

    fn cmp(&self, other: &MinRegex) -> Ordering
        ensures value { result ≡ pattern_cmp self.now other.now }
        ensures less { (result ≡ Ordering.Less) ↔ IsBefore self.now other.now }
        ensures equal { (result ≡ Ordering.Equal) ↔ (self.now ≡ other.now) }
    {
        order(self, other)
    }
}

impl PartialOrd for MinRegex {
    ghost partial_cmp = { as_partial_cmp pattern_cmp };

    ghost laws = { partial_order_from_own_ties (Prim.search (comparing, rules)) (Prim.search (comparing, rules)) };

    fn partial_cmp(&self, other: &MinRegex) -> Option<Ordering> {
        Some(self.cmp(other))
    }
}

fn order(left: &MinRegex, right: &MinRegex) -> Ordering
    ensures { result ≡ pattern_cmp left.now right.now }
{
    right
        .pattern
        .len()
        .cmp(&left.pattern.len())
        .then(left.pattern.as_bytes().cmp(right.pattern.as_bytes()))
}

fn collapse_stars(alloc: Global, pattern: &str) -> Result<String, AllocError>
    ensures { IfOk result (λ text. string_bytes text ≡ collapsed pattern.now) }
{
    let mut text = String::new(alloc);
    let mut rest = pattern;
    while let Some((before, after)) = rest.split_once('*') {
        text.push_str(before)?;
        if !after.starts_with('*') {
            text.push('*')?;
        }
        rest = after;
    }
    text.push_str(rest)?;
    Ok(text)
}

fn cut_at_star(pattern: &[u8]) -> (&[u8], Option<&[u8]>)
    ensures { IsCutAtStar pattern.now result.0.now result.1 }
{
    match memchr(STAR, pattern) {
        Some(at) => (&pattern[..at], Some(&pattern[at + 1..])),
        None => (pattern, None),
    }
}
