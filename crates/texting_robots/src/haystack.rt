//! Texts that patterns are matched against. A look, which may be counted, compares one byte.
ghost use Rattle.std.specs.Prelude.{◌≡◌, ◌≢◌, ℕ, ◌+◌, ◌-◌, ◌<◌, ◌≤◌, ◌↔◌, ◌++◌, List, [], IfNone, IfSome};
ghost use Rattle.std.specs.Prelude.{IsTrue, MatchOption, codes, drop, length};
ghost use Rattle.std.specs.Option.{option_map_or};
ghost use Rattle.memchr.specs.Find.{OccursAt};
ghost use Rattle.texting_robots.specs.Internal.Segments.{IsTable, AreApart, Meets, pair_set, OccursNowhere};
ghost use Rattle.texting_robots.specs.Internal.Segments.{IsRestAfterFirst, PassesTo};
ghost use Rattle.texting_robots.specs.Pattern.{IsSuffix};

use crate::prefilter::bigrams::BigramSet;
use crate::prefilter::head::front;
use crate::prefilter::{Prefilter, first_near};
use crate::view::View;
use memchr::memmem;
use std::marker::Model;

/// A range of rules to try.
#[derive(Clone, Copy)]
pub(crate) struct Near {
    pub(crate) start: usize,
    pub(crate) end: usize,
}

/// A [`View`], whose looks are counted, or an [`Uncounted`] text, for which rules are skipped.
pub(crate) trait Haystack {
    ghost use Rattle.std.specs.Prelude.{ℕ, List};
    ghost use Rattle.texting_robots.specs.View.{ViewValue};

    /// A position in the text. What is left of the text begins there.
    type Rest: Copy;

    ghost seen: { Self → ViewValue };

    ghost is_rest: { Self.Rest → List ℕ → Type 0 };

    ghost left: { Self.Rest → List ℕ → List ℕ };

    /// Whether the text is `/robots.txt`. This isn't a look.
    fn is_robots_file(&self) -> bool
        ensures { IsTrue result ↔ ((seen self.now).text ≡ codes "/robots.txt") };

    /// Whether to skip rules by these bigram masks, instead of trying all. It only affects speed.
    fn passes_over(&self, masks: &[u64]) -> bool;

    /// The range of rules to try next, between `from` and `end`. By their bigram masks, the rules before it
    /// can't match the text. This takes no looks.
    fn next(&mut self, masks: &[u64], from: usize, end: usize) -> Near
        requires from { from < end }
        requires masks { length masks.now ≤ end }
        ensures from { from ≤ result.start }
        ensures some { from < result.end }
        ensures ordered { result.start ≤ result.end }
        ensures end { result.end ≤ end }
        ensures apart { AreApart masks.now (pair_set (seen self.old).text) from result.start }
        ensures same { seen self.new ≡ seen self.old };

    /// Whether a pattern with this prefilter may match the text. This takes no looks.
    fn may_match(&mut self, prefilter: Prefilter) -> bool
        ensures answer { Meets prefilter (seen self.old).text → IsTrue result }
        ensures same { seen self.new ≡ seen self.old };

    /// What is left after the segment, if the text begins with it.
    fn begins_with(&mut self, segment: &[u8]) -> Option<Self::Rest>
        ensures none { IfNone result ((following : List ℕ) → (seen self.old).text ≢ segment.now ++ following) }
        ensures some { IfSome result (λ rest. is_rest rest (seen self.old).text
            × ((seen self.old).text ≡ segment.now ++ left rest (seen self.old).text)) }
        ensures cost { PassesTo (seen self.old) (seen self.new) (seen self.old).text
            (option_map_or (λ rest. left rest (seen self.old).text) result []) }
        ensures looks { (seen self.new).looks ≤ (seen self.old).looks + length segment.now }
        ensures short { length (seen self.old).text < length segment.now
            → (seen self.new).looks ≡ (seen self.old).looks };

    /// What is left after the first occurrence of the segment in `rest`. `table` is its failure table.
    fn find(&mut self, rest: Self::Rest, segment: &[u8], table: &[u32]) -> Option<Self::Rest>
        requires rest { is_rest rest (seen self.old).text }
        requires table { IsTable segment.now table.now }
        ensures none { IfNone result (OccursNowhere segment.now (left rest (seen self.old).text)) }
        ensures some { IfSome result (λ following. is_rest following (seen self.old).text
            × IsRestAfterFirst segment.now (left rest (seen self.old).text) (left following (seen self.old).text)) }
        ensures cost { PassesTo (seen self.old) (seen self.new) (left rest (seen self.old).text)
            (option_map_or (λ following. left following (seen self.old).text) result []) };

    fn ends_with(&mut self, rest: Self::Rest, segment: &[u8]) -> bool
        requires { is_rest rest (seen self.old).text }
        ensures answer { IsTrue result ↔ IsSuffix segment.now (left rest (seen self.old).text) }
        ensures cost { PassesTo (seen self.old) (seen self.new) (left rest (seen self.old).text) [] };

    /// Whether nothing of the text is left. This isn't a look.
    fn is_at_end(&self, rest: Self::Rest) -> bool
        requires { is_rest rest (seen self.now).text }
        ensures { IsTrue result ↔ (left rest (seen self.now).text ≡ []) };
}

impl<'a> Haystack for View<'a> {
    type Rest = usize;

    ghost seen = { λ view. view };

    ghost is_rest = { λ position text. position ≤ length text };

    ghost left = { λ position text. drop position text };

    fn is_robots_file(&self) -> bool {
        View::is_robots_file(self)
    }

    fn passes_over(&self, _masks: &[u64]) -> bool {
        false
    }

    fn next(&mut self, _masks: &[u64], from: usize, end: usize) -> Near {
        Near { start: from, end }
    }

    fn may_match(&mut self, _prefilter: Prefilter) -> bool {
        true
    }

    fn begins_with(&mut self, segment: &[u8]) -> Option<usize> {
        if occurs_at(self, 0, segment) {
            Some(segment.len())
        } else {
            None
        }
    }

    fn find(&mut self, rest: usize, segment: &[u8], table: &[u32]) -> Option<usize> {
        let len = self.len();
        let mut position = rest;
        let mut matched = 0;
        while matched < segment.len() {
            if position == len {
                return None;
            }
            if self.same(position, segment[matched]) {
                position += 1;
                matched += 1;
            } else if matched == 0 {
                position += 1;
            } else {
                matched = table[matched - 1] as usize;
            }
        }
        Some(position)
    }

    fn ends_with(&mut self, rest: usize, segment: &[u8]) -> bool {
        segment.len() <= self.len() - rest && occurs_at(self, self.len() - segment.len(), segment)
    }

    fn is_at_end(&self, rest: usize) -> bool {
        rest == self.len()
    }
}

fn occurs_at(view: &mut View<'_>, at: usize, segment: &[u8]) -> bool
    requires { at ≤ length view.old.text }
    ensures answer { IsTrue result ↔ OccursAt view.old.text segment.now at }
    ensures text { view.new.text ≡ view.old.text }
    ensures looks { view.old.looks ≤ view.new.looks }
    ensures by_segment { view.new.looks ≤ view.old.looks + length segment.now }
    ensures by_text { view.new.looks + at ≤ view.old.looks + length view.old.text }
    ensures short { length view.old.text - at < length segment.now → view.new.looks ≡ view.old.looks }
{
    if segment.len() > view.len() - at {
        return false;
    }
    for (k, byte) in segment.iter().enumerate() {
        if !view.same(at + k, *byte) {
            return false;
        }
    }
    true
}

/// A text whose looks aren't counted, with its first eight bytes as a number, and its bigrams once
/// they were requested.
#[derive(Drop)]
pub(crate) struct Uncounted<'a> {
    text: &'a [u8],
    front: u64,
    pairs: Option<BigramSet>,
}

impl<'a> Model for Uncounted<'a> {
    ghost use Rattle.std.specs.Prelude.{◌≡◌, ℕ, List};
    ghost use Rattle.texting_robots.specs.Internal.Segments.{ArePairsOf, first_eight};

    ghost Value = { List ℕ };

    ghost view = { λ haystack. haystack.text.now };

    ghost invariant = { λ haystack. (haystack.front ≡ first_eight haystack.text.now) × ArePairsOf haystack.text.now haystack.pairs };
}

impl<'a> Uncounted<'a> {
    pub(crate) fn new(text: &'a [u8]) -> Self
        ensures { result ≡ text.now }
    {
        Uncounted {
            text,
            front: front(text),
            pairs: None,
        }
    }

    /// The bigrams of the text, computed once.
    fn pairs(&mut self) -> BigramSet
        ensures pairs { result.bits ≡ pair_set self.old }
        ensures same { self.new ≡ self.old }
    {
        if let Some(pairs) = self.pairs {
            return pairs;
        }
        let pairs = BigramSet::of(self.text);
        self.pairs = Some(pairs);
        pairs
    }
}

impl<'a> Haystack for Uncounted<'a> {
    type Rest = &'a [u8];

    ghost seen = { λ text. record { text = text; looks = 0 } };

    ghost is_rest = { λ _ _. Unit };

    ghost left = { λ rest text. rest.now };

    fn is_robots_file(&self) -> bool {
        self.text == b"/robots.txt".as_slice()
    }

    fn passes_over(&self, masks: &[u64]) -> bool {
        !masks.is_empty()
    }

    fn next(&mut self, masks: &[u64], from: usize, end: usize) -> Near {
        let start = first_near(masks, from, self.pairs().bits);
        Near {
            start,
            end: start + (end - start).min(8),
        }
    }

    /// The bigrams of the text are requested only if the prefilter has bigrams.
    fn may_match(&mut self, prefilter: Prefilter) -> bool {
        prefilter.head.fits(self.front)
            && (prefilter.pairs.is_empty() || prefilter.pairs.are_within(self.pairs()))
    }

    fn begins_with(&mut self, segment: &[u8]) -> Option<&'a [u8]> {
        self.text.strip_prefix(segment)
    }

    fn find(&mut self, rest: &'a [u8], segment: &[u8], _table: &[u32]) -> Option<&'a [u8]> {
        after_first(rest, segment)
    }

    fn ends_with(&mut self, rest: &'a [u8], segment: &[u8]) -> bool {
        rest.ends_with(segment)
    }

    fn is_at_end(&self, rest: &'a [u8]) -> bool {
        rest.is_empty()
    }
}

pub(crate) fn after_first<'a>(text: &'a [u8], segment: &[u8]) -> Option<&'a [u8]>
    ensures { MatchOption result (OccursNowhere segment.now text.now)
        (λ rest. IsRestAfterFirst segment.now text.now rest.now) }
{
    let at = memmem::find(text, segment)?;
    let (_, rest) = text.split_at(at + segment.len());
    Some(rest)
}
