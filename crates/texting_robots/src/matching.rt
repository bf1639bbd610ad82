//! Whether a pattern matches a text: its segments are searched for from left to right.
ghost use Rattle.std.specs.Prelude.{◌≡◌, ◌+◌, ◌*◌, ◌≤◌, ◌↔◌, [], IsTrue, length};
ghost use Rattle.texting_robots.specs.{Cost.looks_of, Pattern.Matches, View.LooksAtMost, View.seen_of};
ghost use Rattle.texting_robots.specs.Internal.Segments.{PassesTo, EndsAs, IsEnding, IsNotLast};

use crate::haystack::Haystack;
use crate::segments::{Ending, Pattern};

impl<'a> Pattern<'a> {
    /// Whether the pattern matches from the start of the text, not necessarily up to its end.
    #[inline(always)]
    pub(crate) fn matches<A: Haystack>(&self, haystack: &mut A) -> bool
        ensures answer { IsTrue result ↔ Matches self.now (A.seen haystack.old).text }
        ensures looks { LooksAtMost (A.seen haystack.old) (A.seen haystack.new) (2 * length (A.seen haystack.old).text) }
        ensures cost { (A.seen haystack.new).looks ≤ (A.seen haystack.old).looks
            + looks_of self.now (length (A.seen haystack.old).text) }
    {
        let Some(mut rest) = haystack.begins_with(&self.bytes[..self.ends.first_len as usize])
        else {
            return false;
        };
        for segment in self.segments {
            let bytes = segment.span.part(self.bytes);
            let table = segment.table as usize;
            let table = &self.borders[table..table + bytes.len().saturating_sub(1)];
            let Some(following) = haystack.find(rest, bytes, table) else {
                return false;
            };
            rest = following;
        }
        ends_as(haystack, rest, self.bytes, self.ends.ending)
    }

    /// How many looks [`Pattern::matches`] takes at most on a text of this length, at most `u64::MAX`.
    pub(crate) fn most_looks(&self, len: usize) -> u64
        ensures { result ≡ seen_of (looks_of self.now len) }
    {
        let first = self.ends.first_len as usize;
        if len < first {
            return 0;
        }
        if self.bytes[first..].starts_with(b"*") {
            return (len as u64).saturating_mul(2);
        }
        first as u64
    }
}

/// Whether the rest of a text is as the ending of the pattern demands.
fn ends_as<A: Haystack>(haystack: &mut A, rest: A::Rest, pattern: &[u8], ending: Ending) -> bool
    requires rest { A.is_rest rest (A.seen haystack.old).text }
    requires ending { IsEnding pattern.now ending }
    ensures answer { IsTrue result ↔ EndsAs pattern.now ending (A.left rest (A.seen haystack.old).text) }
    ensures cost { PassesTo (A.seen haystack.old) (A.seen haystack.new) (A.left rest (A.seen haystack.old).text) [] }
    ensures unsearched { IsNotLast ending → (A.seen haystack.new).looks ≡ (A.seen haystack.old).looks }
{
    match ending {
        Ending::Open => true,
        Ending::Closed => haystack.is_at_end(rest),
        Ending::Last(span) => haystack.ends_with(rest, span.part(pattern)),
        Ending::Never => false,
    }
}
