//! The bigrams (pairs of adjacent bytes) of a text, as a small set.
ghost use Rattle.std.specs.Prelude.{◌≡◌, ◌↔◌, IsTrue, bit_or};
ghost use Rattle.texting_robots.specs.Internal.Segments.{AreWithin, pair_bit, pair_set};

/// A set of bigrams. Each bigram has one of 64 bits, and some share one.
#[derive(Clone, Copy)]
pub(crate) struct BigramSet {
    pub(crate) bits: u64,
}

impl BigramSet {
    pub(crate) fn none() -> Self
        ensures { result.bits ≡ 0 }
    {
        BigramSet { bits: 0 }
    }

    /// The bigrams of the text. Each iteration adds two.
    pub(crate) fn of(text: &[u8]) -> Self
        ensures { result.bits ≡ pair_set text.now }
    {
        let mut bits = 0;
        let mut rest = text;
        while let [first, second, third, ..] = rest {
            bits |= bit_of(*first, *second);
            bits |= bit_of(*second, *third);
            rest = &rest[2..];
        }
        match rest {
            [first, second, ..] => BigramSet {
                bits: bits | bit_of(*first, *second),
            },
            _ => BigramSet { bits },
        }
    }

    pub(crate) fn is_empty(self) -> bool
        ensures { IsTrue result ↔ (self.bits ≡ 0) }
    {
        self.bits == 0
    }

    /// The union.
    pub(crate) fn and(self, other: BigramSet) -> Self
        ensures { result.bits ≡ bit_or self.bits other.bits }
    {
        BigramSet {
            bits: self.bits | other.bits,
        }
    }

    pub(crate) fn are_within(self, other: BigramSet) -> bool
        ensures { IsTrue result ↔ AreWithin self.bits other.bits }
    {
        self.bits | other.bits == other.bits
    }
}

fn bit_of(first: u8, second: u8) -> u64
    ensures { result ≡ pair_bit first second }
{
    1 << ((u32::from(first) + 2 * u32::from(second)) % 64)
}
