//! A text that can only be compared byte by byte, by counted looks, or as a whole with `/robots.txt`.
ghost use Rattle.std.specs.Prelude.{◌≡◌, ◌+◌, ◌<◌, ◌↔◌, IsTrue, length, slice_index, []};
ghost use Rattle.texting_robots.specs.{Verdict.robots_file, View.seen_of};

mod looks;

use looks::Looks;
use std::marker::Model;

/// A borrowed text, and how many looks were taken. A look is a call of [`View::same`], which compares one byte.
#[derive(Drop)]
pub struct View<'a> {
    text: &'a str,
    count: u64,
    looks: Looks,
}

impl<'a> Model for View<'a> {
    ghost use Rattle.std.specs.Prelude.{◌≡◌};
    ghost use Rattle.texting_robots.specs.View.{ViewValue, seen_of};

    ghost Value = { ViewValue };

    ghost view = { λ v. record { text = v.text.now; looks = v.looks } };

    ghost invariant = { λ v. v.count ≡ seen_of v.looks };
}

impl<'a> View<'a> {
    /// The text, none of whose bytes was looked at.
    pub fn new(text: &'a str) -> Self
        ensures text { result.text ≡ text.now }
        ensures looks { result.looks ≡ 0 }
    {
        View {
            text,
            count: 0,
            looks: Looks::none(),
        }
    }

    /// How many bytes the text has.
    pub fn len(&self) -> usize
        ensures { result ≡ length self.now.text }
    {
        self.text.len()
    }

    /// Whether the text is empty. This isn't a look.
    pub fn is_empty(&self) -> bool
        ensures { IsTrue result ↔ (self.now.text ≡ []) }
    {
        self.text.is_empty()
    }

    /// Whether the byte at this offset of the text equals `byte`. This is one look.
    pub fn same(&mut self, at: usize, byte: u8) -> bool
        requires { at < length self.old.text }
        ensures answer { IsTrue result ↔ (slice_index self.old.text at ≡ byte) }
        ensures text { self.new.text ≡ self.old.text }
        ensures looks { self.new.looks ≡ self.old.looks + 1 }
    {
        self.count(1);
        self.text.as_bytes()[at] == byte
    }

    pub(crate) fn count(&mut self, looks: u64)
        requires { 0 < looks }
        ensures text { self.new.text ≡ self.old.text }
        ensures looks { self.new.looks ≡ self.old.looks + looks }
    {
        self.looks = self.looks.more(looks);
        self.count = self.count.saturating_add(looks);
    }

    /// Whether the text is `/robots.txt`. This isn't a look.
    pub fn is_robots_file(&self) -> bool
        ensures { IsTrue result ↔ (self.now.text ≡ robots_file) }
    {
        self.text == "/robots.txt"
    }

    /// How many looks were taken, at most `u64::MAX`.
    pub fn seen(&self) -> u64
        ensures { result ≡ seen_of self.now.looks }
    {
        self.count
    }
}
