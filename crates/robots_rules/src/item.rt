//! What is left of a rule, after a part of the text.
ghost use Rattle.std.specs.Prelude.{◌≡◌, ◌≢◌, ◌≤◌, ◌<◌, ◌∷◌, IsTrue, List, [], length, slice_index, ℕ};
ghost use Rattle.std.specs.Prelude.{Contains, OnOk, true};
ghost use Rattle.texting_robots.specs.Pattern.{star};
ghost use Rattle.texting_robots.proofs.Shared.{matches};
ghost use Rattle.robots_rules.specs.Internal.{Adds, passed};

use std::alloc::AllocError;
use std::marker::Model;

/// A rule that matches if the rest of its pattern matches the rest of the text.
#[derive(Drop)]
pub(crate) struct Item<'a> {
    rest: &'a [u8],
    is_allow: bool,
    /// The number of the rule.
    number: usize,
}

impl<'a> Model for Item<'a> {
    ghost use Rattle.texting_robots.specs.Rules.{Rule};

    ghost Value = { Rule };

    ghost view = { λ r. (r.rest.now, r.is_allow) };
}

impl<'a> Item<'a> {
    pub(crate) fn new(rest: &'a [u8], is_allow: bool, number: usize) -> Item<'a>
        ensures { result ≡ (rest.now, is_allow) }
    {
        Item {
            rest,
            is_allow,
            number,
        }
    }

    pub(crate) fn rest(&self) -> &'a [u8]
        ensures { result.now ≡ self.now.0 }
    {
        self.rest
    }

    pub(crate) fn is_allow(&self) -> bool
        ensures { result ≡ self.now.1 }
    {
        self.is_allow
    }

    pub(crate) fn number(&self) -> usize {
        self.number
    }

    pub(crate) fn with(&self, rest: &'a [u8]) -> Item<'a>
        ensures { result ≡ (rest.now, self.now.1) }
    {
        Item {
            rest,
            is_allow: self.is_allow,
            number: self.number,
        }
    }

    pub(crate) fn is_same(&self, other: &Item<'_>) -> bool
        ensures { IsTrue result → self.now ≡ other.now }
    {
        self.is_allow == other.is_allow && self.rest == other.rest
    }
}

/// How many stars the rest of a pattern begins with. All but one of them change nothing.
pub(crate) fn stars(rest: &[u8]) -> usize
    ensures within { result ≤ length rest.now }
    ensures alike { (text : List ℕ) → matches true rest.now text
        ≡ matches true (passed result rest.now) text }
    ensures other { result < length rest.now → slice_index rest.now result ≢ star }
{
    for k in 0..rest.len() {
        if rest[k] != b'*' {
            return k;
        }
    }
    rest.len()
}

pub(crate) fn matches_all(rest: &[u8]) -> bool
    ensures { IsTrue result → (text : List ℕ) → matches true rest.now text ≡ true }
{
    let k = stars(rest);
    if k < rest.len() {
        return false;
    }
    true
}

pub(crate) fn matches_end(rest: &[u8]) -> bool
    ensures { result ≡ matches true rest.now [] }
{
    for k in 0..rest.len() {
        if rest[k] != b'*' && rest[k] != b'$' {
            return false;
        }
    }
    true
}

/// Adds the byte that matters to the rest of a pattern as the next byte of the text, if there is one.
pub(crate) fn add_next_byte(rest: &[u8], bytes: &mut Vec<u8>) -> Result<(), AllocError>
    ensures adds { OnOk result (Adds bytes.old.items bytes.new.items) }
    ensures alike { OnOk result ((b c : ℕ) (text : List ℕ)
        → ¬ Contains bytes.new.items b → ¬ Contains bytes.new.items c
        → matches true rest.now (b ∷ text) ≡ matches true rest.now (c ∷ text)) }
{
    let k = stars(rest);
    if k >= rest.len() {
        return Ok(());
    }
    if rest[k] == b'$' {
        return Ok(());
    }
    if bytes.contains(&rest[k]) {
        return Ok(());
    }
    bytes.push(rest[k])?;
    Ok(())
}
