//! What is left of a list of rules, after a part of the text.
ghost use Rattle.std.specs.Prelude.{◌≡◌, ◌≢◌, ◌<◌, ◌∷◌, Bool, IfOk, IsTrue, List, OnOk, [], cond};
ghost use Rattle.std.specs.Prelude.{length, slice_index, true, ℕ};
ghost use Rattle.texting_robots.specs.Pattern.{star};
ghost use Rattle.texting_robots.proofs.Shared.{matches};
ghost use Rattle.robots_rules.specs.Internal.{Adds, AreAlike, last_kind, verdict};

use crate::item::{Item, add_next_byte, matches_all, matches_end, stars};
use std::alloc::{AllocError, Global};
use std::marker::Model;

/// Items, of which the last that matches decides, or if none matches, the start.
#[derive(Drop)]
pub(crate) struct Side<'a> {
    pub(crate) items: Vec<Item<'a>>,
    pub(crate) start: bool,
}

impl<'a> Model for Side<'a> {
    ghost use Rattle.robots_rules.specs.Internal.{SideValue};

    ghost Value = { SideValue };

    ghost view = { λ r. record { items = r.items.items; start = r.start } };
}

fn is_last(items: &[Item<'_>], item: &Item<'_>) -> bool
    ensures { IsTrue result → (start : Bool) (text : List ℕ) → matches true item.now.0 text ≡ true
        → last_kind start items.now text ≡ item.now.1 }
{
    let len = items.len();
    if len == 0 {
        return false;
    }
    items[len - 1].is_same(item)
}

/// The item decides where it matches, else the side as it was. What changes no verdict is left out.
#[tactic(auto, using(crate::proofs::SideLemmas::last_kind_snoc, crate::proofs::SideLemmas::cond_same, crate::proofs::SideLemmas::cond_kept))]
pub(crate) fn push<'a>(side: &mut Side<'a>, item: Item<'a>) -> Result<(), AllocError>
    ensures { OnOk result ((text : List ℕ) → verdict side.new text
        ≡ cond (matches true item.entry.0 text) item.entry.1 (verdict side.old text)) }
{
    if matches_all(item.rest()) {
        side.items.clear();
        side.start = item.is_allow();
        return Ok(());
    }
    if side.items.is_empty() && side.start == item.is_allow() {
        return Ok(());
    }
    if is_last(side.items.as_slice(), &item) {
        return Ok(());
    }
    side.items.push(item)?;
    Ok(())
}

/// Pushes what a byte leaves of an item that begins with no star.
#[tactic(auto, using(crate::proofs::MatchLemmas::at_empty, crate::proofs::MatchLemmas::at_dollar, crate::proofs::MatchLemmas::at_other, crate::proofs::MatchLemmas::at_same))]
fn push_next<'a>(side: &mut Side<'a>, item: Item<'a>, byte: u8) -> Result<(), AllocError>
    requires { 0 < length item.0 → slice_index item.0 0 ≢ star }
    ensures { OnOk result ((text : List ℕ) → verdict side.new text
        ≡ cond (matches true item.entry.0 (byte ∷ text)) item.entry.1 (verdict side.old text)) }
{
    let rest = item.rest();
    if rest.is_empty() {
        return push(side, item);
    }
    if rest[0] == b'$' {
        return Ok(());
    }
    if rest[0] != byte {
        return Ok(());
    }
    push(side, item.with(&rest[1..]))
}

fn push_after<'a>(side: &mut Side<'a>, item: &Item<'a>, byte: u8) -> Result<(), AllocError>
    ensures { OnOk result ((text : List ℕ) → verdict side.new text
        ≡ cond (matches true item.now.0 (byte ∷ text)) item.now.1 (verdict side.old text)) }
{
    let rest = item.rest();
    let k = stars(rest);
    if k == 0 {
        return push_next(side, item.with(rest), byte);
    }
    push(side, item.with(rest))?;
    push_next(side, item.with(&rest[k..]), byte)
}

fn step_items<'a>(
    alloc: Global,
    start: bool,
    items: &[Item<'a>],
    byte: u8,
) -> Result<Side<'a>, AllocError>
    ensures { IfOk result (λ made. (text : List ℕ) → verdict made text
        ≡ last_kind start items.now (byte ∷ text)) }
{
    let mut made = Side {
        items: Vec::new(alloc),
        start,
    };
    for item in items {
        push_after(&mut made, item, byte)?;
    }
    Ok(made)
}

/// What a byte leaves of the side.
pub(crate) fn step<'a>(alloc: Global, side: &Side<'a>, byte: u8) -> Result<Side<'a>, AllocError>
    ensures { IfOk result (λ made. (text : List ℕ) → verdict made text ≡ verdict side.now (byte ∷ text)) }
{
    step_items(alloc, side.start, side.items.as_slice(), byte)
}

/// The item's kind, or if it doesn't match the empty text, another one.
fn kind_with(item: &Item<'_>, other: bool) -> bool
    ensures { result ≡ cond (matches true item.now.0 []) item.now.1 other }
{
    if matches_end(item.rest()) {
        item.is_allow()
    } else {
        other
    }
}

fn kind_at_end(start: bool, items: &[Item<'_>]) -> bool
    ensures { result ≡ last_kind start items.now [] }
{
    let mut answer = start;
    for item in items {
        answer = kind_with(item, answer);
    }
    answer
}

pub(crate) fn verdict_at_end(side: &Side<'_>) -> bool
    ensures { result ≡ verdict side.now [] }
{
    kind_at_end(side.start, side.items.as_slice())
}

/// Adds the bytes that matter to the items as the next byte of the text.
pub(crate) fn add_next_bytes(items: &[Item<'_>], bytes: &mut Vec<u8>) -> Result<(), AllocError>
    ensures adds { OnOk result (Adds bytes.old.items bytes.new.items) }
    ensures alike { OnOk result (AreAlike bytes.new.items items.now) }
{
    for item in items {
        add_next_byte(item.rest(), bytes)?;
    }
    Ok(())
}

fn are_same_items(one: &[Item<'_>], other: &[Item<'_>]) -> bool
    ensures { IsTrue result → one.now ≡ other.now }
{
    if one.len() != other.len() {
        return false;
    }
    for k in 0..one.len() {
        if !one[k].is_same(&other[k]) {
            return false;
        }
    }
    true
}

pub(crate) fn is_same_side(one: &Side<'_>, other: &Side<'_>) -> bool
    ensures { IsTrue result → one.now ≡ other.now }
{
    one.start == other.start && are_same_items(one.items.as_slice(), other.items.as_slice())
}
