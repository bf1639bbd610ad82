//! What is left of both lists, after a part of the text.
ghost use Rattle.std.specs.Prelude.{◌≡◌, ◌∷◌, Contains, IfOk, IfSome, IsTrue, [], false};
ghost use Rattle.robots_rules.specs.Internal.{Agrees, AreAlike, IsAfter};

use crate::item::Item;
use crate::side::{Side, add_next_bytes, is_same_side, step, verdict_at_end};
use std::alloc::{AllocError, Global};
use std::marker::Model;

#[derive(Drop)]
pub(crate) struct State<'a> {
    pub(crate) old: Side<'a>,
    pub(crate) new: Side<'a>,
}

impl<'a> Model for State<'a> {
    ghost use Rattle.robots_rules.specs.Internal.{StateValue};

    ghost Value = { StateValue };

    ghost view = { λ r. record { old = r.old; new = r.new } };
}

/// Where no byte that matters is taken, one of these is tried first.
const OTHERS: &[u8] = b"abcdefghijklmnopqrstuvwxyz0123456789-_.~/%";

impl<'a> State<'a> {
    pub(crate) fn after(&self, alloc: Global, byte: u8) -> Result<State<'a>, AllocError>
        ensures { IfOk result (IsAfter (byte ∷ []) self.now) }
    {
        Ok(State {
            old: step(alloc, &self.old, byte)?,
            new: step(alloc, &self.new, byte)?,
        })
    }

    pub(crate) fn agrees_at_end(&self) -> bool
        ensures agrees { IsTrue result → Agrees [] self.now }
        ensures differs { result ≡ false → ¬ Agrees [] self.now }
    {
        verdict_at_end(&self.old) == verdict_at_end(&self.new)
    }

    /// The bytes that matter to the state as the next byte of the text.
    pub(crate) fn next_bytes(&self, alloc: Global) -> Result<Vec<u8>, AllocError>
        ensures old { IfOk result (λ bytes. AreAlike bytes.items self.now.old.items) }
        ensures new { IfOk result (λ bytes. AreAlike bytes.items self.now.new.items) }
    {
        let mut bytes = Vec::new(alloc);
        add_next_bytes(self.old.items.as_slice(), &mut bytes)?;
        add_next_bytes(self.new.items.as_slice(), &mut bytes)?;
        Ok(bytes)
    }

    pub(crate) fn has_same_sides(&self) -> bool
        ensures { IsTrue result → self.now.old ≡ self.now.new }
    {
        is_same_side(&self.old, &self.new)
    }

    pub(crate) fn is_same(&self, other: &State<'_>) -> bool
        ensures { IsTrue result → self.now ≡ other.now }
    {
        is_same_side(&self.old, &other.old) && is_same_side(&self.new, &other.new)
    }

    pub(crate) fn items(&self) -> usize {
        self.old.items.len().saturating_add(self.new.items.len())
    }

    /// About how long a step of the state takes, in steps of rules of ordinary lengths.
    pub(crate) fn cost(&self) -> usize {
        cost_of(self.old.items.as_slice()).saturating_add(cost_of(self.new.items.as_slice()))
    }

    /// States with different items rarely have the same hash.
    pub(crate) fn hash(&self) -> u64 {
        let first = hash_items(u64::from(self.old.start), &self.old.items);
        let middle = first
            .wrapping_mul(31)
            .wrapping_add(u64::from(self.new.start));
        hash_items(middle, &self.new.items)
    }
}

fn cost_of(items: &[Item<'_>]) -> usize {
    let mut cost = items.len();
    for item in items {
        cost = cost.saturating_add(item.rest().len() / 256);
    }
    cost
}

fn hash_items(start: u64, items: &[Item<'_>]) -> u64 {
    let mut hash = start;
    for item in items {
        let place = (item.number() as u64)
            .wrapping_add(1)
            .wrapping_mul(1_000_003);
        let part = place.wrapping_add(item.rest().len() as u64);
        hash = (hash ^ part).wrapping_mul(0x9E37_79B9_7F4A_7C15);
        hash ^= hash >> 29;
    }
    hash
}

/// What is left after a text.
pub(crate) fn along<'a>(
    alloc: Global,
    start: State<'a>,
    text: &[u8],
) -> Result<State<'a>, AllocError>
    ensures { IfOk result (IsAfter text.now start.entry) }
{
    let mut state = start;
    for byte in text {
        state = state.after(alloc, *byte)?;
    }
    Ok(state)
}

pub(crate) fn other_byte(bytes: &[u8]) -> Option<u8>
    ensures { IfSome result (λ byte. ¬ Contains bytes.now byte) }
{
    for byte in OTHERS {
        if !bytes.contains(byte) {
            return Some(*byte);
        }
    }
    for byte in 0..=u8::MAX {
        if !bytes.contains(&byte) {
            return Some(byte);
        }
    }
    None
}
