//! The rules of both lists, the lowest first.
ghost use Rattle.std.specs.Prelude.{◌≡◌, ◌+◌, ◌∷◌, [], IfOk, IsTrue, List, OnOk, drop, false, true, ℕ};
ghost use Rattle.robots_rules.specs.Internal.{LeavesAgree, StartsAgree, chosen, is_in, is_shared, last_kind};
ghost use Rattle.robots_rules.specs.Internal.{verdict};

use crate::item::Item;
use crate::side::{Side, push};
use crate::state::State;
use std::alloc::{AllocError, Global};

/// A rule of one of the lists, or of both.
#[derive(Drop)]
pub(crate) struct Entry<'a> {
    pub(crate) item: Item<'a>,
    pub(crate) old: bool,
    pub(crate) new: bool,
    /// Whether states have the rule even if it is in both lists.
    pub(crate) tracked: bool,
}

impl<'a> Entry<'a> {
    pub(crate) fn is_shared(&self) -> bool
        ensures { result ≡ is_shared self.now }
    {
        !self.tracked && self.old && self.new
    }

    pub(crate) fn is_in(&self, new: bool) -> bool
        ensures { result ≡ is_in new self.now }
    {
        if new { self.new } else { self.old }
    }

    pub(crate) fn copy(&self, old: bool, new: bool, tracked: bool) -> Entry<'a>
        ensures item { result.item ≡ self.now.item }
        ensures old { result.old ≡ old }
        ensures new { result.new ≡ new }
    {
        Entry {
            item: self.item.with(self.item.rest()),
            old,
            new,
            tracked,
        }
    }
}

/// Pushes the rule, if it is in the list, and not shared or `all`.
fn push_entry<'a>(
    side: &mut Side<'a>,
    entry: &Entry<'a>,
    all: bool,
    new: bool,
) -> Result<(), AllocError>
    ensures { OnOk result ((text : List ℕ) → verdict side.new text
        ≡ last_kind (verdict side.old text) (chosen all new (entry.now ∷ [])) text) }
{
    if (all || !entry.is_shared()) && entry.is_in(new) {
        push(side, entry.item.with(entry.item.rest()))?;
    }
    Ok(())
}

fn side_of<'a>(
    alloc: Global,
    pool: &[Entry<'a>],
    start: bool,
    all: bool,
    new: bool,
) -> Result<Side<'a>, AllocError>
    ensures { IfOk result (λ made. (text : List ℕ) → verdict made text
        ≡ last_kind start (chosen all new pool.now) text) }
{
    let mut side = Side {
        items: Vec::new(alloc),
        start,
    };
    for entry in pool {
        push_entry(&mut side, entry, all, new)?;
    }
    Ok(side)
}

pub(crate) fn state_of<'a>(
    alloc: Global,
    pool: &[Entry<'a>],
    start: bool,
    all: bool,
) -> Result<State<'a>, AllocError>
    ensures old { IfOk result (λ made. (text : List ℕ) → verdict made.old text
        ≡ last_kind start (chosen all false pool.now) text) }
    ensures new { IfOk result (λ made. (text : List ℕ) → verdict made.new text
        ≡ last_kind start (chosen all true pool.now) text) }
{
    Ok(State {
        old: side_of(alloc, pool, start, all, false)?,
        new: side_of(alloc, pool, start, all, true)?,
    })
}

/// A state of the rules of this kind is known above the next shared one, and all rules until then are shared.
fn is_known(pool: &[Entry<'_>], kind: bool) -> bool
    ensures { IsTrue result → (text : List ℕ) → LeavesAgree text pool.now → StartsAgree kind text pool.now }
{
    for entry in pool {
        if !entry.is_shared() {
            return false;
        }
        if entry.item.is_allow() == kind {
            return true;
        }
    }
    true
}

/// Whether the rule is shared, and the state above it isn't that of a rule above.
pub(crate) fn needs_state(pool: &[Entry<'_>], k: usize) -> bool
    ensures { result ≡ false → (text : List ℕ) → LeavesAgree text (drop (k + 1) pool.now)
        → LeavesAgree text (drop k pool.now) }
{
    if k >= pool.len() {
        return false;
    }
    pool[k].is_shared() && !is_known(&pool[k + 1..], pool[k].item.is_allow())
}
