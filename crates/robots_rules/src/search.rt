//! Looks for the states that a text can lead to. Nothing is proved here: `closed` checks what was found.
ghost use Rattle.std.specs.Prelude.{IsTrue};
ghost use Rattle.robots_rules.specs.Internal.{IsSettled};

use crate::pool::{Entry, needs_state, state_of};
use crate::state::{State, along, other_byte};
use std::alloc::{AllocError, Global};
use std::collections::BTreeMap;

/// At most so many items are kept, which takes about 150 MB.
const MOST_ITEMS: usize = 2_000_000;

/// The states that were found.
#[derive(Drop)]
pub(crate) struct Found<'a> {
    pub(crate) states: Vec<State<'a>>,
    /// The numbers of states, by their hashes.
    index: BTreeMap<u64, usize>,
    /// The state and the byte that led to each; a first one leads to itself.
    origins: Vec<(usize, u8)>,
    /// For each of the first states, how many rules of the pool lie below it.
    below: Vec<usize>,
    items: usize,
}

/// How a search ends.
#[derive(Drop)]
pub(crate) enum End {
    Closed,
    /// The state with this number has different verdicts at the end of the text.
    Disagrees(usize),
    TooLarge,
}

pub(crate) fn spend(budget: &mut usize, steps: usize) -> bool {
    if *budget < steps {
        return false;
    }
    *budget -= steps;
    true
}

impl<'a> Found<'a> {
    pub(crate) fn new(alloc: Global) -> Found<'a> {
        Found {
            states: Vec::new(alloc),
            index: BTreeMap::new(alloc),
            origins: Vec::new(alloc),
            below: Vec::new(alloc),
            items: 0,
        }
    }

    /// Whether the state was found, or its sides are the same.
    pub(crate) fn is_settled(&self, state: &State<'_>) -> bool
        ensures { IsTrue result → IsSettled self.now.states.items state.now }
    {
        if state.has_same_sides() {
            return true;
        }
        let Some(k) = self.index.get(&state.hash()).copied() else {
            return false;
        };
        let states = self.states.as_slice();
        if k >= states.len() {
            return false;
        }
        states[k].is_same(state)
    }

    fn add(&mut self, state: State<'a>, from: usize, byte: u8) -> Result<(), AllocError> {
        self.items = self.items.saturating_add(state.items());
        self.index.insert(state.hash(), self.states.len())?;
        self.origins.push((from, byte))?;
        self.states.push(state)?;
        Ok(())
    }

    /// Adds the state of the rules from this one on. False if the budget is spent.
    fn add_first(
        &mut self,
        alloc: Global,
        front: &[u8],
        pool: &[Entry<'a>],
        below: usize,
        start: bool,
        budget: &mut usize,
    ) -> Result<bool, AllocError> {
        let rules = &pool[below.min(pool.len())..];
        if !spend(budget, rules.len()) {
            return Ok(false);
        }
        let state = along(alloc, state_of(alloc, rules, start, false)?, front)?;
        if !self.is_settled(&state) {
            let number = self.states.len();
            self.add(state, number, 0)?;
            self.below.push(below)?;
        }
        Ok(true)
    }

    /// Adds the states that a text can begin with. False if the budget is spent.
    pub(crate) fn add_firsts(
        &mut self,
        alloc: Global,
        front: &[u8],
        pool: &[Entry<'a>],
        budget: &mut usize,
    ) -> Result<bool, AllocError> {
        if !self.add_first(alloc, front, pool, 0, true, budget)? {
            return Ok(false);
        }
        for k in 0..pool.len() {
            let kind = pool[k].item.is_allow();
            if needs_state(pool, k) && !self.add_first(alloc, front, pool, k + 1, kind, budget)? {
                return Ok(false);
            }
        }
        Ok(true)
    }

    /// Adds the state that the byte leads to.
    fn add_next(&mut self, alloc: Global, at: usize, byte: u8) -> Result<(), AllocError> {
        if at < self.states.len() {
            let next = self.states[at].after(alloc, byte)?;
            if !self.is_settled(&next) {
                self.add(next, at, byte)?;
            }
        }
        Ok(())
    }

    /// Adds the states that one byte leads to. False if that would take too long.
    fn add_all_next(
        &mut self,
        alloc: Global,
        at: usize,
        budget: &mut usize,
    ) -> Result<bool, AllocError> {
        if at >= self.states.len() {
            return Ok(true);
        }
        let bytes = self.states[at].next_bytes(alloc)?;
        let cost = self.states[at].cost().saturating_add(2);
        if self.items > MOST_ITEMS
            || !spend(budget, cost.saturating_mul(bytes.len().saturating_add(1)))
        {
            return Ok(false);
        }
        let Some(other) = other_byte(&bytes) else {
            return Ok(false);
        };
        for byte in &bytes {
            self.add_next(alloc, at, *byte)?;
        }
        self.add_next(alloc, at, other)?;
        Ok(true)
    }

    pub(crate) fn explore(&mut self, alloc: Global, budget: &mut usize) -> Result<End, AllocError> {
        for at in 0..MOST_ITEMS {
            if at >= self.states.len() {
                return Ok(End::Closed);
            }
            if !self.states[at].agrees_at_end() {
                return Ok(End::Disagrees(at));
            }
            if !self.add_all_next(alloc, at, budget)? {
                return Ok(End::TooLarge);
            }
        }
        Ok(End::TooLarge)
    }

    /// A text that leads to the state, and how many rules of the pool lie below the first state.
    pub(crate) fn path(
        &self,
        alloc: Global,
        front: &[u8],
        at: usize,
    ) -> Result<(Vec<u8>, usize), AllocError> {
        let mut back = Vec::new(alloc);
        let mut number = at;
        for _ in 0..self.states.len() {
            let Some((from, byte)) = self.origins.get(number) else {
                break;
            };
            if *from == number {
                break;
            }
            back.push(*byte)?;
            number = *from;
        }
        let mut text = Vec::new(alloc);
        for byte in front {
            text.push(*byte)?;
        }
        for k in 0..back.len() {
            text.push(back[back.len() - 1 - k])?;
        }
        Ok((text, self.below.get(number).copied().unwrap_or(0)))
    }
}
