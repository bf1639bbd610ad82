//! Checks that the states that were found prove that both lists have the same verdicts.
ghost use Rattle.std.specs.Prelude.{◌+◌, ◌++◌, ◌<◌, All, IfOk, IsTrue, List, drop, length, ℕ};
ghost use Rattle.robots_rules.specs.Internal.{AgreeFrom, Agrees, IsChecked, IsFollowed};
ghost use Rattle.robots_rules.specs.Internal.{LeavesAgree, StartsAgree};

use crate::pool::{Entry, needs_state, state_of};
use crate::search::Found;
use crate::state::{State, along, other_byte};
use std::alloc::{AllocError, Global};

fn follows(
    alloc: Global,
    found: &Found<'_>,
    state: &State<'_>,
    byte: u8,
) -> Result<bool, AllocError>
    ensures { IfOk result (λ is. IsTrue is → IsFollowed found.now.states.items state.now byte) }
{
    let next = state.after(alloc, byte)?;
    Ok(found.is_settled(&next))
}

fn all_follow(
    alloc: Global,
    found: &Found<'_>,
    state: &State<'_>,
    bytes: &[u8],
) -> Result<bool, AllocError>
    ensures { IfOk result (λ are. IsTrue are → All (IsFollowed found.now.states.items state.now) bytes.now) }
{
    for byte in bytes {
        if !follows(alloc, found, state, *byte)? {
            return Ok(false);
        }
    }
    Ok(true)
}

/// Whether the state's two verdicts agree at the end of the text, and each byte leads to a state that was
/// found.
fn is_checked(alloc: Global, found: &Found<'_>, state: &State<'_>) -> Result<bool, AllocError>
    ensures { IfOk result (λ is. IsTrue is → IsChecked found.now.states.items state.now) }
{
    if !state.agrees_at_end() {
        return Ok(false);
    }
    let bytes = state.next_bytes(alloc)?;
    let Some(other) = other_byte(bytes.as_slice()) else {
        return Ok(false);
    };
    if !follows(alloc, found, state, other)? {
        return Ok(false);
    }
    let all = all_follow(alloc, found, state, bytes.as_slice())?;
    Ok(all)
}

fn are_checked(alloc: Global, found: &Found<'_>, states: &[State<'_>]) -> Result<bool, AllocError>
    ensures { IfOk result (λ are. IsTrue are → All (IsChecked found.now.states.items) states.now) }
{
    for state in states {
        if !is_checked(alloc, found, state)? {
            return Ok(false);
        }
    }
    Ok(true)
}

fn starts_settled(
    alloc: Global,
    found: &Found<'_>,
    front: &[u8],
    pool: &[Entry<'_>],
    start: bool,
) -> Result<bool, AllocError>
    ensures { IfOk result (λ are. IsTrue are → (text : List ℕ) → All (Agrees text) found.now.states.items
        → StartsAgree start (front.now ++ text) pool.now) }
{
    let state = along(alloc, state_of(alloc, pool, start, false)?, front)?;
    Ok(found.is_settled(&state))
}

fn leaf_settled(
    alloc: Global,
    found: &Found<'_>,
    front: &[u8],
    pool: &[Entry<'_>],
    k: usize,
) -> Result<bool, AllocError>
    requires { k < length pool.now }
    ensures { IfOk result (λ is. IsTrue is → (text : List ℕ) → All (Agrees text) found.now.states.items
        → LeavesAgree (front.now ++ text) (drop (k + 1) pool.now)
        → LeavesAgree (front.now ++ text) (drop k pool.now)) }
{
    if !needs_state(pool, k) {
        return Ok(true);
    }
    starts_settled(alloc, found, front, &pool[k + 1..], pool[k].item.is_allow())
}

fn leaves_settled(
    alloc: Global,
    found: &Found<'_>,
    front: &[u8],
    pool: &[Entry<'_>],
) -> Result<bool, AllocError>
    ensures { IfOk result (λ are. IsTrue are → (text : List ℕ) → All (Agrees text) found.now.states.items
        → LeavesAgree (front.now ++ text) pool.now) }
{
    let mut k = pool.len();
    while k > 0 {
        k -= 1;
        if !leaf_settled(alloc, found, front, pool, k)? {
            return Ok(false);
        }
    }
    Ok(true)
}

/// What was found proves that both lists have the same verdicts.
pub(crate) fn is_proof(
    alloc: Global,
    found: &Found<'_>,
    front: &[u8],
    pool: &[Entry<'_>],
) -> Result<bool, AllocError>
    ensures { IfOk result (λ is. IsTrue is → AgreeFrom front.now pool.now) }
{
    if !are_checked(alloc, found, found.states.as_slice())? {
        return Ok(false);
    }
    if !starts_settled(alloc, found, front, pool, true)? {
        return Ok(false);
    }
    let settled = leaves_settled(alloc, found, front, pool)?;
    Ok(settled)
}
