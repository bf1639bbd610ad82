//! Compares two lists. Rules of both are left out of the states as long as that does no harm.
ghost use Rattle.std.specs.Prelude.{◌≡◌, IfOk, IsTrue, true, false};
ghost use Rattle.robots_rules.specs.Internal.{Disagree, IsAnswer, chosen};

use crate::closed::is_proof;
use crate::compare::Comparison;
use crate::item::Item;
use crate::pool::{Entry, state_of};
use crate::search::{End, Found, spend};
use crate::side::{Side, push, step, verdict_at_end};
use crate::state::along;
use std::alloc::{AllocError, Global};

/// After so many rounds it gives up. In each, twice as many rules may be tracked.
const ROUNDS: usize = 40;

pub(crate) fn differ_on(
    alloc: Global,
    pool: &[Entry<'_>],
    front: &[u8],
    text: &[u8],
) -> Result<bool, AllocError>
    ensures { IfOk result (λ differ. IsTrue differ → Disagree front.now text.now pool.now) }
{
    if !text.starts_with(front) {
        return Ok(false);
    }
    let whole = state_of(alloc, pool, true, true)?;
    let state = along(alloc, whole, text)?;
    if state.agrees_at_end() {
        return Ok(false);
    }
    Ok(true)
}

fn matches(alloc: Global, item: &Item<'_>, text: &[u8]) -> Result<bool, AllocError> {
    let mut side = Side {
        items: Vec::new(alloc),
        start: !item.is_allow(),
    };
    push(&mut side, item.with(item.rest()))?;
    for byte in text {
        if side.items.is_empty() {
            break;
        }
        side = step(alloc, &side, *byte)?;
    }
    Ok(verdict_at_end(&side) == item.is_allow())
}

/// Whether the rule matches the text, though it was left out.
fn is_missed(alloc: Global, entry: &Entry<'_>, text: &[u8]) -> Result<bool, AllocError> {
    if !entry.is_shared() {
        return Ok(false);
    }
    matches(alloc, &entry.item, text)
}

/// How many rules lie below all that were left out, though they match the text. If there are none, one less:
/// the rule below was taken to decide, and doesn't match.
fn first_wrong(
    alloc: Global,
    pool: &[Entry<'_>],
    below: usize,
    text: &[u8],
) -> Result<usize, AllocError> {
    for k in below..pool.len() {
        if is_missed(alloc, &pool[k], text)? {
            return Ok(k);
        }
    }
    Ok(below.saturating_sub(1))
}

/// About how long it takes to look for what decides on a text of this length, in steps. A rule stays at each
/// of its stars.
fn cost_on(pool: &[Entry<'_>], len: usize) -> usize {
    let mut stars: usize = 0;
    for entry in pool {
        let rest = entry.item.rest();
        stars = stars.saturating_add(rest.iter().filter(|byte| **byte == b'*').count());
    }
    pool.len().saturating_add(stars.saturating_mul(len) / 2)
}

/// The pool, with at most `most` more of its rules tracked.
pub(crate) fn refined<'a>(
    alloc: Global,
    pool: &[Entry<'a>],
    below: usize,
    text: &[u8],
    most: usize,
) -> Result<Vec<Entry<'a>>, AllocError>
    ensures old { IfOk result (λ made. chosen true false made.items ≡ chosen true false pool.now) }
    ensures new { IfOk result (λ made. chosen true true made.items ≡ chosen true true pool.now) }
{
    let mut made = Vec::new(alloc);
    let mut left = most;
    for (number, entry) in pool.iter().enumerate() {
        let is_more = left > 0
            && number >= below
            && (number == below || is_missed(alloc, entry, text)?);
        if is_more && left > 0 {
            left -= 1;
        }
        made.push(entry.copy(entry.old, entry.new, entry.tracked || is_more))?;
    }
    Ok(made)
}

/// Compares the two lists of a pool on the texts that begin with `front`.
pub(crate) fn compare_pool<'a>(
    alloc: Global,
    start: Vec<Entry<'a>>,
    front: &[u8],
    budget: &mut usize,
) -> Result<Comparison, AllocError>
    ensures { IfOk result (IsAnswer front.now start.entry.items) }
{
    let mut pool = start;
    let mut most = 1;
    for _ in 0..ROUNDS {
        let mut found = Found::new(alloc);
        if !found.add_firsts(alloc, front, &pool, budget)? {
            return Ok(Comparison::Undecided);
        }
        match found.explore(alloc, budget)? {
            End::Closed => {
                if is_proof(alloc, &found, front, &pool)? {
                    return Ok(Comparison::Same);
                }
                return Ok(Comparison::Undecided);
            }
            End::Disagrees(at) => {
                let (text, below) = found.path(alloc, front, at)?;
                if !spend(budget, cost_on(&pool, text.len())) {
                    return Ok(Comparison::Undecided);
                }
                if differ_on(alloc, &pool, front, &text)? {
                    return Ok(Comparison::Differ(text));
                }
                let first = first_wrong(alloc, &pool, below, &text)?;
                pool = refined(alloc, &pool, first, &text, most)?;
                most = 2_usize.saturating_mul(most);
            }
            End::TooLarge => return Ok(Comparison::Undecided),
        }
    }
    Ok(Comparison::Undecided)
}
