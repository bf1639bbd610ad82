//! Compares two lists by steps: each changes some rules of one list, but none of its verdicts.
ghost use Rattle.std.specs.Prelude.{◌≡◌, IfOk, OnOk, false, true};
ghost use Rattle.robots_rules.specs.Internal.{IsAnswer, Leads, chosen};

use crate::compare::Comparison;
use crate::pool::Entry;
use crate::refine::{compare_pool, differ_on, refined};
use crate::search::spend;
use crate::texts::filled;
use std::alloc::{AllocError, Global};

/// At most so many rounds of steps are tried.
const ROUNDS: usize = 64;

/// If no more rules are in one list alone, all are changed in the first step.
const FEW: usize = 5;

/// A list between both: two pools, of the old list and this one, and of this and the new one. The rules from
/// one position to another are those of the new list, and the others those of the old one, or contrariwise.
fn split<'a>(
    alloc: Global,
    pool: &[Entry<'a>],
    from: usize,
    to: usize,
    others_new: bool,
) -> Result<(Vec<Entry<'a>>, Vec<Entry<'a>>), AllocError>
    ensures old { IfOk result (λ made. chosen true false made.0.items ≡ chosen true false pool.now) }
    ensures between { IfOk result (λ made. chosen true true made.0.items ≡ chosen true false made.1.items) }
    ensures new { IfOk result (λ made. chosen true true made.1.items ≡ chosen true true pool.now) }
{
    let mut first = Vec::new(alloc);
    let mut second = Vec::new(alloc);
    for (k, entry) in pool.iter().enumerate() {
        let between = entry.is_in((from <= k && k < to) != others_new);
        first.push(entry.copy(entry.old, between, false))?;
        second.push(entry.copy(between, entry.new, false))?;
    }
    Ok((first, second))
}

/// Changes these rules in one of the lists, if that changes no verdict. Else both lists may differ on the
/// text that was found.
#[tactic(auto, using(crate::proofs::PoolLemmas::old_leads, crate::proofs::PoolLemmas::new_leads))]
fn step<'a>(
    alloc: Global,
    pool: &mut Vec<Entry<'a>>,
    front: &[u8],
    from: usize,
    to: usize,
    of_new: bool,
    budget: &mut usize,
) -> Result<Comparison, AllocError>
    ensures leads { OnOk result (Leads front.now pool.new.items pool.old.items) }
    ensures answer { IfOk result (IsAnswer front.now pool.new.items) }
{
    if !spend(budget, pool.len()) {
        return Ok(Comparison::Undecided);
    }
    let (first, second) = split(alloc, pool, from, to, of_new)?;
    let answer = if of_new {
        let answer = compare_pool(alloc, second, front, budget)?;
        if matches!(answer, Comparison::Same) {
            *pool = first;
        }
        answer
    } else {
        let answer = compare_pool(alloc, first, front, budget)?;
        if matches!(answer, Comparison::Same) {
            *pool = second;
        }
        answer
    };
    if let Comparison::Differ(text) = answer {
        if differ_on(alloc, pool, front, &text)? {
            return Ok(Comparison::Differ(text));
        }
    }
    Ok(Comparison::Undecided)
}

/// How many rules one list alone has.
fn differences(pool: &[Entry<'_>]) -> usize {
    pool.iter().filter(|entry| entry.old != entry.new).count()
}

/// Tries each block of so many rules, from the highest one on, in one of the lists.
fn steps<'a>(
    alloc: Global,
    pool: &mut Vec<Entry<'a>>,
    front: &[u8],
    size: usize,
    of_new: bool,
    budget: &mut usize,
) -> Result<Comparison, AllocError>
    ensures leads { OnOk result (Leads front.now pool.new.items pool.old.items) }
    ensures answer { IfOk result (IsAnswer front.now pool.new.items) }
{
    let mut to = pool.len();
    let share = *budget / 2 / (to / size.max(1) + 1);
    while to > 0 {
        let from = to - size.clamp(1, to);
        let differs = match pool.get(from..to) {
            Some(block) => differences(block) > 0,
            None => false,
        };
        if differs {
            let mut left = share;
            let answer = step(alloc, pool, front, from, to, of_new, &mut left)?;
            *budget = budget.saturating_sub(share.saturating_sub(left));
            if matches!(answer, Comparison::Differ(_)) {
                return Ok(answer);
            }
        }
        to = from;
    }
    Ok(Comparison::Undecided)
}

fn total_len(pool: &[Entry<'_>]) -> usize {
    let mut total: usize = 0;
    for entry in pool {
        total = total.saturating_add(entry.item.rest().len());
    }
    total
}

/// Tries texts of rules that one list alone has, if nothing else decides. Each costs its length times that of
/// all patterns, in bytes, of which four are compared in the time of a step.
fn tried(
    alloc: Global,
    pool: &[Entry<'_>],
    front: &[u8],
    budget: &mut usize,
) -> Result<Comparison, AllocError>
    ensures { IfOk result (IsAnswer front.now pool.now) }
{
    let total = total_len(pool) / 4;
    for entry in pool {
        let cost = entry.item.rest().len().saturating_mul(total);
        if entry.old != entry.new && spend(budget, cost) {
            let text = filled(alloc, entry.item.rest(), b"", false)?;
            if differ_on(alloc, pool, front, text.as_slice())? {
                return Ok(Comparison::Differ(text));
            }
        }
    }
    Ok(Comparison::Undecided)
}

/// Compares all rules at once. A quarter of the budget is kept for texts to try.
fn compare_all(
    alloc: Global,
    pool: &[Entry<'_>],
    front: &[u8],
    budget: &mut usize,
) -> Result<Comparison, AllocError>
    ensures { IfOk result (IsAnswer front.now pool.now) }
{
    let mut kept = *budget / 4;
    *budget = budget.saturating_sub(kept);
    let copy = refined(alloc, pool, 0, b"", 0)?;
    let answer = compare_pool(alloc, copy, front, budget)?;
    if matches!(answer, Comparison::Undecided) {
        return tried(alloc, pool, front, &mut kept);
    }
    *budget = budget.saturating_add(kept);
    Ok(answer)
}

/// How many rules the first steps change: if they aren't few, so many that all steps together stay within a
/// part of the budget.
fn first_size(pool: &[Entry<'_>], budget: usize) -> usize {
    if differences(pool) <= FEW {
        return pool.len();
    }
    pool.len().saturating_mul(pool.len()) / (budget / 16 + 1)
}

/// Smaller and smaller blocks, in each list in turn.
fn turns<'a>(
    alloc: Global,
    pool: &mut Vec<Entry<'a>>,
    front: &[u8],
    new_first: bool,
    budget: &mut usize,
) -> Result<Comparison, AllocError>
    ensures leads { OnOk result (Leads front.now pool.new.items pool.old.items) }
    ensures answer { IfOk result (IsAnswer front.now pool.new.items) }
{
    let mut size = first_size(pool, *budget);
    let mut before = 0;
    for round in 0..ROUNDS {
        let is_first = round % 2 == 0;
        let count = differences(pool);
        if count <= 1 || is_first && size == 0 && count == before {
            break;
        }
        let answer = steps(alloc, pool, front, size, is_first == new_first, budget)?;
        if matches!(answer, Comparison::Differ(_)) {
            return Ok(answer);
        }
        if is_first {
            before = count;
        } else {
            size /= 2;
        }
    }
    Ok(Comparison::Undecided)
}

/// By steps, of which the first ones change this list; and at last what is left, for which half of the budget
/// is kept. If steps that begin with the old list leave much, it gives up.
fn compare_in_order(
    alloc: Global,
    start: &[Entry<'_>],
    front: &[u8],
    new_first: bool,
    budget: &mut usize,
) -> Result<Comparison, AllocError>
    ensures { IfOk result (IsAnswer front.now start.now) }
{
    let mut pool = refined(alloc, start, 0, b"", 0)?;
    let kept = *budget / 2;
    *budget = budget.saturating_sub(kept);
    let answer = turns(alloc, &mut pool, front, new_first, budget)?;
    *budget = budget.saturating_add(kept);
    if matches!(answer, Comparison::Differ(_)) {
        return Ok(answer);
    }
    if !new_first && differences(&pool) > 1 {
        return Ok(Comparison::Undecided);
    }
    compare_all(alloc, pool.as_slice(), front, budget)
}

/// Half of the budget is for steps that begin with the old list.
pub(crate) fn compare_by_steps(
    alloc: Global,
    pool: &[Entry<'_>],
    front: &[u8],
    budget: &mut usize,
) -> Result<Comparison, AllocError>
    ensures { IfOk result (IsAnswer front.now pool.now) }
{
    let kept = *budget / 2;
    *budget = budget.saturating_sub(kept);
    let answer = compare_in_order(alloc, pool, front, false, budget)?;
    *budget = budget.saturating_add(kept);
    if matches!(answer, Comparison::Undecided) {
        return compare_in_order(alloc, pool, front, true, budget);
    }
    Ok(answer)
}
