//! Compares two lists of rules on every text that begins with a given one.
ghost use Rattle.std.specs.Prelude.{◌≡◌, ◌⊎◌, ◌<◌, ◌≤◌, ◌++◌, ◌∷◌, ◌||◌, IfOk, IsTrue, [], true, false};
ghost use Rattle.std.specs.Prelude.{codes, if◌then◌else◌, length, slice_index_or};
ghost use Rattle.texting_robots.specs.Callers.{file_lines, placed_rules, unplaced};
ghost use Rattle.robots_rules.specs.Internal.{AreAscending, Decide, chosen, rank_of, robots_rule};
ghost use Rattle.robots_rules.specs.Same.{IsComparison};

use crate::chain::compare_by_steps;
use crate::item::Item;
use crate::pool::Entry;
use crate::rule::{Rule, rules_of};
use crate::search::spend;
use std::alloc::{AllocError, Global};
use std::cmp::Ordering;
use texting_robots::site::Site;

/// How two lists of rules compare.
#[derive(Debug, Drop)]
pub enum Comparison {
    /// The lists have the same verdict on every text that begins with `front`.
    Same,
    /// The lists have opposite verdicts on this text, which begins with `front`. It is a match target, not a
    /// URL, and may not be UTF-8.
    Differ(Vec<u8>),
    /// The budget was spent before either was found.
    Undecided,
}

/// The lowest first: the longer pattern is higher, and of the same length an Allow. The third key is for
/// `merged`, which finds a rule of both lists only where both are in one order.
fn order(one: &Item<'_>, other: &Item<'_>) -> Ordering {
    one.rest()
        .len()
        .cmp(&other.rest().len())
        .then(one.is_allow().cmp(&other.is_allow()))
        .then(one.rest().cmp(other.rest()))
}

/// Whether the first item doesn't rank above the other one.
#[tactic(auto, using(crate::proofs::VerdictLemmas::shorter_below, crate::proofs::VerdictLemmas::disallow_below, crate::proofs::VerdictLemmas::below_allow))]
pub(crate) fn is_below(one: &Item<'_>, other: &Item<'_>) -> bool
    ensures { IsTrue result → rank_of one.now ≤ rank_of other.now }
{
    let len = one.rest().len();
    let other_len = other.rest().len();
    if len < other_len {
        return true;
    }
    if len > other_len {
        return false;
    }
    if one.is_allow() {
        other.is_allow()
    } else {
        true
    }
}

fn is_ascending(items: &[Item<'_>]) -> bool
    ensures { IsTrue result → AreAscending items.now }
{
    for k in 1..items.len() {
        if !is_below(&items[k - 1], &items[k]) {
            return false;
        }
    }
    true
}

/// The lowest first. No order is promised: the caller tests it by `is_ascending`, which is why the contract
/// only speaks of items that ascend.
fn sorted(alloc: Global, rules: &[Rule]) -> Result<Vec<Item<'_>>, AllocError>
    ensures { IfOk result (λ items. AreAscending items.items → Decide (unplaced rules.now) items.items) }
{
    let mut items = Vec::new(alloc);
    for rule in rules {
        items.push(rule.item())?;
    }
    items.sort_unstable_by(|one, other| order(one, other));
    Ok(items)
}

fn entry_of<'a>(item: &Item<'a>, number: usize, old: bool, new: bool) -> Entry<'a>
    ensures item { result.item ≡ item.now }
    ensures old { result.old ≡ old }
    ensures new { result.new ≡ new }
{
    Entry {
        item: Item::new(item.rest(), item.is_allow(), number),
        old,
        new,
        tracked: false,
    }
}

fn one_if(taken: bool) -> usize
    ensures { result ≡ (if taken then 1 else 0) }
{
    if taken { 1 } else { 0 }
}

/// The next item of both lists.
fn next_entry<'a>(
    old: &[Item<'a>],
    new: &[Item<'a>],
    i: usize,
    j: usize,
    number: usize,
) -> Entry<'a>
    requires some { i < length old.now ⊎ j < length new.now }
    ensures some { (result.old || result.new) ≡ true }
    ensures old { result.old ≡ true → (i < length old.now)
        × (result.item ≡ slice_index_or old.now i result.item) }
    ensures new { result.new ≡ true → (j < length new.now)
        × (result.item ≡ slice_index_or new.now j result.item) }
{
    if j >= new.len() {
        return entry_of(&old[i], number, true, false);
    }
    if i >= old.len() {
        return entry_of(&new[j], number, false, true);
    }
    if old[i].is_same(&new[j]) {
        return entry_of(&old[i], number, true, true);
    }
    if order(&old[i], &new[j]) == Ordering::Less {
        entry_of(&old[i], number, true, false)
    } else {
        entry_of(&new[j], number, false, true)
    }
}

/// The items of both lists, one of both only once; and the rule that `/robots.txt` is always allowed.
fn merged<'a>(
    alloc: Global,
    old: &[Item<'a>],
    new: &[Item<'a>],
) -> Result<Vec<Entry<'a>>, AllocError>
    ensures old { IfOk result (λ pool. chosen true false pool.items ≡ old.now ++ robots_rule ∷ []) }
    ensures new { IfOk result (λ pool. chosen true true pool.items ≡ new.now ++ robots_rule ∷ []) }
{
    let mut pool = Vec::new(alloc);
    let mut i = 0;
    let mut j = 0;
    while i < old.len() || j < new.len() {
        let entry = next_entry(old, new, i, j, pool.len());
        i += one_if(entry.old);
        j += one_if(entry.new);
        pool.push(entry)?;
    }
    let robots_file = Item::new(b"/robots.txt$", true, 0);
    let last = entry_of(&robots_file, pool.len(), true, true);
    pool.push(last)?;
    Ok(pool)
}

/// Compares them on the texts that begin with `front`: `/` for paths, or nothing for all texts. The budget is
/// a rough bound of the search, in rules that are moved on by a byte, of which what was used is subtracted; a
/// check afterwards takes as long again.
pub fn compare<'a>(
    alloc: Global,
    front: &[u8],
    old: &'a [Rule],
    new: &'a [Rule],
    budget: &mut usize,
) -> Result<Comparison, AllocError>
    ensures { IfOk result (IsComparison front.now (unplaced old.now) (unplaced new.now)) }
{
    if !spend(budget, old.len().saturating_add(new.len())) {
        return Ok(Comparison::Undecided);
    }
    let old_items = sorted(alloc, old)?;
    let new_items = sorted(alloc, new)?;
    if !is_ascending(old_items.as_slice()) {
        return Ok(Comparison::Undecided);
    }
    if !is_ascending(new_items.as_slice()) {
        return Ok(Comparison::Undecided);
    }
    let pool = merged(alloc, old_items.as_slice(), new_items.as_slice())?;
    let answer = compare_by_steps(alloc, pool.as_slice(), front, budget)?;
    Ok(answer)
}

/// Compares the verdicts of two files for one crawler, on all match targets that begin with `/`. Only the
/// bytes that each site has read count, and only rules that are UTF-8. Whether a file is rejected for the
/// crawler, delays, sitemaps and deciding lines aren't compared: call `Site::robot` for the first.
/// `/robots.txt` is always allowed.
pub fn compare_sites(
    alloc: Global,
    old: &Site,
    new: &Site,
    agent: &str,
    budget: &mut usize,
) -> Result<Comparison, AllocError>
    ensures { IfOk result (IsComparison (codes "/") (unplaced (placed_rules agent.now (file_lines old.now)))
        (unplaced (placed_rules agent.now (file_lines new.now)))) }
{
    let old_rules = rules_of(alloc, old, agent)?;
    let new_rules = rules_of(alloc, new, agent)?;
    let answer = compare(
        alloc,
        b"/",
        old_rules.as_slice(),
        new_rules.as_slice(),
        budget,
    )?;
    Ok(answer)
}
