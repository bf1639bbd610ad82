//! Looks for needless rules of a crawler. Only that the verdicts stay is proved of it; `same` checks the
//! whole file without the lines that are found.
ghost use Rattle.std.specs.Prelude.{◌≡◌, ◌≢◌, ◌++◌, ◌<◌, [], All, IfOk, IsPermutation, IsTrue, OnOk, false};
ghost use Rattle.std.specs.Prelude.{length};
ghost use Rattle.texting_robots.specs.Pattern.{dollar, star};
ghost use Rattle.texting_robots.specs.Callers.{unplaced};
ghost use Rattle.robots_rules.specs.Same.{IsComparison};
ghost use Rattle.robots_rules.specs.Search.{AreApart, Covers, IsNoRival, IsOutcome, IsReducedTo, Replaces};
ghost use Rattle.robots_rules.specs.Search.{least_rival, others};

use crate::compare::{Comparison, compare, is_below};
use crate::rule::Rule;
use crate::witnesses::{Witnesses, is_needed_on_mixed, may_meet};
use std::alloc::{AllocError, Global};
use std::collections::{BTreeMap, BTreeSet};

/// Bounds how long the rules of all crawlers are compared.
pub(crate) const BUDGET: usize = 50_000_000;

/// Why a rule is needless.
#[derive(Clone, Copy, Debug, Eq, PartialEq)]
pub enum Reason {
    /// The rule's pattern matches no text, except perhaps `/robots.txt`, which is always allowed.
    MatchesNothing,
    /// The rule is an Allow, and what it allows stays allowed once all needless rules are deleted.
    AllowedAnyway,
    /// The rule never decides, since the one in the line with this number matches every text that it matches,
    /// and is longer; or as long, and an Allow for a Disallow, or in a line above.
    NeverDecides(usize),
    /// Once all needless rules are deleted, the same verdict follows from the rule in the line with this
    /// number, which is of the same kind and matches every text that it matches, or from another rule.
    NotNeeded(usize),
}

#[derive(Clone, Copy, Debug, Eq, PartialEq)]
pub struct NeedlessRule {
    /// The number of the rule's line, counted from 1.
    pub line: usize,
    pub reason: Reason,
}

pub(crate) type LineNumbers = BTreeSet<usize>;

/// What was found for some crawlers.
#[derive(Drop)]
pub(crate) struct Progress {
    /// The lines of rules that are needless for at least one of them, each with the reason.
    pub(crate) found: BTreeMap<usize, Reason>,
    /// The lines of rules that are needed by at least one of them.
    pub(crate) stays: LineNumbers,
    /// The line of a rule of each crawler whose rules weren't all decided.
    pub(crate) undecided: LineNumbers,
}

/// What becomes of a rule.
#[derive(Clone, Copy)]
enum Outcome {
    Goes(Reason),
    Stays,
    Undecided,
}

/// A copy of the rule, as an Allow or a Disallow.
fn copied(alloc: Global, rule: &Rule, is_allow: bool) -> Result<Rule, AllocError>
    ensures { IfOk result (λ made. made
        ≡ record { rule = (rule.now.rule.0, is_allow); line = rule.now.line }) }
{
    let mut pattern = String::new(alloc);
    pattern.push_str(rule.pattern.as_str())?;
    Ok(Rule {
        pattern,
        is_allow,
        line: rule.line,
    })
}

/// Compares two lists, with an eighth of the budget at most.
fn compared(
    alloc: Global,
    budget: &mut usize,
    rules: &[Rule],
    rest: &[Rule],
) -> Result<Comparison, AllocError>
    ensures { IfOk result (IsComparison [] (unplaced rules.now) (unplaced rest.now)) }
{
    let most = *budget / 8;
    let mut left = most;
    let comparison = compare(alloc, b"", rules, rest, &mut left)?;
    *budget = budget.saturating_sub(most.saturating_sub(left));
    Ok(comparison)
}

fn matches_nothing(alloc: Global, budget: &mut usize, rule: &Rule) -> Result<bool, AllocError> {
    let mut denials = Vec::new(alloc);
    denials.push(copied(alloc, rule, false)?)?;
    let comparison = compared(alloc, budget, denials.as_slice(), &[])?;
    Ok(matches!(comparison, Comparison::Same))
}

fn covers(alloc: Global, budget: &mut usize, wide: &Rule, narrow: &Rule) -> Result<bool, AllocError>
    ensures { IfOk result (λ is. IsTrue is → Covers wide.now.rule.0 narrow.now.rule.0) }
{
    if wide.pattern.as_str() == narrow.pattern.as_str() {
        return Ok(true);
    }
    let mut one = Vec::new(alloc);
    one.push(copied(alloc, wide, false)?)?;
    let mut both = Vec::new(alloc);
    both.push(copied(alloc, wide, false)?)?;
    both.push(copied(alloc, narrow, false)?)?;
    match compared(alloc, budget, both.as_slice(), one.as_slice())? {
        Comparison::Same => Ok(true),
        _ => Ok(false),
    }
}

/// `covers`, which is asked only if `wide` matches the texts in `shown`.
fn is_wider(
    alloc: Global,
    budget: &mut usize,
    wide: &Rule,
    narrow: &Rule,
    shown: &Witnesses,
) -> Result<bool, AllocError>
    ensures { IfOk result (λ is. IsTrue is → Covers wide.now.rule.0 narrow.now.rule.0) }
{
    if shown.are_matched(wide, budget) {
        return covers(alloc, budget, wide, narrow);
    }
    Ok(false)
}

fn is_special(byte: u8) -> bool
    ensures { result ≡ false → (byte ≢ star) × (byte ≢ dollar) }
{
    byte == b'*' || byte == b'$'
}

/// The patterns differ before their first star or dollar.
fn are_apart(one: &[u8], other: &[u8]) -> bool
    ensures { IsTrue result → AreApart one.now other.now }
{
    for k in 0..one.len().min(other.len()) {
        if is_special(one[k]) {
            return false;
        }
        if is_special(other[k]) {
            return false;
        }
        if one[k] != other[k] {
            return true;
        }
    }
    false
}

/// How many bytes a rival, a rule of the other kind, has to have at least to rank above this replacement.
fn least_rival(rule: &Rule) -> usize
    ensures { result ≡ least_rival rule.now.rule }
{
    let len = rule.pattern.len();
    if rule.is_allow { len + 1 } else { len }
}

/// The other rule is a rival that may decide in place of the rule's replacement, were the rule deleted: it is
/// of the other kind, has at least so many bytes, ranks below the rule, and may match some of its texts.
fn is_rival(other: &Rule, rule: &Rule, least: usize) -> bool
    ensures { result ≡ false → IsNoRival least rule.now other.now }
{
    if other.is_allow == rule.is_allow {
        return false;
    }
    if other.pattern.len() < least {
        return false;
    }
    if is_below(&rule.item(), &other.item()) {
        return false;
    }
    !are_apart(other.pattern.as_bytes(), rule.pattern.as_bytes())
}

fn has_rival(rules: &[Rule], rule: &Rule, least: usize) -> bool
    ensures { result ≡ false → All (IsNoRival least rule.now) rules.now }
{
    for other in rules {
        if is_rival(other, rule, least) {
            return true;
        }
    }
    false
}

/// If the other one matches every text that the rule matches, the rule changes no verdict.
fn replaces(other: &Rule, rule: &Rule, rules: &[Rule]) -> bool
    ensures { IsTrue result → Replaces rules.now rule.now other.now }
{
    if is_below(&rule.item(), &other.item()) {
        return true;
    }
    if other.is_allow != rule.is_allow {
        return false;
    }
    !has_rival(rules, rule, least_rival(other))
}

/// Why a rule is needless, and whether that is sure.
#[derive(Clone, Copy)]
struct Cause {
    reason: Option<Reason>,
    is_sure: bool,
}

/// The highest of these rules above another one that matches every text that the other one matches.
fn overruled(
    alloc: Global,
    budget: &mut usize,
    rules: &[Rule],
    at: usize,
    shown: &Witnesses,
) -> Result<Cause, AllocError>
    requires { at < length rules.now }
    ensures { IfOk result (λ cause. IsTrue cause.is_sure → IsReducedTo rules.now (others at rules.now)) }
{
    let rule = &rules[at];
    let above = &rules[at + 1..];
    for k in (0..above.len()).rev() {
        let other = &above[k];
        if is_wider(alloc, budget, other, rule, shown)? {
            let is_sure = replaces(other, rule, rules);
            return Ok(Cause {
                reason: Some(Reason::NeverDecides(other.line)),
                is_sure,
            });
        }
    }
    Ok(Cause {
        reason: None,
        is_sure: false,
    })
}

/// The lowest rule of its kind below it that matches every text that the rule at this place matches.
fn covered(
    alloc: Global,
    budget: &mut usize,
    rules: &[Rule],
    at: usize,
    shown: &Witnesses,
) -> Result<Cause, AllocError>
    requires { at < length rules.now }
    ensures { IfOk result (λ cause. IsTrue cause.is_sure → IsReducedTo rules.now (others at rules.now)) }
{
    let rule = &rules[at];
    let below = &rules[..at];
    let mut reason = None;
    for k in 0..below.len() {
        let other = &below[k];
        if other.is_allow != rule.is_allow || !is_wider(alloc, budget, other, rule, shown)? {
            continue;
        }
        if reason.is_none() {
            reason = Some(Reason::NotNeeded(other.line));
        }
        *budget = budget.saturating_sub(rules.len() / 8);
        if replaces(other, rule, rules) {
            return Ok(Cause {
                reason,
                is_sure: true,
            });
        }
    }
    Ok(Cause {
        reason,
        is_sure: false,
    })
}

/// The rule at this place is an Allow, and no Disallow below it may match a text that it matches.
fn is_allowed_anyway(rules: &[Rule], at: usize) -> bool
    requires { at < length rules.now }
    ensures { IsTrue result → IsReducedTo rules.now (others at rules.now) }
{
    let rule = &rules[at];
    if !rule.is_allow {
        return false;
    }
    if has_rival(rules, rule, 0) {
        return false;
    }
    true
}

/// Why the rule at this place is needless, if it is. No reason if none is found.
fn cause_of(
    alloc: Global,
    budget: &mut usize,
    rules: &[Rule],
    at: usize,
    shown: &Witnesses,
) -> Result<Cause, AllocError>
    requires { at < length rules.now }
    ensures { IfOk result (λ cause. IsTrue cause.is_sure → IsReducedTo rules.now (others at rules.now)) }
{
    let rule = &rules[at];
    if !shown.are_proper(rule, budget) && matches_nothing(alloc, budget, rule)? {
        return Ok(Cause {
            reason: Some(Reason::MatchesNothing),
            is_sure: false,
        });
    }
    let above = overruled(alloc, budget, rules, at, shown)?;
    if above.reason.is_some() {
        return Ok(above);
    }
    if is_allowed_anyway(rules, at) {
        return Ok(Cause {
            reason: Some(Reason::AllowedAnyway),
            is_sure: true,
        });
    }
    let below = covered(alloc, budget, rules, at, shown)?;
    if below.reason.is_none() && rule.is_allow {
        return Ok(Cause {
            reason: Some(Reason::AllowedAnyway),
            is_sure: false,
        });
    }
    Ok(below)
}

fn add_copies(alloc: Global, to: &mut Vec<Rule>, rules: &[Rule]) -> Result<(), AllocError>
    ensures { OnOk result (to.new.items ≡ to.old.items ++ rules.now) }
{
    for rule in rules {
        to.push(copied(alloc, rule, rule.is_allow)?)?;
    }
    Ok(())
}

/// About how long it takes to copy and sort the rules, in steps of a comparison.
fn cost_of(rules: &[Rule]) -> usize {
    let mut cost: usize = 0;
    for rule in rules {
        cost = cost
            .saturating_add(rule.pattern.len() / 16)
            .saturating_add(16);
    }
    cost
}

/// All rules are compared with all but the one at this place.
fn comparison_without(
    alloc: Global,
    budget: &mut usize,
    rules: &[Rule],
    at: usize,
) -> Result<Comparison, AllocError>
    requires { at < length rules.now }
    ensures { IfOk result (IsComparison [] (unplaced rules.now) (unplaced (others at rules.now))) }
{
    let mut rest = Vec::new(alloc);
    add_copies(alloc, &mut rest, &rules[..at])?;
    add_copies(alloc, &mut rest, &rules[at + 1..])?;
    *budget = budget.saturating_sub(cost_of(&rest));
    let comparison = compared(alloc, budget, rules, &rest)?;
    Ok(comparison)
}

/// What becomes of the rule at this place, of which the first one is the lowest. `Allow: /` and an empty
/// Disallow are meant as they are.
fn outcome_of(
    alloc: Global,
    budget: &mut usize,
    stays: &LineNumbers,
    rules: &[Rule],
    at: usize,
) -> Result<Outcome, AllocError>
    requires { at < length rules.now }
    ensures { IfOk result (IsOutcome at rules.now) }
{
    let rule = &rules[at];
    if stays.contains(&rule.line) || rule.is_allow && rule.pattern.as_str() == "/" {
        return Ok(Outcome::Stays);
    }
    if *budget == 0 {
        return Ok(Outcome::Undecided);
    }
    let shown = Witnesses::new(alloc, rule)?;
    if shown.show(rules, at, budget) {
        return Ok(Outcome::Stays);
    }
    let cause = cause_of(alloc, budget, rules, at, &shown)?;
    if cause.is_sure {
        if let Some(reason) = cause.reason {
            return Ok(Outcome::Goes(reason));
        }
    }
    if is_needed_on_mixed(alloc, rules, at, budget)? {
        return Ok(Outcome::Stays);
    }
    match (comparison_without(alloc, budget, rules, at)?, cause.reason) {
        (Comparison::Same, Some(reason)) => Ok(Outcome::Goes(reason)),
        (Comparison::Differ(_), _) => Ok(Outcome::Stays),
        _ => Ok(Outcome::Undecided),
    }
}

/// The lowest rank first, and in file order if ranks are equal. The order decides which rules are found of
/// those that aren't needless together.
fn by_rank(rules: Vec<Rule>) -> Vec<Rule>
    ensures { IsPermutation rules.items result.items }
{
    let mut sorted = rules;
    sorted.sort_unstable_by(|one, other| {
        one.pattern
            .len()
            .cmp(&other.pattern.len())
            .then(one.is_allow.cmp(&other.is_allow))
            .then(other.line.cmp(&one.line))
    });
    sorted
}

fn add_lines(numbers: &mut LineNumbers, rules: &[Rule]) -> Result<(), AllocError> {
    for rule in rules {
        numbers.insert(rule.line)?;
    }
    Ok(())
}

/// The rules without those that are needless, of which each is tried among those that are left. After one
/// that isn't decided, none is tried.
fn reduced(
    alloc: Global,
    budget: &mut usize,
    rules: Vec<Rule>,
    progress: &mut Progress,
) -> Result<Vec<Rule>, AllocError>
    ensures { IfOk result (λ left. IsReducedTo rules.items left.items) }
{
    let mut left = by_rank(rules);
    let mut at = 0;
    for _ in 0..left.len() {
        if at >= left.len() {
            break;
        }
        match outcome_of(alloc, budget, &progress.stays, &left, at)? {
            Outcome::Goes(reason) => {
                let rule = left.remove(at);
                progress.found.insert(rule.line, reason)?;
            }
            Outcome::Stays => at += 1,
            Outcome::Undecided => {
                let rule = &left[at];
                progress.undecided.insert(rule.line)?;
                break;
            }
        }
    }
    Ok(left)
}

fn by_line(rules: Vec<Rule>) -> Vec<Rule>
    ensures { IsPermutation rules.items result.items }
{
    let mut sorted = rules;
    sorted.sort_unstable_by(|one, other| one.line.cmp(&other.line));
    sorted
}

/// The rules of a crawler, in file order, without those that are found to be needless. The lines of the
/// others stay.
pub(crate) fn settle(
    alloc: Global,
    budget: &mut usize,
    rules: Vec<Rule>,
    progress: &mut Progress,
) -> Result<Vec<Rule>, AllocError>
    ensures { IfOk result (λ left. IsReducedTo rules.items left.items) }
{
    let left = reduced(alloc, budget, rules, progress)?;
    add_lines(&mut progress.stays, left.as_slice())?;
    Ok(by_line(left))
}
