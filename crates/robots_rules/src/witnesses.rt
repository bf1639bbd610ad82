//! Texts that show that a rule is needed. Nothing is proved here: a rule that is wrongly taken to be needed
//! stays.

use crate::rule::Rule;
use crate::texts::{Texts, ended, filled, is_match_within};
use std::alloc::{AllocError, Global};

/// At most so many texts are tried that have a part of another rule's.
const MOST_MIXED: usize = 64;

/// So many steps of a match take about as long as one of a comparison.
const STEPS: usize = 32;

/// A part of a budget, in steps of a match.
fn steps_of(budget: usize) -> usize {
    (budget / 16).saturating_mul(STEPS)
}

/// Subtracts from a budget what was taken of its part in steps of a match.
fn take(budget: &mut usize, left: usize) {
    let taken = (*budget / 16).saturating_sub(left / STEPS);
    *budget = budget.saturating_sub(taken);
}

fn is_match(rule: &Rule, text: &[u8], steps: &mut usize) -> bool {
    let (is, taken) = is_match_within(rule.pattern.as_bytes(), text, *steps);
    *steps = steps.saturating_sub(taken).saturating_sub(2);
    is
}

/// Texts of a rule.
#[derive(Drop)]
pub(crate) struct Witnesses {
    texts: Texts,
}

impl Witnesses {
    pub(crate) fn new(alloc: Global, rule: &Rule) -> Result<Witnesses, AllocError> {
        Ok(Witnesses {
            texts: Texts::new(alloc, rule.pattern.as_bytes())?,
        })
    }

    /// Whether this rule matches both texts.
    pub(crate) fn are_matched(&self, rule: &Rule, budget: &mut usize) -> bool {
        let mut steps = steps_of(*budget);
        let are = self.texts.are_matched(rule.pattern.as_bytes(), &mut steps);
        take(budget, steps);
        are
    }

    /// Whether the rule matches both texts, and the shortest isn't `/robots.txt`, which no rule decides.
    pub(crate) fn are_proper(&self, rule: &Rule, budget: &mut usize) -> bool {
        !is_robots_file(&self.texts.shortest) && self.are_matched(rule, budget)
    }

    /// Whether the rule at this place is needed on one of the texts.
    pub(crate) fn show(&self, rules: &[Rule], at: usize, budget: &mut usize) -> bool {
        let mut steps = steps_of(*budget);
        let shown = is_needed_on(rules, at, &self.texts.shortest, &mut steps)
            || is_needed_on(rules, at, &self.texts.longer, &mut steps);
        take(budget, steps);
        shown
    }
}

fn is_robots_file(text: &[u8]) -> bool {
    text == b"/robots.txt".as_slice()
}

/// On this text, the verdict is another one without the rule at this place. The lowest rule is the first one.
fn is_needed_on(rules: &[Rule], at: usize, text: &[u8], steps: &mut usize) -> bool {
    let Some(rule) = rules.get(at) else {
        return false;
    };
    if is_robots_file(text) || !is_match(rule, text, steps) {
        return false;
    }
    for k in at.saturating_add(1)..rules.len() {
        if is_match(&rules[k], text, steps) {
            return false;
        }
    }
    for k in (0..at).rev() {
        let below = &rules[k];
        if is_match(below, text, steps) {
            return *steps > 0 && below.is_allow != rule.is_allow;
        }
    }
    *steps > 0 && !rule.is_allow
}

/// The pattern before its first star or dollar.
fn head(pattern: &[u8]) -> &[u8] {
    for k in 0..pattern.len() {
        if pattern[k] == b'*' || pattern[k] == b'$' {
            return &pattern[..k];
        }
    }
    pattern
}

/// Whether both rules may match some text.
pub(crate) fn may_meet(one: &Rule, other: &Rule) -> bool {
    let begin = head(one.pattern.as_bytes());
    let other_begin = head(other.pattern.as_bytes());
    begin.starts_with(other_begin) || other_begin.starts_with(begin)
}

/// The rule at this place is needed on a text that has a part of a rule of the other kind below it.
pub(crate) fn is_needed_on_mixed(
    alloc: Global,
    rules: &[Rule],
    at: usize,
    budget: &mut usize,
) -> Result<bool, AllocError> {
    let Some(rule) = rules.get(at) else {
        return Ok(false);
    };
    let mut steps = steps_of(*budget);
    let mut count: usize = 0;
    let mut is_shown = false;
    for other in &rules[..at] {
        if is_shown || count == MOST_MIXED {
            break;
        }
        if other.is_allow != rule.is_allow && may_meet(other, rule) {
            count = count.saturating_add(1);
            let part = filled(alloc, other.pattern.as_bytes(), b"", true)?;
            let part = part.strip_prefix(b"/").unwrap_or(&part);
            let text = filled(alloc, rule.pattern.as_bytes(), part, true)?;
            is_shown = is_needed_on(rules, at, &text, &mut steps);
            if !is_shown {
                let text = ended(alloc, rule.pattern.as_bytes(), part)?;
                is_shown = is_needed_on(rules, at, &text, &mut steps);
            }
        }
    }
    take(budget, steps);
    Ok(is_shown)
}
