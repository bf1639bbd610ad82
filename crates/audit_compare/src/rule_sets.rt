//! A crawler's rules as a set, for the comparison with the rules of another file.
ghost use Rattle.std.specs.Prelude.{◌≡◌, ℕ, IfOk, List};
ghost use Rattle.std.specs.BTreeSet.{contains_text};
ghost use Rattle.audit_compare.specs.Compare.{has_rule, rules_lacked};
ghost use Rattle.audit_compare.specs.Internal.{HasRules, contains_rule};

use robots_rules::rule::Rule;
use std::alloc::{AllocError, Global};
use std::collections::BTreeSet;

/// The patterns of rules, by kind.
#[derive(Drop)]
struct RuleSet {
    allowed: BTreeSet<String>,
    denied: BTreeSet<String>,
}

fn patterns_of(
    alloc: Global,
    rules: &[Rule],
    is_allow: bool,
) -> Result<BTreeSet<String>, AllocError>
    ensures { IfOk result (λ patterns. (pattern : List ℕ)
        → contains_text patterns pattern ≡ has_rule rules.now (pattern, is_allow)) }
{
    let mut patterns = BTreeSet::new(alloc);
    for rule in rules {
        if rule.is_allow != is_allow {
            continue;
        }
        patterns.insert(String::from_str(alloc, &rule.pattern)?)?;
    }
    Ok(patterns)
}

impl RuleSet {
    fn of(alloc: Global, rules: &[Rule]) -> Result<Self, AllocError>
        ensures { IfOk result (HasRules rules.now) }
    {
        let allowed = patterns_of(alloc, rules, true)?;
        let denied = patterns_of(alloc, rules, false)?;
        Ok(RuleSet { allowed, denied })
    }

    fn contains(&self, rule: &Rule) -> bool
        ensures { result ≡ contains_rule self.now rule.now.rule }
    {
        if rule.is_allow {
            self.allowed.contains(rule.pattern.as_str())
        } else {
            self.denied.contains(rule.pattern.as_str())
        }
    }
}

fn copy_of(alloc: Global, rule: &Rule) -> Result<Rule, AllocError>
    ensures { IfOk result (λ copy. copy ≡ rule.now) }
{
    Ok(Rule {
        pattern: String::from_str(alloc, &rule.pattern)?,
        is_allow: rule.is_allow,
        line: rule.line,
    })
}

pub(crate) fn rules_lacked(
    alloc: Global,
    others: &[Rule],
    rules: &[Rule],
) -> Result<Vec<Rule>, AllocError>
    ensures { IfOk result (λ lacked. lacked.items ≡ rules_lacked others.now rules.now) }
{
    let set = RuleSet::of(alloc, others)?;
    let mut lacked = Vec::new(alloc);
    for rule in rules {
        if !set.contains(rule) {
            lacked.push(copy_of(alloc, rule)?)?;
        }
    }
    Ok(lacked)
}
