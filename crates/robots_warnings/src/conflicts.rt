//! Rules that contradict each other.
ghost use Rattle.std.specs.Prelude.{◌≡◌, ◌==◌, ◌&&◌, ◌||◌, ◌⊎◌, ℕ, Contains, IfOk, None, OnOk, Some, is_some};
ghost use Rattle.std.specs.Prelude.{if◌then◌else◌, map, not, string_bytes};
ghost use Rattle.std.specs.{BTreeMap.get, BTreeSet.contains, Option.option_or, Ordering.nat_cmp};
ghost use Rattle.texting_robots.specs.Callers.{file_lines};
ghost use Rattle.robots_warnings.specs.Conflicts.{AreOpposed, are_closed, closes_all, compared, is_of_all};
ghost use Rattle.robots_warnings.specs.Conflicts.{is_overruling, opens_all};
ghost use Rattle.robots_warnings.specs.Internal.Rules.{AreOf};

use crate::numbers::LineNumbers;
use crate::own_rules::own_rules;
use crate::site_patterns::is_whole_site;
use std::alloc::{AllocError, Global};
use std::collections::{BTreeMap, HashMap};
use texting_robots::site::{Site, SiteRule};

/// For each text, its first place: for a pattern, as it is compared, the index of its first Allow; for a
/// sitemap, the first line that lists it.
pub(crate) type Places = HashMap<String, usize>;

/// For the number of a line, another line that contradicts it.
pub(crate) type Others = BTreeMap<usize, usize>;

fn compared_pattern(alloc: Global, rule: &SiteRule<'_>) -> Result<String, AllocError>
    ensures { IfOk result (λ pattern. string_bytes pattern ≡ compared rule.now.rule.0) }
{
    let pattern = rule.pattern(alloc)?;
    if pattern.as_str() == "*" {
        return Ok(String::from_str(alloc, "/")?);
    }
    Ok(pattern)
}

pub(crate) fn add_first(places: &mut Places, text: String, place: usize) -> Result<(), AllocError> {
    if !places.contains_key(text.as_str()) {
        places.insert(text, place)?;
    }
    Ok(())
}

/// Whether the rule is an Allow other than an empty Disallow.
fn is_stated_allow(rule: &SiteRule<'_>, empty: &LineNumbers) -> bool
    ensures { result ≡ (rule.now.rule.1 && not (contains nat_cmp empty.now rule.now.line)) }
{
    rule.is_allow && !empty.contains(&rule.line)
}

/// The indexes of the first Allows with each pattern, other than empty Disallows.
fn first_allows(
    alloc: Global,
    rules: &[SiteRule<'_>],
    empty: &LineNumbers,
) -> Result<Places, AllocError> {
    let mut places = HashMap::new(alloc);
    for (index, rule) in rules.iter().enumerate() {
        if is_stated_allow(rule, empty) {
            add_first(&mut places, compared_pattern(alloc, rule)?, index)?;
        }
    }
    Ok(places)
}

fn note(others: &mut Others, number: usize, other: usize) -> Result<(), AllocError>
    ensures { OnOk result ((n : ℕ) → get nat_cmp others.new n
        ≡ option_or (get nat_cmp others.old n) (if number == n then Some other else None)) }
{
    if !others.contains_key(&number) {
        others.insert(number, other)?;
    }
    Ok(())
}

/// For a Disallow, the line of the first Allow with the same pattern, empty Disallows left out; `allowed` is
/// what `first_allows` returns for these rules.
#[tactic(auto, using(crate::proofs::RuleLemmas::opposed))]
fn allow_beside(
    alloc: Global,
    allowed: &Places,
    rules: &[SiteRule<'_>],
    rule: &SiteRule<'_>,
    empty: &LineNumbers,
) -> Result<Option<usize>, AllocError>
    requires { Contains rules.now rule.now }
    ensures { IfOk result (λ other. (line : ℕ) → other ≡ Some line
        → AreOpposed (contains nat_cmp empty.now) rules.now rule.now.line line) }
{
    if rule.is_allow || allowed.is_empty() {
        return Ok(None);
    }
    let pattern = compared_pattern(alloc, rule)?;
    let Some(index) = allowed.get(pattern.as_str()) else {
        return Ok(None);
    };
    let Some(other) = rules.get(*index) else {
        return Ok(None);
    };
    if is_stated_allow(other, empty) && compared_pattern(alloc, other)? == pattern {
        return Ok(Some(other.line));
    }
    Ok(None)
}

/// Whether the pattern is `/` or `*`.
#[tactic(auto, using(crate::proofs::RuleLemmas::of_all_escaped))]
fn is_of_all(rule: &SiteRule<'_>) -> bool
    ensures { result ≡ is_of_all rule.now.rule.0 }
{
    let value = rule.value.as_bytes();
    is_whole_site(value) && value.len() == 1
}

fn closes_all(rule: &SiteRule<'_>) -> bool
    ensures { result ≡ closes_all rule.now }
{
    !rule.is_allow && is_of_all(rule)
}

fn opens_all(rule: &SiteRule<'_>, empty: &LineNumbers) -> bool
    ensures { result ≡ opens_all (contains nat_cmp empty.now) rule.now }
{
    is_stated_allow(rule, empty) && is_of_all(rule)
}

/// The line of the first Disallow of `/` or `*`, if there is no Allow of these.
fn closing_all(rules: &[SiteRule<'_>], empty: &LineNumbers) -> Option<usize>
    ensures { is_some result ≡ are_closed (contains nat_cmp empty.now) rules.now }
{
    let mut line = None;
    for rule in rules {
        if opens_all(rule, empty) {
            return None;
        }
        if line.is_none() && closes_all(rule) {
            line = Some(rule.line);
        }
    }
    line
}

/// Inserts the lines of Disallows that contradict an Allow of these rules of one crawler.
fn add_conflicts(
    alloc: Global,
    conflicts: &mut Others,
    rules: &[SiteRule<'_>],
    empty: &LineNumbers,
) -> Result<(), AllocError>
    ensures { OnOk result ((number other : ℕ) → get nat_cmp conflicts.new number ≡ Some other
        → (get nat_cmp conflicts.old number ≡ Some other)
        ⊎ AreOpposed (contains nat_cmp empty.now) rules.now number other) }
{
    let allowed = first_allows(alloc, rules, empty)?;
    for rule in rules {
        if let Some(other) = allow_beside(alloc, &allowed, rules, rule, empty)? {
            note(conflicts, rule.line, other)?;
        }
    }
    Ok(())
}

/// Inserts the lines of empty Disallows that overrule a Disallow of these rules of one crawler.
fn add_overruling(
    overruling: &mut Others,
    rules: &[SiteRule<'_>],
    empty: &LineNumbers,
) -> Result<(), AllocError>
    ensures { OnOk result ((number : ℕ) → is_some (get nat_cmp overruling.new number)
        ≡ (is_some (get nat_cmp overruling.old number)
        || is_overruling (contains nat_cmp empty.now) number rules.now)) }
{
    let Some(other) = closing_all(rules, empty) else {
        return Ok(());
    };
    for rule in rules {
        if empty.contains(&rule.line) {
            note(overruling, rule.line, other)?;
        }
    }
    Ok(())
}

/// What contradicts rules of some crawlers, by the numbers of their lines.
#[derive(Drop)]
pub(crate) struct RuleLines {
    /// For a Disallow, the Allow with the same pattern.
    pub(crate) conflicts: Others,
    /// For an empty Disallow, the Disallow of `/` or `*`, if there is no Allow of these.
    pub(crate) overruling: Others,
}

pub(crate) fn rule_lines(
    alloc: Global,
    site: &Site,
    agents: &[&str],
    empty: &LineNumbers,
) -> Result<RuleLines, AllocError>
    ensures { IfOk result (AreOf (contains nat_cmp empty.now) (map (λ agent. agent.now) agents.now)
        (file_lines site.now)) }
{
    let mut conflicts = BTreeMap::new(alloc);
    let mut overruling = BTreeMap::new(alloc);
    for agent in agents {
        let rules = own_rules(alloc, site, agent)?;
        add_conflicts(alloc, &mut conflicts, &rules, empty)?;
        add_overruling(&mut overruling, &rules, empty)?;
    }
    Ok(RuleLines {
        conflicts,
        overruling,
    })
}
