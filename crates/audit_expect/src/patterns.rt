//! Expectations about all paths that a pattern matches.
ghost use Rattle.std.specs.Prelude.{◌≡◌, ℕ, IfOk, List, length, nat_lt, string_bytes};
ghost use Rattle.std.specs.List.{list_all};
ghost use Rattle.texting_robots.specs.Callers.{Matches, PlacedRule, escaped};
ghost use Rattle.robots_rules.specs.declared.compare.Comparison.TheVariants.{Same};
ghost use Rattle.audit_expect.specs.Patterns.{AreDecidedAs};

use robots_rules::compare::{Comparison, compare};
use robots_rules::rule::Rule;
use safe_output::bytes::before_byte;
use std::alloc::{AllocError, Global};
use texting_robots::push_escaped_bytes;

/// Bounds how long is looked for a path that isn't decided as expected.
const BUDGET: usize = 10_000_000;

/// The bytes, escaped as those of rules are.
pub(crate) fn escaped_text(alloc: Global, bytes: &[u8]) -> Result<String, AllocError>
    ensures { IfOk result (λ text. string_bytes text ≡ escaped bytes.now) }
{
    let mut text = String::new(alloc);
    push_escaped_bytes(&mut text, bytes)?;
    Ok(text)
}

fn longest(rules: &[Rule]) -> usize {
    let mut most = 0;
    for rule in rules {
        if most < rule.pattern.len() {
            most = rule.pattern.len();
        }
    }
    most
}

fn are_shorter(rules: &[Rule], than: usize) -> bool
    ensures { result ≡ list_all (λ (placed : PlacedRule). nat_lt (length placed.rule.0) than) rules.now }
{
    rules.iter().all(|rule| rule.pattern.len() < than)
}

/// A pattern that matches what this one does, and is longer than the rules, by stars before its first one or
/// at its end.
fn longer_pattern(alloc: Global, pattern: &[u8], rules: &[Rule]) -> Result<String, AllocError>
    ensures { IfOk result (λ longer. (text : List ℕ) → Matches (escaped pattern.now) text
        → Matches (string_bytes longer) text) }
{
    let front = before_byte(b'*', pattern);
    let mut longer = escaped_text(alloc, front)?;
    longer.push_str("*")?;
    longer.push_str(&"*".repeat(alloc, longest(rules))?)?;
    push_escaped_bytes(&mut longer, &pattern[front.len()..])?;
    Ok(longer)
}

/// How rules compare with the same ones and a longer one that demands it of all that the pattern, which isn't
/// escaped yet, matches. If no verdict changes, all paths that it matches are decided as expected.
pub(crate) fn compared_on_paths(
    alloc: Global,
    allowed: bool,
    pattern: &[u8],
    rules: Vec<Rule>,
) -> Result<Comparison, AllocError>
    ensures { IfOk result (λ found. found ≡ Same
        → AreDecidedAs (escaped pattern.now) rules.items allowed) }
{
    let longer = longer_pattern(alloc, pattern, &rules)?;
    if !are_shorter(&rules, longer.as_bytes().len()) {
        return Ok(Comparison::Undecided);
    }
    let (number, mut all, mut left) = (rules.len(), rules, BUDGET);
    all.push(Rule {
        pattern: longer,
        is_allow: allowed,
        line: 0,
    })?;
    Ok(compare(alloc, b"/", &all[..number], &all, &mut left)?)
}
