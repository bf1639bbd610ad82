//! What a crawler may fetch.
ghost use Rattle.std.specs.Prelude.{◌≡◌, ◌⊎◌, [], Contains, IfOk, filter, map, true};
ghost use Rattle.std.specs.List.{list_all};
ghost use Rattle.texting_robots.specs.Callers.{PlacedRule};
ghost use Rattle.audit_core.specs.Reach.{IsReach, is_allow, is_closing, is_long_allow, plain_rules};

use crate::audit::{Crawler, Reading};
use crate::group::AtVendor;
use robots_rules::compare::{Comparison, compare};
use robots_rules::rule::Rule;
use robots_warnings::site_patterns::is_whole_site;
use std::alloc::{AllocError, Global};
use texting_robots::Robot;

/// What a crawler may fetch.
#[derive(Clone, Copy, PartialEq, Eq)]
pub enum Reach {
    Everything,
    /// Nothing but `/robots.txt`.
    Nothing,
    /// Only what a few Allows match, and `/robots.txt`.
    Listed,
    /// A part of the site, as far as is known: it may also be everything or nothing.
    Part,
}

/// Bounds how long the rules of all crawlers of a file are compared on all paths.
pub(crate) const BUDGET: usize = 4_000_000;

/// Bounds how long the rules of one crawler are compared on all paths.
const MOST: usize = 10_000;

/// How many patterns are tried as paths.
const TRIES: usize = 8;

fn is_closing(rule: &Rule) -> bool
    ensures { result ≡ is_closing rule.now }
{
    !rule.is_allow && is_whole_site(rule.pattern.as_bytes())
}

fn are_allows(rules: &[Rule]) -> bool
    ensures { result ≡ list_all is_allow rules.now }
{
    rules.iter().all(|rule| rule.is_allow)
}

fn has_open_site(rules: &[Rule]) -> bool {
    rules.iter().any(|rule| rule.is_allow && is_whole_site(rule.pattern.as_bytes()))
}

/// The lines of the Allows that are at least as long.
fn allows_from(alloc: Global, rules: &[Rule], len: usize) -> Result<Vec<usize>, AllocError>
    ensures { IfOk result (λ lines. lines.items
        ≡ map (λ (placed : PlacedRule). placed.line) (filter (is_long_allow len) rules.now)) }
{
    rules
        .iter()
        .filter(|rule| rule.is_allow && rule.pattern.len() >= len)
        .map(|rule| rule.line)
        .collect(alloc)
}

/// What a Disallow of the whole site leaves.
fn reach_below(
    alloc: Global,
    rules: &[Rule],
    closing: &Rule,
) -> Result<(Reach, Vec<usize>), AllocError>
    requires listed { Contains rules.now closing.now }
    requires closing { is_closing closing.now ≡ true }
    ensures { IfOk result (λ found. IsReach rules.now found.0 found.1.items) }
{
    let lines = allows_from(alloc, rules, closing.pattern.len())?;
    if lines.is_empty() {
        return Ok((Reach::Nothing, lines));
    }
    if has_open_site(rules) {
        return Ok((Reach::Part, Vec::new(alloc)));
    }
    Ok((Reach::Listed, lines))
}

/// What rules let fetch, by the first Disallow of the whole site, or by there being no Disallow.
fn reach_by(alloc: Global, rules: &[Rule]) -> Result<(Reach, Vec<usize>), AllocError>
    ensures { IfOk result (λ found. IsReach rules.now found.0 found.1.items) }
{
    if are_allows(rules) {
        return Ok((Reach::Everything, Vec::new(alloc)));
    }
    for rule in rules {
        if is_closing(rule) {
            return reach_below(alloc, rules, rule);
        }
    }
    Ok((Reach::Part, Vec::new(alloc)))
}

/// Some path has another verdict than the home page, which may be open.
fn is_mixed(robot: &Robot, is_open: bool, rules: &[Rule]) -> bool {
    rules
        .iter()
        .filter(|rule| rule.is_allow != is_open)
        .take(TRIES)
        .map(|rule| rule.pattern.as_str().trim_end_matches("$"))
        .any(|path| {
            path.starts_with("/")
                && path != "/robots.txt"
                && robot.allowed_prepared(path) != is_open
        })
}

fn plain_rules(alloc: Global, is_open: bool) -> Result<Vec<Rule>, AllocError>
    ensures { IfOk result (λ rules. rules.items ≡ plain_rules is_open) }
{
    let mut rules = Vec::new(alloc);
    if is_open {
        return Ok(rules);
    }
    rules.push(Rule {
        pattern: String::from_str(alloc, "/")?,
        is_allow: false,
        line: 0,
    })?;
    Ok(rules)
}

/// Everything or nothing, if that is found by comparing.
fn whole_reach(
    alloc: Global,
    is_open: bool,
    rules: &[Rule],
    budget: usize,
) -> Result<Reach, AllocError>
    ensures { IfOk result (λ reach. IsReach rules.now reach []) }
{
    let others = plain_rules(alloc, is_open)?;
    let mut left = budget.min(MOST);
    match compare(alloc, b"/", rules, &others, &mut left)? {
        Comparison::Same if is_open => Ok(Reach::Everything),
        Comparison::Same => Ok(Reach::Nothing),
        _ => Ok(Reach::Part),
    }
}

/// What the rules allow; if that is listed, with the lines of the Allows. The robot has the same rules. The
/// budget bounds how long they are compared.
fn reach_of(
    alloc: Global,
    robot: &Robot,
    rules: &[Rule],
    budget: usize,
) -> Result<(Reach, Vec<usize>), AllocError>
    ensures { IfOk result (λ found. IsReach rules.now found.0 found.1.items) }
{
    let (reach, lines) = reach_by(alloc, rules)?;
    match reach {
        Reach::Everything | Reach::Nothing => return Ok((reach, lines)),
        Reach::Listed | Reach::Part => {}
    }
    let is_open = robot.allowed_prepared("/");
    if is_mixed(robot, is_open, rules) {
        return Ok((reach, lines));
    }
    match whole_reach(alloc, is_open, rules, budget)? {
        Reach::Part => Ok((reach, lines)),
        whole => Ok((whole, Vec::new(alloc))),
    }
}

/// What the crawler may fetch. It is `Part` if its vendor applies another group, or the file is rejected.
pub(crate) fn reach_for(
    alloc: Global,
    vendor: AtVendor,
    crawler: &Crawler<'_>,
    budget: usize,
) -> Result<(Reach, Vec<usize>), AllocError>
    ensures reach { IfOk result (λ found. IsReach crawler.now.rules.items found.0 found.1.items) }
    ensures own { IfOk result (λ found. (vendor ≡ AtVendor.Same) ⊎ (found.0 ≡ Reach.Part)) }
{
    match &crawler.reading {
        Reading::Accepted(robot) if vendor == AtVendor::Same => {
            reach_of(alloc, robot, &crawler.rules, budget)
        }
        _ => Ok((Reach::Part, Vec::new(alloc))),
    }
}
