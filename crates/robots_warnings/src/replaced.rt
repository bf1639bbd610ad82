//! Groups of crawlers that have none of the Disallow rules of `*`.
ghost use Rattle.std.specs.Prelude.{All, ◌≡◌, ◌||◌, ◌&&◌, IfOk, List, OnOk, bytes_eq, count_by, map, not};
ghost use Rattle.std.specs.Prelude.{true, ℕ};
ghost use Rattle.std.specs.{HashSet.contains_text, Str.str_to_ascii_lowercase};
ghost use Rattle.texting_robots.specs.Callers.{file_lines, label_by_value};
ghost use Rattle.robots_warnings.specs.Closed.{IsReplacing, denies, is_lacking, lacks_all, name_lacking};
ghost use Rattle.robots_warnings.specs.Closed.{star_rules};
ghost use Rattle.robots_warnings.specs.{File.lines_of, Positions.begin_with_one};
ghost use Rattle.robots_warnings.specs.Internal.Rules.{HasDenied, is_kept_in};

use crate::numbers::push_if;
use crate::positions::{Preceding, name_star, preceding_with};
use crate::site_patterns::is_whole_site;
use std::alloc::{AllocError, Global};
use std::collections::HashSet;
use texting_robots::labels::LabeledLine;
use texting_robots::parser::Line;
use texting_robots::site::{Site, SiteRule};

type Patterns = HashSet<String>;

pub(crate) fn disallow_count(rules: &[SiteRule<'_>]) -> usize
    ensures { result ≡ count_by (λ placed. not placed.rule.1) rules.now }
{
    rules.iter().filter(|rule| !rule.is_allow).count()
}

fn is_partial(rule: &SiteRule<'_>) -> bool {
    !rule.is_allow && !is_whole_site(rule.value.as_bytes())
}

/// Whether some Disallow isn't of the whole site. If none is, letting some crawlers in seems intended.
fn has_partial(rules: &[SiteRule<'_>]) -> bool {
    rules.iter().any(is_partial)
}

#[tactic(auto, using(crate::proofs::RuleLemmas::denied_added))]
fn add_denied(alloc: Global, denied: &mut Patterns, rule: &SiteRule<'_>) -> Result<(), AllocError>
    ensures { OnOk result ((pattern : List ℕ) → contains_text denied.new pattern
        ≡ (contains_text denied.old pattern || denies pattern rule.now)) }
{
    if !rule.is_allow {
        let pattern = rule.pattern(alloc)?;
        denied.insert(pattern)?;
    }
    Ok(())
}

fn denied_patterns(alloc: Global, rules: &[SiteRule<'_>]) -> Result<Patterns, AllocError>
    ensures { IfOk result (λ denied. HasDenied denied rules.now) }
{
    let mut denied = HashSet::new(alloc);
    for rule in rules {
        add_denied(alloc, &mut denied, rule)?;
    }
    Ok(denied)
}

/// Whether the rule is a Disallow that `*` has too, or one for the whole site.
#[tactic(auto, using(crate::proofs::ClosedLemmas::whole_site_escaped))]
fn is_kept(alloc: Global, denied: &Patterns, rule: &SiteRule<'_>) -> Result<bool, AllocError>
    ensures { IfOk result (λ is. is ≡ is_kept_in denied.now rule.now) }
{
    if is_whole_site(rule.value.as_bytes()) {
        return Ok(true);
    }
    Ok(!rule.is_allow && denied.contains(rule.pattern(alloc)?.as_str()))
}

fn lacks_all(alloc: Global, site: &Site, denied: &Patterns, agent: &str) -> Result<bool, AllocError>
    requires { HasDenied denied.now (star_rules (file_lines site.now)) }
    ensures { IfOk result (λ lacks. lacks ≡ lacks_all (file_lines site.now) agent.now) }
{
    for rule in site.rules(agent) {
        if is_kept(alloc, denied, &rule)? {
            return Ok(false);
        }
    }
    Ok(true)
}

fn lacks_as(
    alloc: Global,
    site: &Site,
    denied: &Patterns,
    agent: &str,
    name: &[u8],
) -> Result<bool, AllocError>
    requires { HasDenied denied.now (star_rules (file_lines site.now)) }
    ensures { IfOk result (λ is. is ≡ (bytes_eq (str_to_ascii_lowercase agent.now)
        (str_to_ascii_lowercase name.now) && lacks_all (file_lines site.now) agent.now)) }
{
    Ok(agent.as_bytes().eq_ignore_ascii_case(name) && lacks_all(alloc, site, denied, agent)?)
}

fn is_lacking(
    alloc: Global,
    site: &Site,
    denied: &Patterns,
    agents: &[&str],
    name: &[u8],
) -> Result<bool, AllocError>
    requires { HasDenied denied.now (star_rules (file_lines site.now)) }
    ensures { IfOk result (λ is. is ≡ is_lacking (map (λ agent. agent.now) agents.now)
        (file_lines site.now) (str_to_ascii_lowercase name.now)) }
{
    for agent in agents {
        if lacks_as(alloc, site, denied, agent, name)? {
            return Ok(true);
        }
    }
    Ok(false)
}

fn begin_with_one(
    alloc: Global,
    site: &Site,
    denied: &Patterns,
    agents: &[&str],
    labels: &[LabeledLine<'_>],
) -> Result<bool, AllocError>
    requires { HasDenied denied.now (star_rules (file_lines site.now)) }
    ensures { IfOk result (λ is. is ≡ begin_with_one (λ name. is_lacking (map (λ agent. agent.now) agents.now)
        (file_lines site.now) (str_to_ascii_lowercase name)) (lines_of (map label_by_value labels.now))) }
{
    let mut rest = labels;
    while let [labeled, after @ ..] = rest {
        match labeled.line {
            Line::UserAgent(value) if is_lacking(alloc, site, denied, agents, value)? => {
                return Ok(true);
            }
            Line::Allow(_) | Line::Disallow(_) | Line::CrawlDelay(_) => return Ok(false),
            _ => {}
        }
        rest = after;
    }
    Ok(false)
}

fn is_in_group(labeled: &LabeledLine<'_>) -> bool {
    matches!(
        labeled.line,
        Line::Allow(_) | Line::Disallow(_) | Line::CrawlDelay(_)
    )
}

fn have_group(labels: &[LabeledLine<'_>]) -> bool {
    labels.iter().any(is_in_group)
}

/// Whether a group that has a rule or a delay begins here, which names such a crawler and not `*`.
fn is_replacing(
    alloc: Global,
    site: &Site,
    denied: &Patterns,
    agents: &[&str],
    preceding: Preceding,
    from_here: &[LabeledLine<'_>],
) -> Result<bool, AllocError>
    requires { HasDenied denied.now (star_rules (file_lines site.now)) }
    ensures { IfOk result (λ is. is ≡ true → name_lacking (map (λ agent. agent.now) agents.now)
        (file_lines site.now) (lines_of (map label_by_value from_here.now)) ≡ true) }
{
    let [labeled, ..] = from_here else {
        return Ok(false);
    };
    let is_first = matches!(labeled.line, Line::UserAgent(_)) && preceding != Preceding::Agent;
    if !is_first || !have_group(from_here) {
        return Ok(false);
    }
    Ok(!name_star(from_here) && begin_with_one(alloc, site, denied, agents, from_here)?)
}

fn is_other_name(labeled: &LabeledLine<'_>) -> bool {
    match labeled.line {
        Line::UserAgent(value) => value != b"*".as_slice(),
        _ => false,
    }
}

/// Whether a user-agent line has another name than `*`.
fn has_other_name(labels: &[LabeledLine<'_>]) -> bool {
    labels.iter().any(is_other_name)
}

/// `star` are the rules of `*`.
pub(crate) fn replacing(
    alloc: Global,
    site: &Site,
    star: &[SiteRule<'_>],
    agents: &[&str],
    labels: &[LabeledLine<'_>],
) -> Result<Vec<usize>, AllocError>
    requires { star.now ≡ star_rules (file_lines site.now) }
    ensures { IfOk result (λ found. All (IsReplacing (map (λ agent. agent.now) agents.now)
        (file_lines site.now) (lines_of (map label_by_value labels.now))) found.items) }
{
    let mut found = Vec::new(alloc);
    if !has_partial(star) {
        return Ok(found);
    }
    if !has_other_name(labels) {
        return Ok(found);
    }
    let denied = denied_patterns(alloc, star)?;
    let mut preceding = Preceding::Other;
    for (index, labeled) in labels.iter().enumerate() {
        let is = is_replacing(alloc, site, &denied, agents, preceding, &labels[index..])?;
        push_if(&mut found, is, index + 1)?;
        preceding = preceding_with(preceding, labeled.line);
    }
    Ok(found)
}
