//! Which lines of a file have rules that are needless for every crawler.
ghost use Rattle.std.specs.Prelude.{◌≡◌, ◌≢◌, ◌∷◌, ℕ, [], All, Contains, IfOk, IsTrue, List, bytes_eq, codes};
ghost use Rattle.std.specs.Prelude.{false, map};
ghost use Rattle.std.specs.List.{list_any};
ghost use Rattle.texting_robots.specs.Callers.{agents_in, file_bodies, file_lines};
ghost use Rattle.robots_rules.specs.Blocks.{AreFoundIn, KeepBlocks, begin_with_mark, left_from};
ghost use Rattle.robots_rules.specs.Search.{AreSettled, IsSettled, is_found, names_of, rule_at};
ghost use Rattle.robots_rules.specs.Needless.{AreDeletable, nothing, numbers_of};

use crate::blocks::{add_lost, keep_blocks};
use crate::needless::{BUDGET, LineNumbers, NeedlessRule, Progress, Reason, settle};
use crate::rule::rules_of;
use crate::same::{Settled, accept, is_same_without, left_begin_with_mark};
use std::alloc::{AllocError, Global};
use std::collections::{BTreeMap, BTreeSet};
use std::marker::Model;
use texting_robots::{RobotError, Site};

/// How many times the check begins anew, without the rules that another crawler turned out to need.
const ROUNDS: usize = 8;

/// How many rules the crawlers may have in all: what is left of them is kept until the end, in about 85 MB.
const MOST_RULES: usize = 1_000_000;

/// The rules that are left of the crawler's own.
fn settled_for<'a>(
    alloc: Global,
    site: &Site,
    agent: &'a str,
    budget: &mut usize,
    progress: &mut Progress,
) -> Result<Settled<'a>, RobotError>
    ensures agent { IfOk result (λ settled. settled.agent ≡ agent.now) }
    ensures settled { IfOk result (IsSettled (file_lines site.now)) }
{
    accept(alloc, site, agent)?;
    let own = rules_of(alloc, site, agent)?;
    let rules = settle(alloc, budget, own, progress)?;
    Ok(Settled { agent, rules })
}

fn has_star(agents: &[&str]) -> bool
    ensures { result ≡ list_any (λ agent. bytes_eq agent.now (codes "*")) agents.now }
{
    agents.iter().any(|agent| *agent == "*")
}

/// The names of the file's crawlers, each once.
fn crawlers_of(alloc: Global, site: &Site) -> Result<Vec<&str>, AllocError>
    ensures { IfOk result (λ crawlers. (agent : List ℕ)
        → Contains (codes "*" ∷ agents_in (file_lines site.now)) agent
        → Contains (map (λ crawler. crawler.now) crawlers.items) agent) }
{
    let mut agents = site.agents(alloc)?;
    if has_star(&agents) {
        return Ok(agents);
    }
    agents.push("*")?;
    Ok(agents)
}

/// How many rules the crawlers have in all, or one more than are kept. A rule counts for each that has it.
fn rule_count(alloc: Global, site: &Site) -> Result<usize, AllocError> {
    let crawlers = crawlers_of(alloc, site)?;
    let mut count: usize = 0;
    for agent in &crawlers {
        for _ in site.rules(agent) {
            count = count.saturating_add(1);
        }
        if count > MOST_RULES {
            return Ok(count);
        }
    }
    Ok(count)
}

/// The rules in the lines that stay are needed.
fn all_settled<'a>(
    alloc: Global,
    site: &Site,
    crawlers: &[&'a str],
    budget: &mut usize,
    progress: &mut Progress,
) -> Result<Vec<Settled<'a>>, RobotError>
    ensures names { IfOk result (λ all. names_of all.items ≡ map (λ crawler. crawler.now) crawlers.now) }
    ensures settled { IfOk result (λ all. All (IsSettled (file_lines site.now)) all.items) }
{
    let mut all = Vec::new(alloc);
    for agent in crawlers {
        let settled = settled_for(alloc, site, agent, budget, progress)?;
        match all.push(settled) {
            Ok(()) => {}
            Err(error) => return Err(AllocError::from(error).into()),
        }
    }
    Ok(all)
}

/// Each crawler of the file, with the rules that are left of its own.
fn settled_in<'a>(
    alloc: Global,
    site: &'a Site,
    budget: &mut usize,
    progress: &mut Progress,
) -> Result<Vec<Settled<'a>>, RobotError>
    ensures { IfOk result (λ all. AreSettled site.now all.items) }
{
    let crawlers = crawlers_of(alloc, site)?;
    let all = all_settled(alloc, site, crawlers.as_slice(), budget, progress)?;
    Ok(all)
}

/// The same of the other file. Its rules that stay are needed, too; what was found, and why, is that of the
/// file.
fn settled_beside<'a>(
    alloc: Global,
    other: &'a Site,
    budget: &mut usize,
    progress: Progress,
) -> Result<(Vec<Settled<'a>>, Progress), RobotError>
    ensures { IfOk result (λ settled. AreSettled other.now settled.0.items) }
{
    let found = progress.found;
    let mut beside = Progress {
        found: BTreeMap::new(alloc),
        stays: progress.stays,
        undecided: progress.undecided,
    };
    let settled = settled_in(alloc, other, budget, &mut beside)?;
    let (stays, undecided) = (beside.stays, beside.undecided);
    Ok((
        settled,
        Progress {
            found,
            stays,
            undecided,
        },
    ))
}

fn listed(alloc: Global, found: &BTreeMap<usize, Reason>) -> Result<Vec<NeedlessRule>, AllocError>
    ensures { IfOk result (λ list. list.items ≡ map rule_at found.now.entries) }
{
    let mut list = Vec::new(alloc);
    for (line, reason) in found.iter() {
        list.push(NeedlessRule {
            line: *line,
            reason: *reason,
        })?;
    }
    Ok(list)
}

fn are_free(rules: &[NeedlessRule], stays: &LineNumbers) -> bool {
    rules.iter().all(|rule| !stays.contains(&rule.line))
}

/// None is in a line that stays, each block that has rules keeps one, and the first line that stays doesn't
/// begin with a byte of the byte order mark.
fn can_be_removed(rules: &[NeedlessRule], progress: &Progress, text: &[u8]) -> bool
    ensures keep { IsTrue result → KeepBlocks (is_found progress.now.found) (file_lines text.now) }
    ensures front { IsTrue result
        → begin_with_mark (left_from (is_found progress.now.found) 0 (file_bodies text.now)) ≡ false }
{
    if !are_free(rules, &progress.stays) {
        return false;
    }
    keep_blocks(text, &progress.found) && !left_begin_with_mark(text, &progress.found)
}

fn numbers_in(alloc: Global, numbers: &LineNumbers) -> Result<Vec<usize>, AllocError> {
    let mut list = Vec::new(alloc);
    for number in numbers.iter() {
        list.push(*number)?;
    }
    Ok(list)
}

/// What can be removed, and what isn't decided.
#[derive(Drop)]
pub struct Needless {
    /// The lines of rules that can be removed together without changing a verdict of any crawler, in order.
    pub rules: Vec<NeedlessRule>,
    /// For each crawler whose needless rules aren't all found, the line of a rule that may be one.
    pub undecided: Vec<usize>,
}

impl Model for Needless {
    ghost use Rattle.robots_rules.specs.Needless.{NeedlessValue};

    ghost Value = { NeedlessValue };

    ghost view = { λ r. record { rules = r.rules.items; undecided = r.undecided.items } };
}

pub fn nothing(alloc: Global) -> Needless
    ensures { result ≡ nothing }
{
    Needless {
        rules: Vec::new(alloc),
        undecided: Vec::new(alloc),
    }
}

/// What was found, if both files without it mean the same, as they do unless the search has a fault.
fn checked(
    alloc: Global,
    site: &Site,
    settled: &[Settled<'_>],
    other: &Site,
    others: &[Settled<'_>],
    progress: &Progress,
    rules: Vec<NeedlessRule>,
) -> Result<Needless, RobotError>
    requires settled { AreSettled site.now settled.now }
    requires others { AreSettled other.now others.now }
    requires rules { rules.items ≡ map rule_at progress.now.found.entries }
    requires blocks { KeepBlocks (is_found progress.now.found) (file_lines site.now) }
    requires front { begin_with_mark (left_from (is_found progress.now.found) 0 (file_bodies site.now))
        ≡ false }
    ensures found { IfOk result (λ found. AreFoundIn site.now found.rules) }
    ensures other { IfOk result (λ found. found.rules ≢ []
        → AreDeletable (numbers_of found.rules) (file_lines other.now)) }
{
    let undecided = numbers_in(alloc, &progress.undecided)?;
    if rules.is_empty() {
        return Ok(Needless { rules, undecided });
    }
    if !is_same_without(alloc, site, &progress.found, settled)? {
        return Ok(nothing(alloc));
    }
    if !is_same_without(alloc, other, &progress.found, others)? {
        return Ok(nothing(alloc));
    }
    Ok(Needless { rules, undecided })
}

/// None if lines are still found to be needed in the last round.
fn settled_lines(alloc: Global, site: &Site, other: &Site) -> Result<Needless, RobotError>
    ensures found { IfOk result (λ found. AreFoundIn site.now found.rules) }
    ensures other { IfOk result (λ found. found.rules ≢ []
        → AreDeletable (numbers_of found.rules) (file_lines other.now)) }
{
    let count = rule_count(alloc, site)?.max(rule_count(alloc, other)?);
    if count > MOST_RULES {
        return Ok(nothing(alloc));
    }
    let (mut budget, mut left) = (BUDGET, BUDGET);
    let mut stays = BTreeSet::new(alloc);
    for _ in 0..ROUNDS {
        let mut here = Progress {
            found: BTreeMap::new(alloc),
            stays,
            undecided: BTreeSet::new(alloc),
        };
        let settled = settled_in(alloc, site, &mut budget, &mut here)?;
        let (others, progress) = settled_beside(alloc, other, &mut left, here)?;
        let rules = listed(alloc, &progress.found)?;
        if can_be_removed(&rules, &progress, site.text()) {
            let (settled, others) = (settled.as_slice(), others.as_slice());
            return checked(alloc, site, settled, other, others, &progress, rules);
        }
        stays = progress.stays;
        add_lost(site.text(), &progress.found, &mut stays)?;
    }
    Ok(nothing(alloc))
}

/// The rules that are needless for every crawler that gets them, and can be removed together without changing
/// a verdict, also from another file with the same line numbers: the same file as it is read otherwise. The
/// last rule of a block isn't found; nor are `Allow: /` and an empty Disallow, which are meant as they are.
/// None is found if a rule is too long, if the crawlers have more than 1,000,000 rules in all, if they need
/// each other's rules in too many ways, or if the first line that stays begins with a byte of the byte order
/// mark. If the file is larger than the site's limit, deleting lines from it lets others be read.
pub fn needless_lines(alloc: Global, site: &Site, other: &Site) -> Result<Needless, AllocError>
    ensures found { IfOk result (λ found. AreFoundIn site.now found.rules) }
    ensures other { IfOk result (λ found. found.rules ≢ []
        → AreDeletable (numbers_of found.rules) (file_lines other.now)) }
{
    match settled_lines(alloc, site, other) {
        Ok(found) => Ok(found),
        Err(RobotError::Overlong(_)) => Ok(nothing(alloc)),
        Err(RobotError::Memory) => Err(AllocError),
    }
}
