//! Whether a file means the same without some of its lines: a file with the others is read, and each crawler
//! has to have exactly the rules there that the search has left of its own.
ghost use Rattle.std.specs.Prelude.{◌≡◌, ◌∷◌, [], All, IfOk, IsTrue, codes, false, map};
ghost use Rattle.texting_robots.specs.Callers.{IsRejected, delay_for, file_bodies, file_lines, sitemaps_in};
ghost use Rattle.texting_robots.specs.Callers.{unplaced};
ghost use Rattle.robots_rules.specs.Blocks.{begin_with_mark, left_from};
ghost use Rattle.robots_rules.specs.Search.{IsSameWithout, IsSettled, is_found};
ghost use Rattle.robots_rules.specs.Needless.{MeanTheSame};

use crate::needless::Reason;
use crate::rule::{Rule, rules_of};
use std::alloc::{AllocError, Global};
use std::collections::BTreeMap;
use std::marker::Model;
use texting_robots::parser::file_bodies;
use texting_robots::{RobotError, Site};

/// A crawler, and the rules that the search leaves of its own.
#[derive(Drop)]
pub(crate) struct Settled<'a> {
    pub(crate) agent: &'a str,
    pub(crate) rules: Vec<Rule>,
}

impl<'a> Model for Settled<'a> {
    ghost use Rattle.robots_rules.specs.Search.{SettledValue};

    ghost Value = { SettledValue };

    ghost view = { λ s. record { agent = s.agent.now; rules = s.rules.items } };
}

fn begins_with_mark(body: &[u8]) -> bool
    ensures { result ≡ begin_with_mark (body.now ∷ []) }
{
    match body.first() {
        Some(byte) => *byte == 0xEF || *byte == 0xBB || *byte == 0xBF,
        None => false,
    }
}

/// Whether the first line that stays begins with a byte of the byte order mark, which isn't read at the start
/// of a file.
pub(crate) fn left_begin_with_mark(text: &[u8], found: &BTreeMap<usize, Reason>) -> bool
    ensures { result ≡ begin_with_mark (left_from (is_found found.now) 0 (file_bodies text.now)) }
{
    for (index, body) in file_bodies(text).enumerate() {
        if !found.contains_key(&(index + 1)) {
            return begins_with_mark(body);
        }
    }
    false
}

/// The text without the lines in which something was found, and with LF after each other line.
fn without(
    alloc: Global,
    text: &[u8],
    found: &BTreeMap<usize, Reason>,
) -> Result<Vec<u8>, AllocError> {
    let mut left = Vec::new(alloc);
    for (index, body) in file_bodies(text).enumerate() {
        if !found.contains_key(&(index + 1)) {
            left.extend_from_slice(body)?;
            left.push(b'\n')?;
        }
    }
    Ok(left)
}

fn has_others(text: &[u8], left: &[u8], found: &BTreeMap<usize, Reason>) -> bool
    ensures { IsTrue result
        → file_bodies left.now ≡ left_from (is_found found.now) 0 (file_bodies text.now) }
{
    let mut others = file_bodies(left);
    for (index, body) in file_bodies(text).enumerate() {
        if found.contains_key(&(index + 1)) {
            continue;
        }
        match others.next() {
            Some(other) if other == body => {}
            _ => return false,
        }
    }
    others.next().is_none()
}

fn is_same_rule(one: &Rule, other: &Rule) -> bool
    ensures { IsTrue result → one.now.rule ≡ other.now.rule }
{
    one.is_allow == other.is_allow && one.pattern.as_str() == other.pattern.as_str()
}

/// Whether the rules are the same, in whatever lines.
pub fn are_same_rules(rules: &[Rule], others: &[Rule]) -> bool
    ensures { IsTrue result → unplaced rules.now ≡ unplaced others.now }
{
    if rules.len() != others.len() {
        return false;
    }
    for k in 0..rules.len() {
        if !is_same_rule(&rules[k], &others[k]) {
            return false;
        }
    }
    true
}

fn is_same_text(one: &str, other: &str) -> bool
    ensures { IsTrue result → one.now ≡ other.now }
{
    one == other
}

fn are_same_texts(texts: &[&str], others: &[&str]) -> bool
    ensures { IsTrue result → map (λ text. text.now) texts.now ≡ map (λ text. text.now) others.now }
{
    if texts.len() != others.len() {
        return false;
    }
    for k in 0..texts.len() {
        if !is_same_text(texts[k], others[k]) {
            return false;
        }
    }
    true
}

fn have_same_delay(site: &Site, other: &Site, agent: &str) -> bool
    ensures { IsTrue result
        → delay_for agent.now (file_lines other.now) ≡ delay_for agent.now (file_lines site.now) }
{
    site.delay(agent) == other.delay(agent)
}

/// An error if the file is rejected for the crawler.
pub(crate) fn accept(alloc: Global, site: &Site, agent: &str) -> Result<(), RobotError>
    ensures { IfOk result (λ accepted. ¬ IsRejected agent.now (file_lines site.now)) }
{
    match site.robot_without_sitemaps(alloc, agent) {
        Ok(_) => {}
        Err(rejection) => return Err(rejection),
    }
    Ok(())
}

fn means_the_same(
    alloc: Global,
    site: &Site,
    other: &Site,
    settled: &Settled<'_>,
) -> Result<bool, RobotError>
    requires { IsSettled (file_lines site.now) settled.now }
    ensures { IfOk result (λ is. IsTrue is
        → MeanTheSame settled.now.agent (file_lines site.now) (file_lines other.now)) }
{
    accept(alloc, other, settled.agent)?;
    if !have_same_delay(site, other, settled.agent) {
        return Ok(false);
    }
    let rules = rules_of(alloc, other, settled.agent)?;
    Ok(are_same_rules(settled.rules.as_slice(), rules.as_slice()))
}

fn mean_the_same(
    alloc: Global,
    site: &Site,
    other: &Site,
    settled: &[Settled<'_>],
) -> Result<bool, RobotError>
    requires { All (IsSettled (file_lines site.now)) settled.now }
    ensures { IfOk result (λ are. IsTrue are
        → All (λ one. MeanTheSame one.agent (file_lines site.now) (file_lines other.now)) settled.now) }
{
    for one in settled {
        if !means_the_same(alloc, site, other, one)? {
            return Ok(false);
        }
    }
    Ok(true)
}

fn have_same_sitemaps(alloc: Global, site: &Site, other: &Site) -> Result<bool, AllocError>
    ensures { IfOk result (λ have. IsTrue have
        → sitemaps_in (file_lines site.now) ≡ sitemaps_in (file_lines other.now)) }
{
    let sitemaps = site.sitemaps(alloc)?;
    let others = other.sitemaps(alloc)?;
    Ok(are_same_texts(sitemaps.as_slice(), others.as_slice()))
}

/// A file with the lines in which nothing was found means the same for these crawlers, and has the same
/// sitemaps.
pub(crate) fn is_same_without(
    alloc: Global,
    site: &Site,
    found: &BTreeMap<usize, Reason>,
    settled: &[Settled<'_>],
) -> Result<bool, RobotError>
    requires { All (IsSettled (file_lines site.now)) settled.now }
    ensures { IfOk result (λ is. IsTrue is
        → IsSameWithout found.now settled.now site.now) }
{
    let left = without(alloc, site.text(), found)?;
    if !has_others(site.text(), left.as_slice(), found) {
        return Ok(false);
    }
    let other = Site::with_limit(alloc, left.as_slice(), left.len())?;
    if !have_same_sitemaps(alloc, site, &other)? {
        return Ok(false);
    }
    mean_the_same(alloc, site, &other, settled)
}
