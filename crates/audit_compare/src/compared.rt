//! What two versions of a file mean for a crawler.
ghost use Rattle.std.specs.Prelude.{◌≡◌, ◌∷◌, ◌++◌, [], IfErr, IfOk, OnOk, if◌then◌else◌, map};
ghost use Rattle.audit_compare.specs.Compare.{AreChanges, AreUrlChanges, IsCompared, are_none, change_on};
ghost use Rattle.audit_compare.specs.Compare.{changed, is_in_line_of, is_otherwise, is_same_decision};
ghost use Rattle.audit_compare.specs.Compare.{keep_verdicts};
ghost use Rattle.audit_core.specs.Standard.{AreReadings};

use crate::every_url::{InBoth, is_same, standard_verdicts, verdicts_for};
use crate::rule_sets::rules_lacked;
use crate::vendor::{VendorChange, at_vendor, is_same_at_vendor};
use audit_core::audit::{AgentAudit, Crawler, Verdict, audit_for};
use audit_core::error::Error;
use audit_core::readings::FileReadings;
use robots_rules::rule::Rule;
use std::alloc::{AllocError, Global};
use texting_robots::robot::Decision;

#[derive(Drop)]
pub struct UrlChange<'a> {
    pub url: &'a str,
    pub older: Decision,
    pub newer: Decision,
    /// Whether it is one in RFC 9309's reading.
    pub is_standard: bool,
}

#[derive(Drop)]
pub struct RuleChanges {
    /// Rules that only the older file has.
    pub removed: Vec<Rule>,
    /// Rules that only the newer file has.
    pub added: Vec<Rule>,
}

/// What each file means for a crawler, and what differs.
#[derive(Drop)]
pub struct Compared<'a> {
    pub agent: &'a str,
    pub older: AgentAudit<'a>,
    pub newer: AgentAudit<'a>,
    pub rules: RuleChanges,
    /// The URLs on which decisions differ here, or verdicts change otherwise in RFC 9309's reading.
    pub changes: Vec<UrlChange<'a>>,
    /// RFC 9309's reading isn't asked for a crawler to which its vendor applies another group.
    pub verdicts: InBoth,
    /// If its vendor applies another group to the crawler, or none, in one of the files.
    pub vendor: Option<VendorChange>,
}

pub(crate) fn rule_changes(
    alloc: Global,
    older: &[Rule],
    newer: &[Rule],
) -> Result<RuleChanges, AllocError>
    ensures { IfOk result (AreChanges older.now newer.now) }
{
    let removed = rules_lacked(alloc, newer, older)?;
    let added = rules_lacked(alloc, older, newer)?;
    Ok(RuleChanges { removed, added })
}

fn is_in_line_of(rules: &[Rule], line: Option<usize>) -> bool
    ensures { result ≡ is_in_line_of rules.now line }
{
    rules.iter().any(|rule| line == Some(rule.line))
}

/// Whether both decisions allow or both deny, the older one's rule wasn't removed, and the newer one's wasn't
/// added.
fn is_same_decision(rules: &RuleChanges, older: &Decision, newer: &Decision) -> bool
    ensures { result ≡ is_same_decision rules.now older.now newer.now }
{
    let is_removed = is_in_line_of(&rules.removed, older.line);
    let is_added = is_in_line_of(&rules.added, newer.line);
    older.allowed == newer.allowed && !(is_removed || is_added)
}

/// Whether verdicts in RFC 9309's reading aren't those here, and change here or there.
fn is_otherwise(older: &Verdict<'_>, newer: &Verdict<'_>, was: &Decision, is: &Decision) -> bool
    ensures { result ≡ is_otherwise older.now newer.now was.now is.now }
{
    let (old, new) = (older.decision.allowed, newer.decision.allowed);
    (old != was.allowed || new != is.allowed) && (old != new || was.allowed != is.allowed)
}

fn push_if<'a>(
    found: &mut Vec<UrlChange<'a>>,
    holds: bool,
    change: UrlChange<'a>,
) -> Result<(), AllocError>
    ensures { OnOk result (changed found.new.items
        ≡ changed found.old.items ++ (if holds then changed (change.entry ∷ []) else [])) }
{
    if holds {
        found.push(change)?;
    }
    Ok(())
}

fn add_change<'a>(
    found: &mut Vec<UrlChange<'a>>,
    rules: &RuleChanges,
    older: &Verdict<'a>,
    newer: &Verdict<'a>,
) -> Result<(), AllocError>
    ensures { OnOk result (changed found.new.items
        ≡ changed found.old.items ++ change_on rules.now older.now newer.now) }
{
    let change = UrlChange {
        url: older.url,
        older: older.decision,
        newer: newer.decision,
        is_standard: false,
    };
    let is_same = is_same_decision(rules, &older.decision, &newer.decision);
    push_if(found, !is_same, change)?;
    let (Some(was), Some(is)) = (older.standard, newer.standard) else {
        return Ok(());
    };
    let change = UrlChange {
        url: older.url,
        older: was,
        newer: is,
        is_standard: true,
    };
    push_if(found, is_otherwise(older, newer, &was, &is), change)
}

fn url_changes<'a>(
    alloc: Global,
    rules: &RuleChanges,
    older: &[Verdict<'a>],
    newer: &[Verdict<'a>],
) -> Result<Vec<UrlChange<'a>>, AllocError>
    ensures { IfOk result (λ found. AreUrlChanges rules.now older.now newer.now found.items) }
{
    let mut found = Vec::new(alloc);
    for at in 0..older.len().min(newer.len()) {
        add_change(&mut found, rules, &older[at], &newer[at])?;
    }
    Ok(found)
}

fn changes_between<'a>(
    alloc: Global,
    rules: &RuleChanges,
    older: &AgentAudit<'a>,
    newer: &AgentAudit<'a>,
) -> Result<Vec<UrlChange<'a>>, AllocError>
    ensures { IfOk result (λ found. AreUrlChanges rules.now older.now.verdicts newer.now.verdicts
        found.items) }
{
    url_changes(alloc, rules, &older.verdicts, &newer.verdicts)
}

pub(crate) fn are_none(rules: &RuleChanges) -> bool
    ensures { result ≡ are_none rules.now }
{
    rules.removed.is_empty() && rules.added.is_empty()
}

/// The budget bounds how long rules are compared on all URLs, and an eighth of it how long those of each file
/// are by themselves.
pub(crate) fn compared_for<'a>(
    alloc: Global,
    agent: &'a str,
    older: &FileReadings<'_>,
    newer: &FileReadings<'_>,
    urls: &[&'a str],
    budget: usize,
) -> Result<Compared<'a>, Error>
    requires older { AreReadings older.now.here.bytes.now older.now }
    requires newer { AreReadings newer.now.here.bytes.now newer.now }
    ensures ok { IfOk result (IsCompared (map (λ url. url.now) urls.now) older.now.here.bytes.now
        newer.now.here.bytes.now agent.now) }
    ensures error { IfErr result (λ error. error ≡ Error.Memory) }
{
    let old = Crawler::new(alloc, agent, &older.here.site)?;
    let new = Crawler::new(alloc, agent, &newer.here.site)?;
    let was = audit_for(alloc, &old, older, urls, budget / 8)?;
    let is = audit_for(alloc, &new, newer, urls, budget / 8)?;
    let rules = rule_changes(alloc, &old.rules, &new.rules)?;
    let changes = changes_between(alloc, &rules, &was, &is)?;
    let here = verdicts_for(alloc, &old, &new, false, budget)?;
    let vendor = at_vendor(alloc, agent, older, newer, budget)?;
    let standard = match &vendor {
        Some(_) => None,
        None => standard_verdicts(alloc, &old, &new, older, newer, budget)?,
    };
    Ok(Compared {
        agent,
        older: was,
        newer: is,
        rules,
        changes,
        verdicts: InBoth { here, standard },
        vendor,
    })
}

/// No URL's verdict changes for the crawler, in either reading, or at its vendor.
pub(crate) fn keep_verdicts(compared: &Compared<'_>) -> bool
    ensures { result ≡ keep_verdicts compared.now }
{
    is_same(&compared.verdicts) && is_same_at_vendor(&compared.vendor)
}
