//! Two versions of a robots.txt file compared.
ghost use Rattle.std.specs.Prelude.{◌≡◌, ◌++◌, IfErr, IfOk, map};
ghost use Rattle.std.specs.List.{AllZip};
ghost use Rattle.texting_robots.specs.Callers.{lines_read};
ghost use Rattle.audit_core.specs.Audit.{agents_requested as specified_agents};
ghost use Rattle.audit_compare.specs.Compare.{IsCompared, IsComparison, differs_nowhere, keeps_verdicts};
ghost use Rattle.audit_compare.specs.Compare.{rejects_some};
ghost use Rattle.robots_warnings.specs.Read.{IsRead};
ghost use Rattle.audit_core.specs.Standard.{AreReadings};

use crate::compared::{Compared, compared_for, keep_verdicts};
use crate::differences::{all_unchanged, is_rejected};
use crate::sitemaps::sitemaps_only_in;
use audit_core::agents::agents_requested;
use audit_core::error::Error;
use audit_core::readings::FileReadings;
use robots_warnings::read::FileRead;
use std::alloc::{AllocError, Global};

/// Bounds how long the rules of all crawlers are compared.
const BUDGET: usize = 30_000_000;

#[derive(Clone, Copy)]
pub struct NamedFile<'a> {
    pub name: &'a str,
    pub bytes: &'a [u8],
}

/// What is reported of a file that is compared.
#[derive(Drop)]
pub struct Side<'a> {
    pub name: &'a str,
    pub has_no_directive: bool,
}

#[derive(Drop)]
pub struct Comparison<'a> {
    pub older: Side<'a>,
    pub newer: Side<'a>,
    pub crawlers: Vec<Compared<'a>>,
    /// The sitemaps that only the older file lists.
    pub removed: Vec<&'a [u8]>,
    /// The sitemaps that only the newer file lists.
    pub added: Vec<&'a [u8]>,
}

fn side_of<'a>(name: &'a str, read: &FileRead<'_>) -> Side<'a> {
    let kinds = read.facts.kinds;
    Side {
        name,
        has_no_directive: !(kinds.user_agent || kinds.rule || kinds.extra),
    }
}

/// The given crawlers, or if there are none `*` and each that one of the files names.
#[tactic(auto, using(crate::proofs::CompareLemmas::both_lines))]
fn agents_of<'a>(
    alloc: Global,
    agents: &[&'a str],
    older: &FileRead<'a>,
    newer: &FileRead<'a>,
) -> Result<Vec<&'a str>, AllocError>
    requires older { IsRead older.now }
    requires newer { IsRead newer.now }
    ensures { IfOk result (λ names. map (λ name. name.now) names.items
        ≡ specified_agents (map (λ agent. agent.now) agents.now)
        (lines_read older.now.bytes.now ++ lines_read newer.now.bytes.now)) }
{
    let mut labels = Vec::new(alloc);
    labels.extend_from_slice(&older.labels)?;
    labels.extend_from_slice(&newer.labels)?;
    agents_requested(alloc, agents, &labels)
}

fn crawlers_of<'a>(
    alloc: Global,
    agents: &[&'a str],
    older: &FileReadings<'_>,
    newer: &FileReadings<'_>,
    urls: &[&'a str],
) -> Result<Vec<Compared<'a>>, Error>
    requires older { AreReadings older.now.here.bytes.now older.now }
    requires newer { AreReadings newer.now.here.bytes.now newer.now }
    ensures ok { IfOk result (λ crawlers. AllZip (IsCompared (map (λ url. url.now) urls.now)
        older.now.here.bytes.now newer.now.here.bytes.now) (map (λ agent. agent.now) agents.now)
        crawlers.items) }
    ensures error { IfErr result (λ error. error ≡ Error.Memory) }
{
    let budget = BUDGET / agents.len().max(1);
    let mut crawlers = Vec::with_capacity(alloc, agents.len())?;
    for agent in agents {
        crawlers.push(compared_for(alloc, agent, older, newer, urls, budget)?)?;
    }
    Ok(crawlers)
}

fn compared_files<'a>(
    alloc: Global,
    agents: &[&'a str],
    urls: &[&'a str],
    names: (&'a str, &'a str),
    older: &FileReadings<'a>,
    newer: &FileReadings<'a>,
) -> Result<Comparison<'a>, Error>
    requires older { AreReadings older.now.here.bytes.now older.now }
    requires newer { AreReadings newer.now.here.bytes.now newer.now }
    ensures ok { IfOk result (IsComparison (map (λ agent. agent.now) agents.now)
        (map (λ url. url.now) urls.now) older.now.here.bytes.now newer.now.here.bytes.now) }
    ensures error { IfErr result (λ error. error ≡ Error.Memory) }
{
    let (old, new) = (&older.here, &newer.here);
    let agents = agents_of(alloc, agents, old, new)?;
    let crawlers = crawlers_of(alloc, &agents, older, newer, urls)?;
    let removed = sitemaps_only_in(alloc, &old.labels, &new.labels)?;
    let added = sitemaps_only_in(alloc, &new.labels, &old.labels)?;
    Ok(Comparison {
        older: side_of(names.0, old),
        newer: side_of(names.1, new),
        crawlers,
        removed,
        added,
    })
}

/// Compares two files: what differs for the given crawlers, or if there are none for `*` and each crawler
/// that one of the files names, and for each URL, and which sitemaps only one of them lists. A file that is
/// rejected for a crawler isn't an error.
pub fn compare<'a>(
    alloc: Global,
    agents: &[&'a str],
    urls: &[&'a str],
    older: NamedFile<'a>,
    newer: NamedFile<'a>,
) -> Result<Comparison<'a>, Error>
    ensures ok { IfOk result (IsComparison (map (λ agent. agent.now) agents.now)
        (map (λ url. url.now) urls.now) older.entry.bytes.now newer.entry.bytes.now) }
    ensures error { IfErr result (λ error. error ≡ Error.Memory) }
{
    let old = FileReadings::new(alloc, "*", older.bytes)?;
    let new = FileReadings::new(alloc, "*", newer.bytes)?;
    compared_files(alloc, agents, urls, (older.name, newer.name), &old, &new)
}

pub fn rejects_some(comparison: &Comparison<'_>) -> bool
    ensures { result ≡ rejects_some comparison.now }
{
    comparison.crawlers.iter().any(is_rejected)
}

pub fn keeps_verdicts(comparison: &Comparison<'_>) -> bool
    ensures { result ≡ keeps_verdicts comparison.now }
{
    comparison.crawlers.iter().all(keep_verdicts)
}

pub fn differs_nowhere(comparison: &Comparison<'_>) -> bool
    ensures { result ≡ differs_nowhere comparison.now }
{
    all_unchanged(&comparison.crawlers)
        && comparison.removed.is_empty()
        && comparison.added.is_empty()
}
