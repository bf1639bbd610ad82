//! The audit of a file: its lines, what applies to each requested crawler, and the warnings.
ghost use Rattle.std.specs.Prelude.{◌≡◌, IfErr, IfOk, IsTrue, map, option_map, true};
ghost use Rattle.std.specs.List.{AllZip};
ghost use Rattle.texting_robots.specs.Callers.{file_lines, label_by_value, lines_read};
ghost use Rattle.audit_core.specs.Audit.{IsAgentAudit, IsAuditOf, IsOfNoGroup, IsReported, all_allowed};
ghost use Rattle.audit_core.specs.Audit.{allows_all, is_allowed, labeling_agent, labels_requested};
ghost use Rattle.audit_core.specs.Audit.{rejects_some};
ghost use Rattle.audit_core.specs.Internal.{AreFoundFor, IsCrawlerIn, IsOtherReading, IsReading};
ghost use Rattle.audit_core.specs.{Request.requested_by, Standard.AreReadings, Standard.text_lines};
ghost use Rattle.robots_rules.specs.Needless.{numbers_of};

use crate::agents::agents_requested;
use crate::chosen::choose;
use crate::closed::warn_of_readings;
use crate::error::Error;
use crate::group::{AtVendor, Group, at_vendor, group_of, ignored_by, name_asked, naming_line};
use crate::needless::{add_needless, needless_rules};
use crate::reach::{BUDGET, Reach, reach_for};
use crate::readings::FileReadings;
use crate::request::Request;
use crate::rulings::{rejected_line, verdicts_by};
use crate::sitemaps::warn_of_sitemaps;
use crate::standard::{StandardAudit, standard_audit};
use rfc9309::conformance::{Conformance, conformance_of};
use robots_rules::lines::Needless;
use robots_rules::rule::{Rule, rules_of};
use robots_warnings::warning::Warning;
use robots_warnings::warnings::warnings;
use std::alloc::Global;
use std::marker::Model;
use texting_robots::labels::LabeledLine;
use texting_robots::robot::Decision;
use texting_robots::site::Site;
use texting_robots::{Robot, RobotError};

#[derive(Drop)]
pub struct Verdict<'a> {
    pub url: &'a str,
    /// On what is asked for.
    pub decision: Decision,
    /// RFC 9309's decision on the URL; `None` if it has no verdict, as the file is rejected.
    pub standard: Option<Decision>,
}

impl<'a> Model for Verdict<'a> {
    ghost use Rattle.audit_core.specs.Audit.{VerdictValue};

    ghost Value = { VerdictValue };

    ghost use Rattle.audit_core.specs.Internal.Views.{verdict_of};

    ghost view = { verdict_of };
}

#[derive(Drop)]
pub struct AgentAudit<'a> {
    pub agent: &'a str,
    /// The name that the file is read for: that of the group that the crawler's vendor applies to it; empty
    /// if that applies none.
    pub asked: &'a str,
    pub group: Group,
    /// The first user-agent line that names the group; `None` if no line does.
    pub group_line: Option<usize>,
    pub rules: usize,
    /// What the crawler may fetch, unless the file is rejected for it.
    pub reach: Reach,
    /// The lines of the Allows, if `reach` is `Listed`.
    pub allows: Vec<usize>,
    pub vendor: AtVendor,
    /// If `agent` is `*`, the known crawlers that ignore its group.
    pub ignored_by: Vec<&'static str>,
    /// The crawl delay in microseconds.
    pub delay: Option<u64>,
    /// The line of the crawler's first overlong rule, because of which the file is rejected for the crawler.
    pub rejected: Option<usize>,
    /// Empty if the file is rejected for the crawler.
    pub verdicts: Vec<Verdict<'a>>,
    /// What RFC 9309 says of the file for the crawler.
    pub standard: StandardAudit,
}

impl<'a> Model for AgentAudit<'a> {
    ghost use Rattle.audit_core.specs.Audit.{AgentValue};

    ghost Value = { AgentValue };

    ghost use Rattle.audit_core.specs.Internal.Views.{agent_of};

    ghost view = { agent_of };
}

/// The audit of a file.
#[derive(Drop)]
pub struct Audit<'a> {
    pub labels: Vec<LabeledLine<'a>>,
    pub agents: Vec<AgentAudit<'a>>,
    pub warnings: Vec<Warning<'a>>,
    pub syntax: Conformance,
}

impl<'a> Model for Audit<'a> {
    ghost use Rattle.audit_core.specs.Audit.{AuditValue};

    ghost Value = { AuditValue };

    ghost use Rattle.audit_core.specs.Internal.Views.{audit_of};

    ghost view = { audit_of };
}

/// What a reading of a file has for a crawler.
#[derive(Drop)]
pub enum Reading {
    Accepted(Robot),
    /// The line of the crawler's first overlong rule.
    Rejected(usize),
}

pub(crate) fn reading_for(alloc: Global, agent: &str, site: &Site) -> Result<Reading, Error>
    ensures ok { IfOk result (IsReading agent.now (file_lines site.now)) }
    ensures error { IfErr result (λ error. error ≡ Error.Memory) }
{
    match site.robot_without_sitemaps(alloc, agent) {
        Ok(robot) => Ok(Reading::Accepted(robot)),
        Err(RobotError::Overlong(line)) => Ok(Reading::Rejected(line)),
        Err(RobotError::Memory) => Err(Error::Memory),
    }
}

/// A crawler, and what one reading of a file has for it. In RFC 9309's reading an empty Allow or Disallow is
/// a rule that matches nothing.
#[derive(Drop)]
pub struct Crawler<'a> {
    pub agent: &'a str,
    /// The crawler's rules in file order.
    pub rules: Vec<Rule>,
    pub reading: Reading,
}

impl<'a> Crawler<'a> {
    /// The site is that of the file, or that of the text that stands for it in RFC 9309's reading.
    pub fn new(alloc: Global, agent: &'a str, site: &Site) -> Result<Self, Error>
        ensures agent { IfOk result (λ crawler. crawler.agent.now ≡ agent.entry.now) }
        ensures ok { IfOk result (IsCrawlerIn (file_lines site.now)) }
        ensures error { IfErr result (λ error. error ≡ Error.Memory) }
    {
        Ok(Crawler {
            agent,
            rules: rules_of(alloc, site, agent)?,
            reading: reading_for(alloc, agent, site)?,
        })
    }
}

fn is_same_rule(one: &Rule, other: &Rule) -> bool
    ensures { IsTrue result → one.now ≡ other.now }
{
    (one.is_allow == other.is_allow && one.line == other.line)
        && one.pattern.as_str() == other.pattern.as_str()
}

/// Whether the rules are the same, and in the same lines.
fn are_same(rules: &[Rule], others: &[Rule]) -> bool
    ensures { IsTrue result → rules.now ≡ others.now }
{
    if rules.len() != others.len() {
        return false;
    }
    for k in 0..rules.len() {
        if !is_same_rule(&rules[k], &others[k]) {
            return false;
        }
    }
    true
}

/// The crawler in RFC 9309's reading; `None` if that has the same rules.
fn other_reading<'a>(
    alloc: Global,
    crawler: &Crawler<'a>,
    text: &Site,
) -> Result<Option<Crawler<'a>>, Error>
    ensures ok { IfOk result (IsOtherReading (file_lines text.now) crawler.now) }
    ensures error { IfErr result (λ error. error ≡ Error.Memory) }
{
    let agent = crawler.agent;
    let rules = rules_of(alloc, text, agent)?;
    if are_same(&crawler.rules, &rules) {
        return Ok(None);
    }
    Ok(Some(Crawler {
        agent,
        rules,
        reading: reading_for(alloc, agent, text)?,
    }))
}

/// What the file means for the crawler, which is read so in both readings. If `is_same`, these are the same.
fn audit_in_both<'a>(
    alloc: Global,
    crawler: &Crawler<'a>,
    standard: &Crawler<'a>,
    is_same: bool,
    readings: &FileReadings<'_>,
    urls: &[&'a str],
    budget: usize,
) -> Result<AgentAudit<'a>, Error>
    requires readings { AreReadings readings.now.here.bytes.now readings.now }
    requires crawler { IsCrawlerIn (lines_read readings.now.here.bytes.now) crawler.now }
    requires standard { IsCrawlerIn (text_lines readings.now.here.bytes.now) standard.now }
    requires agent { standard.now.agent.now ≡ crawler.now.agent.now }
    requires same { is_same ≡ true → standard.now ≡ crawler.now }
    ensures ok { IfOk result (IsAgentAudit (map (λ url. url.now) urls.now) readings.now.here.bytes.now
        crawler.now.agent.now) }
    ensures error { IfErr result (λ error. error ≡ Error.Memory) }
{
    let (agent, read) = (crawler.agent, &readings.here);
    let vendor = at_vendor(agent, &read.site);
    let (reach, allows) = reach_for(alloc, vendor, crawler, budget)?;
    let own = (reach, allows.as_slice());
    Ok(AgentAudit {
        agent,
        asked: agent,
        group: group_of(agent, &read.site),
        group_line: naming_line(agent, &read.site, &read.labels),
        rules: crawler.rules.len(),
        standard: standard_audit(alloc, crawler, standard, is_same, own, budget)?,
        reach,
        allows,
        vendor,
        ignored_by: ignored_by(alloc, agent, &read.site)?,
        delay: read.site.delay(agent),
        rejected: rejected_line(&crawler.reading),
        verdicts: verdicts_by(alloc, &crawler.reading, &standard.reading, is_same, urls)?,
    })
}

/// What the file means for one crawler. The budget bounds how long its rules are compared on all paths.
pub fn audit_for<'a>(
    alloc: Global,
    crawler: &Crawler<'a>,
    readings: &FileReadings<'_>,
    urls: &[&'a str],
    budget: usize,
) -> Result<AgentAudit<'a>, Error>
    requires readings { AreReadings readings.now.here.bytes.now readings.now }
    requires crawler { IsCrawlerIn (lines_read readings.now.here.bytes.now) crawler.now }
    ensures ok { IfOk result (IsAgentAudit (map (λ url. url.now) urls.now) readings.now.here.bytes.now
        crawler.now.agent.now) }
    ensures error { IfErr result (λ error. error ≡ Error.Memory) }
{
    let other = other_reading(alloc, crawler, readings.standard.text_site())?;
    match &other {
        Some(other) => audit_in_both(alloc, crawler, other, false, readings, urls, budget),
        None => audit_in_both(alloc, crawler, crawler, true, readings, urls, budget),
    }
}

/// What a file without any line means for the crawler, to which its vendor applies no group.
fn audit_without_group<'a>(
    alloc: Global,
    agent: &'a str,
    urls: &[&'a str],
    budget: usize,
) -> Result<AgentAudit<'a>, Error>
    ensures ok { IfOk result (IsOfNoGroup (map (λ url. url.now) urls.now) agent.now) }
    ensures error { IfErr result (λ error. error ≡ Error.Memory) }
{
    let readings = FileReadings::new(alloc, agent, b"")?;
    let crawler = Crawler::new(alloc, agent, &readings.here.site)?;
    let mut audit = audit_for(alloc, &crawler, &readings, urls, budget)?;
    audit.asked = "";
    audit.group = Group::Nobody;
    audit.vendor = AtVendor::NoGroup;
    Ok(audit)
}

/// What the file means for the crawler with this name; if its vendor applies another group, what it means for
/// that.
fn audit_named<'a>(
    alloc: Global,
    agent: &'a str,
    readings: &FileReadings<'a>,
    urls: &[&'a str],
    budget: usize,
) -> Result<AgentAudit<'a>, Error>
    requires { AreReadings readings.now.here.bytes.now readings.now }
    ensures ok { IfOk result (IsReported (map (λ url. url.now) urls.now) readings.now.here.bytes.now
        agent.now) }
    ensures error { IfErr result (λ error. error ≡ Error.Memory) }
{
    let site = &readings.here.site;
    match at_vendor(agent, site) {
        AtVendor::Same => {
            let crawler = Crawler::new(alloc, agent, site)?;
            audit_for(alloc, &crawler, readings, urls, budget)
        }
        AtVendor::NoGroup => audit_without_group(alloc, agent, urls, budget),
        AtVendor::OtherGroup => {
            let crawler = Crawler::new(alloc, name_asked(agent, &readings.here), site)?;
            let mut audit = audit_for(alloc, &crawler, readings, urls, budget)?;
            audit.agent = agent;
            audit.vendor = AtVendor::OtherGroup;
            Ok(audit)
        }
    }
}

fn agent_audits<'a>(
    alloc: Global,
    agents: &[&'a str],
    readings: &FileReadings<'a>,
    urls: &[&'a str],
) -> Result<Vec<AgentAudit<'a>>, Error>
    requires { AreReadings readings.now.here.bytes.now readings.now }
    ensures ok { IfOk result (λ audits. AllZip (IsReported (map (λ url. url.now) urls.now)
        readings.now.here.bytes.now) (map (λ agent. agent.now) agents.now) audits.items) }
    ensures error { IfErr result (λ error. error ≡ Error.Memory) }
{
    let budget = BUDGET / agents.len().max(1);
    let mut audits = Vec::with_capacity(alloc, agents.len())?;
    for agent in agents {
        audits.push(audit_named(alloc, agent, readings, urls, budget)?)?;
    }
    Ok(audits)
}

/// The crawler for which lines are labeled; `*` for `None`.
pub fn labeling_agent<'a>(agent: Option<&'a str>) -> &'a str
    ensures { result.now ≡ labeling_agent (option_map (λ agent. agent.now) agent.entry) }
{
    match agent {
        Some(agent) => agent,
        None => "*",
    }
}

/// All warnings about the file and the request, then those about needless rules, about sitemaps, and about a
/// site that one of the readings closes.
fn all_warnings<'a>(
    alloc: Global,
    request: &Request<'a>,
    names: &[&'a str],
    audits: &[AgentAudit<'a>],
    readings: &FileReadings<'_>,
    needless: &Needless,
) -> Result<Vec<Warning<'a>>, Error>
    requires { AreReadings readings.now.here.bytes.now readings.now }
    ensures ok { IfOk result (λ found. AreFoundFor (map (λ name. name.now) names.now)
        (requested_by request.now).urls readings.now.here.bytes.now
        (map label_by_value readings.now.here.labels.items) (numbers_of needless.now.rules) found.items) }
    ensures error { IfErr result (λ error. error ≡ Error.Memory) }
{
    let (all_groups, read) = (request.agent.is_none(), &readings.here);
    let mut found = warnings(alloc, all_groups, names, &request.urls, read)?;
    add_needless(&mut found, needless)?;
    warn_of_sitemaps(alloc, &mut found, read)?;
    warn_of_readings(alloc, &mut found, audits, readings)?;
    Ok(found)
}

/// What the audit of a file that was read so for the request has besides its lines.
fn audit_read<'a>(
    alloc: Global,
    request: &Request<'a>,
    readings: &FileReadings<'a>,
) -> Result<(Vec<AgentAudit<'a>>, Vec<Warning<'a>>, Conformance), Error>
    requires readings { AreReadings readings.now.here.bytes.now readings.now }
    requires labels { map label_by_value readings.now.here.labels.items
        ≡ labels_requested (requested_by request.now) readings.now.here.bytes.now }
    ensures ok { IfOk result (λ found. IsAuditOf (requested_by request.now) readings.now.here.bytes.now
        (record {
          labels = map label_by_value readings.now.here.labels.items;
          agents = found.0.items;
          warnings = found.1.items;
          syntax = found.2;
        })) }
    ensures error { IfErr result (λ error. error ≡ Error.Memory) }
{
    let read = &readings.here;
    let names = agents_requested(alloc, &request.agents, &read.labels)?;
    let agents = agent_audits(alloc, &names, readings, &request.urls)?;
    let needless = needless_rules(
        alloc,
        request.has_needless,
        read.facts.is_too_large,
        &read.site,
        &readings.standard,
    )?;
    let mut warnings = all_warnings(alloc, request, &names, &agents, readings, &needless)?;
    choose(&request.only, &request.ignored, &mut warnings);
    Ok((agents, warnings, conformance_of(read.bytes)))
}

fn labels_of<'a>(readings: FileReadings<'a>) -> Vec<LabeledLine<'a>>
    ensures { result.items ≡ readings.entry.here.labels.items }
{
    readings.here.labels
}

/// Audits a file for the crawlers and URLs of the request.
pub fn audit_of<'a>(
    alloc: Global,
    request: &Request<'a>,
    file: &'a [u8],
) -> Result<Audit<'a>, Error>
    ensures ok { IfOk result (λ audit. IsAuditOf (requested_by request.now) file.now audit) }
    ensures error { IfErr result (λ error. error ≡ Error.Memory) }
{
    let readings = FileReadings::new(alloc, labeling_agent(request.agent), file)?;
    let (agents, warnings, syntax) = audit_read(alloc, request, &readings)?;
    Ok(Audit {
        labels: labels_of(readings),
        agents,
        warnings,
        syntax,
    })
}

/// Both readings allow the URL; one that has no verdict has nothing against it.
fn is_allowed(verdict: &Verdict<'_>) -> bool
    ensures { result ≡ is_allowed verdict.now }
{
    verdict.decision.allowed
        && match verdict.standard {
            Some(decision) => decision.allowed,
            None => true,
        }
}

fn allows_all(audit: &AgentAudit<'_>) -> bool
    ensures { result ≡ allows_all audit.now }
{
    audit.verdicts.iter().all(is_allowed)
}

/// Whether the crawlers may fetch all URLs of the request, in both readings.
pub fn all_allowed(agents: &[AgentAudit<'_>]) -> bool
    ensures { result ≡ all_allowed agents.now }
{
    agents.iter().all(allows_all)
}

/// Whether the file is rejected for a crawler in one of the readings.
pub fn rejects_some(agents: &[AgentAudit<'_>]) -> bool
    ensures { result ≡ rejects_some agents.now }
{
    agents.iter().any(|agent| agent.rejected.is_some() || agent.standard.rejected.is_some())
}
