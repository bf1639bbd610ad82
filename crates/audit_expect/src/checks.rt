//! What both readings of a robots.txt file say about an expectation, and whether it fails.
ghost use Rattle.std.specs.Prelude.{◌≡◌, ℕ, IfOk, IsTrue, List, false, option_map, true, unwrap_or};
ghost use Rattle.audit_core.specs.Standard.{AreReadings};
ghost use Rattle.robots_rules.specs.declared.compare.Comparison.TheVariants.{Same};
ghost use Rattle.audit_expect.specs.Expect.{ExpectationValue};
ghost use Rattle.audit_expect.specs.Expectations.{AreDecidedInBoth, HoldsIn, IsAskedAsWritten};
ghost use Rattle.audit_expect.specs.Internal.Expectations.{AreRobots, IsInBoth, IsJudgmentOn};
ghost use Rattle.audit_expect.specs.Internal.Expectations.{expectation_value, fails, fails_at, fails_by};
ghost use Rattle.audit_expect.specs.Internal.Expectations.{holds, is_unexpected};

use crate::expect::Expectation;
use crate::patterns::compared_on_paths;
use audit_core::audit::{Crawler, Reading};
use audit_core::error::Error;
use audit_core::readings::FileReadings;
use audit_core::target::{asked_target, decision_on, standard_decision_on};
use rfc9309::normal::{normal_target, push_pattern};
use rfc9309::target::StandardTarget;
use robots_rules::compare::Comparison;
use robots_rules::rule::rules_of;
use std::alloc::{AllocError, Global};
use texting_robots::Robot;
use texting_robots::robot::Decision;

/// What both readings of a file say of all paths that a pattern matches.
#[derive(Drop)]
pub(crate) enum OnPaths {
    /// Each path is decided as expected.
    Hold,
    /// A path that isn't, and its decisions here and by RFC 9309.
    Fail(String, Decision, Decision),
    Undecided,
}

/// What a file says about a URL for a crawler.
#[derive(Drop)]
pub(crate) enum Judgment {
    /// The file is rejected because of the rule in this line.
    Rejected(usize),
    /// The same, but only as RFC 9309 reads it.
    RejectedByStandard(usize),
    /// `url` changes what RFC 9309 compares.
    Rewritten,
    /// The decisions here and by RFC 9309.
    Decided(Decision, Decision),
    /// Whether all paths that the pattern `url` matches are decided as expected.
    Everywhere(OnPaths),
}

/// An expectation, and what the file says about it.
#[derive(Drop)]
pub(crate) struct Checked<'a> {
    pub(crate) expectation: Expectation<'a>,
    /// The group that the vendor of its crawler applies in place of the one that applies here; an empty name
    /// for none.
    pub(crate) group: Option<&'a str>,
    /// `None` if no group applies, so all is allowed.
    pub(crate) judgment: Option<Judgment>,
}

/// What a file has for a crawler in both readings.
#[derive(Drop)]
pub(crate) struct Readers<'a> {
    pub(crate) here: Crawler<'a>,
    standard: Crawler<'a>,
}

impl<'a> Readers<'a> {
    pub(crate) fn new(alloc: Global, agent: &'a str, file: &FileReadings<'_>) -> Result<Self, Error>
        requires { AreReadings file.now.here.bytes.now file.now }
        ensures agent { IfOk result (λ readers. readers.here.agent.now ≡ agent.entry.now) }
        ensures readers { IfOk result (IsInBoth file.now.here.bytes.now) }
    {
        let here = Crawler::new(alloc, agent, &file.here.site)?;
        let standard = Crawler::new(alloc, agent, file.standard.text_site())?;
        Ok(Readers { here, standard })
    }
}

/// The path, if it isn't decided as expected.
fn failure_on(
    alloc: Global,
    allowed: bool,
    path: &[u8],
    robot: &Robot,
    standard: &Robot,
) -> Result<OnPaths, Error>
    ensures { IfOk result (λ found. holds found ≡ false) }
{
    let Ok(path) = std::str::from_utf8(path) else {
        return Ok(OnPaths::Undecided);
    };
    let here = robot.decide_prepared(path);
    let standard = standard_decision_on(alloc, standard, path)?;
    if here.allowed == allowed && standard.allowed == allowed {
        return Ok(OnPaths::Undecided);
    }
    let path = String::from_str(alloc, path)?;
    Ok(OnPaths::Fail(path, here, standard))
}

/// How the rules in both readings compare on what the pattern matches: those here first.
fn compared_in_both(
    alloc: Global,
    expectation: &Expectation<'_>,
    agent: &str,
    file: &FileReadings<'_>,
) -> Result<Comparison, AllocError>
    requires { AreReadings file.now.here.bytes.now file.now }
    ensures { IfOk result (λ found. found ≡ Same → AreDecidedInBoth file.now.here.bytes.now agent.now
        (expectation_value expectation.now)) }
{
    let (allowed, path) = (expectation.allowed, expectation.url.as_bytes());
    let rules = rules_of(alloc, &file.here.site, agent)?;
    match compared_on_paths(alloc, allowed, path, rules)? {
        Comparison::Same => {
            let mut pattern = Vec::new(alloc);
            push_pattern(&mut pattern, path)?;
            let rules = rules_of(alloc, file.standard.text_site(), agent)?;
            Ok(compared_on_paths(alloc, allowed, &pattern, rules)?)
        }
        other => Ok(other),
    }
}

fn on_pattern(
    alloc: Global,
    expectation: &Expectation<'_>,
    agent: &str,
    robot: &Robot,
    standard: &Robot,
    file: &FileReadings<'_>,
) -> Result<Judgment, Error>
    requires { AreReadings file.now.here.bytes.now file.now }
    ensures { IfOk result (λ judgment. expectation.now.is_pattern ≡ true
        → AreRobots file.now.here.bytes.now agent.now robot.now standard.now
        → IsJudgmentOn file.now.here.bytes.now agent.now (expectation_value expectation.now) judgment) }
{
    let allowed = expectation.allowed;
    let found = match compared_in_both(alloc, expectation, agent, file)? {
        Comparison::Same => OnPaths::Hold,
        Comparison::Differ(path) => failure_on(alloc, allowed, &path, robot, standard)?,
        Comparison::Undecided => OnPaths::Undecided,
    };
    Ok(Judgment::Everywhere(found))
}

/// Whether what is written and what crawlers ask for have the same normal form.
fn is_asked_as_written(alloc: Global, url: &str) -> Result<bool, Error>
    ensures { IfOk result (λ same. IsTrue same → IsAskedAsWritten url.now) }
{
    let asked = normal_target(alloc, asked_target(alloc, url)?.as_bytes())?;
    Ok(asked.as_str() == StandardTarget::new(alloc, url)?.as_str())
}

fn on_url(alloc: Global, url: &str, robot: &Robot, standard: &Robot) -> Result<Judgment, Error>
    ensures { IfOk result (λ judgment. (file agent : List ℕ) (one : ExpectationValue) → one.url ≡ url.now
        → one.is_pattern ≡ false → AreRobots file agent robot.now standard.now
        → IsJudgmentOn file agent one judgment) }
{
    if !is_asked_as_written(alloc, url)? {
        return Ok(Judgment::Rewritten);
    }
    let here = decision_on(alloc, robot, url)?;
    let standard = standard_decision_on(alloc, standard, url)?;
    Ok(Judgment::Decided(here, standard))
}

fn judgment_on(
    alloc: Global,
    expectation: &Expectation<'_>,
    readers: &Readers<'_>,
    file: &FileReadings<'_>,
) -> Result<Judgment, Error>
    requires file { AreReadings file.now.here.bytes.now file.now }
    requires readers { IsInBoth file.now.here.bytes.now readers.now }
    ensures { IfOk result (IsJudgmentOn file.now.here.bytes.now readers.now.here.agent.now
        (expectation_value expectation.now)) }
{
    let agent = readers.here.agent;
    match (&readers.here.reading, &readers.standard.reading) {
        (Reading::Rejected(line), _) => Ok(Judgment::Rejected(*line)),
        (_, Reading::Rejected(line)) => Ok(Judgment::RejectedByStandard(*line)),
        (Reading::Accepted(robot), Reading::Accepted(standard)) => {
            if expectation.is_pattern {
                return Ok(on_pattern(alloc, expectation, agent, robot, standard, file)?);
            }
            Ok(on_url(alloc, expectation.url, robot, standard)?)
        }
    }
}

/// What is so for the group that the vendor of the crawler applies, if there is one. The readers are those of
/// that group, or else of the crawler.
#[tactic(auto, using(crate::proofs::ExpectationsLemmas::nobody, crate::proofs::ExpectationsLemmas::somebody))]
fn judgment_in(
    alloc: Global,
    expectation: &Expectation<'_>,
    group: Option<&str>,
    readers: &Readers<'_>,
    file: &FileReadings<'_>,
) -> Result<Option<Judgment>, Error>
    requires file { AreReadings file.now.here.bytes.now file.now }
    requires readers { IsInBoth file.now.here.bytes.now readers.now }
    requires agent { readers.now.here.agent.now
        ≡ unwrap_or (option_map (λ name. name.now) group) expectation.now.agent.now }
    ensures { IfOk result (λ judgment. fails_by expectation.now.allowed judgment ≡ false
        → HoldsIn file.now.here.bytes.now (expectation_value expectation.now)
        (option_map (λ name. name.now) group.entry)) }
{
    let Some(name) = group else {
        return Ok(Some(judgment_on(alloc, expectation, readers, file)?));
    };
    if name.is_empty() {
        return Ok(None);
    }
    Ok(Some(judgment_on(alloc, expectation, readers, file)?))
}

pub(crate) fn checked_on<'a>(
    alloc: Global,
    expectation: &Expectation<'a>,
    group: Option<&'a str>,
    readers: &Readers<'_>,
    file: &FileReadings<'_>,
) -> Result<Checked<'a>, Error>
    requires file { AreReadings file.now.here.bytes.now file.now }
    requires readers { IsInBoth file.now.here.bytes.now readers.now }
    requires agent { readers.now.here.agent.now
        ≡ unwrap_or (option_map (λ name. name.now) group) expectation.now.agent.now }
    ensures { IfOk result (λ checked. fails checked ≡ false → HoldsIn file.now.here.bytes.now
        (expectation_value expectation.now) (option_map (λ name. name.now) group.entry)) }
{
    let judgment = judgment_in(alloc, expectation, group, readers, file)?;
    Ok(Checked {
        expectation: *expectation,
        group,
        judgment,
    })
}

pub(crate) fn is_unexpected(allowed: bool, decision: &Decision) -> bool
    ensures { result ≡ is_unexpected allowed decision.now }
{
    allowed != decision.allowed
}

fn fails_at(allowed: bool, judgment: &Judgment) -> bool
    ensures { result ≡ fails_at allowed judgment.now }
{
    match judgment {
        Judgment::Decided(here, standard) => {
            is_unexpected(allowed, here) || is_unexpected(allowed, standard)
        }
        Judgment::Everywhere(OnPaths::Hold) => false,
        _ => true,
    }
}

pub(crate) fn fails(checked: &Checked<'_>) -> bool
    ensures { result ≡ fails checked.now }
{
    let allowed = checked.expectation.allowed;
    match &checked.judgment {
        Some(judgment) => fails_at(allowed, judgment),
        None => !allowed,
    }
}
