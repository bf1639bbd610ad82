//! Whether the verdict of any URL changes for a crawler.
ghost use Rattle.std.specs.Prelude.{◌≡◌, IfErr, IfOk, IsTrue};
ghost use Rattle.std.specs.Option.{IfSome};
ghost use Rattle.texting_robots.specs.Callers.{lines_read};
ghost use Rattle.audit_core.specs.{Internal.IsCrawlerIn, Standard.AreReadings};
ghost use Rattle.audit_compare.specs.EveryUrl.{AreStandardVerdicts, AreVerdicts, IsExample, IsNormal};
ghost use Rattle.audit_compare.specs.{EveryUrl.is_same, EveryUrl.rules_in_both, Internal.AnswersByRules};

use crate::compared::{are_none, rule_changes};
use audit_core::audit::{Crawler, Reading};
use audit_core::error::Error;
use audit_core::readings::FileReadings;
use audit_core::target::{asked_target, decision_on};
use rfc9309::target::StandardTarget;
use robots_rules::compare::{Comparison, compare};
use robots_rules::same::are_same_rules;
use safe_output::bytes::as_text;
use std::alloc::Global;
use texting_robots::Robot;
use texting_robots::robot::Decision;

/// A path whose verdict changes.
#[derive(Drop)]
pub struct Example {
    pub path: String,
    pub older: Decision,
    pub newer: Decision,
}

/// What becomes of the verdicts of all URLs in one reading.
#[derive(Drop)]
pub enum Verdicts {
    /// No verdict changes.
    Same,
    /// Some verdicts change, such as that of this path.
    Other(Example),
    /// A file is rejected, or the search gave up, or found a match target that is that of no path.
    Undecided,
}

/// What becomes of the verdicts of all URLs in both readings.
#[derive(Drop)]
pub struct InBoth {
    pub here: Verdicts,
    /// In RFC 9309's reading; `None` if each file has the same rules in it as here, or it isn't asked.
    pub standard: Option<Verdicts>,
}

pub(crate) fn is_same(found: &InBoth) -> bool
    ensures { result ≡ is_same found.now.here found.now.standard }
{
    matches!(
        (&found.here, &found.standard),
        (Verdicts::Same, None | Some(Verdicts::Same))
    )
}

/// Whether crawlers ask for the path as it is, and it is in normal form.
fn is_normal(alloc: Global, path: &str) -> Result<bool, Error>
    ensures ok { IfOk result (λ is. IsTrue is → IsNormal path.now) }
    ensures error { IfErr result (λ error. error ≡ Error.Memory) }
{
    let asked = asked_target(alloc, path)?;
    Ok(asked.as_str() == path && StandardTarget::new(alloc, path)?.as_str() == path)
}

/// The path with its decisions, if the verdict changes. In RFC 9309's reading it is in normal form.
fn example_on(
    alloc: Global,
    older: &Robot,
    newer: &Robot,
    is_standard: bool,
    path: &str,
) -> Result<Option<Example>, Error>
    ensures ok { IfOk result (λ found. IfSome found
        (IsExample is_standard older.now.rules newer.now.rules)) }
    ensures error { IfErr result (λ error. error ≡ Error.Memory) }
{
    if is_standard && !is_normal(alloc, path)? {
        return Ok(None);
    }
    let was = decision_on(alloc, older, path)?;
    let is = decision_on(alloc, newer, path)?;
    if was.allowed == is.allowed {
        return Ok(None);
    }
    Ok(Some(Example {
        path: String::from_str(alloc, path)?,
        older: was,
        newer: is,
    }))
}

/// The home page is an example, or else this path, or it isn't decided.
fn verdicts_on(
    alloc: Global,
    older: &Robot,
    newer: &Robot,
    is_standard: bool,
    text: &[u8],
) -> Result<Verdicts, Error>
    ensures ok { IfOk result (AreVerdicts is_standard older.now.rules newer.now.rules) }
    ensures error { IfErr result (λ error. error ≡ Error.Memory) }
{
    if let Some(example) = example_on(alloc, older, newer, is_standard, "/")? {
        return Ok(Verdicts::Other(example));
    }
    let path = as_text(text).unwrap_or("/");
    match example_on(alloc, older, newer, is_standard, path)? {
        Some(example) => Ok(Verdicts::Other(example)),
        None => Ok(Verdicts::Undecided),
    }
}

/// What becomes of the verdicts if the second crawler's rules apply. They are the same if the rules are. That
/// they change is only said with an example, and of that both robots are asked.
pub(crate) fn verdicts_for(
    alloc: Global,
    older: &Crawler<'_>,
    newer: &Crawler<'_>,
    is_standard: bool,
    budget: usize,
) -> Result<Verdicts, Error>
    requires older { AnswersByRules older.now }
    requires newer { AnswersByRules newer.now }
    ensures ok { IfOk result (AreVerdicts is_standard older.now.rules.items newer.now.rules.items) }
    ensures error { IfErr result (λ error. error ≡ Error.Memory) }
{
    let rules = rule_changes(alloc, &older.rules, &newer.rules)?;
    if are_none(&rules) {
        return Ok(Verdicts::Same);
    }
    let mut left = budget;
    let found = compare(alloc, b"/", &older.rules, &newer.rules, &mut left)?;
    match (&older.reading, &newer.reading) {
        (Reading::Accepted(was), Reading::Accepted(is)) => match found {
            Comparison::Same => Ok(Verdicts::Same),
            Comparison::Differ(text) => verdicts_on(alloc, was, is, is_standard, &text),
            Comparison::Undecided => verdicts_on(alloc, was, is, is_standard, b"/"),
        },
        (Reading::Rejected(_), Reading::Rejected(_)) if matches!(found, Comparison::Same) => {
            Ok(Verdicts::Same)
        }
        _ => Ok(Verdicts::Undecided),
    }
}

/// What becomes of the verdicts in RFC 9309's reading of two files; `None` if each has the same rules in it
/// as here.
pub(crate) fn standard_verdicts(
    alloc: Global,
    older: &Crawler<'_>,
    newer: &Crawler<'_>,
    old_file: &FileReadings<'_>,
    new_file: &FileReadings<'_>,
    budget: usize,
) -> Result<Option<Verdicts>, Error>
    requires older { IsCrawlerIn (lines_read old_file.now.here.bytes.now) older.now }
    requires newer { IsCrawlerIn (lines_read new_file.now.here.bytes.now) newer.now }
    requires old_file { AreReadings old_file.now.here.bytes.now old_file.now }
    requires new_file { AreReadings new_file.now.here.bytes.now new_file.now }
    ensures ok { IfOk result (AreStandardVerdicts
        (rules_in_both older.now.agent.now old_file.now.here.bytes.now)
        (rules_in_both newer.now.agent.now new_file.now.here.bytes.now)) }
    ensures error { IfErr result (λ error. error ≡ Error.Memory) }
{
    let old_text = Crawler::new(alloc, older.agent, old_file.standard.text_site())?;
    let new_text = Crawler::new(alloc, newer.agent, new_file.standard.text_site())?;
    if are_same_rules(&older.rules, &old_text.rules)
        && are_same_rules(&newer.rules, &new_text.rules)
    {
        return Ok(None);
    }
    Ok(Some(verdicts_for(alloc, &old_text, &new_text, true, budget)?))
}
