//! The sitemaps that a file lists, and the warnings about those that the rules for `*` deny.
ghost use Rattle.std.specs.Prelude.{◌≡◌, ◌++◌, ◌∷◌, [], IfErr, IfOk, OnOk, map};
ghost use Rattle.texting_robots.specs.Callers.{by_value, label_by_value, sitemaps_in};
ghost use Rattle.robots_warnings.specs.{File.lines_of};
ghost use Rattle.audit_core.specs.Internal.{AddsNeedless};

use crate::audit::{Reading, reading_for};
use crate::error::Error;
use crate::target::decision_on;
use robots_warnings::closed::is_closed;
use robots_warnings::read::FileRead;
use robots_warnings::table::Cause;
use robots_warnings::urls::is_absolute_url;
use robots_warnings::warning::{Detail, Warning};
use safe_output::bytes::as_text;
use std::alloc::{AllocError, Global};
use texting_robots::Robot;
use texting_robots::labels::LabeledLine;
use texting_robots::parser::Line;
use texting_robots::robot::Decision;

fn add_sitemap<'a>(sitemaps: &mut Vec<&'a [u8]>, line: Line<'a>) -> Result<(), AllocError>
    ensures { OnOk result (map (λ sitemap. sitemap.now) sitemaps.new.items
        ≡ map (λ sitemap. sitemap.now) sitemaps.old.items ++ sitemaps_in (by_value line.entry ∷ [])) }
{
    let Line::Sitemap(value) = line else {
        return Ok(());
    };
    if as_text(value).is_none() {
        return Ok(());
    }
    Ok(sitemaps.push(value)?)
}

/// The sitemaps that the file lists, in order.
#[tactic(auto, using(crate::proofs::AuditLemmas::sitemaps_next))]
pub fn sitemaps_of<'a>(
    alloc: Global,
    labels: &[LabeledLine<'a>],
) -> Result<Vec<&'a [u8]>, AllocError>
    ensures { IfOk result (λ sitemaps. map (λ sitemap. sitemap.now) sitemaps.items
        ≡ sitemaps_in (lines_of (map label_by_value labels.now))) }
{
    let mut sitemaps = Vec::new(alloc);
    for labeled in labels {
        add_sitemap(&mut sitemaps, labeled.line)?;
    }
    Ok(sitemaps)
}

/// The sitemap in the line, if that is an absolute http(s) URL.
fn asked_about<'a>(alloc: Global, line: Line<'a>) -> Result<Option<&'a str>, AllocError> {
    let Line::Sitemap(value) = line else {
        return Ok(None);
    };
    let Some(url) = as_text(value) else {
        return Ok(None);
    };
    if !is_absolute_url(alloc, value)? {
        return Ok(None);
    }
    Ok(Some(url))
}

#[tactic(auto, using(crate::proofs::AddedLemmas::none_added))]
fn warn_of_decision(
    found: &mut Vec<Warning<'_>>,
    number: usize,
    decision: Decision,
) -> Result<(), AllocError>
    ensures { OnOk result (AddsNeedless [] found.old.items found.new.items) }
{
    if decision.allowed {
        return Ok(());
    }
    let detail = decision.line.map(|line| Detail::Line(line));
    Ok(found.push(Warning {
        line: Some(number),
        cause: Cause::SitemapDenied,
        about: None,
        detail,
    })?)
}

/// Appends a warning about the sitemap in this line, if the robot denies it.
fn warn_of_sitemap(
    alloc: Global,
    found: &mut Vec<Warning<'_>>,
    robot: &Robot,
    labeled: &LabeledLine<'_>,
) -> Result<(), Error>
    ensures ok { OnOk result (AddsNeedless [] found.old.items found.new.items) }
    ensures error { IfErr result (λ error. error ≡ Error.Memory) }
{
    let Some(url) = asked_about(alloc, labeled.line)? else {
        return Ok(());
    };
    let decision = decision_on(alloc, robot, url)?;
    Ok(warn_of_decision(found, labeled.number, decision)?)
}

fn warn_of_each(
    alloc: Global,
    found: &mut Vec<Warning<'_>>,
    robot: &Robot,
    labels: &[LabeledLine<'_>],
) -> Result<(), Error>
    ensures ok { OnOk result (AddsNeedless [] found.old.items found.new.items) }
    ensures error { IfErr result (λ error. error ≡ Error.Memory) }
{
    for labeled in labels {
        warn_of_sitemap(alloc, found, robot, labeled)?;
    }
    Ok(())
}

/// The robot for `*`, if the file lists sitemaps, isn't rejected, and doesn't close the whole site to `*`.
fn robot_for_sitemaps(alloc: Global, read: &FileRead<'_>) -> Result<Option<Robot>, Error>
    ensures error { IfErr result (λ error. error ≡ Error.Memory) }
{
    let has_sitemap = read
        .labels
        .iter()
        .any(|labeled| matches!(labeled.line, Line::Sitemap(_)));
    if !has_sitemap || is_closed(alloc, &read.site, "*")? {
        return Ok(None);
    }
    match reading_for(alloc, "*", &read.site)? {
        Reading::Accepted(robot) => Ok(Some(robot)),
        Reading::Rejected(_) => Ok(None),
    }
}

/// Appends the warnings about the sitemaps that the rules for `*` deny, unless these close the whole site.
pub(crate) fn warn_of_sitemaps(
    alloc: Global,
    found: &mut Vec<Warning<'_>>,
    read: &FileRead<'_>,
) -> Result<(), Error>
    ensures ok { OnOk result (AddsNeedless [] found.old.items found.new.items) }
    ensures error { IfErr result (λ error. error ≡ Error.Memory) }
{
    let Some(robot) = robot_for_sitemaps(alloc, read)? else {
        return Ok(());
    };
    warn_of_each(alloc, found, &robot, &read.labels)
}
