//! Warnings about a site that only one of the two readings closes to a crawler.
ghost use Rattle.std.specs.Prelude.{[], ◌≡◌, OnOk, false, true};
ghost use Rattle.std.specs.Option.{IfSome};
ghost use Rattle.robots_warnings.specs.Means.{is_style};
ghost use Rattle.audit_core.specs.{Internal.AddsNeedless, Together.is_needless};

use crate::audit::AgentAudit;
use crate::readings::FileReadings;
use crate::standard::Alike;
use robots_warnings::closed::{is_major, lines_closing_both};
use robots_warnings::read::FileRead;
use robots_warnings::table::Cause;
use robots_warnings::warning::Warning;
use std::alloc::{AllocError, Global};

const GOOGLE: &str = "Googlebot";

/// The warning, if there is one, about a site that these lines close to the crawler: here, and in RFC 9309's
/// reading.
fn closing<'a>(
    read: &FileRead<'_>,
    agent: &'a str,
    lines: (Option<usize>, Option<usize>),
) -> Option<Warning<'a>>
    ensures style { IfSome result (λ warning. is_style warning.cause ≡ true) }
    ensures other { IfSome result (λ warning. is_needless warning.cause ≡ false) }
{
    let is_google = agent.eq_ignore_ascii_case(GOOGLE);
    let (cause, line) = match lines {
        (Some(line), None) | (None, Some(line)) if is_google => (Cause::ClosedInOneReading, line),
        (None, Some(line)) if is_major(false, &read.site, agent) => (Cause::ClosedByStandard, line),
        (None, Some(line)) => (Cause::ClosedByStandardToOthers, line),
        _ => return None,
    };
    Some(Warning {
        line: Some(line),
        cause,
        about: Some(agent),
        detail: None,
    })
}

fn warn_of<'a>(
    alloc: Global,
    found: &mut Vec<Warning<'a>>,
    readings: &FileReadings<'_>,
    agent: &'a str,
) -> Result<(), AllocError>
    ensures { OnOk result (AddsNeedless [] found.old.items found.new.items) }
{
    let (read, text) = (&readings.here, readings.standard.text_site());
    let lines = lines_closing_both(alloc, &read.site, text, agent)?;
    if let Some(warning) = closing(read, agent, lines) {
        found.push(warning)?;
    }
    Ok(())
}

/// Whether Googlebot has the group of `*`, and isn't one of the crawlers of the report.
fn has_stars_group(audits: &[AgentAudit<'_>], read: &FileRead<'_>) -> bool {
    let is_reported = audits
        .iter()
        .any(|audit| audit.agent.eq_ignore_ascii_case(GOOGLE));
    !is_reported && !read.site.is_named(GOOGLE)
}

/// Appends a warning about each crawler to which only one of the readings closes the site. Googlebot gets one
/// where it has the group of `*`, too.
#[tactic(auto, using(crate::proofs::AddedLemmas::none_added, crate::proofs::AddedLemmas::more_none))]
pub(crate) fn warn_of_readings<'a>(
    alloc: Global,
    found: &mut Vec<Warning<'a>>,
    audits: &[AgentAudit<'a>],
    readings: &FileReadings<'_>,
) -> Result<(), AllocError>
    ensures { OnOk result (AddsNeedless [] found.old.items found.new.items) }
{
    for audit in audits {
        if audit.standard.alike == Alike::Yes {
            continue;
        }
        if audit.agent == "*" && has_stars_group(audits, &readings.here) {
            warn_of(alloc, found, readings, GOOGLE)?;
        }
        warn_of(alloc, found, readings, audit.agent)?;
    }
    Ok(())
}
