//! Warnings that may be given. Which of them are is decided in `known`, so nothing is proved of these functions
//! but that they are safe.

use crate::checks::{
    Check, field_checks, file_checks, is_in_scope_of, position_checks, raw_rule_checks,
    rule_checks, sitemap_checks, text_checks, user_agent_checks,
};
use crate::contents::{has_odd_delay, has_odd_space, is_cut, split_content};
use crate::crawlers::{crawlers, warn_of_all_names, warn_of_vendors};
use crate::facts::suppresses_line_warnings;
use crate::field_names::{is_without_colon, meant_by};
use crate::file::is_blank;
use crate::known::{Known, has_number};
use crate::positions::{Preceding, last_group, preceding_with, sole_name};
use crate::read::FileRead;
use crate::rules::is_plain;
use crate::sitemaps::{line_before, listings};
use crate::spellings::{Spelling, unpaired};
use crate::table::Cause;
use crate::warning::{Detail, Found, Warning};
use std::alloc::{AllocError, Global};
use texting_robots::labels::LabeledLine;
use texting_robots::parser::Line;

/// Microseconds per day.
const DAY: u64 = 86_400_000_000;

fn push(
    found: &mut Found<'_>,
    line: Option<usize>,
    cause: Cause,
    detail: Option<Detail>,
) -> Result<(), AllocError> {
    found.push(Warning {
        line,
        cause,
        about: None,
        detail,
    })?;
    Ok(())
}

fn warn(found: &mut Found<'_>, line: Option<usize>, checks: &[Check]) -> Result<(), AllocError> {
    for check in checks {
        let (cause, holds) = *check;
        if holds {
            push(found, line, cause, None)?;
        }
    }
    Ok(())
}

fn warn_of(
    found: &mut Found<'_>,
    labeled: &LabeledLine<'_>,
    checks: &[Check],
) -> Result<(), AllocError> {
    warn(found, Some(labeled.number), checks)
}

fn warn_at(
    found: &mut Found<'_>,
    cause: Cause,
    detail: Option<Detail>,
    numbers: &[usize],
) -> Result<(), AllocError> {
    for number in numbers {
        push(found, Some(*number), cause, detail)?;
    }
    Ok(())
}

/// Rules are only checked if `is_in_scope` is true.
fn warn_of_value(
    alloc: Global,
    found: &mut Found<'_>,
    is_in_scope: bool,
    labeled: &LabeledLine<'_>,
) -> Result<(), AllocError> {
    match labeled.line {
        Line::UserAgent(value) => warn_of(found, labeled, &user_agent_checks(value)),
        Line::Allow(value) | Line::Disallow(value) if is_in_scope && !is_plain(value) => {
            warn_of(found, labeled, &rule_checks(value))
        }
        Line::CrawlDelay(Some(micros)) => {
            warn_of(found, labeled, &[(Cause::DelayOverADay, micros > DAY)])
        }
        Line::Sitemap(value) => warn_of(found, labeled, &sitemap_checks(alloc, value)?),
        Line::Raw(body) if !is_blank(body) => {
            warn_of(found, labeled, &[(meant_by(alloc, body)?, true)])
        }
        _ => Ok(()),
    }
}

/// What a directive has besides its value: its tail and its comment.
fn warn_of_content(
    found: &mut Found<'_>,
    is_in_scope: bool,
    labeled: &LabeledLine<'_>,
    tail: &[u8],
    comment: &[u8],
) -> Result<(), AllocError> {
    if let Line::Raw(_) = labeled.line {
        return Ok(());
    }
    let lacks_colon = is_without_colon(labeled.body);
    warn_of(found, labeled, &field_checks(labeled.body, lacks_colon))?;
    match labeled.line {
        _ if lacks_colon => Ok(()),
        Line::UserAgent(value) => {
            let is_odd = has_odd_space(value, tail);
            warn_of(found, labeled, &[(Cause::SpaceAroundValue, is_odd)])
        }
        Line::Sitemap(value) => {
            let checks = [
                (Cause::SpaceAroundValue, has_odd_space(value, tail)),
                (Cause::HashCutsSitemap, is_cut(value, tail, comment)),
            ];
            warn_of(found, labeled, &checks)
        }
        Line::Allow(value) | Line::Disallow(value) => {
            warn_of(
                found,
                labeled,
                &raw_rule_checks(is_in_scope, value, tail, comment),
            )
        }
        Line::CrawlDelay(_) => {
            warn_of(
                found,
                labeled,
                &[(Cause::DelayNotation, has_odd_delay(tail))],
            )
        }
        Line::Raw(_) => Ok(()),
    }
}

/// The size limit cuts the line if `is_cut` is true.
fn warn_of_line(
    alloc: Global,
    found: &mut Found<'_>,
    is_cut: bool,
    all_groups: bool,
    labeled: &LabeledLine<'_>,
) -> Result<(), AllocError> {
    if is_cut {
        return warn_of(found, labeled, &[(Cause::CutLine, true)]);
    }
    let is_in_scope = is_in_scope_of(all_groups, labeled.membership);
    let (tail, comment) = split_content(labeled.body);
    warn_of_content(found, is_in_scope, labeled, tail, comment)?;
    warn_of_value(alloc, found, is_in_scope, labeled)?;
    warn_of(found, labeled, &text_checks(tail, comment))
}

fn warn_of_lines(
    alloc: Global,
    found: &mut Found<'_>,
    all_groups: bool,
    read: &FileRead<'_>,
) -> Result<(), AllocError> {
    let cuts_last = read.facts.has_cut_line;
    for (index, labeled) in read.labels.iter().enumerate() {
        let is_cut = cuts_last && index + 1 == read.labels.len();
        warn_of_line(alloc, found, is_cut, all_groups, labeled)?;
    }
    Ok(())
}

fn warn_of_positions(found: &mut Found<'_>, known: &Known<'_, '_>) -> Result<(), AllocError> {
    let labels = known.read.labels.as_slice();
    let repeated_delay = if known.read.facts.is_too_large {
        Cause::RepeatedDelayPastLimit
    } else {
        Cause::RepeatedDelay
    };
    let last = last_group(labels);
    let mut preceding = Preceding::Other;
    let mut above = None;
    for (index, labeled) in labels.iter().enumerate() {
        let checks = position_checks(last, preceding, above, labeled, &labels[index..]);
        warn_of(found, labeled, &checks)?;
        let is_other_delay = has_number(&known.delays, labeled.number);
        warn_of(found, labeled, &[(repeated_delay, is_other_delay)])?;
        above = sole_name(preceding, above, labeled.line);
        preceding = preceding_with(preceding, labeled.line);
    }
    Ok(())
}

fn warn_of_spelling(
    alloc: Global,
    found: &mut Found<'_>,
    spelling: Spelling,
    known: &Known<'_, '_>,
) -> Result<(), AllocError> {
    let cause = match spelling {
        Spelling::Standard => Cause::NonstandardEscape,
        Spelling::Plain => Cause::EscapedDelimiter,
    };
    let numbers = unpaired(alloc, spelling, known.all_groups, &known.read.labels)?;
    warn_at(found, cause, None, &numbers)
}

fn warn_of_sitemaps(
    alloc: Global,
    found: &mut Found<'_>,
    read: &FileRead<'_>,
) -> Result<(), AllocError> {
    let cause = if read.facts.is_too_large {
        Cause::RepeatedSitemapPastLimit
    } else {
        Cause::RepeatedSitemap
    };
    let lines = listings(alloc, &read.labels)?;
    for labeled in &read.labels {
        if let Some(first) = line_before(&lines, labeled) {
            push(
                found,
                Some(labeled.number),
                cause,
                Some(Detail::Line(first)),
            )?;
        }
    }
    Ok(())
}

/// About the file as a whole.
pub(crate) fn file_candidates<'a>(
    alloc: Global,
    read: &FileRead<'_>,
) -> Result<Found<'a>, AllocError> {
    let mut found = Vec::new(alloc);
    warn(&mut found, None, &file_checks(read.facts))?;
    Ok(found)
}

/// About each line by itself, its position, its spelling, and an Allow that contradicts it.
pub(crate) fn line_candidates<'a>(
    alloc: Global,
    known: &Known<'_, 'a>,
) -> Result<Found<'a>, AllocError> {
    let mut found = Vec::new(alloc);
    let is_suppressed = suppresses_line_warnings(known.read.facts);
    if !is_suppressed {
        warn_of_lines(alloc, &mut found, known.all_groups, known.read)?;
    }
    warn_of_positions(&mut found, known)?;
    if !is_suppressed {
        warn_at(
            &mut found,
            Cause::GroupPastSizeLimit,
            None,
            &known.past_limit,
        )?;
    }
    warn_of_spelling(alloc, &mut found, Spelling::Standard, known)?;
    warn_of_spelling(alloc, &mut found, Spelling::Plain, known)?;
    for (number, allow) in &known.rules.conflicts {
        let allow = Some(Detail::Line(*allow));
        push(
            &mut found,
            Some(*number),
            Cause::AllowedAndDisallowed,
            allow,
        )?;
    }
    Ok(found)
}

/// About groups, sitemaps, and crawlers.
pub(crate) fn group_candidates<'a>(
    alloc: Global,
    known: &Known<'_, 'a>,
) -> Result<Found<'a>, AllocError> {
    let mut found = Vec::new(alloc);
    let (read, agents) = (known.read, known.agents);
    let replaced = Some(Detail::Rules(known.star_count));
    warn_at(
        &mut found,
        Cause::GroupWithoutStarRules,
        replaced,
        &known.replacing,
    )?;
    let repeated = if read.facts.is_too_large {
        Cause::RepeatedPastLimit
    } else {
        Cause::RepeatedRule
    };
    warn_at(&mut found, repeated, None, &known.repeated)?;
    warn_of_sitemaps(alloc, &mut found, read)?;
    warn_of_all_names(alloc, &mut found, &read.site, agents, &read.labels)?;
    warn_of_vendors(&mut found, known.all_groups, &read.site, agents, crawlers())?;
    Ok(found)
}
