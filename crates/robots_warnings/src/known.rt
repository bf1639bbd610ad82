//! What is known of a file for a request, and which warnings are so by it.
ghost use Rattle.std.specs.Prelude.{◌≡◌, ℕ, All, Contains, IfOk, List, OnOk, Option, Some, map, true};
ghost use Rattle.texting_robots.specs.Callers.{label_by_value};
ghost use Rattle.robots_warnings.specs.{Crawlers.IsPastLimit, File.lines_of, Means.IsOfLine, Means.is_so_of};
ghost use Rattle.robots_warnings.specs.{Means.is_style, Message.WarningValue, Read.IsRead};
ghost use Rattle.robots_warnings.specs.Internal.Tells.{IsBeside, IsKnown, IsSo, SaysSo, Tells};

use crate::conflicts::{RuleLines, rule_lines};
use crate::contents::{is_cut_to_root, split_content};
use crate::empty_disallows::empty_disallows;
use crate::names_past_limit::names_past_limit;
use crate::own_rules::own_rules;
use crate::positions::{is_above_agents, later_delays};
use crate::read::FileRead;
use crate::repeated::repeated;
use crate::replaced::{disallow_count, replacing};
use crate::rules::{begins_oddly, has_dollar_inside};
use crate::table::Cause;
use crate::warning::{Detail, Found, Warning};
use safe_output::bytes::is_utf8;
use std::alloc::{AllocError, Global};
use texting_robots::labels::LabeledLine;
use texting_robots::parser::Line;

/// A file that was read, a request, and what was found in the file. The lists of numbers of lines ascend.
#[derive(Drop)]
pub(crate) struct Known<'k, 'a> {
    /// False for a report on a single crawler.
    pub(crate) all_groups: bool,
    /// The crawlers reported on.
    pub(crate) agents: &'k [&'a str],
    pub(crate) read: &'k FileRead<'k>,
    /// Lines past the size limit that name new crawlers.
    pub(crate) past_limit: Vec<usize>,
    /// Delays that differ from the first one of their group.
    pub(crate) delays: Vec<usize>,
    /// Groups that have fewer Disallows than that of `*`, and how many that has.
    pub(crate) replacing: Vec<usize>,
    pub(crate) star_count: usize,
    /// Rules that repeat one above them.
    pub(crate) repeated: Vec<usize>,
    pub(crate) rules: RuleLines,
}

fn past_limit(alloc: Global, read: &FileRead<'_>) -> Result<Vec<usize>, AllocError>
    ensures { IfOk result (λ found. All (IsPastLimit (lines_of (map label_by_value read.now.labels.items))
        read.now.bytes.now) found.items) }
{
    if !read.facts.is_too_large {
        return Ok(Vec::new(alloc));
    }
    names_past_limit(alloc, read.bytes, &read.labels)
}

pub(crate) fn known_of<'k, 'a>(
    alloc: Global,
    all_groups: bool,
    agents: &'k [&'a str],
    read: &'k FileRead<'k>,
) -> Result<Known<'k, 'a>, AllocError>
    requires { IsRead read.now }
    ensures known { IfOk result IsKnown }
    ensures agents { IfOk result (λ known. known.agents.now ≡ agents.now) }
    ensures read { IfOk result (λ known. known.read.now ≡ read.now) }
{
    let star = own_rules(alloc, &read.site, "*")?;
    let empty = empty_disallows(alloc, &read.labels)?;
    Ok(Known {
        all_groups,
        agents,
        read,
        past_limit: past_limit(alloc, read)?,
        delays: later_delays(alloc, &read.labels)?,
        replacing: replacing(alloc, &read.site, &star, agents, &read.labels)?,
        star_count: disallow_count(&star),
        repeated: repeated(alloc, all_groups, &read.labels)?,
        rules: rule_lines(alloc, &read.site, agents, &empty)?,
    })
}

pub(crate) fn has_number(numbers: &[usize], number: usize) -> bool
    ensures { result ≡ true → Contains numbers.now number }
{
    numbers.binary_search(&number).is_ok()
}

fn is_style(cause: Cause) -> bool
    ensures { result ≡ is_style cause }
{
    match cause {
        Cause::HashLeavesRoot
        | Cause::RuleNotUtf8
        | Cause::EqualsInRule
        | Cause::MissingSlash
        | Cause::UrlAsRule
        | Cause::RegexWithoutSlash
        | Cause::DollarNotAtEnd
        | Cause::RuleBeforeUserAgent
        | Cause::GroupPastSizeLimit
        | Cause::AllowedAndDisallowed
        | Cause::RepeatedDelay
        | Cause::RepeatedDelayPastLimit
        | Cause::GroupWithoutStarRules
        | Cause::RepeatedRule
        | Cause::RepeatedPastLimit
        | Cause::ClosedSite
        | Cause::ClosedSiteToOthers
        | Cause::NeverDecides
        | Cause::MatchesNothing
        | Cause::AllowedAnyway
        | Cause::NotNeeded => false,
        _ => true,
    }
}

/// Whether the cause holds of a line by itself.
fn is_so_of(cause: Cause, labeled: &LabeledLine<'_>) -> bool
    ensures { result ≡ true → is_so_of cause (label_by_value labeled.now) ≡ true }
{
    match labeled.line {
        Line::Allow(value) | Line::Disallow(value) => match cause {
            Cause::HashLeavesRoot => {
                let (tail, comment) = split_content(labeled.body);
                is_cut_to_root(value, tail, comment)
            }
            Cause::RuleNotUtf8 => !is_utf8(value),
            Cause::EqualsInRule
            | Cause::MissingSlash
            | Cause::UrlAsRule
            | Cause::RegexWithoutSlash => begins_oddly(value),
            Cause::DollarNotAtEnd => has_dollar_inside(value),
            Cause::RuleBeforeUserAgent => is_above_agents(labeled),
            _ => false,
        },
        _ => false,
    }
}

fn is_so_at(labels: &[LabeledLine<'_>], cause: Cause, number: usize) -> bool
    ensures { (warning : WarningValue) → warning.line ≡ Some number → warning.cause ≡ cause → result ≡ true
        → IsOfLine (map label_by_value labels.now) warning }
{
    match labels.get(number.saturating_sub(1)) {
        Some(labeled) => labeled.number == number && is_so_of(cause, labeled),
        None => false,
    }
}

/// Whether the detail is the line of an Allow that contradicts the Disallow in this line.
fn is_conflict(lines: &RuleLines, number: usize, detail: Option<Detail>) -> bool
    ensures { result ≡ true → IsBeside lines.now number detail }
{
    match (detail, lines.conflicts.get(&number)) {
        (Some(Detail::Line(line)), Some(other)) => line == *other,
        _ => false,
    }
}

/// Whether a cause that depends on several lines holds of the line with this number.
fn is_found(known: &Known<'_, '_>, cause: Cause, number: usize, detail: Option<Detail>) -> bool
    requires { IsKnown known.now }
    ensures { (about : Option (List ℕ)) → result ≡ true → SaysSo known.now cause number about detail }
{
    let is_too_large = known.read.facts.is_too_large;
    match cause {
        Cause::GroupPastSizeLimit => has_number(&known.past_limit, number),
        Cause::AllowedAndDisallowed => is_conflict(&known.rules, number, detail),
        Cause::RepeatedDelay => !is_too_large && has_number(&known.delays, number),
        Cause::RepeatedDelayPastLimit => has_number(&known.delays, number),
        Cause::RepeatedRule => !is_too_large && has_number(&known.repeated, number),
        Cause::RepeatedPastLimit => has_number(&known.repeated, number),
        Cause::GroupWithoutStarRules => match detail {
            Some(Detail::Rules(count)) => {
                count == known.star_count && has_number(&known.replacing, number)
            }
            _ => false,
        },
        _ => false,
    }
}

fn is_so(known: &Known<'_, '_>, warning: &Warning<'_>) -> bool
    requires { IsKnown known.now }
    ensures { result ≡ true → IsSo known.now warning.now }
{
    if is_style(warning.cause) {
        return true;
    }
    match warning.line {
        Some(number) => {
            is_so_at(&known.read.labels, warning.cause, number)
                || is_found(known, warning.cause, number, warning.detail)
        }
        None => false,
    }
}

/// Adds the candidates that are about style or so.
pub(crate) fn keep<'a>(
    found: &mut Found<'a>,
    candidates: &[Warning<'a>],
    known: &Known<'_, 'a>,
) -> Result<(), AllocError>
    requires { IsKnown known.now }
    ensures { OnOk result (Tells (IsSo known.now) found.old.items found.new.items) }
{
    for candidate in candidates {
        if !is_so(known, candidate) {
            continue;
        }
        found.push(candidate.copy())?;
    }
    Ok(())
}
