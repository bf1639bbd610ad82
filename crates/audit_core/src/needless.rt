//! Warnings about rules that can be deleted, which `robots_rules` finds.
ghost use Rattle.std.specs.Prelude.{◌≡◌, ◌≢◌, ◌∷◌, [], IfOk, OnOk, false, true};
ghost use Rattle.texting_robots.specs.Callers.{file_lines};
ghost use Rattle.robots_rules.specs.Blocks.{AreFoundIn};
ghost use Rattle.robots_rules.specs.Needless.{AreDeletable, nothing, numbers_of};
ghost use Rattle.audit_core.specs.{Internal.AddsNeedless, Together.is_needless};

use rfc9309::site::StandardSite;
use robots_rules::lines::{Needless, needless_lines, nothing};
use robots_rules::needless::{NeedlessRule, Reason};
use robots_warnings::table::Cause;
use robots_warnings::warning::{Detail, Warning};
use std::alloc::{AllocError, Global};
use texting_robots::Site;

fn cause_of(reason: Reason) -> (Cause, Option<Detail>)
    ensures { is_needless result.0 ≡ true }
{
    match reason {
        Reason::MatchesNothing => (Cause::MatchesNothing, None),
        Reason::AllowedAnyway => (Cause::AllowedAnyway, None),
        Reason::NeverDecides(line) => (Cause::NeverDecides, Some(Detail::Line(line))),
        Reason::NotNeeded(line) => (Cause::NotNeeded, Some(Detail::Line(line))),
    }
}

fn add_rule(found: &mut Vec<Warning<'_>>, rule: NeedlessRule) -> Result<(), AllocError>
    ensures { OnOk result (AddsNeedless (rule.line ∷ []) found.old.items found.new.items) }
{
    let (cause, detail) = cause_of(rule.reason);
    Ok(found.push(Warning {
        line: Some(rule.line),
        cause,
        about: None,
        detail,
    })?)
}

fn add_rules(found: &mut Vec<Warning<'_>>, rules: &[NeedlessRule]) -> Result<(), AllocError>
    ensures { OnOk result (AddsNeedless (numbers_of rules.now) found.old.items found.new.items) }
{
    for rule in rules {
        add_rule(found, *rule)?;
    }
    Ok(())
}

fn add_undecided(found: &mut Vec<Warning<'_>>, lines: &[usize]) -> Result<(), AllocError>
    ensures { OnOk result (AddsNeedless [] found.old.items found.new.items) }
{
    for line in lines {
        found.push(Warning {
            line: Some(*line),
            cause: Cause::NeedlessUndecided,
            about: None,
            detail: None,
        })?;
    }
    Ok(())
}

pub(crate) fn add_needless(
    found: &mut Vec<Warning<'_>>,
    needless: &Needless,
) -> Result<(), AllocError>
    ensures { OnOk result (AddsNeedless (numbers_of needless.now.rules) found.old.items found.new.items) }
{
    add_rules(found, &needless.rules)?;
    add_undecided(found, &needless.undecided)
}

/// The needless rules in both readings of a file. None if they aren't looked for, or if not the whole file is
/// read, since deleting lines would let more of it be read.
pub(crate) fn needless_rules(
    alloc: Global,
    is_requested: bool,
    is_too_large: bool,
    site: &Site,
    standard: &StandardSite,
) -> Result<Needless, AllocError>
    ensures found { IfOk result (λ found. AreFoundIn site.now found.rules) }
    ensures standard { IfOk result (λ found. found.rules ≢ []
        → AreDeletable (numbers_of found.rules) (file_lines standard.now)) }
    ensures unrequested { IfOk result (λ found. is_requested ≡ false → found ≡ nothing) }
    ensures too_large { IfOk result (λ found. is_too_large ≡ true → found ≡ nothing) }
{
    if is_requested && !is_too_large {
        needless_lines(alloc, site, standard.text_site())
    } else {
        Ok(nothing(alloc))
    }
}
