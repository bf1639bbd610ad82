//! What RFC 9309 says of a file for a crawler, and whether that is what this library says.
ghost use Rattle.std.specs.Prelude.{◌≡◌, ◌≢◌, IfOk, codes, true};
ghost use Rattle.texting_robots.specs.Callers.{unplaced};
ghost use Rattle.robots_rules.specs.Same.{HaveSameVerdicts};
ghost use Rattle.audit_core.specs.{Internal.rejected_line, Reach.IsReach};

use crate::audit::{Crawler, Reading};
use crate::group::AtVendor;
use crate::reach::{Reach, reach_for};
use crate::rulings::rejected_line;
use rfc9309::normal::normal_target;
use robots_rules::compare::{Comparison, compare};
use robots_rules::rule::Rule;
use std::alloc::{AllocError, Global};
use texting_robots::Robot;

/// Whether both readings of a file have the same verdicts for a crawler on all URLs in normal form.
#[derive(Clone, Copy, PartialEq, Eq)]
pub enum Alike {
    Yes,
    /// A URL has another verdict, and this line decides about it; or one of the readings rejects the file
    /// because of it.
    No(usize),
    /// That wasn't decided.
    Unknown,
}

/// What RFC 9309 says of a file for a crawler.
#[derive(Drop)]
pub struct StandardAudit {
    /// The line of the crawler's first rule that is too long in normal form, because of which there is no
    /// verdict.
    pub rejected: Option<usize>,
    pub reach: Reach,
    /// The lines of the Allows, if `reach` is `Listed`.
    pub allows: Vec<usize>,
    /// How many rules there are; those without a value don't count.
    pub rules: usize,
    pub alike: Alike,
}

/// Bounds how long the rules of both readings of a file are compared for one crawler.
const MOST: usize = 100_000;

/// The pattern of a rule without a value in the text that stands for a file.
const NOTHING: &str = "$/";

fn rule_count(rules: &[Rule]) -> usize {
    rules
        .iter()
        .filter(|rule| rule.pattern.as_str() != NOTHING)
        .count()
}

/// What is so if this target has different verdicts: it may be one that isn't in normal form.
fn unlike_on(
    alloc: Global,
    here: &Robot,
    standard: &Robot,
    target: &[u8],
) -> Result<Alike, AllocError>
    ensures { IfOk result (λ alike. alike ≢ Alike.Yes) }
{
    let target = normal_target(alloc, target)?;
    let (one, other) = (
        here.decide_prepared(&target),
        standard.decide_prepared(&target),
    );
    match one.line.or(other.line) {
        Some(line) if one.allowed != other.allowed => Ok(Alike::No(line)),
        _ => Ok(Alike::Unknown),
    }
}

/// Whether the readings are alike, which have different rules.
fn compared(
    alloc: Global,
    here: &Crawler<'_>,
    standard: &Crawler<'_>,
    budget: usize,
) -> Result<Alike, AllocError>
    ensures { IfOk result (λ alike. alike ≡ Alike.Yes
        → HaveSameVerdicts (codes "/") (unplaced here.now.rules.items) (unplaced standard.now.rules.items)) }
{
    let (robot, other) = match (&here.reading, &standard.reading) {
        (Reading::Accepted(robot), Reading::Accepted(other)) => (robot, other),
        (Reading::Rejected(_), Reading::Rejected(_)) => return Ok(Alike::Unknown),
        (Reading::Rejected(line), _) | (_, Reading::Rejected(line)) => return Ok(Alike::No(*line)),
    };
    let mut left = budget.min(MOST);
    match compare(alloc, b"/", &here.rules, &standard.rules, &mut left)? {
        Comparison::Same => Ok(Alike::Yes),
        Comparison::Differ(target) => unlike_on(alloc, robot, other, &target),
        Comparison::Undecided => Ok(Alike::Unknown),
    }
}

/// What RFC 9309 says of the file for the crawler; `own` is what that may fetch here. If `is_same`, both
/// readings are the same.
pub(crate) fn standard_audit(
    alloc: Global,
    here: &Crawler<'_>,
    standard: &Crawler<'_>,
    is_same: bool,
    own: (Reach, &[usize]),
    budget: usize,
) -> Result<StandardAudit, AllocError>
    requires same { is_same ≡ true → standard.now ≡ here.now }
    requires own { IsReach here.now.rules.items own.0 own.1.now }
    ensures rejected { IfOk result (λ audit. audit.rejected ≡ rejected_line standard.now.reading) }
    ensures reach { IfOk result (λ audit. IsReach standard.now.rules.items audit.reach audit.allows.items) }
    ensures alike { IfOk result (λ audit. audit.alike ≡ Alike.Yes
        → HaveSameVerdicts (codes "/") (unplaced here.now.rules.items) (unplaced standard.now.rules.items)) }
{
    let (reach, allows) = if is_same {
        (own.0, own.1.to_vec(alloc)?)
    } else {
        reach_for(alloc, AtVendor::Same, standard, budget)?
    };
    let alike = if is_same {
        Alike::Yes
    } else {
        compared(alloc, here, standard, budget)?
    };
    Ok(StandardAudit {
        rejected: rejected_line(&standard.reading),
        reach,
        allows,
        rules: rule_count(&standard.rules),
        alike,
    })
}
