//! URLs and paths of a request, a list or an expectation, as crawlers ask for them.
ghost use Rattle.std.specs.Prelude.{◌≡◌, IfErr, IfOk, string_bytes};
ghost use Rattle.texting_robots.specs.Decision.{IsDecisionOn};
ghost use Rattle.rfc9309.specs.{Matching.all_stay, Matching.normal_uri, StandardTarget.written_target};
ghost use Rattle.audit_core.specs.Target.{asked_target};

use crate::error::Error;
use rfc9309::target::StandardTarget;
use robots_warnings::targets;
use std::alloc::{AllocError, Global};
use texting_robots::Robot;
use texting_robots::robot::Decision;

/// The match target of a URL or a path, as crawlers ask for it: that of an http(s) URL has no fragment. The
/// error is `Error::Memory`, also if the URL is too long for `url`.
pub fn asked_target(alloc: Global, text: &str) -> Result<String, Error>
    ensures ok { IfOk result (λ target. string_bytes target ≡ asked_target text.now) }
    ensures error { IfErr result (λ error. error ≡ Error.Memory) }
{
    Ok(targets::asked_target(alloc, text)?)
}

pub fn decision_on(alloc: Global, robot: &Robot, url: &str) -> Result<Decision, Error>
    ensures ok { IfOk result (IsDecisionOn robot.now.rules (asked_target url.now)) }
    ensures error { IfErr result (λ error. error ≡ Error.Memory) }
{
    let target = asked_target(alloc, url)?;
    Ok(robot.decide_prepared(&target))
}

/// The decision on the URL as RFC 9309 compares it.
pub fn standard_decision_on(alloc: Global, robot: &Robot, url: &str) -> Result<Decision, AllocError>
    ensures { IfOk result
        (IsDecisionOn robot.now.rules (normal_uri all_stay (written_target url.now))) }
{
    let target = StandardTarget::new(alloc, url)?;
    Ok(robot.decide_prepared(target.as_str()))
}
