//! The verdicts on the URLs of a request, in both readings of a file.
ghost use Rattle.std.specs.Prelude.{◌≡◌, IfErr, IfOk, map, true};
ghost use Rattle.std.specs.List.{AllZip};
ghost use Rattle.audit_core.specs.Audit.{IsRuling, IsVerdictOn};
ghost use Rattle.audit_core.specs.Internal.{rejected_line, rules_by};
ghost use Rattle.audit_core.specs.declared.audit.Reading.TheVariants.{Accepted};

use crate::audit::{Reading, Verdict};
use crate::error::Error;
use crate::target::asked_target;
use rfc9309::target::StandardTarget;
use std::alloc::Global;
use texting_robots::Robot;

pub(crate) fn rejected_line(reading: &Reading) -> Option<usize>
    ensures { result ≡ rejected_line reading.now }
{
    match reading {
        Reading::Accepted(_) => None,
        Reading::Rejected(line) => Some(*line),
    }
}

/// The verdicts on the URL: here on what is asked for, and in the other reading on its normal form. If
/// `is_same`, that is this robot's, too.
fn verdict_on<'a>(
    alloc: Global,
    robot: &Robot,
    standard: &Reading,
    is_same: bool,
    url: &'a str,
) -> Result<Verdict<'a>, Error>
    requires { is_same ≡ true → standard.now ≡ Accepted robot.now }
    ensures ok { IfOk result (IsVerdictOn robot.now.rules (rules_by standard.now) url.now) }
    ensures error { IfErr result (λ error. error ≡ Error.Memory) }
{
    let asked = asked_target(alloc, url)?;
    let target = StandardTarget::new(alloc, url)?;
    let decision = robot.decide_prepared(&asked);
    let standard = match standard {
        Reading::Accepted(_) if is_same && asked.as_str() == target.as_str() => Some(decision),
        Reading::Accepted(other) => Some(other.decide_prepared(target.as_str())),
        Reading::Rejected(_) => None,
    };
    Ok(Verdict {
        url,
        decision,
        standard,
    })
}

fn verdicts_on<'a>(
    alloc: Global,
    robot: &Robot,
    standard: &Reading,
    is_same: bool,
    urls: &[&'a str],
) -> Result<Vec<Verdict<'a>>, Error>
    requires { is_same ≡ true → standard.now ≡ Accepted robot.now }
    ensures ok { IfOk result (λ verdicts. AllZip (IsVerdictOn robot.now.rules (rules_by standard.now))
        (map (λ url. url.now) urls.now) verdicts.items) }
    ensures error { IfErr result (λ error. error ≡ Error.Memory) }
{
    let mut verdicts = Vec::with_capacity(alloc, urls.len())?;
    for url in urls {
        verdicts.push(verdict_on(alloc, robot, standard, is_same, url)?)?;
    }
    Ok(verdicts)
}

/// The verdicts of both readings; none if the one here rejects the file. If `is_same`, the readings are the
/// same.
pub(crate) fn verdicts_by<'a>(
    alloc: Global,
    here: &Reading,
    standard: &Reading,
    is_same: bool,
    urls: &[&'a str],
) -> Result<Vec<Verdict<'a>>, Error>
    requires { is_same ≡ true → standard.now ≡ here.now }
    ensures ok { IfOk result (λ verdicts. IsRuling (map (λ url. url.now) urls.now) (rules_by here.now)
        (rules_by standard.now) verdicts.items) }
    ensures error { IfErr result (λ error. error ≡ Error.Memory) }
{
    match here {
        Reading::Accepted(robot) => verdicts_on(alloc, robot, standard, is_same, urls),
        Reading::Rejected(_) => Ok(Vec::new(alloc)),
    }
}
