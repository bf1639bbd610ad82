//! Verdicts on URLs, and how they are printed.
ghost use Rattle.std.specs.Prelude.{◌≡◌, ◌++◌, IfErr, IfOk, OnOk, string_bytes};
ghost use Rattle.texting_robots.specs.{Callers.prepared, Decision.IsDecisionOn};
ghost use Rattle.robots_verdict.specs.Report.{line_text, verdict_front, verdict_word};

use safe_output::lines::push_number;
use std::alloc::{AllocError, Global};
use texting_robots::robot::Decision;
use texting_robots::view::View;
use texting_robots::{Error, Robot};

/// The robot's decision on a URL, by counted byte comparisons, within the bound of
/// [`Robot::decision`]. There is no prefilter, so [`Robot::decide`] is usually faster for a file
/// with many rules.
pub(crate) fn counted_decision_on(
    alloc: Global,
    robot: &Robot,
    url: &str,
) -> Result<Decision, Error>
    ensures ok { IfOk result (IsDecisionOn robot.now.rules (prepared url.now)) }
    ensures memory { IfErr result (λ error. error ≡ Error.Memory) }
{
    let prepared = Robot::prepare_url(alloc, url)?;
    Ok(robot.decision(&mut View::new(&prepared)))
}

/// The word and a space.
fn verdict_word(allowed: bool) -> &'static str
    ensures { result.now ≡ verdict_word allowed }
{
    if allowed { "allow " } else { "deny " }
}

fn push_line_number(text: &mut String, line: Option<usize>) -> Result<(), AllocError>
    ensures added { OnOk result (string_bytes text.new ≡ string_bytes text.old ++ line_text line) }
{
    match line {
        Some(number) => push_number(text, number),
        None => text.push('-'),
    }
}

pub(crate) fn push_decision(text: &mut String, decision: &Decision) -> Result<(), AllocError>
    ensures added { OnOk result (string_bytes text.new ≡ string_bytes text.old
        ++ verdict_front decision.now.allowed decision.now.line) }
{
    text.push_str(verdict_word(decision.allowed))?;
    push_line_number(text, decision.line)?;
    text.push(' ')
}
