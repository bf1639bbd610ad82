//! One verdict by one file, for one crawler. The contract is the main theorem.
ghost use Rattle.std.specs.Prelude.{◌≡◌, IfErr, IsOk, List, take};
ghost use Rattle.texting_robots.specs.{MainTheorem.IsAnswerOf, Robot.file_limit};
ghost use Rattle.texting_robots.specs.Rules.{AreRulesFor, HasNoRulesOrSitemaps, PlacedRule};
ghost use Rattle.texting_robots.specs.Line.{AreFileLinesOf, HasLines, LineValue};

use crate::error::Error;
use crate::robot::Robot;
use crate::view::View;
use std::alloc::Global;

/// Whether the crawler with the product token `agent` may fetch the URL whose match target is the text of the
/// view, according to the first [`FILE_LIMIT`](crate::robot::FILE_LIMIT) bytes of the file `txt`.
///
/// It is [`Robot::new`], with its errors, and [`Robot::allowed_view`] in one call. To query a file more than
/// once, keep the robot.
pub fn allowed_in_file(
    alloc: Global,
    agent: &str,
    txt: &[u8],
    view: &mut View<'_>,
) -> Result<bool, Error>
    ensures answer { (lines : List LineValue) (rules : List PlacedRule) → AreFileLinesOf lines (take file_limit txt.now)
        → AreRulesFor agent.now lines rules → IsAnswerOf agent.now lines rules view.old view.new result }
    ensures untouched { IfErr result (λ _. view.new ≡ view.old) }
    ensures without_memory { HasLines (take file_limit txt.now) (HasNoRulesOrSitemaps agent.now) → IsOk result }
{
    let robot = Robot::new(alloc, agent, txt)?;
    Ok(robot.allowed_view(view))
}
