//! A single query of one file.
ghost use Rattle.std.specs.Prelude.{IfErr, IfOk, take};
ghost use Rattle.texting_robots.specs.Callers.{IsFileRejected, IsMemoryErrorOr, IsRobotOfFile, IsVerdict};
ghost use Rattle.texting_robots.specs.Callers.{RobotValue, file_limit, prepared, unplaced};

use std::alloc::Global;
use texting_robots::{Error, Robot};

/// Whether the crawler with the product token `agent` may fetch a URL of the site with this robots.txt file.
pub fn may_fetch(alloc: Global, agent: &str, file: &[u8], url: &str) -> Result<bool, Error>
    ensures verdict { IfOk result (λ answer. (robot : RobotValue)
        × IsRobotOfFile agent.now (take file_limit file.now) robot
        × IsVerdict (unplaced robot.rules) (prepared url.now) answer) }
    ensures rejected { IfErr result (IsMemoryErrorOr (IsFileRejected agent.now (take file_limit file.now))) }
{
    let robot = Robot::new(alloc, agent, file)?;
    Ok(robot.allowed(alloc, url)?)
}
