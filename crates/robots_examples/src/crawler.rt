//! A polite crawler's plan for a site.
ghost use Rattle.std.specs.Prelude.{◌≡◌, IfErr, IfOk, map, min, take, unwrap_or};
ghost use Rattle.robots_examples.specs.Crawler.{AreAllowed};
ghost use Rattle.texting_robots.specs.Callers.{IsFileRejected, IsMemoryErrorOr, IsRobotOfFile, RobotValue};
ghost use Rattle.texting_robots.specs.Callers.{file_limit, unplaced};

use std::alloc::Global;
use texting_robots::{Error, Robot};

/// How long a crawler waits between two requests, in microseconds.
#[derive(Clone, Copy, PartialEq, Eq, Debug)]
pub struct DelayPolicy {
    /// The wait if the file has no delay for the crawler.
    pub usual: u64,
    /// The longest wait, whatever the file demands: its delay can be `u64::MAX` microseconds.
    pub longest: u64,
}

/// What a crawler does at a site.
#[derive(Debug, Drop)]
pub struct Plan<'a> {
    /// The URLs that it fetches, in the given order.
    pub urls: Vec<&'a str>,
    /// The time between two requests, in microseconds.
    pub wait: u64,
}

/// The URLs that the robot allows, in order.
fn allowed_of<'a>(alloc: Global, robot: &Robot, urls: &[&'a str]) -> Result<Vec<&'a str>, Error>
    ensures urls { IfOk result (λ allowed. AreAllowed (unplaced robot.now.rules)
        (map (λ url. url.now) urls.now) (map (λ url. url.now) allowed.items)) }
    ensures memory { IfErr result (λ e. e ≡ Error.Memory) }
{
    let mut allowed = Vec::new(alloc);
    for url in urls {
        if robot.allowed(alloc, url)? {
            allowed.push(*url)?;
        }
    }
    Ok(allowed)
}

/// The plan of the crawler with the product token `agent` for these URLs of the site with this robots.txt file.
pub fn plan_for<'a>(
    alloc: Global,
    agent: &str,
    file: &[u8],
    urls: &[&'a str],
    delay_policy: DelayPolicy,
) -> Result<Plan<'a>, Error>
    ensures plan { IfOk result (λ plan. (robot : RobotValue)
        × IsRobotOfFile agent.now (take file_limit file.now) robot
        × AreAllowed (unplaced robot.rules) (map (λ url. url.now) urls.now) (map (λ url. url.now) plan.urls.items)
        × (plan.wait ≡ min (unwrap_or robot.delay delay_policy.usual) delay_policy.longest)) }
    ensures rejected { IfErr result (IsMemoryErrorOr (IsFileRejected agent.now (take file_limit file.now))) }
{
    let robot = Robot::new(alloc, agent, file)?;
    let wait = robot
        .delay
        .unwrap_or(delay_policy.usual)
        .min(delay_policy.longest);
    let urls = allowed_of(alloc, &robot, urls)?;
    Ok(Plan { urls, wait })
}
