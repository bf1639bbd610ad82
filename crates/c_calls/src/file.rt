//! What a file means for a crawler, and bytes as strings.
ghost use Rattle.std.specs.Prelude.{◌≡◌, ◌*◌, IfErr, IfOk, IsUtf8, false};
ghost use Rattle.c_calls.specs.{File.IsRobotFor, File.bytes_read, File.site_of, Status.IsWhyNoRobot};
ghost use Rattle.texting_robots.specs.Callers.{IsRobotWithoutSitemaps};

use crate::error::Error;
use crate::reading::OpenRobot;
use std::alloc::Global;
use texting_robots::{Error as LibraryError, Robot, Site};

pub(crate) fn text_of<'a>(bytes: &'a [u8]) -> Result<&'a str, Error>
    ensures ok { IfOk result (λ text. (text.now ≡ bytes.now) × IsUtf8 bytes.now) }
    ensures error { IfErr result (λ error. (error ≡ Error.NotUtf8) × ¬ IsUtf8 bytes.now) }
{
    match std::str::from_utf8(bytes) {
        Ok(text) => Ok(text),
        Err(_) => Err(Error::NotUtf8),
    }
}

/// The crawler's robot in the default reading, without sitemaps.
pub(crate) fn robot_of(alloc: Global, agent: &[u8], file: &[u8]) -> Result<OpenRobot, Error>
    ensures ok { IfOk result (IsRobotFor agent.now (site_of false file.now)) }
    ensures error { IfErr result (IsWhyNoRobot agent.now (bytes_read file.now)) }
{
    let robot = library_robot(alloc, agent, file)?;
    Ok(OpenRobot {
        delay: robot.delay,
        robot,
        by_rfc9309: false,
    })
}

fn library_robot(alloc: Global, agent: &[u8], file: &[u8]) -> Result<Robot, Error>
    ensures ok { IfOk result (λ robot.
        IsUtf8 agent.now × IsRobotWithoutSitemaps agent.now (bytes_read file.now) robot) }
    ensures error { IfErr result (IsWhyNoRobot agent.now (bytes_read file.now)) }
{
    let agent = text_of(agent)?;
    match Robot::new(alloc, agent, file) {
        Ok(mut robot) => {
            robot.sitemaps = Vec::new(alloc);
            Ok(robot)
        }
        // a site also tells the line of the rule that is too long
        Err(LibraryError::InvalidRule) => {
            let site = Site::new(alloc, file)?;
            Ok(site.robot_without_sitemaps(alloc, agent)?)
        }
        Err(LibraryError::Memory | LibraryError::InvalidRobots) => Err(Error::Memory),
    }
}
