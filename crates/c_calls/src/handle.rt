//! A robot that C keeps between calls.
ghost use Rattle.std.specs.Prelude.{◌≡◌, ◌≢◌, ◌<◌, Some, None, IfErr, IfOk, false, pos};
ghost use Rattle.c_calls.specs.File.{GivesRobot, IsRobotFor, bytes_read, site_of};
ghost use Rattle.c_calls.specs.{Number.IsNumber};
ghost use Rattle.c_calls.specs.Status.{HasErrorAt, IsWhyNoRobot, status_of};

use crate::error::Error;
use crate::file::robot_of;
use crate::kept::{Handle, Kept};
use crate::reading::OpenRobot;
use std::alloc::Global;

pub fn close(robot: Handle<OpenRobot>) {
    drop(robot.into_box());
}

/// Compiles only for a type whose values can be sent to other threads and shared between them.
pub(crate) fn for_any_thread<T: Send + Sync>(_: &T) {}

/// A robot for any thread: `robots.h` says what threads of C may do.
fn open(alloc: Global, agent: &[u8], file: &[u8]) -> Result<Box<OpenRobot>, Error>
    ensures ok { IfOk result (λ robot. IsRobotFor agent.now (site_of false file.now) robot.value) }
    ensures error { IfErr result (IsWhyNoRobot agent.now (bytes_read file.now)) }
{
    let robot = Box::new(alloc, robot_of(alloc, agent, file)?)?;
    for_any_thread(&*robot);
    Ok(robot)
}

/// Opens a robot for C. If that fails, the pointer is `at`, and the line of a rule that is too long
/// is written.
pub fn opened(
    alloc: Global,
    agent: &[u8],
    file: &[u8],
    at: *mut OpenRobot,
    line: &mut usize,
) -> Kept<OpenRobot>
    ensures opened { result.status ≡ pos 0
        → GivesRobot agent.now (site_of false file.now) (λ robot. result.value ≡ Some robot) }
    ensures kept { result.status ≢ pos 0 → result.at ≡ at }
    ensures why { HasErrorAt (IsWhyNoRobot agent.now (bytes_read file.now)) result.status line.old line.new }
{
    match open(alloc, agent, file) {
        Ok(robot) => Kept::boxed(0, robot),
        Err(error) => Kept::nothing(error.status_at(line), at),
    }
}

/// Writes a number: for 0 what a verdict within a budget costs at most for a match target of this
/// length, for 1 how many bytes of memory the robot takes, and else its delay in microseconds.
pub fn number(robot: &OpenRobot, which: usize, length: usize, out: &mut u64) -> i32
    ensures written { result ≡ pos 0 → IsNumber robot.now which length out.new }
    ensures kept { result ≢ pos 0 → out.new ≡ out.old }
    ensures no_delay { result ≢ pos 0
        → (1 < which) × (robot.now.delay ≡ None) × (result ≡ status_of Error.NoDelay) }
{
    if which == 0 {
        *out = robot.robot.cost(length);
        return 0;
    }
    if which == 1 {
        *out = robot.bytes() as u64;
        return 0;
    }
    match robot.delay {
        Some(delay) => {
            *out = delay;
            0
        }
        None => Error::NoDelay.status(),
    }
}
