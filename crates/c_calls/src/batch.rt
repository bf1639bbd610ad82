//! The verdicts for URLs in one text: each with the place where it ends, or separated by LF.
ghost use Rattle.std.specs.Prelude.{◌≡◌, ◌≢◌, ◌≤◌, IfErr, IfOk, IsUtf8, MatchBool, length, pos};
ghost use Rattle.std.specs.List.{All, AllZip};
ghost use Rattle.c_calls.specs.Batch.{AreVerdicts, Ascend, IsWhyNone, pieces};
ghost use Rattle.c_calls.specs.{File.IsRobotOfSomeFile, Status.HasError};
ghost use Rattle.c_calls.specs.Verdicts.{ArePutIn, HasVerdict};

use crate::error::Error;
use crate::file::text_of;
use crate::reading::OpenRobot;
use crate::urls::{verdict_for, verdicts_of};
use std::alloc::Global;

/// Whether the places don't decrease, and none is after the limit.
fn ascend(ends: &[usize], limit: usize) -> bool
    ensures { MatchBool result (Ascend 0 ends.now limit) (¬ Ascend 0 ends.now limit) }
{
    let mut least = 0;
    for end in ends {
        if *end < least || limit < *end {
            return false;
        }
        least = *end;
    }
    true
}

/// Whether each URL, up to its place in `ends`, is UTF-8.
fn are_utf8(text: &[u8], ends: &[usize]) -> bool
    requires { Ascend 0 ends.now (length text.now) }
    ensures { MatchBool result (All IsUtf8 (pieces text.now 0 ends.now)) (¬ All IsUtf8 (pieces text.now 0 ends.now)) }
{
    let mut start = 0;
    for end in ends {
        match text_of(&text[start..*end]) {
            Ok(_) => start = *end,
            Err(_) => return false,
        }
    }
    true
}

/// The verdict for each URL, up to its place in `ends`.
fn numbers_at(
    alloc: Global,
    robot: &OpenRobot,
    text: &[u8],
    ends: &[usize],
) -> Result<Vec<i64>, Error>
    requires robot { IsRobotOfSomeFile robot.now }
    requires ends { Ascend 0 ends.now (length text.now) }
    requires utf8 { All IsUtf8 (pieces text.now 0 ends.now) }
    ensures ok { IfOk result (λ numbers. AllZip (HasVerdict robot.now) (pieces text.now 0 ends.now) numbers.items) }
    ensures count { IfOk result (λ numbers. length numbers.items ≡ length ends.now) }
    ensures error { IfErr result (λ error. error ≡ Error.Memory) }
{
    let mut numbers = Vec::with_capacity(alloc, ends.len())?;
    let mut start = 0;
    for end in ends {
        let number = verdict_for(alloc, robot, &text[start..*end])?;
        numbers.push(number)?;
        start = *end;
    }
    Ok(numbers)
}

/// The verdicts that [`write_verdicts`] writes, or the first error.
fn verdicts_in(
    alloc: Global,
    robot: &OpenRobot,
    text: &[u8],
    ends: &[usize],
    are_ended: bool,
    capacity: usize,
) -> Result<Vec<i64>, Error>
    requires { IsRobotOfSomeFile robot.now }
    ensures ok { IfOk result (λ numbers.
        AreVerdicts robot.now text.now ends.now are_ended numbers.items) }
    ensures capacity { IfOk result (λ numbers. length numbers.items ≤ capacity) }
    ensures error { IfErr result (IsWhyNone text.now ends.now are_ended capacity) }
{
    if !are_ended {
        return verdicts_of(alloc, robot, text, capacity);
    }
    if !ascend(ends, text.len()) {
        return Err(Error::InvalidEnds);
    }
    if !are_utf8(text, ends) {
        return Err(Error::NotUtf8);
    }
    if capacity < ends.len() {
        return Err(Error::BufferTooSmall);
    }
    let numbers = numbers_at(alloc, robot, text, ends)?;
    Ok(numbers)
}

/// Writes a verdict for each URL. They end at these places if `are_ended`, else LF separates them.
pub fn write_verdicts(
    alloc: Global,
    robot: &OpenRobot,
    text: &[u8],
    ends: &[usize],
    are_ended: bool,
    out: &mut [i64],
) -> i32
    requires { IsRobotOfSomeFile robot.now }
    ensures written { result ≡ pos 0
        → ArePutIn (AreVerdicts robot.now text.now ends.now are_ended) out.old out.new }
    ensures kept { result ≢ pos 0 → out.new ≡ out.old }
    ensures why { HasError (IsWhyNone text.now ends.now are_ended (length out.old)) result }
{
    match verdicts_in(alloc, robot, text, ends, are_ended, out.len()) {
        Ok(numbers) => {
            out[..numbers.len()].copy_from_slice(&numbers);
            0
        }
        Err(error) => error.status(),
    }
}
