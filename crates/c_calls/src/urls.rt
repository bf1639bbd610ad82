//! The verdicts for URLs.
ghost use Rattle.std.specs.Prelude.{◌≡◌, ◌≢◌, ◌<◌, ◌≤◌, ◌==◌, ◌^◌, IfErr, IfOk, IfSome, IsUtf8, count_by};
ghost use Rattle.std.specs.Prelude.{false, length, map, pos};
ghost use Rattle.std.specs.List.{AllZip};
ghost use Rattle.c_calls.specs.File.{GivesRobot, IsRobotOfSomeFile, bytes_read, site_of};
ghost use Rattle.c_calls.specs.Verdicts.{HasVerdict, HasVerdicts, IsVerdictFor, IsVerdictOn, LinesFit};
ghost use Rattle.c_calls.specs.Verdicts.{items_in, lf, number_of};
ghost use Rattle.c_calls.specs.Status.{HasError, IsWhyNoVerdict, IsWhyNoVerdicts, IsWhyNotWithin};
ghost use Rattle.c_calls.specs.Status.{IsWhyUndecided};

use crate::error::Error;
use crate::file::{robot_of, text_of};
use crate::reading::{OpenRobot, target};
use rfc9309::StandardTarget;
use std::alloc::{AllocError, Global};
use texting_robots::view::View;
use texting_robots::{Decision, Robot, TooCostly};

/// The number of the deciding line, negative if the crawler may not fetch the URL, and 0 if no line decides.
fn number_of(decision: Decision) -> i64
    requires { IfSome decision.line (λ line. line < 2 ^ 63) }
    ensures { result ≡ number_of decision.allowed decision.line }
{
    match decision.line {
        Some(line) if decision.allowed => line as i64,
        Some(line) => -(line as i64),
        None => 0,
    }
}

pub(crate) fn number_on(robot: &Robot, target: &str) -> i64
    requires { LinesFit robot.now.rules }
    ensures { IsVerdictOn robot.now.rules target.now result }
{
    number_of(robot.decide_prepared(target))
}

/// The verdict for a URL that is UTF-8.
fn number_for(alloc: Global, robot: &OpenRobot, url: &str) -> Result<i64, AllocError>
    requires { LinesFit robot.now.robot.rules }
    ensures { IfOk result (IsVerdictFor robot.now url.now) }
{
    if robot.by_rfc9309 {
        let target = StandardTarget::new(alloc, url)?;
        return Ok(number_on(&robot.robot, target.as_str()));
    }
    let decision = robot.robot.decide(alloc, url)?;
    Ok(number_of(decision))
}

pub(crate) fn verdict_for(alloc: Global, robot: &OpenRobot, url: &[u8]) -> Result<i64, Error>
    requires { IsRobotOfSomeFile robot.now }
    ensures ok { IfOk result (HasVerdict robot.now url.now) }
    ensures error { IfErr result (IsWhyNoVerdict url.now) }
{
    let url = text_of(url)?;
    match number_for(alloc, robot, url) {
        Ok(number) => Ok(number),
        Err(AllocError) => Err(Error::Memory),
    }
}

/// The verdict for a URL, unless that may take more looks than the budget.
fn verdict_within(alloc: Global, robot: &OpenRobot, url: &[u8], budget: u64) -> Result<i64, Error>
    requires { IsRobotOfSomeFile robot.now }
    ensures ok { IfOk result (HasVerdict robot.now url.now) }
    ensures error { IfErr result (IsWhyNotWithin robot.now url.now budget) }
{
    let target = target(alloc, robot.by_rfc9309, text_of(url)?)?;
    let text = target.as_str();
    match robot
        .robot
        .decision_of_target(text, &mut View::new(text), budget)
    {
        Ok(decision) => Ok(number_of(decision)),
        Err(TooCostly) => Err(Error::TooCostly),
    }
}

/// The parts of a text that LF separates.
pub(crate) fn items_of(alloc: Global, text: &str) -> Result<Vec<&str>, AllocError>
    ensures { IfOk result (λ items. map (λ item. item.now) items.items ≡ items_in text.now) }
{
    text.split('\n').collect(alloc)
}

/// The verdicts for URLs that LF separates.
fn verdicts_for(alloc: Global, robot: &OpenRobot, urls: &str) -> Result<Vec<i64>, AllocError>
    requires { IsRobotOfSomeFile robot.now }
    ensures verdicts { IfOk result (λ numbers. AllZip (IsVerdictFor robot.now) (items_in urls.now) numbers.items) }
    ensures count { IfOk result (λ numbers. length numbers.items ≡ length (items_in urls.now)) }
{
    let urls = items_of(alloc, urls)?;
    let mut numbers = Vec::new(alloc);
    for url in &urls {
        numbers.push(number_for(alloc, robot, url)?)?;
    }
    Ok(numbers)
}

fn count_feeds(text: &[u8]) -> usize
    ensures value { result ≡ count_by (λ byte. byte == lf) text.now }
    ensures within { result ≤ length text.now }
{
    text.iter().filter(|byte| **byte == b'\n').count()
}

pub(crate) fn count_items(text: &str) -> usize
    ensures { result ≡ length (items_in text.now) }
{
    count_feeds(text.as_bytes()) + 1
}

/// The URLs, if they are UTF-8 and their verdicts fit.
fn urls_of<'a>(urls: &'a [u8], capacity: usize) -> Result<&'a str, Error>
    ensures ok { IfOk result (λ text. (text.now ≡ urls.now) × IsUtf8 urls.now × (length (items_in urls.now) ≤ capacity)) }
    ensures error { IfErr result (IsWhyNoVerdicts urls.now capacity) }
{
    let text = text_of(urls)?;
    if capacity < count_items(text) {
        return Err(Error::BufferTooSmall);
    }
    Ok(text)
}

/// The verdicts for URLs that LF separates, by a file for a crawler.
pub fn verdicts_of_file(
    alloc: Global,
    agent: &[u8],
    file: &[u8],
    urls: &[u8],
    capacity: usize,
) -> Result<Vec<i64>, Error>
    ensures ok { IfOk result (λ numbers. GivesRobot agent.now (site_of false file.now) (λ robot.
        HasVerdicts robot urls.now numbers.items)) }
    ensures capacity { IfOk result (λ numbers. length numbers.items ≤ capacity) }
    ensures error { IfErr result (IsWhyUndecided agent.now (bytes_read file.now) urls.now capacity) }
{
    text_of(agent)?;
    let urls = urls_of(urls, capacity)?;
    let robot = robot_of(alloc, agent, file)?;
    let numbers = verdicts_for(alloc, &robot, urls)?;
    Ok(numbers)
}

pub(crate) fn verdicts_of(
    alloc: Global,
    robot: &OpenRobot,
    urls: &[u8],
    capacity: usize,
) -> Result<Vec<i64>, Error>
    requires { IsRobotOfSomeFile robot.now }
    ensures ok { IfOk result (λ numbers. HasVerdicts robot.now urls.now numbers.items) }
    ensures capacity { IfOk result (λ numbers. length numbers.items ≤ capacity) }
    ensures error { IfErr result (IsWhyNoVerdicts urls.now capacity) }
{
    let urls = urls_of(urls, capacity)?;
    let numbers = verdicts_for(alloc, robot, urls)?;
    Ok(numbers)
}

/// Writes the verdict for a URL, and returns the status.
pub fn write_verdict(alloc: Global, robot: &OpenRobot, url: &[u8], out: &mut i64) -> i32
    requires { IsRobotOfSomeFile robot.now }
    ensures written { result ≡ pos 0 → HasVerdict robot.now url.now out.new }
    ensures kept { result ≢ pos 0 → out.new ≡ out.old }
    ensures why { HasError (IsWhyNoVerdict url.now) result }
{
    match verdict_for(alloc, robot, url) {
        Ok(number) => {
            *out = number;
            0
        }
        Err(error) => error.status(),
    }
}

/// Writes what [`write_verdict`] does, unless that may take more looks than the budget.
pub fn write_verdict_within(
    alloc: Global,
    robot: &OpenRobot,
    url: &[u8],
    budget: u64,
    out: &mut i64,
) -> i32
    requires { IsRobotOfSomeFile robot.now }
    ensures written { result ≡ pos 0 → HasVerdict robot.now url.now out.new }
    ensures kept { result ≢ pos 0 → out.new ≡ out.old }
    ensures why { HasError (IsWhyNotWithin robot.now url.now budget) result }
{
    match verdict_within(alloc, robot, url, budget) {
        Ok(number) => {
            *out = number;
            0
        }
        Err(error) => error.status(),
    }
}
