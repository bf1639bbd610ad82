//! The verdicts of many crawlers for many URLs.
ghost use Rattle.std.specs.Prelude.{◌≡◌, ◌≢◌, ◌<◌, ◌≤◌, ◌*◌, IfErr, IfOk, IfSome, IsUtf8, MatchBool, codes};
ghost use Rattle.std.specs.Prelude.{is_some, length, map, pos, string_bytes};
ghost use Rattle.std.specs.List.{AllZip};
ghost use Rattle.c_calls.specs.File.{HasFewLines, IsSiteOfSomeFile, read_text, target_in};
ghost use Rattle.c_calls.specs.{Status.HasError, Status.IsWhyNoMatrix, Verdicts.IsRow};
ghost use Rattle.c_calls.specs.Verdicts.{ArePutIn, AreRows, HasMatrix, IsVerdictOn, LinesFit, items_in};

use crate::error::Error;
use crate::file::text_of;
use crate::reading::{OpenSite, target};
use crate::urls::{count_items, items_of, number_on};
use std::alloc::{AllocError, Global};
use texting_robots::{Robot, RobotError, Site};

/// The number in the row of a crawler for which the file is rejected.
pub const NO_VERDICT: i64 = i64::MIN;

fn targets_of(alloc: Global, by_rfc9309: bool, urls: &str) -> Result<Vec<String>, AllocError>
    ensures { IfOk result (λ targets.
        map string_bytes targets.items ≡ map (target_in by_rfc9309) (items_in urls.now)) }
{
    let urls = items_of(alloc, urls)?;
    let mut targets = Vec::new(alloc);
    for url in &urls {
        targets.push(target(alloc, by_rfc9309, url)?)?;
    }
    Ok(targets)
}

/// A robot's verdict for each match target.
fn verdicts_on(alloc: Global, robot: &Robot, targets: &[String]) -> Result<Vec<i64>, AllocError>
    requires { LinesFit robot.now.rules }
    ensures { IfOk result (λ row.
        AllZip (IsVerdictOn robot.now.rules) (map string_bytes targets.now) row.items) }
{
    let mut row = Vec::new(alloc);
    for target in targets {
        row.push(number_on(robot, target))?;
    }
    Ok(row)
}

/// The crawler's verdicts, or `NO_VERDICT` for each target if the file is rejected for it.
fn row_of(
    alloc: Global,
    site: &Site,
    agent: &str,
    targets: &[String],
) -> Result<Vec<i64>, AllocError>
    requires { HasFewLines site.now }
    ensures { IfOk result (λ row. IsRow site.now (map string_bytes targets.now) agent.now row.items) }
{
    match site.robot_without_sitemaps(alloc, agent) {
        Ok(robot) => {
            let row = verdicts_on(alloc, &robot, targets)?;
            Ok(row)
        }
        Err(RobotError::Overlong(_)) => vec![in alloc; NO_VERDICT; targets.len()],
        Err(RobotError::Memory) => Err(AllocError),
    }
}

/// All crawlers that the file doesn't name share the row of `*`: `shared`, or else a new one.
fn shared_row(
    alloc: Global,
    site: &Site,
    targets: &[String],
    shared: Option<Vec<i64>>,
) -> Result<Vec<i64>, AllocError>
    requires site { HasFewLines site.now }
    requires shared { IfSome shared (λ row. IsRow site.now (map string_bytes targets.now) (codes "*") row.items) }
    ensures { IfOk result (λ row. IsRow site.now (map string_bytes targets.now) (codes "*") row.items) }
{
    match shared {
        Some(row) => Ok(row),
        None => row_of(alloc, site, "*", targets),
    }
}

/// The rows of the crawlers in a string, one after another.
fn rows_of(
    alloc: Global,
    site: &Site,
    agents: &str,
    targets: &[String],
) -> Result<Vec<i64>, AllocError>
    requires { HasFewLines site.now }
    ensures { IfOk result (λ numbers. AreRows site.now (map string_bytes targets.now) (items_in agents.now) numbers.items) }
{
    let agents = items_of(alloc, agents)?;
    let mut numbers = Vec::new(alloc);
    let mut shared = None;
    for agent in &agents {
        if site.is_named(agent) {
            let row = row_of(alloc, site, agent, targets)?;
            numbers.extend_from_slice(&row)?;
            continue;
        }
        let row = shared_row(alloc, site, targets, shared)?;
        numbers.extend_from_slice(&row)?;
        shared = Some(row);
    }
    Ok(numbers)
}

/// The rows of the crawlers for the URLs, both separated by LF.
fn matrix(alloc: Global, site: &OpenSite, agents: &str, urls: &str) -> Result<Vec<i64>, AllocError>
    requires { IsSiteOfSomeFile site.now }
    ensures rows { IfOk result (λ numbers. AreRows (read_text site.now)
        (map (target_in (is_some site.now.text)) (items_in urls.now)) (items_in agents.now) numbers.items) }
    ensures count { IfOk result (λ numbers. length numbers.items ≡ length (items_in agents.now) * length (items_in urls.now)) }
{
    let targets = targets_of(alloc, site.text.is_some(), urls)?;
    let numbers = rows_of(alloc, site.read_site(), agents, &targets)?;
    Ok(numbers)
}

fn fits(agents: &str, urls: &str, capacity: usize) -> bool
    ensures { MatchBool result (length (items_in agents.now) * length (items_in urls.now) ≤ capacity)
        (capacity < length (items_in agents.now) * length (items_in urls.now)) }
{
    match count_items(agents).checked_mul(count_items(urls)) {
        Some(count) => count <= capacity,
        None => false,
    }
}

/// Crawlers and URLs as strings, if they are UTF-8 and their verdicts fit.
fn texts_of<'a>(
    agents: &'a [u8],
    urls: &'a [u8],
    capacity: usize,
) -> Result<(&'a str, &'a str), Error>
    ensures texts { IfOk result (λ texts. (texts.0.now ≡ agents.now) × (texts.1.now ≡ urls.now)) }
    ensures utf8 { IfOk result (λ _. IsUtf8 agents.now × IsUtf8 urls.now) }
    ensures capacity { IfOk result (λ _. length (items_in agents.now) * length (items_in urls.now) ≤ capacity) }
    ensures error { IfErr result (IsWhyNoMatrix agents.now urls.now capacity) }
{
    let agents = text_of(agents)?;
    let urls = text_of(urls)?;
    if !fits(agents, urls, capacity) {
        return Err(Error::BufferTooSmall);
    }
    Ok((agents, urls))
}

/// The verdicts that [`matrix_by`] writes, or the first error.
fn matrix_in(
    alloc: Global,
    site: &OpenSite,
    agents: &[u8],
    urls: &[u8],
    capacity: usize,
) -> Result<Vec<i64>, Error>
    requires { IsSiteOfSomeFile site.now }
    ensures ok { IfOk result (λ numbers. HasMatrix site.now agents.now urls.now numbers.items) }
    ensures capacity { IfOk result (λ numbers. length numbers.items ≤ capacity) }
    ensures error { IfErr result (IsWhyNoMatrix agents.now urls.now capacity) }
{
    let (agents, urls) = texts_of(agents, urls, capacity)?;
    let numbers = matrix(alloc, site, agents, urls)?;
    Ok(numbers)
}

/// Writes the verdicts of each crawler for each URL, and returns the status.
pub fn matrix_by(alloc: Global, site: &OpenSite, agents: &[u8], urls: &[u8], out: &mut [i64]) -> i32
    requires { IsSiteOfSomeFile site.now }
    ensures written { result ≡ pos 0 → ArePutIn (HasMatrix site.now agents.now urls.now) out.old out.new }
    ensures kept { result ≢ pos 0 → out.new ≡ out.old }
    ensures why { HasError (IsWhyNoMatrix agents.now urls.now (length out.old)) result }
{
    match matrix_in(alloc, site, agents, urls, out.len()) {
        Ok(numbers) => {
            out[..numbers.len()].copy_from_slice(&numbers);
            0
        }
        Err(error) => error.status(),
    }
}
