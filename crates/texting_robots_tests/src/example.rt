//! An example: what a crawler does before it fetches a page.
use std::alloc::Global;
use texting_robots::{Error, Robot};

#[derive(Debug, Drop)]
pub(crate) enum Plan {
    /// Fetch the URL, after this many microseconds.
    Fetch(u64),
    /// Don't fetch the URL, as the file denies it.
    Leave,
    /// The file is rejected: a rule for this crawler is too long.
    Unusable,
}

/// What the crawler `FerrisBot` does about a page of the site with this file.
pub(crate) fn visit(alloc: Global, file: &[u8], page: &str) -> Result<Plan, Error> {
    let robot = match Robot::new(alloc, "FerrisBot", file) {
        Ok(robot) => robot,
        Err(Error::Memory) => return Err(Error::Memory),
        Err(_) => return Ok(Plan::Unusable),
    };
    if !robot.allowed(alloc, page)? {
        return Ok(Plan::Leave);
    }
    // a file can demand any delay, so it is capped at a minute; without one, a second suffices
    let delay = robot.delay.unwrap_or(1_000_000).min(60_000_000);
    Ok(Plan::Fetch(delay))
}
