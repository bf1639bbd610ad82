//! Callers of the library `texting_robots`: a polite crawler, a link checker, a site audit, a cache
//! of robots, and a single query of a file. The contract of each follows from those of the crates
//! that it uses. The program decides by a robots.txt file whether a crawler may fetch URLs:
//! `robots_examples AGENT FILE URL..`
//!
//! Proving a caller (`single_query` needs no proof file):
//! - In a proof, `c.in_ok-robot.ensures.robot` is the clause of `Robot::new` with `IsRobotOfFile`. `?` passes
//!   `IsMemoryErrorOr` on if the caller's error is the library's `Error`.
//! - A theorem is called like a function. Pass the lists that `laws::each_file_has_its_lines` and
//!   `laws::each_agent_has_its_rules` return to the main theorem (`in_file.rt` of the library);
//!   `proofs/MainTheoremLemmas.antt` is for computed lists.
//! - The invariant of a loop over URLs: if the property holds for the remaining URLs, then with the results so far for
//!   all (`proofs/crawler/allowed_of`).
//! - `LooksAtMost` bounds `seen()` from `View::new` on (`proofs/link_check/count_denied`), and `cost_of` is what a query
//!   costs at most. A `Site` is the list of bytes that it read, and an iterator the list of what it still yields.
#![tactic(auto)]

pub mod audit;
pub mod cache;
pub mod crawler;
pub mod link_check;
pub mod single_query;
#[cfg(test)]
mod tests;

use std::alloc::AllocError;
use std::io::ErrorKind;
use std::{env, fs, io};
use texting_robots::{Error, Robot};

/// Prints `allow` or `deny`, and the URL. A string that is neither a URL nor a path is matched too;
/// as usually no rule matches it, it is allowed.
fn print_verdict(rt: &HostRuntime, robot: &Robot, url: &str) -> io::Result<()> {
    match robot.decide(rt.alloc(), url) {
        Ok(decision) if decision.allowed => println!(rt; "allow {url}"),
        Ok(_) => println!(rt; "deny {url}"),
        Err(AllocError) => Err(io::Error::from(ErrorKind::OutOfMemory)),
    }
}

/// Prints the message. The program then ends with an error status.
fn failed(rt: &HostRuntime, message: &str) -> io::Result<()> {
    rt.eprintln(message)?;
    Err(io::Error::from(ErrorKind::InvalidInput))
}

fn main(rt: HostRuntime) -> io::Result<()> {
    let mut words = env::args(&rt)?;
    let _ = words.next();
    let (Some(agent), Some(path)) = (words.next(), words.next()) else {
        return failed(&rt, "usage: robots_examples AGENT FILE URL..");
    };
    let file = fs::read(&rt, path.as_str())?;
    let robot = match Robot::new(rt.alloc(), &agent, &file) {
        Ok(robot) => robot,
        Err(Error::Memory) => return Err(io::Error::from(ErrorKind::OutOfMemory)),
        Err(_) => return failed(&rt, "robots_examples: a rule of the file is too long"),
    };
    for url in words {
        print_verdict(&rt, &robot, &url)?;
    }
    Ok(())
}
