//! A site that C keeps between calls: a file that is read once for all crawlers.
ghost use Rattle.std.specs.Prelude.{◌≡◌, ◌≢◌, ◌⊎◌, Some, IfErr, IfOk, length, pos};
ghost use Rattle.c_calls.specs.File.{AreTexts, GivesRobot, IsRobotFor, read_text, site_of};
ghost use Rattle.c_calls.specs.Number.{IsSiteNumber, IsWhyNoSiteNumber};
ghost use Rattle.c_calls.specs.Status.{HasError, HasErrorAt, IsWhyNoSite, IsWhyNoRobot, status_of};
ghost use Rattle.c_calls.specs.Text.{IsTooLong, IsWritten};

use crate::error::Error;
use crate::file::text_of;
use crate::handle::for_any_thread;
use crate::kept::{Handle, Kept};
use crate::reading::{OpenRobot, OpenSite};
use crate::texts::{put, texts_in};
use std::alloc::{AllocError, Global};

pub fn close(site: Handle<OpenSite>) {
    drop(site.into_box());
}

fn open(alloc: Global, file: &[u8], by_rfc9309: bool) -> Result<Box<OpenSite>, Error>
    ensures ok { IfOk result (λ site. site.value ≡ site_of by_rfc9309 file.now) }
    ensures error { IfErr result IsWhyNoSite }
{
    let site = Box::new(alloc, OpenSite::new(alloc, file, by_rfc9309)?)?;
    for_any_thread(&*site);
    Ok(site)
}

/// Opens a site for C. If that fails, the pointer is `at`.
pub fn opened(alloc: Global, file: &[u8], by_rfc9309: bool, at: *mut OpenSite) -> Kept<OpenSite>
    ensures opened { result.status ≡ pos 0 → result.value ≡ Some (site_of by_rfc9309 file.now) }
    ensures kept { result.status ≢ pos 0 → result.at ≡ at }
    ensures why { HasError IsWhyNoSite result.status }
{
    match open(alloc, file, by_rfc9309) {
        Ok(site) => Kept::boxed(0, site),
        Err(error) => Kept::nothing(error.status(), at),
    }
}

/// The crawler's robot, without sitemaps.
fn robot(alloc: Global, site: &OpenSite, agent: &[u8]) -> Result<Box<OpenRobot>, Error>
    ensures ok { IfOk result (λ robot. IsRobotFor agent.now site.now robot.value) }
    ensures error { IfErr result (IsWhyNoRobot agent.now (read_text site.now)) }
{
    let agent = text_of(agent)?;
    let robot = site.robot(alloc, agent)?;
    Ok(Box::new(alloc, robot)?)
}

/// Opens a crawler's robot for C. If that fails, the pointer is `at`, and the line of a rule that
/// is too long is written.
pub fn robot_opened(
    alloc: Global,
    site: &OpenSite,
    agent: &[u8],
    at: *mut OpenRobot,
    line: &mut usize,
) -> Kept<OpenRobot>
    ensures opened { result.status ≡ pos 0 → GivesRobot agent.now site.now (λ robot. result.value ≡ Some robot) }
    ensures kept { result.status ≢ pos 0 → result.at ≡ at }
    ensures why { HasErrorAt (IsWhyNoRobot agent.now (read_text site.now)) result.status line.old line.new }
{
    match robot(alloc, site, agent) {
        Ok(robot) => Kept::boxed(0, robot),
        Err(error) => Kept::nothing(error.status_at(line), at),
    }
}

/// What [`number`] writes, or the error.
fn number_in(site: &OpenSite, which: usize, agent: &[u8]) -> Result<u64, Error>
    ensures ok { IfOk result (IsSiteNumber site.now.file which agent.now) }
    ensures error { IfErr result (IsWhyNoSiteNumber site.now.file which agent.now) }
{
    if which == 0 {
        return Ok(site.bytes() as u64);
    }
    let agent = text_of(agent)?;
    if which == 1 {
        return Ok(u64::from(site.file.is_named(agent)));
    }
    match site.file.delay(agent) {
        Some(delay) => Ok(delay),
        None => Err(Error::NoDelay),
    }
}

/// Writes a number: for 0 how many bytes of memory the site takes, for 1 whether a user-agent line
/// names the crawler, as 1 or 0, and else its delay in microseconds, even if a rule is too long.
pub fn number(site: &OpenSite, which: usize, agent: &[u8], out: &mut u64) -> i32
    ensures written { result ≡ pos 0 → IsSiteNumber site.now.file which agent.now out.new }
    ensures kept { result ≢ pos 0 → out.new ≡ out.old }
    ensures why { HasError (IsWhyNoSiteNumber site.now.file which agent.now) result }
{
    match number_in(site, which, agent) {
        Ok(number) => {
            *out = number;
            0
        }
        Err(error) => error.status(),
    }
}

/// Writes the names in the site's user-agent lines, or else its sitemaps, each followed by LF, and their total
/// length. If the buffer is too small, it writes only the length.
pub fn texts(
    alloc: Global,
    site: &OpenSite,
    are_agents: bool,
    out: &mut [u8],
    len: &mut usize,
) -> i32
    ensures written { result ≡ pos 0 → IsWritten (AreTexts are_agents site.now.file) out.old out.new len.new }
    ensures buffer_too_small { result ≡ status_of Error.BufferTooSmall
        → IsTooLong (AreTexts are_agents site.now.file) (length out.old) len.new }
    ensures length_kept { result ≢ pos 0 → result ≢ status_of Error.BufferTooSmall → len.new ≡ len.old }
    ensures kept { result ≢ pos 0 → out.new ≡ out.old }
    ensures why { (result ≡ pos 0) ⊎ ((result ≡ status_of Error.BufferTooSmall) ⊎ (result ≡ status_of Error.Memory)) }
{
    match texts_in(alloc, &site.file, are_agents) {
        Ok(text) => put(&text, out, len),
        Err(AllocError) => Error::Memory.status(),
    }
}
