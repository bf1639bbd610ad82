//! The functions of which `bindings/c/robots.c` makes those of `robots.h`, next to `src/`.
//!
//! A function that can fail returns a status: 0, or the negative number of an error. It writes its result
//! only if the status is 0. Some also write the length that they need, or the line of a rule that is too
//! long, if they fail for this reason.
#![tactic(auto)]

ghost use Rattle.std.specs.Prelude.{◌≡◌, ◌≢◌, ◌<◌, ◌⊎◌, None, false, if◌then◌else◌, length};
ghost use Rattle.std.specs.Prelude.{pos, unwrap_or};
ghost use Rattle.std.specs.Borrow.{sem};
ghost use base.Fml.{Lft, Share, flft};
ghost use Rattle.c_calls.specs.Batch.{AreVerdicts, IsWhyNone};
ghost use Rattle.c_calls.specs.File.{GivesRobot, IsRobotFor, IsRobotOfSomeFile, bytes_read, site_of};
ghost use Rattle.c_calls.specs.Kept.{Robots, lends, opens, owned_or_null};
ghost use Rattle.c_calls.specs.{Number.IsNumber, Response.SaysMeaning, Text.IsTooLong, Text.IsWritten};
ghost use Rattle.c_calls.specs.Verdicts.{ArePutIn, HasVerdict, HasVerdicts, is_allowed, line_named};
ghost use Rattle.c_calls.specs.Verdicts.{no_verdict};
ghost use Rattle.c_calls.specs.Status.{HasError, HasErrorAt, IsRobotsUrl, IsWhyNoRobotsUrl, IsWhyNoVerdict};
ghost use Rattle.c_calls.specs.Status.{IsWhyNoRobot, IsWhyNotWithin, IsWhyUndecided, status_of};
ghost use Rattle.c_calls.specs.declared.reading.{OpenRobot.OpenRobot};

mod site;

use c_calls::batch::write_verdicts;
use c_calls::error::Error;
use c_calls::handle::{close, number, opened};
use c_calls::kept::{Handle, Kept};
use c_calls::matrix::NO_VERDICT;
use c_calls::reading::OpenRobot;
use c_calls::response::meaning;
use c_calls::texts::{self, put};
use c_calls::urls::{verdicts_of_file, write_verdict, write_verdict_within};
use std::alloc::Global;

/// The library's version as a number: 10,000 × major + 100 × minor + patch.
#[unsafe(no_mangle)]
pub extern "C" fn robots_version() -> u32
    ensures { result ≡ 10000 }
{
    10_000
}

/// Writes a number for each URL: 0 if the crawler may fetch it and no line decides, n if line n of the file
/// allows it, -n if line n denies it. The URLs are one string, separated by LF.
#[unsafe(no_mangle)]
pub extern "C" fn robots_verdicts_of_file(
    alloc: Global,
    agent: &[u8],
    file: &[u8],
    urls: &[u8],
    out: &mut [i64],
    line: &mut usize,
) -> i32
    ensures written { result ≡ pos 0
        → GivesRobot agent.now (site_of false file.now) (λ robot.
        ArePutIn (HasVerdicts robot urls.now) out.old out.new) }
    ensures kept { result ≢ pos 0 → out.new ≡ out.old }
    ensures why { HasErrorAt (IsWhyUndecided agent.now (bytes_read file.now) urls.now (length out.old)) result line.old line.new }
{
    match verdicts_of_file(alloc, agent, file, urls, out.len()) {
        Ok(numbers) => {
            out[..numbers.len()].copy_from_slice(&numbers);
            0
        }
        Err(error) => error.status_at(line),
    }
}

/// Writes the address of robots.txt for the site of a URL, as `robots_site_sitemaps` writes sitemaps.
#[unsafe(no_mangle)]
pub extern "C" fn robots_url(alloc: Global, url: &[u8], out: &mut [u8], len: &mut usize) -> i32
    ensures written { result ≡ pos 0 → IsWritten (IsRobotsUrl url.now) out.old out.new len.new }
    ensures buffer_too_small { result ≡ status_of Error.BufferTooSmall → IsTooLong (IsRobotsUrl url.now) (length out.old) len.new }
    ensures length_kept { result ≢ pos 0 → result ≢ status_of Error.BufferTooSmall → len.new ≡ len.old }
    ensures kept { result ≢ pos 0 → out.new ≡ out.old }
    ensures why { (result ≡ status_of Error.BufferTooSmall) ⊎ HasError (IsWhyNoRobotsUrl url.now) result }
{
    match texts::robots_url(alloc, url) {
        Ok(text) => put(&text, out, len),
        Err(error) => error.status(),
    }
}

/// Reads a file for a crawler, and writes a pointer to the crawler's robot, which C owns from then on.
#[unsafe(no_mangle)]
pub extern "C" fn robots_open(
    alloc: Global,
    agent: &[u8],
    file: &[u8],
    out: &mut *mut u8,
    line: &mut usize,
) -> i32
    ensures* opened { sem 𝓛 (opens Robots (IsRobotFor agent.now (site_of false file.now)) result out.new) }
    ensures kept { result ≢ pos 0 → out.new ≡ out.old }
    ensures why { HasErrorAt (IsWhyNoRobot agent.now (bytes_read file.now)) result line.old line.new }
{
    let Kept { status, at } = opened(alloc, agent, file, *out as *mut OpenRobot, line);
    *out = at as *mut u8;
    status
}

/// Writes the verdict for one URL, as `robots_verdicts_of_file` does. The robot is borrowed: the call only
/// reads it.
#[unsafe(no_mangle)]
pub unsafe extern "C" fn robots_verdict(
    alloc: Global,
    robot: *const u8,
    url: &[u8],
    out: &mut i64,
) -> i32
    ghost g: { Lft × Share × OpenRobot }
    requires* lent { sem 𝓛 (lends Robots robot g) }
    requires robot { IsRobotOfSomeFile g.2 }
    ensures* lent { sem 𝓛 (flft g.0 g.1) }
    ensures written { result ≡ pos 0 → HasVerdict g.2 url.now out.new }
    ensures kept { result ≢ pos 0 → out.new ≡ out.old }
    ensures why { HasError (IsWhyNoVerdict url.now) result }
{
    write_verdict(alloc, &*(robot as *const OpenRobot), url, out)
}

/// Writes the verdict for one URL, as `robots_verdict` does, unless that may take more looks than the budget.
#[unsafe(no_mangle)]
pub unsafe extern "C" fn robots_verdict_within(
    alloc: Global,
    robot: *const u8,
    url: &[u8],
    budget: u64,
    out: &mut i64,
) -> i32
    ghost g: { Lft × Share × OpenRobot }
    requires* lent { sem 𝓛 (lends Robots robot g) }
    requires robot { IsRobotOfSomeFile g.2 }
    ensures* lent { sem 𝓛 (flft g.0 g.1) }
    ensures written { result ≡ pos 0 → HasVerdict g.2 url.now out.new }
    ensures kept { result ≢ pos 0 → out.new ≡ out.old }
    ensures why { HasError (IsWhyNotWithin g.2 url.now budget) result }
{
    write_verdict_within(alloc, &*(robot as *const OpenRobot), url, budget, out)
}

/// Writes the verdicts for many URLs: those that end at these places in the text, each from the end before
/// it, or else those that LF separates, as `robots_verdicts_of_file` does.
#[unsafe(no_mangle)]
pub unsafe extern "C" fn robots_verdict_list(
    alloc: Global,
    robot: *const u8,
    urls: &[u8],
    ends: &[usize],
    are_ended: bool,
    out: &mut [i64],
) -> i32
    ghost g: { Lft × Share × OpenRobot }
    requires* lent { sem 𝓛 (lends Robots robot g) }
    requires robot { IsRobotOfSomeFile g.2 }
    ensures* lent { sem 𝓛 (flft g.0 g.1) }
    ensures written { result ≡ pos 0
        → ArePutIn (AreVerdicts g.2 urls.now ends.now are_ended) out.old out.new }
    ensures kept { result ≢ pos 0 → out.new ≡ out.old }
    ensures why { HasError (IsWhyNone urls.now ends.now are_ended (length out.old)) result }
{
    write_verdicts(
        alloc,
        &*(robot as *const OpenRobot),
        urls,
        ends,
        are_ended,
        out,
    )
}

/// Writes a number: for 0 what `robots_verdict_within` costs at most for a match target of this length, for 1
/// how many bytes of memory the robot takes with this handle, of which only a bound is proved, and else its
/// delay in microseconds.
#[unsafe(no_mangle)]
pub unsafe extern "C" fn robots_number(
    robot: *const u8,
    which: usize,
    length: usize,
    out: &mut u64,
) -> i32
    ghost g: { Lft × Share × OpenRobot }
    requires* lent { sem 𝓛 (lends Robots robot g) }
    ensures* lent { sem 𝓛 (flft g.0 g.1) }
    ensures written { result ≡ pos 0 → IsNumber g.2 which length out.new }
    ensures kept { result ≢ pos 0 → out.new ≡ out.old }
    ensures no_delay { result ≢ pos 0
        → (1 < which) × (g.2.delay ≡ None) × (result ≡ status_of Error.NoDelay) }
{
    number(&*(robot as *const OpenRobot), which, length, out)
}

/// Frees what `robots_open` or `robots_site_robot` opened. A null pointer is ignored.
#[unsafe(no_mangle)]
pub unsafe extern "C" fn robots_close(alloc: Global, robot: *mut u8)
    ghost value: { OpenRobot }
    requires* owned { sem 𝓛 (owned_or_null Robots robot value) }
{
    if robot.is_null() {
        return;
    }
    close(Handle {
        at: robot as *mut OpenRobot,
        alloc,
    })
}

/// What the response to a request for a robots.txt file means: a number of `robots_meaning` in the header. A
/// status that none has, such as 0, means no answer.
#[unsafe(no_mangle)]
pub extern "C" fn robots_response_meaning(
    status: u32,
    redirects: u32,
    has_location: bool,
    is_complete: bool,
) -> i32
    ensures { SaysMeaning status redirects has_location is_complete result }
{
    meaning(status, redirects, has_location, is_complete)
}

/// 1 if the crawler may fetch the URL with this verdict, and 0 if it may not.
#[unsafe(no_mangle)]
pub extern "C" fn robots_may_fetch(number: i64) -> i32
    ensures { result ≡ (if is_allowed number then pos 1 else pos 0) }
{
    i32::from(number >= 0)
}

/// The number of the deciding line, and 0 if none decides or there is no verdict.
#[unsafe(no_mangle)]
pub extern "C" fn robots_verdict_line(number: i64) -> i64
    ensures line { number ≢ no_verdict → result ≡ pos (unwrap_or (line_named number) 0) }
    ensures no_verdict { number ≡ no_verdict → result ≡ pos 0 }
{
    if number >= 0 {
        number
    } else if number == NO_VERDICT {
        0
    } else {
        -number
    }
}
