//! The functions of `robots.h` for sites.
ghost use Rattle.std.specs.Prelude.{◌≡◌, ◌≢◌, ◌⊎◌, length, pos};
ghost use Rattle.std.specs.Borrow.{sem};
ghost use base.Fml.{Lft, Share, flft};
ghost use Rattle.c_calls.specs.{Verdicts.ArePutIn, Verdicts.HasMatrix, Text.IsTooLong, Text.IsWritten};
ghost use Rattle.c_calls.specs.File.{AreTexts, IsRobotFor, IsSiteOfSomeFile, read_text, site_of};
ghost use Rattle.c_calls.specs.{declared.reading.OpenSite.OpenSite};
ghost use Rattle.c_calls.specs.Kept.{Robots, Sites, lends, opens, owned_or_null};
ghost use Rattle.c_calls.specs.Number.{IsSiteNumber, IsWhyNoSiteNumber};
ghost use Rattle.c_calls.specs.Status.{HasError, HasErrorAt, IsWhyNoMatrix, IsWhyNoRobot, IsWhyNoSite, status_of};

use c_calls::error::Error;
use c_calls::kept::{Handle, Kept};
use c_calls::matrix::matrix_by;
use c_calls::reading::{OpenRobot, OpenSite};
use c_calls::site;
use std::alloc::Global;

/// Reads a file for all crawlers, as RFC 9309 does or else as the Rust crate does, and writes a pointer to its
/// site, which C owns from then on.
#[unsafe(no_mangle)]
pub extern "C" fn robots_site_open(
    alloc: Global,
    file: &[u8],
    by_rfc9309: bool,
    out: &mut *mut u8,
) -> i32
    ensures* opened { sem 𝓛 (opens Sites (λ site. site ≡ site_of by_rfc9309 file.now) result out.new) }
    ensures kept { result ≢ pos 0 → out.new ≡ out.old }
    ensures why { HasError IsWhyNoSite result }
{
    let Kept { status, at } = site::opened(alloc, file, by_rfc9309, *out as *mut OpenSite);
    *out = at as *mut u8;
    status
}

/// Writes a pointer to a crawler's robot, as `robots_open` does. The site is borrowed: the call only reads
/// it.
#[unsafe(no_mangle)]
pub unsafe extern "C" fn robots_site_robot(
    alloc: Global,
    site: *const u8,
    agent: &[u8],
    out: &mut *mut u8,
    line: &mut usize,
) -> i32
    ghost g: { Lft × Share × OpenSite }
    requires* lent { sem 𝓛 (lends Sites site g) }
    ensures* lent { sem 𝓛 (flft g.0 g.1) }
    ensures* opened { sem 𝓛 (opens Robots (IsRobotFor agent.now g.2) result out.new) }
    ensures kept { result ≢ pos 0 → out.new ≡ out.old }
    ensures why { HasErrorAt (IsWhyNoRobot agent.now (read_text g.2)) result line.old line.new }
{
    let Kept { status, at } = site::robot_opened(
        alloc,
        &*(site as *const OpenSite),
        agent,
        *out as *mut OpenRobot,
        line,
    );
    *out = at as *mut u8;
    status
}

/// Writes a matrix of numbers: a row for each crawler with a number for each URL, as
/// `robots_verdicts_of_file` does. The crawlers are one string, and the URLs another, separated by LF. In the
/// row of a crawler for which the file is rejected, each number is the least `i64`.
#[unsafe(no_mangle)]
pub unsafe extern "C" fn robots_site_matrix(
    alloc: Global,
    site: *const u8,
    agents: &[u8],
    urls: &[u8],
    out: &mut [i64],
) -> i32
    ghost g: { Lft × Share × OpenSite }
    requires* lent { sem 𝓛 (lends Sites site g) }
    requires site { IsSiteOfSomeFile g.2 }
    ensures* lent { sem 𝓛 (flft g.0 g.1) }
    ensures written { result ≡ pos 0 → ArePutIn (HasMatrix g.2 agents.now urls.now) out.old out.new }
    ensures kept { result ≢ pos 0 → out.new ≡ out.old }
    ensures why { HasError (IsWhyNoMatrix agents.now urls.now (length out.old)) result }
{
    matrix_by(alloc, &*(site as *const OpenSite), agents, urls, out)
}

/// Writes one of a site's numbers: for 0 how many bytes of memory it takes with this handle, of which only a
/// bound is proved, for 1 whether a user-agent line names the crawler, as 1 or 0, and else the crawler's delay
/// in microseconds.
#[unsafe(no_mangle)]
pub unsafe extern "C" fn robots_site_number(
    site: *const u8,
    which: usize,
    agent: &[u8],
    out: &mut u64,
) -> i32
    ghost g: { Lft × Share × OpenSite }
    requires* lent { sem 𝓛 (lends Sites site g) }
    ensures* lent { sem 𝓛 (flft g.0 g.1) }
    ensures written { result ≡ pos 0 → IsSiteNumber g.2.file which agent.now out.new }
    ensures kept { result ≢ pos 0 → out.new ≡ out.old }
    ensures why { HasError (IsWhyNoSiteNumber g.2.file which agent.now) result }
{
    site::number(&*(site as *const OpenSite), which, agent, out)
}

/// Writes the names in the file's user-agent lines, each once, or else the sitemaps that it lists, each
/// followed by LF, and their total length. If the buffer is too small, it writes only the length.
#[unsafe(no_mangle)]
pub unsafe extern "C" fn robots_site_texts(
    alloc: Global,
    site: *const u8,
    are_agents: bool,
    out: &mut [u8],
    len: &mut usize,
) -> i32
    ghost g: { Lft × Share × OpenSite }
    requires* lent { sem 𝓛 (lends Sites site g) }
    ensures* lent { sem 𝓛 (flft g.0 g.1) }
    ensures written { result ≡ pos 0 → IsWritten (AreTexts are_agents g.2.file) out.old out.new len.new }
    ensures buffer_too_small { result ≡ status_of Error.BufferTooSmall
        → IsTooLong (AreTexts are_agents g.2.file) (length out.old) len.new }
    ensures length_kept { result ≢ pos 0 → result ≢ status_of Error.BufferTooSmall → len.new ≡ len.old }
    ensures kept { result ≢ pos 0 → out.new ≡ out.old }
    ensures why { (result ≡ pos 0) ⊎ ((result ≡ status_of Error.BufferTooSmall) ⊎ (result ≡ status_of Error.Memory)) }
{
    site::texts(alloc, &*(site as *const OpenSite), are_agents, out, len)
}

/// Frees what `robots_site_open` opened. A null pointer is ignored.
#[unsafe(no_mangle)]
pub unsafe extern "C" fn robots_site_close(alloc: Global, site: *mut u8)
    ghost value: { OpenSite }
    requires* owned { sem 𝓛 (owned_or_null Sites site value) }
{
    if site.is_null() {
        return;
    }
    site::close(Handle {
        at: site as *mut OpenSite,
        alloc,
    })
}
