//! Skips lines that can't be user-agent lines, many bytes at a time and without cutting them.
ghost use Rattle.std.specs.Prelude.{◌≡◌, ℕ, ◌+◌, ◌<◌, ◌≤◌, List, length, true};
ghost use Rattle.std.specs.{List.list_any};
ghost use Rattle.texting_robots.specs.{Group.is_agent_named, Internal.Cut.read_as, Internal.Line.lines_of};
ghost use Rattle.texting_robots.specs.Internal.Agents.{NoneBegins, is_named_later, may_begin, may_end};

use super::cut::{after_end, body_len};

/// How many pairs of adjacent bytes are tested at once.
const LANES: usize = 32;

/// CR, LF, NUL, and other bytes below CR, so that one comparison is enough.
fn may_end(byte: u8) -> bool
    ensures { result ≡ may_end byte }
{
    byte <= b'\r'
}

fn may_begin(byte: u8) -> bool
    ensures { result ≡ may_begin byte }
{
    (byte == b' ') | (byte == b'\t') | (byte == b'U') | (byte == b'u')
}

/// If true, no user-agent line begins right after one of the first `LANES` bytes. No early exit.
fn none_begins(text: &[u8]) -> bool
    requires { LANES < length text.now }
    ensures { result ≡ true → NoneBegins text.now LANES }
{
    let mut none = true;
    for at in 0..LANES {
        none &= !(may_end(text[at]) & may_begin(text[at + 1]));
    }
    none
}

/// The lines after the first one, from which some leading lines that can't be user-agent lines may be missing.
fn after_others<'a>(text: &'a [u8], nul_ends: bool) -> &'a [u8]
    requires { 0 < length text.now }
    ensures shorter { length result.now < length text.now }
    ensures named { (name : List ℕ) → list_any (is_agent_named name) (lines_of (read_as nul_ends result.now))
        ≡ is_named_later name nul_ends text.now }
{
    let mut rest = text;
    while rest.len() > LANES && none_begins(rest) {
        rest = rest.split_at(LANES).1;
    }
    // the rest may begin within a line that isn't a user-agent line; skip to the next line
    let (_, after) = rest.split_at(body_len(rest, nul_ends));
    after_end(after, nul_ends)
}

/// The lines, from which some leading lines that can't be user-agent lines may be missing.
#[inline(always)]
pub(crate) fn without_others<'a>(text: &'a [u8], nul_ends: bool) -> &'a [u8]
    ensures shorter { length result.now ≤ length text.now }
    ensures named { (name : List ℕ) → list_any (is_agent_named name) (lines_of (read_as nul_ends result.now))
        ≡ list_any (is_agent_named name) (lines_of (read_as nul_ends text.now)) }
{
    match text {
        [first, ..] if !may_begin(*first) => after_others(text, nul_ends),
        _ => text,
    }
}
