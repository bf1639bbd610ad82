//! Whether a file is in the extended grammar; if not, because of which line.
ghost use Rattle.std.specs.Prelude.{◌≡◌, ◌↔◌, ◌≤◌, ℕ, List, false, length, true};
ghost use Rattle.texting_robots.specs.Callers.{file_bodies, file_limit};
ghost use Rattle.rfc9309.specs.Conformance.{conformance_of, first_other, has_mark_or_none, has_syntax};
ghost use Rattle.rfc9309.specs.Conformance.{is_read_whole};
ghost use Rattle.rfc9309.specs.Rfc9309.{Group, IsFile};

use crate::grammar::{is_agent_line, is_line_below};
use safe_output::bytes::has;
use texting_robots::parser::file_bodies;
use texting_robots::robot::FILE_LIMIT;

/// What a file is by RFC 9309.
#[derive(Clone, Copy, PartialEq, Eq)]
pub enum Conformance {
    /// The file has more than 512,000 bytes, a NUL, or only a part of a byte order mark.
    OtherFile,
    /// This line, counted from 1, is the first one that isn't in the grammar.
    OtherLine(usize),
    /// The file is in the grammar.
    InGrammar,
}

impl Conformance {
    pub fn has_syntax(self) -> bool
        ensures { result ≡ has_syntax self }
    {
        matches!(self, Conformance::InGrammar)
    }
}

/// The number of the first line that isn't in the grammar.
fn first_other(file: &[u8]) -> Option<usize>
    ensures { result ≡ first_other false 1 (file_bodies file.now) }
{
    let mut below = false;
    for (at, body) in file_bodies(file).enumerate() {
        if is_agent_line(body) {
            below = true;
        } else if !is_line_below(below, body) {
            return Some(at + 1);
        }
    }
    None
}

fn has_mark_or_none(text: &[u8]) -> bool
    ensures { result ≡ has_mark_or_none text.now }
{
    text.starts_with(b"\xEF\xBB\xBF") || !matches!(text, [0xEF | 0xBB | 0xBF, ..])
}

/// All of the file is read, it has no NUL, and its byte order mark is complete.
fn is_read_whole(file: &[u8]) -> bool
    ensures { result ≡ is_read_whole file.now }
{
    file.len() <= FILE_LIMIT && !has(0, file) && has_mark_or_none(file)
}

/// What the file is by RFC 9309.
pub fn conformance_of(file: &[u8]) -> Conformance
    ensures { result ≡ conformance_of file.now }
{
    if !is_read_whole(file) {
        return Conformance::OtherFile;
    }
    match first_other(file) {
        Some(line) => Conformance::OtherLine(line),
        None => Conformance::InGrammar,
    }
}

/// The test is exact: a file is in the extended grammar, and has at most 512,000 bytes, if it passes, and
/// only then.
pub fn files_of_the_grammar_are_those()
    ensures { (file : List ℕ) → (has_syntax (conformance_of file) ≡ true)
        ↔ ((length file ≤ file_limit) × ((groups : List Group) × IsFile groups file)) }
{}
