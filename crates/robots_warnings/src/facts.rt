//! What the warnings have to know about a file as a whole.
ghost use Rattle.std.specs.Prelude.{◌≡◌};
ghost use Rattle.robots_warnings.specs.Facts.{is_too_large, mark, without_start};

use crate::file::{counted, is_blank};
use safe_output::bytes::{first, has};
use texting_robots::labels::LabeledLine;
use texting_robots::parser::Line;
use texting_robots::robot::FILE_LIMIT;

/// Which kinds of lines a file has.
#[derive(Clone, Copy, PartialEq, Eq)]
pub struct LineKinds {
    /// Neither empty nor a comment.
    pub text: bool,
    pub user_agent: bool,
    /// An Allow or a Disallow.
    pub rule: bool,
    /// A delay or a sitemap.
    pub extra: bool,
}

#[derive(Clone, Copy, PartialEq, Eq)]
pub struct FileFacts {
    pub kinds: LineKinds,
    /// There is no directive, but some line that isn't empty or a comment, and the file looks like HTML.
    pub is_html: bool,
    /// There is text but no directive, and the file looks like UTF-16 and not like HTML.
    pub is_utf_16: bool,
    /// There is text but no directive, and the file looks like neither HTML nor UTF-16.
    pub is_other_text: bool,
    pub is_too_large: bool,
    pub has_cut_line: bool,
    pub has_damaged_mark: bool,
    pub has_nul: bool,
    pub has_hash: bool,
}

pub(crate) fn has_text(line: Line<'_>) -> bool {
    match line {
        Line::Raw(body) => !is_blank(body),
        _ => true,
    }
}

fn kinds_with(kinds: LineKinds, line: Line<'_>) -> LineKinds {
    LineKinds {
        text: kinds.text || has_text(line),
        user_agent: kinds.user_agent || matches!(line, Line::UserAgent(_)),
        rule: kinds.rule || matches!(line, Line::Allow(_) | Line::Disallow(_)),
        extra: kinds.extra || matches!(line, Line::CrawlDelay(_) | Line::Sitemap(_)),
    }
}

fn kinds_of(labels: &[LabeledLine<'_>]) -> LineKinds {
    let mut kinds = LineKinds {
        text: false,
        user_agent: false,
        rule: false,
        extra: false,
    };
    for labeled in labels {
        kinds = kinds_with(kinds, labeled.line);
    }
    kinds
}

fn has_nuls(here: bool, bytes: &[u8]) -> bool {
    let mut is_due = here;
    for byte in bytes {
        if is_due && *byte != 0 {
            return false;
        }
        is_due = !is_due;
    }
    true
}

fn seems_utf_16(file: &[u8]) -> bool {
    let first = first(64, file);
    file.starts_with(&[0xff, 0xfe])
        || file.starts_with(&[0xfe, 0xff])
        || (file.len() >= 4 && (has_nuls(true, first) || has_nuls(false, first)))
}

/// The text without a byte order mark.
pub fn without_utf8_bom<'a>(text: &'a [u8]) -> &'a [u8]
    ensures { result.now ≡ without_start mark text.now }
{
    text.strip_prefix(b"\xEF\xBB\xBF").unwrap_or(text)
}

fn seems_html(file: &[u8]) -> bool {
    for byte in without_utf8_bom(file) {
        match byte {
            b' ' | b'\t' | b'\r' | b'\n' => {}
            _ => return *byte == b'<',
        }
    }
    false
}

fn has_damaged_mark(file: &[u8]) -> bool {
    matches!(file, [0xEF | 0xBB | 0xBF, ..]) && !file.starts_with(b"\xEF\xBB\xBF")
}

/// All bytes are tested without an early exit, so that the compiler can vectorize the loop.
fn has_nul(file: &[u8]) -> bool {
    let mut is = false;
    for byte in counted(file) {
        is |= *byte == 0;
    }
    is
}

pub(crate) fn is_too_large(file: &[u8]) -> bool
    ensures { result ≡ is_too_large file.now }
{
    file.len() > FILE_LIMIT
}

fn ends_line(byte: u8) -> bool {
    matches!(byte, b'\r' | b'\n' | 0)
}

fn has_cut_line(file: &[u8]) -> bool {
    is_too_large(file) && !(ends_line(file[FILE_LIMIT - 1]) || ends_line(file[FILE_LIMIT]))
}

/// The facts about a file with these lines.
pub fn facts_of(file: &[u8], labels: &[LabeledLine<'_>]) -> FileFacts
    ensures { result.is_too_large ≡ is_too_large file.now }
{
    let kinds = kinds_of(labels);
    let is_unknown = kinds.text && !(kinds.user_agent || kinds.rule || kinds.extra);
    let is_html = is_unknown && seems_html(file);
    let is_utf_16 = is_unknown && !is_html && seems_utf_16(file);
    FileFacts {
        kinds,
        is_html,
        is_utf_16,
        is_other_text: is_unknown && !is_html && !is_utf_16,
        is_too_large: is_too_large(file),
        has_cut_line: has_cut_line(file),
        has_damaged_mark: has_damaged_mark(file),
        has_nul: has_nul(file),
        has_hash: has(b'#', file),
    }
}

pub(crate) fn suppresses_line_warnings(facts: FileFacts) -> bool {
    facts.is_html || facts.is_utf_16 || facts.is_other_text
}
