//! Needless rules can be deleted, but only all together: their lines as ranges, which a message names.
ghost use Rattle.std.specs.Prelude.{◌≡◌};
ghost use Rattle.audit_core.specs.Together.{is_needless};

use robots_warnings::table::Cause;
use robots_warnings::warning::Warning;
use std::alloc::{AllocError, Global};
use std::fmt;

/// Lines that follow one another: the first one, and how many more.
#[derive(Clone, Copy)]
pub struct Range {
    pub first: usize,
    pub more: usize,
}

/// The range with this line, if that is the next one.
fn extended(range: Range, line: usize) -> Option<Range> {
    if line > range.first && line - range.first - 1 == range.more {
        let (first, more) = (range.first, line - range.first);
        return Some(Range { first, more });
    }
    None
}

/// The line is in the last range, if it follows on its last line.
fn add_line(ranges: &mut Vec<Range>, line: usize) -> Result<(), AllocError> {
    if let Some(last) = ranges.pop() {
        if let Some(longer) = extended(last, line) {
            return Ok(ranges.push(longer)?);
        }
        ranges.push(last)?;
    }
    Ok(ranges.push(Range {
        first: line,
        more: 0,
    })?)
}

fn is_needless(cause: Cause) -> bool
    ensures { result ≡ is_needless cause }
{
    matches!(
        cause,
        Cause::NeverDecides | Cause::MatchesNothing | Cause::AllowedAnyway | Cause::NotNeeded
    )
}

/// The lines of needless rules, in the order of the warnings.
pub fn needless_lines(alloc: Global, warnings: &[Warning<'_>]) -> Result<Vec<Range>, AllocError> {
    let mut ranges = Vec::new(alloc);
    for warning in warnings {
        match warning.line {
            Some(line) if is_needless(warning.cause) => add_line(&mut ranges, line)?,
            _ => {}
        }
    }
    Ok(ranges)
}

/// The lines of needless rules, and whether the message about the first of them stands for all.
#[derive(Clone, Copy)]
pub struct Together<'a> {
    pub ranges: &'a [Range],
    pub is_one: bool,
}

fn is_first(ranges: &[Range], line: Option<usize>) -> bool {
    match (ranges, line) {
        ([range, ..], Some(line)) => line == range.first,
        _ => false,
    }
}

/// Whether there is a message about the warning.
pub(crate) fn is_shown(together: Together<'_>, warning: &Warning<'_>) -> bool {
    !(together.is_one && is_needless(warning.cause)) || is_first(together.ranges, warning.line)
}

pub fn keep_shown(together: Together<'_>, warnings: &mut Vec<Warning<'_>>) {
    warnings.retain(|warning| is_shown(together, warning));
}

/// Ranges as a text such as `lines 3-27, 31`.
#[derive(Clone, Copy)]
struct Ranges<'a>(&'a [Range]);

impl<'a> fmt::Display for Ranges<'a> {
    fn fmt<W: fmt::Write>(&self, f: &mut fmt::Formatter<W>) -> fmt::Result {
        let mut front = "lines ";
        for range in self.0 {
            let (first, last) = (range.first, range.first.saturating_add(range.more));
            if range.more == 0 {
                write!(f, "{front}{first}")?;
            } else {
                write!(f, "{front}{first}-{last}")?;
            }
            front = ", ";
        }
        Ok(())
    }
}

fn are_several(ranges: &[Range]) -> bool {
    match ranges {
        [] => false,
        [range] => range.more > 0,
        _ => true,
    }
}

/// The message of a warning, with the lines of all rules that have to be deleted together, if it is about one
/// of them.
#[derive(Clone, Copy)]
pub struct Message<'a, 'b, 'c>(pub &'a Warning<'b>, pub Together<'c>);

impl<'a, 'b, 'c> fmt::Display for Message<'a, 'b, 'c> {
    fn fmt<W: fmt::Write>(&self, f: &mut fmt::Formatter<W>) -> fmt::Result {
        let (warning, together) = (self.0, self.1);
        let lines = Ranges(together.ranges);
        if !is_needless(warning.cause) || !are_several(together.ranges) {
            return write!(f, "{warning}");
        }
        if together.is_one {
            return write!(
                f,
                "{lines} can be deleted together; deleting only some may change a verdict"
            );
        }
        write!(f, "{warning}; all needless rules: {lines}")
    }
}
