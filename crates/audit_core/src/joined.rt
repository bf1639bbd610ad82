//! Warnings in order, and which of them are written as one, with the lines of the others.

use crate::texts::Lines;
use robots_warnings::warning::{Detail, Warning};
use safe_output::level::Level;
use std::alloc::{AllocError, Global};
use std::collections::BTreeSet;
use std::fmt;

type LineNumbers = BTreeSet<usize>;

/// Whether a warning has the message of all such warnings with the same reason: it ends with no line of its
/// own, and names no crawler or URL; that of a note may name another one than those that it stands for.
fn is_joined(warning: &Warning<'_>) -> bool {
    let has_shared_end = matches!(
        warning.detail,
        None | Some(Detail::Rules(_) | Detail::Others(_))
    );
    has_shared_end && (warning.about.is_none() || !warning.cause.level().reaches(Level::Warning))
}

fn is_joined_as(number: usize, warning: &Warning<'_>) -> bool {
    is_joined(warning) && warning.cause as usize == number
}

/// None of the earlier warnings, whose reasons are `met`, has the line of this one. Its reason is inserted.
fn is_first(met: &mut LineNumbers, warning: &Warning<'_>) -> Result<bool, AllocError> {
    if is_joined(warning) {
        Ok(met.insert(warning.cause as usize)?)
    } else {
        Ok(true)
    }
}

pub fn push_if<'a>(
    found: &mut Vec<Warning<'a>>,
    holds: bool,
    warning: &Warning<'a>,
) -> Result<(), AllocError> {
    if holds {
        found.push(warning.copy())?;
    }
    Ok(())
}

/// The warnings by line, and within a line by level; those that aren't about a line come first.
pub fn in_order<'a>(
    alloc: Global,
    warnings: &[Warning<'a>],
) -> Result<Vec<Warning<'a>>, AllocError> {
    let mut found = Vec::with_capacity(alloc, warnings.len())?;
    for warning in warnings {
        found.push(warning.copy())?;
    }
    found.sort_by_key(|warning| (warning.line, warning.cause.level() as usize))?;
    Ok(found)
}

/// The warnings without those whose lines an earlier one has.
pub fn joined<'a>(alloc: Global, warnings: &[Warning<'a>]) -> Result<Vec<Warning<'a>>, AllocError> {
    let mut met = BTreeSet::new(alloc);
    let mut found = Vec::new(alloc);
    for warning in warnings {
        let is_first = is_first(&mut met, warning)?;
        push_if(&mut found, is_first, warning)?;
    }
    Ok(found)
}

/// The lines of all that are written as this one, or 0 for each that is about no line.
pub fn shared_lines(
    alloc: Global,
    warning: &Warning<'_>,
    warnings: &[Warning<'_>],
) -> Result<Vec<usize>, AllocError> {
    let mut lines = Vec::new(alloc);
    if !is_joined(warning) {
        return Ok(lines);
    }
    let number = warning.cause as usize;
    for other in warnings {
        if is_joined_as(number, other) {
            lines.push(other.line.unwrap_or(0))?;
        }
    }
    Ok(lines)
}

/// The lines of the warnings that are written as this one, as in ` (also in lines 3, 5 and 8)`, where of the
/// others than the first, three are named; if it names a crawler, they are about others; or how many others
/// there are, as in ` (and 6 more URLs)`.
#[derive(Clone, Copy)]
pub struct AlsoIn<'a, 'b>(pub &'a [usize], pub &'a Warning<'b>);

impl<'a, 'b> fmt::Display for AlsoIn<'a, 'b> {
    fn fmt<W: fmt::Write>(&self, f: &mut fmt::Formatter<W>) -> fmt::Result {
        let warning = self.1;
        match self.0 {
            [] | [_] => Ok(()),
            [0, others @ ..] => {
                let (more, kind) = (others.len(), warning.kind());
                let end = if others.len() == 1 { "" } else { "s" };
                write!(f, " (and {more} more {kind}{end})")
            }
            [_, others @ ..] => {
                let whom = if warning.about.is_some() {
                    "for other crawlers, "
                } else {
                    ""
                };
                let others = Lines(others);
                write!(f, " (also {whom}in {others})")
            }
        }
    }
}
