//! Crawlers that a file names only past the size limit.
ghost use Rattle.std.specs.Prelude.{All, IfOk, map};
ghost use Rattle.texting_robots.specs.Callers.{by_value, label_by_value};
ghost use Rattle.robots_warnings.specs.{File.lines_of, Crawlers.IsPastLimit};
ghost use Rattle.robots_warnings.specs.Internal.Names.{AddsLine, HasNames};

use crate::names::{Names, add_name};
use crate::numbers::push_if;
use std::alloc::{AllocError, Global};
use std::collections::BTreeSet;
use texting_robots::labels::LabeledLine;
use texting_robots::parser::{Line, file_lines};

/// Adds the name of a user-agent line. The result is whether it is new; `false` for other lines.
fn insert_name(alloc: Global, names: &mut Names, line: Line<'_>) -> Result<bool, AllocError>
    ensures { IfOk result (λ is_new. AddsLine names.old names.new (by_value line.entry) is_new) }
{
    match line {
        Line::UserAgent(value) => add_name(alloc, names, value),
        _ => Ok(false),
    }
}

fn names_read(alloc: Global, labels: &[LabeledLine<'_>]) -> Result<Names, AllocError>
    ensures { IfOk result (λ names. HasNames names (lines_of (map label_by_value labels.now))) }
{
    let mut names = BTreeSet::new(alloc);
    let mut rest = labels;
    while let [labeled, after @ ..] = rest {
        insert_name(alloc, &mut names, labeled.line)?;
        rest = after;
    }
    Ok(names)
}

/// `labels` are the lines within the size limit.
pub(crate) fn names_past_limit(
    alloc: Global,
    file: &[u8],
    labels: &[LabeledLine<'_>],
) -> Result<Vec<usize>, AllocError>
    ensures { IfOk result (λ found. All (IsPastLimit (lines_of (map label_by_value labels.now)) file.now)
        found.items) }
{
    let mut names = names_read(alloc, labels)?;
    let mut found = Vec::new(alloc);
    for (index, line) in file_lines(file).enumerate() {
        push_if(&mut found, insert_name(alloc, &mut names, line)?, index + 1)?;
    }
    Ok(found)
}
