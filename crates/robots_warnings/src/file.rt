//! The lines within the size limit of a file.
ghost use Rattle.std.specs.Prelude.{◌≡◌, IfOk, map, take};
ghost use Rattle.texting_robots.specs.Callers.{file_limit, label_by_value};
ghost use Rattle.robots_warnings.specs.File.{labels_for};

use safe_output::bytes::first;
use std::alloc::{AllocError, Global};
use texting_robots::labels::{LabeledLine, labeled_lines};
use texting_robots::robot::FILE_LIMIT;

/// The bytes within the size limit, which are those that a robot reads.
pub fn counted<'a>(file: &'a [u8]) -> &'a [u8]
    ensures { result.now ≡ take file_limit file.now }
{
    first(FILE_LIMIT, file)
}

/// The lines of a file with their membership in the crawler's group.
pub(crate) fn labels_for<'a>(
    alloc: Global,
    agent: &str,
    file: &'a [u8],
) -> Result<Vec<LabeledLine<'a>>, AllocError>
    ensures { IfOk result (λ labels. map label_by_value labels.items ≡ labels_for agent.now file.now) }
{
    labeled_lines(agent, counted(file)).collect(alloc)
}

/// Whether there are only spaces and tabs, possibly followed by a comment.
pub fn is_blank(body: &[u8]) -> bool {
    for byte in body {
        match byte {
            b'#' => return true,
            b' ' | b'\t' => {}
            _ => return false,
        }
    }
    true
}
