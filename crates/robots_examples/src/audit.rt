//! A site's audit: a row for each line of a robots.txt file.
ghost use Rattle.std.specs.Prelude.{◌≡◌, IfOk, map};
ghost use Rattle.robots_examples.specs.Audit.{kind_of, row_value, rows_from};
ghost use Rattle.texting_robots.specs.Callers.{by_value, file_lines};

use std::alloc::{AllocError, Global};
use texting_robots::parser::{Line, file_lines};

#[derive(Clone, Copy, PartialEq, Eq, Debug)]
pub enum Kind {
    Agent,
    Rule,
    /// A sitemap line, which applies to every crawler.
    Sitemap,
    Delay,
    /// Any other line, such as an empty one or a comment.
    Other,
}

#[derive(Clone, Copy, PartialEq, Eq, Debug)]
pub struct Row<'a> {
    /// The number of the line, counted from 1, as in `texting_robots::Decision`.
    pub number: usize,
    pub kind: Kind,
    pub line: Line<'a>,
}

fn kind_of(line: Line<'_>) -> Kind
    ensures { result ≡ kind_of (by_value line.entry) }
{
    match line {
        Line::UserAgent(_) => Kind::Agent,
        Line::Allow(_) | Line::Disallow(_) => Kind::Rule,
        Line::Sitemap(_) => Kind::Sitemap,
        Line::CrawlDelay(_) => Kind::Delay,
        _ => Kind::Other,
    }
}

/// A row for each line of a file, in order.
pub fn audit<'a>(alloc: Global, file: &'a [u8]) -> Result<Vec<Row<'a>>, AllocError>
    ensures { IfOk result (λ rows. map row_value rows.items ≡ rows_from 1 (file_lines file.now)) }
{
    let mut rows = Vec::new(alloc);
    for line in file_lines(file) {
        rows.push(Row {
            number: rows.len() + 1,
            kind: kind_of(line),
            line,
        })?;
    }
    Ok(rows)
}
