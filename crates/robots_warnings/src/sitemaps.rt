//! Sitemaps that a file lists twice.

use crate::conflicts::{Places, add_first};
use safe_output::bytes::as_text;
use std::alloc::{AllocError, Global};
use std::collections::HashMap;
use texting_robots::labels::LabeledLine;
use texting_robots::parser::Line;

fn listed<'a>(line: Line<'a>) -> Option<&'a str> {
    match line {
        Line::Sitemap(value) => as_text(value),
        _ => None,
    }
}

fn add_listed(
    alloc: Global,
    lines: &mut Places,
    labeled: &LabeledLine<'_>,
) -> Result<(), AllocError> {
    let Some(sitemap) = listed(labeled.line) else {
        return Ok(());
    };
    add_first(lines, String::from_str(alloc, sitemap)?, labeled.number)
}

/// For each sitemap, the first line that lists it.
pub(crate) fn listings(alloc: Global, labels: &[LabeledLine<'_>]) -> Result<Places, AllocError> {
    let mut lines = HashMap::new(alloc);
    for labeled in labels {
        add_listed(alloc, &mut lines, labeled)?;
    }
    Ok(lines)
}

/// The first line that lists the sitemap of this line, if it is another one.
pub(crate) fn line_before(lines: &Places, labeled: &LabeledLine<'_>) -> Option<usize> {
    let Some(sitemap) = listed(labeled.line) else {
        return None;
    };
    match lines.get(sitemap) {
        Some(line) if *line != labeled.number => Some(*line),
        _ => None,
    }
}
