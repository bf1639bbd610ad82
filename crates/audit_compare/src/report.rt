//! The report on a comparison: what differs, as findings, and as text.
use crate::compare::{Comparison, Side};
use crate::compared::Compared;
use crate::differences::{Section, add_crawler, is_unchanged};
use audit_core::findings::{Findings, Subject, add, message};
use safe_output::level::Level;
use safe_output::report::{Report, Untrusted};
use std::alloc::Global;
use std::fmt;
use std::fmt::Write;

fn add_crawlers(
    alloc: Global,
    found: &mut Findings,
    sections: &[Section],
    crawlers: &[Compared<'_>],
) -> fmt::Result {
    for compared in crawlers {
        add_crawler(alloc, found, sections, compared)?;
    }
    Ok(())
}

fn add_sitemaps(
    alloc: Global,
    found: &mut Findings,
    what: &str,
    name: &'static str,
    sitemaps: &[&[u8]],
) -> fmt::Result {
    for sitemap in sitemaps {
        let subject = Subject(None, None, Some(*sitemap));
        let sitemap = Untrusted(*sitemap);
        let message = message(alloc, format_args!("sitemap {what}: {sitemap}"));
        add(alloc, found, Level::Note, subject, name, message)?;
    }
    Ok(())
}

/// Adds all sitemaps that only one of the files lists.
fn add_both_sitemaps(
    alloc: Global,
    found: &mut Findings,
    comparison: &Comparison<'_>,
) -> fmt::Result {
    add_sitemaps(
        alloc,
        found,
        "removed",
        "sitemap-removed",
        &comparison.removed,
    )?;
    add_sitemaps(alloc, found, "added", "sitemap-added", &comparison.added)
}

/// Adds that no directive of the new file is read, if the old one has some.
fn add_emptied(
    alloc: Global,
    found: &mut Findings,
    older: &Side<'_>,
    newer: &Side<'_>,
) -> fmt::Result {
    if older.has_no_directive || !newer.has_no_directive {
        return Ok(());
    }
    let message = message(alloc, "no directive of the new file is read");
    let subject = Subject(None, None, None);
    add(alloc, found, Level::Warning, subject, "empty", message)
}

/// What formats other than text have.
fn all_differences(alloc: Global, comparison: &Comparison<'_>) -> Result<Findings, fmt::Error> {
    let (mut found, crawlers) = (Vec::new(alloc), &comparison.crawlers);
    add_emptied(alloc, &mut found, &comparison.older, &comparison.newer)?;
    add_crawlers(alloc, &mut found, &[Section::Rejections], crawlers)?;
    add_crawlers(
        alloc,
        &mut found,
        &[Section::EveryUrl, Section::Urls],
        crawlers,
    )?;
    add_crawlers(
        alloc,
        &mut found,
        &[Section::Groups, Section::Rules],
        crawlers,
    )?;
    add_both_sitemaps(alloc, &mut found, comparison)?;
    Ok(found)
}

impl<'a> fmt::Display for Side<'a> {
    fn fmt<W: fmt::Write>(&self, f: &mut fmt::Formatter<W>) -> fmt::Result {
        let empty = if self.has_no_directive {
            " (empty)"
        } else {
            ""
        };
        let name = self.name;
        write!(f, "{name}{empty}")
    }
}

fn write_messages(out: &mut Report, found: &Findings) -> fmt::Result {
    for finding in found {
        out.lines(&finding.message)?;
    }
    Ok(())
}

/// The names of those that are unchanged.
#[derive(Clone, Copy)]
struct Unchanged<'a, 'c>(&'c [Compared<'a>]);

impl<'a, 'c> fmt::Display for Unchanged<'a, 'c> {
    fn fmt<W: fmt::Write>(&self, f: &mut fmt::Formatter<W>) -> fmt::Result {
        let mut is_first = true;
        for compared in self.0.iter().filter(|compared| is_unchanged(compared)) {
            let (separator, agent) = (if is_first { "" } else { ", " }, compared.agent);
            write!(f, "{separator}{agent}")?;
            is_first = false;
        }
        Ok(())
    }
}

/// Writes which crawlers are unchanged, if some are.
fn write_unchanged(out: &mut Report, crawlers: &[Compared<'_>]) -> fmt::Result {
    let number = crawlers
        .iter()
        .filter(|compared| is_unchanged(compared))
        .count();
    let (who, named) = match number {
        0 => return Ok(()),
        _ if number > 1 && number == crawlers.len() => ("all compared crawlers", &crawlers[..0]),
        1 => ("crawler ", crawlers),
        2..=5 => ("crawlers ", crawlers),
        _ => ("other compared crawlers", &crawlers[..0]),
    };
    let names = Unchanged(named);
    write!(
        out,
        "{who}{names}: same group, delay and rules as read here, so the same verdicts"
    )?;
    out.end_line()
}

fn write_report(alloc: Global, out: &mut Report, comparison: &Comparison<'_>) -> fmt::Result {
    let sections = [
        Section::Rejections,
        Section::Groups,
        Section::Rules,
        Section::EveryUrl,
        Section::Urls,
    ];
    let (old, new) = (&comparison.older, &comparison.newer);
    write!(out, "old: {old}, new: {new}")?;
    out.end_line()?;
    let mut found = Vec::new(alloc);
    add_crawlers(alloc, &mut found, &sections, &comparison.crawlers)?;
    write_messages(out, &found)?;
    write_unchanged(out, &comparison.crawlers)?;
    found.clear();
    add_both_sitemaps(alloc, &mut found, comparison)?;
    write_messages(out, &found)
}

/// The report on a comparison as text, and what differs.
pub fn reported(
    alloc: Global,
    comparison: &Comparison<'_>,
) -> Result<(Report, Findings), fmt::Error> {
    let mut out = Report::new(alloc);
    write_report(alloc, &mut out, comparison)?;
    Ok((out, all_differences(alloc, comparison)?))
}
