//! The audit as an HTML page.
ghost use Rattle.std.specs.Prelude.{IfOk};
ghost use Rattle.safe_output.specs.Page.{IsSomePage};

mod elements;
mod file;
mod style;
mod verdicts;
mod warnings;

use audit_core::audit::Audit;
use audit_core::joined::in_order;
use audit_core::request::Request;
use audit_core::sitemaps::sitemaps_of;
use audit_core::syntax::{OtherSyntax, ReadAlike, has_directive, is_reading_told, other_readers};
use audit_core::together::{Together, keep_shown, needless_lines};
use audit_core::version::VERSION;
use elements::{Page, put_text};
use file::{write_file_table, write_sitemap_entry};
use rfc9309::conformance::Conformance;
use robots_warnings::table::Cause;
use robots_warnings::warning::Warning;
use safe_output::report::Named;
use std::alloc::{AllocError, Global};
use std::fmt;
use std::fmt::Write;
use style::{CSS, POLICY};
use verdicts::{write_crawler_entries, write_verdict_part};
use warnings::write_warning_entry;

/// The title of a report on this crawler, or on so many if it isn't about one.
#[derive(Clone, Copy)]
struct Title<'a>(Option<&'a str>, usize);

impl<'a> fmt::Display for Title<'a> {
    fn fmt<W: fmt::Write>(&self, f: &mut fmt::Formatter<W>) -> fmt::Result {
        match *self {
            Title(Some(agent), _) => write!(f, "robots.txt for {agent}"),
            Title(None, 1) => f.write_str("robots.txt for all crawlers"),
            Title(None, count) => write!(f, "robots.txt for {count} crawlers"),
        }
    }
}

/// Whether the file looks like a robots.txt file. If it doesn't, what it allows isn't marked as good.
fn is_robots_file(audit: &Audit<'_>) -> bool {
    has_directive(&audit.labels)
        && !audit.warnings.iter().any(|found| matches!(
            found.cause,
            Cause::HtmlPage | Cause::Utf16Text
        ))
}

fn write_head(page: &mut Page, title: Title<'_>) {
    page.open("head");
    page.void("meta", &[("charset", "utf-8")]);
    page.void(
        "meta",
        &[
            ("http-equiv", "Content-Security-Policy"),
            ("content", POLICY),
        ],
    );
    page.void(
        "meta",
        &[
            ("name", "viewport"),
            ("content", "width=device-width, initial-scale=1"),
        ],
    );
    page.style(CSS);
    page.title(title);
    page.close();
}

fn write_file_entry(page: &mut Page, name: &str) {
    page.element("dt", "File");
    page.open("dd");
    page.code(name.as_bytes());
    page.close();
}

/// Which line isn't in the standard's grammar, and whether the standard reads the file alike.
fn write_standard(page: &mut Page, audit: &Audit<'_>) {
    if !has_directive(&audit.labels) {
        return;
    }
    if let Conformance::OtherLine(line) = audit.syntax {
        page.entry("Syntax", OtherSyntax(line));
    }
    if is_reading_told(audit) {
        let alike = ReadAlike(&audit.agents);
        page.element("dt", "RFC 9309");
        page.open("dd");
        put_text!(page, "{alike}");
        page.close();
    }
}

fn write_summary(
    alloc: Global,
    page: &mut Page,
    request: &Request<'_>,
    audit: &Audit<'_>,
    together: Together<'_>,
    shown: &[Warning<'_>],
) -> Result<(), AllocError> {
    page.open("dl");
    write_file_entry(page, request.shown_name());
    if let Some(date) = request.date {
        page.entry("Date", Named(date));
    }
    write_warning_entry(alloc, page, request, audit, together, shown)?;
    let by = other_readers(&audit.labels);
    write_crawler_entries(page, request.agent, by, &audit.agents);
    write_sitemap_entry(page, &sitemaps_of(alloc, &audit.labels)?);
    write_standard(page, audit);
    page.close();
    Ok(())
}

/// A page always shows the file's lines, since its other parts link to them.
fn write_body(
    alloc: Global,
    page: &mut Page,
    title: Title<'_>,
    request: &Request<'_>,
    audit: &Audit<'_>,
) -> Result<(), AllocError> {
    let mut shown = in_order(alloc, &audit.warnings)?;
    let ranges = needless_lines(alloc, &shown)?;
    let together = Together {
        ranges: &ranges,
        is_one: true,
    };
    keep_shown(together, &mut shown);
    page.open("body");
    if is_robots_file(audit) {
        page.open("main");
    } else {
        page.open_class("main", "mistake");
    }
    page.element("h1", title);
    write_summary(alloc, page, request, audit, together, &shown)?;
    let by = other_readers(&audit.labels);
    write_verdict_part(page, request.agent, by, &request.urls, &audit.agents);
    write_file_table(page, request.agent, &audit.labels, together, &shown);
    page.open("footer");
    put_text!(page, "robots_audit {VERSION}");
    Ok(())
}

pub fn page_text(
    alloc: Global,
    request: &Request<'_>,
    audit: &Audit<'_>,
) -> Result<Vec<u8>, fmt::Error>
    ensures { IfOk result (λ page. IsSomePage page.items) }
{
    let mut page = Page::new(alloc);
    let agent = match audit.agents.as_slice() {
        [one] if one.agent != "*" => Some(one.agent),
        _ => request.agent,
    };
    let title = Title(agent, audit.agents.len());
    page.open_with("html", &[("lang", "en")]);
    write_head(&mut page, title);
    write_body(alloc, &mut page, title, request, audit)?;
    page.finish()
}
