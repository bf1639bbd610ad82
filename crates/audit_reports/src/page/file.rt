//! The file of a page, with its warnings, and its sitemaps.
use crate::page::elements::{Page, put_text};
use crate::page::warnings::write_warning_row;
use audit_core::audit::labeling_agent;
use audit_core::rows::{Shown, comment_of, membership_word, shown_field};
use audit_core::together::Together;
use robots_warnings::warning::Warning;
use safe_output::report::Untrusted;
use std::fmt::Write;
use texting_robots::labels::LabeledLine;
use texting_robots::parser::Line;

/// A browser lays out later what isn't visible yet.
const BODY_LINES: usize = 500;

pub(crate) fn write_sitemap_entry(page: &mut Page, sitemaps: &[&[u8]]) {
    page.element("dt", "Sitemaps");
    page.open("dd");
    page.open("ul");
    for sitemap in sitemaps {
        page.open("li");
        page.code(sitemap);
        page.close();
    }
    page.close();
    page.close();
}

/// The value and the comment of a line.
fn write_value_cell(page: &mut Page, label: &LabeledLine<'_>) {
    let value = Shown(label.line, label.body);
    page.open("td");
    put_text!(page, "{value}");
    let comment = comment_of(label.line, label.body);
    if !comment.is_empty() {
        let comment = Untrusted(comment);
        put_text!(page, "  {comment}");
    }
    page.close();
}

fn write_line_row(page: &mut Page, label: &LabeledLine<'_>) {
    let (number, group) = (label.number, membership_word(label.membership));
    page.open_row(number, group);
    page.open_with("th", &[("scope", "row")]);
    put_text!(page, "{number}");
    page.close();
    page.element("td", group);
    match label.line {
        Line::UserAgent(_) => page.open_class("td", "agent"),
        _ => page.open("td"),
    }
    page.write_str(shown_field(label));
    page.close();
    write_value_cell(page, label);
    page.close();
}

/// `shown` are in the order of their lines.
fn write_line_rows(
    page: &mut Page,
    together: Together<'_>,
    shown: &[Warning<'_>],
    labels: &[LabeledLine<'_>],
) {
    for label in labels {
        write_line_row(page, label);
        let line = Some(label.number);
        let start = shown.partition_point(|warning| warning.line < line);
        for warning in &shown[start..] {
            if warning.line != line {
                break;
            }
            write_warning_row(page, together, warning);
        }
    }
}

fn write_line_columns(page: &mut Page) {
    page.open("thead");
    page.open("tr");
    page.columns(&["Line", "Group", "Directive", "Value"]);
    page.close();
    page.close();
}

pub(crate) fn write_file_table(
    page: &mut Page,
    agent: Option<&str>,
    labels: &[LabeledLine<'_>],
    together: Together<'_>,
    shown: &[Warning<'_>],
) {
    let class = if agent.is_none() {
        "lines all"
    } else {
        "lines"
    };
    let agent = labeling_agent(agent);
    page.element("h2", "File");
    page.open_class("table", class);
    page.open("caption");
    put_text!(page, "Lines, and whether they are in the group of {agent}");
    page.close();
    write_line_columns(page);
    for lines in labels.chunks(BODY_LINES) {
        page.open("tbody");
        write_line_rows(page, together, shown, lines);
        page.close();
    }
    page.close();
}
