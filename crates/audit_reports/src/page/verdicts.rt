//! The verdicts of a page, and what else applies to its crawlers.
ghost use Rattle.std.specs.Prelude.{◌≡◌, true};
ghost use Rattle.safe_output.specs.Page.{is_tag};

use crate::crawlers::Otherwise;
use crate::page::elements::{Page, put_text};
use audit_core::audit::{AgentAudit, Verdict};
use audit_core::reach::Reach;
use audit_core::texts::{
    Applied, Delayed, Elsewhere, Fetched, may_fetch, other_decision, other_reader, rejection_of,
    standard_fetched,
};
use std::fmt::Write;
use texting_robots::robot::Decision;

fn verdict_word(is_allowed: bool) -> &'static str {
    if is_allowed { "allowed" } else { "denied" }
}

fn write_decision(page: &mut Page, decision: Decision) {
    page.write_str(verdict_word(decision.allowed));
    page.write_str(", ");
    match decision.line {
        Some(number) => page.line_link(number),
        None => page.write_str("no line"),
    }
}

/// A cell with the verdict on the URL, and RFC 9309's, if that is another one, which `by` have.
fn write_verdict_cell(page: &mut Page, by: &str, has_url: bool, verdict: &Verdict<'_>) {
    let other = other_decision(verdict);
    let is_allowed = verdict.decision.allowed && other.is_none();
    page.open_class("td", verdict_word(is_allowed));
    if has_url {
        page.code(verdict.url.as_bytes());
    }
    write_decision(page, verdict.decision);
    if let Some(other) = other {
        put_text!(page, " (by {by}: ");
        write_decision(page, other);
        page.write_str(")");
    }
    page.close();
}

fn write_url_table(page: &mut Page, by: &str, agent: &AgentAudit<'_>) {
    let by = other_reader(by, agent);
    page.element("h2", "URLs");
    page.open_class("table", "urls");
    page.element("caption", "May the crawler fetch it?");
    page.open("thead");
    page.open("tr");
    page.columns(&["URL", "Verdict"]);
    page.close();
    page.close();
    page.open("tbody");
    for verdict in &agent.verdicts {
        page.open("tr");
        page.code_heading("row", verdict.url.as_bytes());
        write_verdict_cell(page, by, false, verdict);
        page.close();
    }
    page.close();
    page.close();
}

fn write_group(page: &mut Page, name: &'static str, audit: &AgentAudit<'_>)
    requires { is_tag name.now ≡ true }
{
    let (applied, elsewhere) = (Applied(audit), Elsewhere(audit));
    page.open(name);
    put_text!(page, "{applied}");
    if let Some(line) = audit.group_line {
        page.write_str(", ");
        page.line_link(line);
    }
    if let Some(rejected) = rejection_of(audit) {
        page.write_str(if rejected.is_standard {
            "; no verdict by RFC 9309: "
        } else {
            "; rejected: "
        });
        page.line_link(rejected.line);
    }
    put_text!(page, "{elsewhere}");
    page.close();
}

fn write_fetch(page: &mut Page, name: &'static str, by: &str, agent: &AgentAudit<'_>)
    requires { is_tag name.now ≡ true }
{
    let class = match standard_fetched(agent) {
        Some(_) => "some",
        None => may_fetch(agent.rejected, agent.reach).unwrap_or("some"),
    };
    let (fetched, otherwise) = (Fetched(agent.reach, &agent.allows), Otherwise(by, agent));
    page.open_class(name, class);
    match (agent.rejected, agent.reach) {
        (Some(_), _) => page.write_str("not decided"),
        (None, Reach::Part) => page.write_str("what its rules allow"),
        (None, _) => put_text!(page, "{fetched}"),
    }
    put_text!(page, "{otherwise}");
    page.close();
}

fn write_delay(page: &mut Page, name: &'static str, agent: &AgentAudit<'_>)
    requires { is_tag name.now ≡ true }
{
    let delayed = Delayed(agent);
    page.open(name);
    put_text!(page, "{delayed}");
    page.close();
}

fn write_agent_entry(page: &mut Page, by: &str, agent: &AgentAudit<'_>) {
    page.element("dt", "Group");
    write_group(page, "dd", agent);
    page.entry("Rules", agent.rules);
    page.element("dt", "Crawl delay");
    write_delay(page, "dd", agent);
    page.element("dt", "May fetch");
    write_fetch(page, "dd", by, agent);
}

fn write_agent_row(page: &mut Page, by: &str, agent: &AgentAudit<'_>) {
    page.open("tr");
    page.code_heading("row", agent.agent.as_bytes());
    write_group(page, "td", agent);
    page.element("td", agent.rules);
    write_delay(page, "td", agent);
    write_fetch(page, "td", by, agent);
    let by = other_reader(by, agent);
    for verdict in &agent.verdicts {
        write_verdict_cell(page, by, true, verdict);
    }
    page.close();
}

fn write_agent_columns(page: &mut Page, urls: &[&str]) {
    page.open("thead");
    page.open("tr");
    page.columns(&["Crawler", "Group", "Rules", "Crawl delay", "May fetch"]);
    for url in urls {
        page.code_heading("col", url.as_bytes());
    }
    page.close();
    page.close();
}

/// Writes the table of crawlers, which can be scrolled, also with keys.
fn write_agent_table(page: &mut Page, by: &str, urls: &[&str], agents: &[AgentAudit<'_>]) {
    page.open_with("div", &[("class", "scroll"), ("tabindex", "0")]);
    page.open_class("table", "agents");
    page.element("caption", "What each crawler may fetch");
    write_agent_columns(page, urls);
    page.open("tbody");
    for agent in agents {
        write_agent_row(page, by, agent);
    }
    page.close();
    page.close();
    page.close();
}

pub(crate) fn write_crawler_entries(
    page: &mut Page,
    agent: Option<&str>,
    by: &str,
    agents: &[AgentAudit<'_>],
) {
    if agent.is_none() {
        return;
    }
    for agent in agents {
        write_agent_entry(page, by, agent);
    }
}

pub(crate) fn write_verdict_part(
    page: &mut Page,
    agent: Option<&str>,
    by: &str,
    urls: &[&str],
    agents: &[AgentAudit<'_>],
) {
    if agent.is_none() {
        let heading = if agents.len() == 1 {
            "Crawler"
        } else {
            "Crawlers"
        };
        page.element("h2", heading);
        write_agent_table(page, by, urls, agents);
        return;
    }
    for agent in agents {
        if !agent.verdicts.is_empty() {
            write_url_table(page, by, agent);
        }
    }
}
