//! A report on several crawlers: a line for each, and their verdicts.
use crate::lines::Lines;
use crate::verdicts::write_verdicts;
use audit_core::audit::{AgentAudit, Audit};
use audit_core::group::{AtVendor, Group};
use audit_core::reach::Reach;
use audit_core::rows::Shown;
use audit_core::texts::{
    Elsewhere, Fetched, ignores_delay, other_reader, rejection_of, standard_fetched, vendor_of,
};
use robots_warnings::crawlers::is_wrong;
use safe_output::delay::Delay;
use std::fmt;

fn write_group(out: &mut Lines<'_>, agent: &AgentAudit<'_>) {
    let name = agent.asked;
    match agent.group {
        Group::Named => write!(out, ": group {name}"),
        Group::Star => write!(out, ": group *"),
        Group::Nobody if agent.vendor == AtVendor::NoGroup => {
            write!(out, ": no group (it ignores that of *)");
        }
        Group::Nobody => write!(out, ": no group"),
        Group::Everyone if agent.rules == 0 => write!(
            out,
            ": no rules (no User-agent line is read)"
        ),
        Group::Everyone => write!(out, ": all rules (no User-agent line is read)"),
    }
    if let Some(line) = agent.group_line {
        write!(out, " (line {line})");
    }
    if agent.vendor == AtVendor::OtherGroup {
        let vendor = vendor_of(agent.agent);
        write!(out, ", which {vendor} applies to it");
    }
}

fn write_rules(out: &mut Lines<'_>, group: Group, rules: usize) {
    match (group, rules) {
        (Group::Nobody, _) | (Group::Everyone, 0) => {}
        (_, 0) => write!(out, ", no rules"),
        (_, 1) => write!(out, ", 1 rule"),
        _ => write!(out, ", {rules} rules"),
    }
}

pub(crate) fn write_wrong(out: &mut Lines<'_>, name: &str) {
    if is_wrong(name.as_bytes()) {
        write!(out, "; no crawler has this name");
    }
}

/// The values of the first three of these lines that aren't long.
fn write_values(out: &mut Lines<'_>, audit: &Audit<'_>, lines: &[usize]) {
    let mut is_first = true;
    for line in lines.iter().take(3) {
        let front = if is_first { ": " } else { ", " };
        match audit.labels.get(line.saturating_sub(1)) {
            Some(labeled) if labeled.body.len() < 80 => {
                let value = Shown(labeled.line, labeled.body);
                write!(out, "{front}{value}");
            }
            _ => write!(out, "{front}.."),
        }
        is_first = false;
    }
    if lines.len() > 3 {
        write!(out, ", ..");
    }
}

/// What a crawler may fetch by RFC 9309, if that is something else than here; these read the file so, unless
/// a vendor does.
#[derive(Clone, Copy)]
pub(crate) struct Otherwise<'a, 'b>(pub(crate) &'a str, pub(crate) &'a AgentAudit<'b>);

impl<'a, 'b> fmt::Display for Otherwise<'a, 'b> {
    fn fmt<W: fmt::Write>(&self, f: &mut fmt::Formatter<W>) -> fmt::Result {
        let by = other_reader(self.0, self.1);
        match standard_fetched(self.1) {
            Some(fetched) => write!(f, " (by {by}: {fetched})"),
            None => Ok(()),
        }
    }
}

/// Whether a report says what the crawler may fetch: not if that is a part of the site in both readings.
pub(crate) fn is_fetch_told(agent: &AgentAudit<'_>) -> bool {
    agent.reach != Reach::Part || standard_fetched(agent).is_some()
}

fn write_fetched(out: &mut Lines<'_>, by: &str, audit: &Audit<'_>, agent: &AgentAudit<'_>) {
    let (fetched, otherwise) = (Fetched(agent.reach, &agent.allows), Otherwise(by, agent));
    if is_fetch_told(agent) {
        write!(out, ", may fetch {fetched}");
        write_values(out, audit, &agent.allows);
        write!(out, "{otherwise}");
    }
}

/// Writes a line such as `crawler GPTBot: group * (line 1), 3 rules, delay 2 s`.
fn write_crawler(out: &mut Lines<'_>, by: &str, audit: &Audit<'_>, agent: &AgentAudit<'_>) {
    let name = agent.agent;
    write!(out, "crawler {name}");
    write_group(out, agent);
    write_rules(out, agent.group, agent.rules);
    if let Some(micros) = agent.delay {
        let delay = Delay(micros);
        write!(out, ", delay {delay}");
        if ignores_delay(agent) {
            write!(out, ", which it probably ignores");
        }
    }
    write_fetched(out, by, audit, agent);
    let elsewhere = Elsewhere(agent);
    write!(out, "{elsewhere}");
    write_wrong(out, name);
    out.end_line();
}

/// Writes about each crawler, or if `denied_only` is true about each that has verdicts or a rejected file.
pub(crate) fn write_crawlers(out: &mut Lines<'_>, denied_only: bool, by: &str, audit: &Audit<'_>) {
    for agent in &audit.agents {
        if !denied_only || rejection_of(agent).is_some() || !agent.verdicts.is_empty() {
            write_crawler(out, by, audit, agent);
        }
        out.rejected(agent);
    }
    for agent in &audit.agents {
        write_verdicts(out, by, Some(agent.agent), agent);
    }
}
