//! The crawlers that a report covers: those that were requested, or `*` and each that the file
//! names, if a crawler can have the name.
ghost use Rattle.std.specs.Prelude.{◌≡◌, ◌++◌, ◌∷◌, [], IfOk, OnOk, if◌then◌else◌, map};
ghost use Rattle.texting_robots.specs.Callers.{UserAgent, by_value, label_by_value};
ghost use Rattle.audit_core.specs.Audit.{agents_requested, crawlers_in, with_names};
ghost use Rattle.robots_warnings.specs.File.{lines_of};
ghost use Rattle.audit_core.specs.Internal.Agents.{AddsAgent};

use crate::crawler::is_crawler_name;
use robots_warnings::names::{Names, add_name};
use safe_output::bytes::as_text;
use std::alloc::{AllocError, Global};
use std::collections::BTreeSet;
use texting_robots::labels::LabeledLine;
use texting_robots::parser::Line;

fn add_if<'a>(names: &mut Vec<&'a str>, holds: bool, name: &'a str) -> Result<(), AllocError>
    ensures { OnOk result (map (λ name. name.now) names.new.items
        ≡ map (λ name. name.now) names.old.items ++ (if holds then name.now ∷ [] else [])) }
{
    if holds {
        names.push(name)?;
    }
    Ok(())
}

/// Appends the name of a user-agent line, if a crawler can have it and it isn't in `met` yet, and inserts it
/// into `met`.
fn add_agent<'a>(
    alloc: Global,
    met: &mut Names,
    names: &mut Vec<&'a str>,
    line: Line<'a>,
) -> Result<(), AllocError>
    ensures { OnOk result (AddsAgent met.old met.new (map (λ name. name.now) names.old.items)
        (map (λ name. name.now) names.new.items) (by_value line.entry)) }
{
    let Line::UserAgent(value) = line else {
        return Ok(());
    };
    match as_text(value) {
        Some(name) if is_crawler_name(name) => add_if(names, add_name(alloc, met, value)?, name),
        _ => Ok(()),
    }
}

fn crawlers_in<'a>(alloc: Global, labels: &[LabeledLine<'a>]) -> Result<Vec<&'a str>, AllocError>
    ensures { IfOk result (λ names. map (λ name. name.now) names.items
        ≡ crawlers_in (lines_of (map label_by_value labels.now))) }
{
    let mut met = BTreeSet::new(alloc);
    add_name(alloc, &mut met, b"*")?;
    let mut names: Vec<&'a str> = Vec::new(alloc);
    names.push("*")?;
    for labeled in labels {
        add_agent(alloc, &mut met, &mut names, labeled.line)?;
    }
    Ok(names)
}

fn each_once<'a>(alloc: Global, given: &[&'a str]) -> Result<Vec<&'a str>, AllocError>
    ensures { IfOk result (λ names. map (λ name. name.now) names.items
        ≡ with_names [] (map UserAgent (map (λ name. name.now) given.now))) }
{
    let mut met = BTreeSet::new(alloc);
    let mut names = Vec::new(alloc);
    for name in given {
        add_agent(
            alloc,
            &mut met,
            &mut names,
            Line::UserAgent(name.as_bytes()),
        )?;
    }
    Ok(names)
}

/// The given crawlers, each once, or if there is none `*` and each that the lines name.
pub fn agents_requested<'a>(
    alloc: Global,
    given: &[&'a str],
    labels: &[LabeledLine<'a>],
) -> Result<Vec<&'a str>, AllocError>
    ensures { IfOk result (λ names. map (λ name. name.now) names.items
        ≡ agents_requested (map (λ name. name.now) given.now) (lines_of (map label_by_value labels.now))) }
{
    if given.is_empty() {
        crawlers_in(alloc, labels)
    } else {
        each_once(alloc, given)
    }
}
