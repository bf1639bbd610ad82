//! The list of all warnings, and the explanation of one.
ghost use Rattle.std.specs.Prelude.{IfOk};
ghost use Rattle.audit_core.specs.Answer.{IsText};

use crate::lines::Lines;
use crate::proved::theorems;
use audit_core::answer::{Answer, text_answer};
use audit_core::error::{Error, unknown};
use robots_warnings::table::{Cause, causes, is_name};
use robots_warnings::texts::{conditions, corrections};
use safe_output::report::Report;
use std::alloc::Global;

fn write_heading(out: &mut Lines<'_>, cause: Cause) {
    let (level, name, text) = (cause.level().word(), cause.name(), cause.text());
    out.line(format_args!("{level} {name}: {text}"));
}

fn write_example(out: &mut Lines<'_>, label: &str, example: &str) {
    out.line(label);
    for line in example.lines() {
        out.line(format_args!("    {line}"));
    }
}

fn write_explained(out: &mut Lines<'_>, cause: Cause) {
    write_heading(out, cause);
    write_example(out, "for example:", cause.example());
    for (own, example) in corrections() {
        if *own as usize == cause as usize && !example.is_empty() {
            write_example(out, "instead:", example);
        }
    }
}

fn write_given(out: &mut Lines<'_>, cause: Cause) {
    for (own, text) in conditions() {
        if *own as usize == cause as usize && !text.is_empty() {
            out.line(format_args!("given: {text}"));
        }
    }
}

fn write_proved(out: &mut Lines<'_>, name: &str) {
    for (of, text) in theorems() {
        if *of == name {
            out.line(format_args!("proved: {text}"));
        }
    }
}

fn write_explanation(out: &mut Lines<'_>, all: &[Cause], name: &str) {
    for cause in all {
        if cause.name() == name {
            write_explained(out, *cause);
        }
    }
    for cause in all {
        if cause.name() == name {
            write_given(out, *cause);
        }
    }
    write_proved(out, name);
}

/// The list of all warnings as the answer.
pub fn list_warnings(alloc: Global) -> Result<Answer, Error>
    ensures { IfOk result IsText }
{
    let mut report = Report::new(alloc);
    let mut out = Lines {
        report: &mut report,
        has_failed: false,
    };
    for cause in &causes(alloc)? {
        write_heading(&mut out, *cause);
    }
    out.finish()?;
    Ok(text_answer(alloc, report))
}

/// The explanation of the warning with this name as the answer. The error is `Error::UnknownWarning` if there
/// is none.
pub fn explain(alloc: Global, name: &str) -> Result<Answer, Error>
    ensures { IfOk result IsText }
{
    if !is_name(name) {
        return Err(unknown(alloc, name)?);
    }
    let mut report = Report::new(alloc);
    let mut out = Lines {
        report: &mut report,
        has_failed: false,
    };
    write_explanation(&mut out, &causes(alloc)?, name);
    out.finish()?;
    Ok(text_answer(alloc, report))
}
