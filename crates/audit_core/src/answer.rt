//! What a run answers: a report for standard output, an outcome for the exit status, and warnings.
ghost use Rattle.audit_core.specs.Answer.{IsText, Writes};

use crate::error::Error;
use safe_output::report::Report;
use safe_output::streams::write_out;
use std::alloc::Global;
use std::io::Write;

#[derive(Drop)]
pub struct Outcome {
    /// Whether the file is rejected for a crawler of the report. After `--expect` it is `false`, as
    /// expectations fail then.
    pub is_rejected: bool,
    /// After an audit, whether each crawler for which the file isn't rejected may fetch every URL of the
    /// request; after `--expect`, whether all expectations hold; after `--compare`, whether nothing differs;
    /// else `true`.
    pub has_passed: bool,
    /// Whether a warning is at the level of `--strict`, or at a more serious one.
    pub is_warned: bool,
    /// The warnings, one per line; empty if they are in the report.
    pub warnings: String,
}

/// The report of a run, and its outcome.
#[derive(Drop)]
pub struct Answer {
    pub report: Vec<u8>,
    pub outcome: Outcome,
}

pub fn text_answer(alloc: Global, report: Report) -> Answer
    ensures { IsText result }
{
    Answer {
        report: report.into_string().into_bytes(),
        outcome: Outcome {
            is_rejected: false,
            has_passed: true,
            is_warned: false,
            warnings: String::new(alloc),
        },
    }
}

/// Writes the report of an answer. After an error nothing is written.
///
/// # Errors
///
/// `Error::Closed` if the reader of the output has closed it, and `Error::Write` if a write or a flush fails
/// in another way, or a write accepts no bytes.
pub fn write_answer<W: Write>(
    answer: Result<Answer, Error>,
    writer: &mut W,
) -> Result<Outcome, Error>
    ensures { Writes answer (W.contents writer.old) (W.contents writer.new) result }
{
    let answer = answer?;
    write_out(writer, &answer.report)?;
    Ok(answer.outcome)
}
