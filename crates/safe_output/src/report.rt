//! A report: lines that neither steer a terminal nor are commands of a workflow on GitHub, whatever is
//! written to it.
ghost use Rattle.std.specs.Prelude.{◌≡◌, IfOk, OnOk, false, string_bytes};
ghost use Rattle.safe_output.specs.Sanitize.{IsPrintableIn, has_command};
ghost use Rattle.safe_output.specs.Text.{IsReport, IsShownReport, begins_plainly, without_utf8_bom};

use crate::color::colored;
use crate::level::Level;
use crate::sanitize::{are_printable_bytes, has_command, push_chunks, push_without_commands};
use bstr::ByteSlice;
use std::alloc::Global;
use std::fmt;
use std::fmt::Write;
use std::marker::Model;

/// A text in one line, without its end. What is unsafe to display is escaped. If an allocation fails, it is
/// emptied.
#[derive(Drop)]
pub struct Line {
    text: String,
}

impl Model for Line {
    ghost use Rattle.std.specs.Prelude.{ℕ, List, false, string_bytes};
    ghost use Rattle.safe_output.specs.{Sanitize.IsPrintableIn};

    ghost Value = { List ℕ };

    ghost view = { λ line. string_bytes line.text };

    ghost invariant = { λ line. IsPrintableIn false (string_bytes line.text) };
}

/// What is unsafe to display is escaped.
#[tactic(auto, using(crate::proofs::ReportLemmas::ascii_added, crate::proofs::ReportLemmas::safe_added))]
fn push_text(line: &mut String, text: &str) -> fmt::Result
    requires { IsPrintableIn false (string_bytes line.old) }
    ensures { OnOk result (IsPrintableIn false (string_bytes line.new)) }
{
    if are_printable_bytes(text.as_bytes(), false) {
        return Ok(line.push_str(text)?);
    }
    Ok(push_chunks(line, text.as_bytes(), false)?)
}

/// Returns `written`, and clears the line if that is an error.
#[tactic(auto, using(crate::proofs::ReportLemmas::cleared_line))]
fn kept(line: &mut String, written: fmt::Result) -> fmt::Result
    requires { OnOk written (IsPrintableIn false (string_bytes line.old)) }
    ensures { IsPrintableIn false (string_bytes line.new) }
{
    match written {
        Ok(()) => Ok(()),
        Err(error) => {
            line.clear();
            Err(error)
        }
    }
}

impl Line {
    #[tactic(auto, using(crate::proofs::ReportLemmas::cleared_line))]
    pub fn new(alloc: Global) -> Line {
        Line {
            text: String::new(alloc),
        }
    }

    #[tactic(auto, using(crate::proofs::ReportLemmas::cleared_line))]
    pub fn clear(&mut self) {
        self.text.clear();
    }

    pub fn as_str(&self) -> &str
        ensures printable { IsPrintableIn false result.now }
        ensures same { result.now ≡ self.now }
    {
        &self.text
    }
}

impl fmt::Write for Line {
    fn write_str(&mut self, text: &str) -> fmt::Result {
        let written = push_text(&mut self.text, text);
        kept(&mut self.text, written)
    }
}

fn without_utf8_bom<'a>(line: &'a [u8]) -> &'a [u8]
    ensures { result.now ≡ without_utf8_bom line.now }
{
    line.strip_prefix(b"\xEF\xBB\xBF").unwrap_or(line)
}

/// Whether the line isn't a command with `::`, after a byte order mark and white space.
fn begins_plainly(line: &[u8]) -> bool
    ensures { result ≡ begins_plainly line.now }
{
    !without_utf8_bom(line).trim_start().starts_with(b":")
}

/// Appends the line, after a backslash if it would else begin a command (`::`).
#[tactic(auto, using(crate::proofs::ReportLemmas::plain_added, crate::proofs::ReportLemmas::escaped_added))]
fn push_line(text: &mut String, line: &str) -> fmt::Result
    requires report { IsReport (string_bytes text.old) }
    requires printable { IsPrintableIn false line.now }
    requires inside { has_command line.now ≡ false }
    ensures { OnOk result (IsReport (string_bytes text.new)) }
{
    if !begins_plainly(line.as_bytes()) {
        text.push('\\')?;
    }
    text.push_str(line)?;
    Ok(text.push('\n')?)
}

/// Appends the line. If it contains the start of a command (`##[`), each `#` is escaped.
#[tactic(auto, using(crate::proofs::ReportLemmas::escaped_line, crate::proofs::ReportLemmas::escaped_quiet))]
fn push_ended(text: &mut String, line: &str) -> fmt::Result
    requires report { IsReport (string_bytes text.old) }
    requires printable { IsPrintableIn false line.now }
    ensures { OnOk result (IsReport (string_bytes text.new)) }
{
    if !has_command(line.as_bytes()) {
        return push_line(text, line);
    }
    let mut safe = String::new(*text.allocator());
    push_without_commands(&mut safe, line)?;
    push_line(text, &safe)
}

/// Lines, none of which is a command. If an allocation fails, some or all are missing.
#[derive(Drop)]
pub struct Report {
    /// The lines that have ended.
    text: String,
    /// The start of the next line.
    line: Line,
    /// Where words for levels begin.
    levels: Vec<(usize, Level)>,
}

impl Model for Report {
    ghost use Rattle.std.specs.Prelude.{ℕ, List, string_bytes};
    ghost use Rattle.safe_output.specs.{Text.IsReport};

    ghost Value = { List ℕ };

    ghost view = { λ report. string_bytes report.text };

    ghost invariant = { λ report. IsReport (string_bytes report.text) };
}

/// Bytes that may not be UTF-8. Those that aren't become `%` and two hexadecimal digits.
#[derive(Clone, Copy)]
pub struct Untrusted<'a>(pub &'a [u8]);

impl<'a> fmt::Display for Untrusted<'a> {
    fn fmt<W: fmt::Write>(&self, f: &mut fmt::Formatter<W>) -> fmt::Result {
        for chunk in self.0.utf8_chunks() {
            f.write_str(chunk.valid())?;
            for byte in chunk.invalid() {
                write!(f, "%{byte:02X}")?;
            }
        }
        Ok(())
    }
}

/// A name, or `""` if it is empty, as for an unset variable in arguments.
#[derive(Clone, Copy)]
pub struct Named<'a>(pub &'a str);

impl<'a> fmt::Display for Named<'a> {
    fn fmt<W: fmt::Write>(&self, f: &mut fmt::Formatter<W>) -> fmt::Result {
        f.write_str(if self.0.is_empty() { "\"\"" } else { self.0 })
    }
}

impl Report {
    #[tactic(auto, using(crate::proofs::ReportLemmas::cleared_report))]
    pub fn new(alloc: Global) -> Report {
        Report {
            text: String::new(alloc),
            line: Line::new(alloc),
            levels: Vec::new(alloc),
        }
    }

    /// Ends the line. After an error the report is empty.
    #[tactic(auto, using(crate::proofs::ReportLemmas::cleared_report))]
    pub fn end_line(&mut self) -> fmt::Result {
        let ended = push_ended(&mut self.text, self.line.as_str());
        self.line.clear();
        match ended {
            Ok(()) => Ok(()),
            Err(error) => {
                self.text.clear();
                Err(error)
            }
        }
    }

    /// Writes the word for a level, which [`Report::shown`] may color.
    pub fn level(&mut self, level: Level) -> fmt::Result {
        let place = self.text.len().saturating_add(self.line.as_str().len());
        if self.levels.push((place, level)).is_err() {
            return Err(fmt::Error);
        }
        self.line.write_str(level.word())
    }

    /// Writes each line of the text, and ends it.
    pub fn lines(&mut self, text: &str) -> fmt::Result {
        for line in text.lines() {
            self.write_str(line)?;
            self.end_line()?;
        }
        Ok(())
    }

    /// The lines that have ended.
    pub fn into_string(self) -> String
        ensures { IsReport (string_bytes result) }
    {
        self.text
    }

    /// The lines that have ended, with the words for levels in color if there are colors.
    #[tactic(auto, using(crate::proofs::ReportLemmas::report_printable))]
    pub fn shown(self, has_colors: bool) -> Result<String, fmt::Error>
        ensures { IfOk result (λ text. IsShownReport has_colors (string_bytes text)) }
    {
        if !has_colors {
            return Ok(self.text);
        }
        Ok(colored(*self.text.allocator(), &self.text, &self.levels)?)
    }
}

impl fmt::Write for Report {
    fn write_str(&mut self, text: &str) -> fmt::Result {
        self.line.write_str(text)
    }
}
