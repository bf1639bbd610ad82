//! Expectations checked against a robots.txt file, and the report on those that fail.
ghost use Rattle.std.specs.Prelude.{◌≡◌, All, IfOk, OnOk, false, length, map};
ghost use Rattle.audit_core.specs.Standard.{AreReadings};
ghost use Rattle.audit_expect.specs.Expectations.{AreFailuresOf, Holds};
ghost use Rattle.audit_expect.specs.Internal.Expectations.{IsInBoth, expectation_value, fails};

use crate::any::about_each;
use crate::checks::{Checked, Judgment, OnPaths, Readers, checked_on, fails};
use crate::entries::{check_lines, without_entries};
use crate::expect::{Expectation, expectations_in};
use audit_core::error::{EntryKind, Error, Flaw};
use audit_core::findings::{Findings, Subject, add, message};
use audit_core::readings::{Decided, FileReadings};
use audit_core::syntax::other_readers;
use audit_core::target::asked_target;
use audit_core::texts::vendor_of;
use robots_warnings::crawlers::{meant, other_group};
use safe_output::level::Level;
use safe_output::report::Report;
use std::alloc::Global;
use std::fmt;
use std::fmt::Write;
use texting_robots::robot::Decision;
use texting_robots::site::Site;

/// The file isn't parsed again if the crawler is the one before.
fn readers_for<'a>(
    alloc: Global,
    before: Readers<'a>,
    agent: &'a str,
    file: &FileReadings<'_>,
) -> Result<Readers<'a>, Error>
    requires file { AreReadings file.now.here.bytes.now file.now }
    requires before { IsInBoth file.now.here.bytes.now before }
    ensures agent { IfOk result (λ readers. readers.here.agent.now ≡ agent.entry.now) }
    ensures readers { IfOk result (IsInBoth file.now.here.bytes.now) }
{
    if before.here.agent == agent {
        return Ok(before);
    }
    Readers::new(alloc, agent, file)
}

/// What decides. `target` is what is compared here, as for those below, and `name` a word for it.
#[derive(Clone, Copy)]
struct Deciding<'a> {
    target: &'a str,
    name: &'a str,
    decision: Decision,
}

impl<'a> fmt::Display for Deciding<'a> {
    fn fmt<W: fmt::Write>(&self, f: &mut fmt::Formatter<W>) -> fmt::Result {
        let name = self.name;
        match self.decision.line {
            Some(line) => {
                let how = if self.decision.allowed {
                    "allows"
                } else {
                    "denies"
                };
                write!(f, "line {line} {how} {name}")
            }
            None if self.target == "/robots.txt" => f.write_str("/robots.txt is always allowed"),
            None => write!(f, "no rule denies {name}"),
        }
    }
}

/// Why the expectation fails for the crawler, or the group that its vendor applies to it.
#[derive(Clone, Copy)]
struct Reason<'a, 'c> {
    agent: &'a str,
    target: &'c str,
    judgment: &'c Judgment,
    /// Whether it must be allowed.
    allowed: bool,
    /// Who has the other reading.
    by: &'static str,
}

impl<'a, 'c> fmt::Display for Reason<'a, 'c> {
    fn fmt<W: fmt::Write>(&self, f: &mut fmt::Formatter<W>) -> fmt::Result {
        let (agent, target) = (self.agent, self.target);
        let (name, target, here, standard) = match self.judgment {
            Judgment::Rejected(line) => {
                return write!(f, "the file is rejected for {agent}: line {line}");
            }
            Judgment::RejectedByStandard(line) => {
                return write!(
                    f,
                    "the file is rejected for {agent} by RFC 9309: line {line}"
                );
            }
            Judgment::Rewritten => {
                return write!(f, "crawlers may ask for another path or query: {target}");
            }
            Judgment::Everywhere(OnPaths::Hold) => return Ok(()),
            Judgment::Everywhere(OnPaths::Undecided) => {
                return f.write_str("that isn't decided, since there are many stars");
            }
            Judgment::Everywhere(OnPaths::Fail(path, here, standard)) => {
                (path.as_str(), path.as_str(), *here, *standard)
            }
            Judgment::Decided(here, standard) => ("it", target, *here, *standard),
        };
        if here.allowed == standard.allowed {
            let decision = here;
            let deciding = Deciding {
                target,
                name,
                decision,
            };
            return write!(f, "{deciding}");
        }
        let (here, standard) = (Decided(here), Decided(standard));
        let (verb, by) = (if self.allowed { "allows" } else { "denies" }, self.by);
        write!(
            f,
            "only one reading {verb} {name}: {here} (by {by}: {standard})"
        )
    }
}

/// What fails, and why.
#[derive(Clone, Copy)]
struct Failure<'a, 'c> {
    checked: &'c Checked<'a>,
    target: &'c str,
    /// Who has the other reading.
    by: &'static str,
}

impl<'a, 'c> fmt::Display for Failure<'a, 'c> {
    fn fmt<W: fmt::Write>(&self, f: &mut fmt::Formatter<W>) -> fmt::Result {
        let (checked, target) = (self.checked, self.target);
        let (agent, url) = (checked.expectation.agent, checked.expectation.url);
        let demand = match (checked.expectation.allowed, checked.expectation.is_pattern) {
            (true, false) => "allowed",
            (true, true) => "allowed all of",
            (false, false) => "denied",
            (false, true) => "denied all of",
        };
        write!(f, "{agent} must be {demand} {url}, but ")?;
        let Some(judgment) = &checked.judgment else {
            return write!(
                f,
                "its vendor doesn't apply the group * to it; add a group with User-agent: {agent}"
            );
        };
        let by = match checked.group {
            Some(group) => {
                write!(f, "its vendor applies the group {group} to it, and ")?;
                vendor_of(agent)
            }
            None => self.by,
        };
        let reason = Reason {
            agent: checked.group.unwrap_or(agent),
            target,
            judgment,
            allowed: checked.expectation.allowed,
            by,
        };
        write!(f, "{reason}")
    }
}

/// How many failures of one line are written, if it is about any crawler.
const MOST: usize = 5;

/// How many more failures of such a line name their crawler.
const NAMED: usize = 10;

/// The report on failures, and how many of the latest line it has.
#[derive(Drop)]
struct Failing<'a, 'e> {
    out: Report,
    /// The name of the file of expectations.
    name: &'a str,
    /// Who has the other reading of the file.
    by: &'static str,
    line: usize,
    number: usize,
    /// The crawlers that ignore `*`, and what is expected of them, if that line is about any crawler.
    ignoring: Vec<&'e str>,
    expected: Option<Expectation<'e>>,
}

/// Ends the line that only names crawlers, if there is one.
fn end_names(report: &mut Failing<'_, '_>) -> fmt::Result {
    let (out, number) = (&mut report.out, report.number);
    if number <= MOST {
        return Ok(());
    }
    if number > MOST + NAMED {
        let others = number - (MOST + NAMED);
        write!(out, " and {others} more")?;
    }
    out.end_line()
}

/// Writes which crawlers ignore `*`, and what to write, if the line is about any crawler.
fn write_ignoring(report: &mut Failing<'_, '_>) -> fmt::Result {
    let Some(expected) = report.expected else {
        return Ok(());
    };
    let (out, name, line) = (&mut report.out, report.name, report.line);
    let mut front = "";
    write!(out, "{name}:{line}: ")?;
    for agent in &report.ignoring {
        write!(out, "{front}{agent}")?;
        front = ", ";
    }
    let (verb, pronoun) = if report.ignoring.len() == 1 {
        ("ignores", "it")
    } else {
        ("ignore", "them")
    };
    let word = if expected.is_pattern {
        "deny-all"
    } else {
        "deny"
    };
    let url = expected.url;
    write!(
        out,
        " {verb} *: add a group that names {pronoun}, or write {word} * {url}"
    )?;
    out.end_line()
}

/// Ends what is written of the latest line.
fn end_line(report: &mut Failing<'_, '_>) -> fmt::Result {
    end_names(report)?;
    write_ignoring(report)?;
    report.number = 0;
    report.ignoring.clear();
    report.expected = None;
    Ok(())
}

/// Writes the crawler of a failure after so many of its line.
fn write_agent(report: &mut Failing<'_, '_>, agent: &str, number: usize) -> fmt::Result {
    let (name, line) = (report.name, report.line);
    if number == MOST {
        write!(report.out, "{name}:{line}: also {agent}")
    } else if number < MOST + NAMED {
        write!(report.out, ", {agent}")
    } else {
        Ok(())
    }
}

fn write_failure<'e>(report: &mut Failing<'_, 'e>, failure: &Failure<'e, '_>) -> fmt::Result {
    let (name, checked) = (report.name, failure.checked);
    let expectation = checked.expectation;
    let line = expectation.number;
    if line != report.line {
        end_line(report)?;
        report.line = line;
    }
    if expectation.is_any && checked.judgment.is_none() {
        report.expected = Some(expectation);
        return match report.ignoring.push(expectation.agent) {
            Ok(()) => Ok(()),
            Err(_) => Err(fmt::Error),
        };
    }
    let number = report.number;
    report.number = number.saturating_add(1);
    if number >= MOST {
        return write_agent(report, expectation.agent, number);
    }
    write!(report.out, "{name}:{line}: {failure}")?;
    report.out.end_line()
}

/// Writes and adds what fails.
fn add_if_failing<'e>(
    alloc: Global,
    report: &mut Failing<'_, 'e>,
    found: &mut Findings,
    checked: &Checked<'e>,
) -> Result<(), Error>
    ensures { OnOk result (length found.new.items ≡ 0
        → (length found.old.items ≡ 0) × (fails checked.now ≡ false)) }
{
    if !fails(checked) {
        return Ok(());
    }
    let expectation = &checked.expectation;
    let target = asked_target(alloc, expectation.url)?;
    let failure = Failure {
        checked,
        target: &target,
        by: report.by,
    };
    write_failure(report, &failure)?;
    let (line, agent) = (Some(expectation.number), Some(expectation.agent));
    let subject = Subject(line, agent, Some(expectation.url.as_bytes()));
    let message = message(alloc, failure);
    Ok(add(alloc, found, Level::Error, subject, "expectation", message)?)
}

fn failures<'a>(
    alloc: Global,
    report: &mut Failing<'_, 'a>,
    expectations: &[Expectation<'a>],
    file: &'a FileReadings<'_>,
) -> Result<Findings, Error>
    requires { AreReadings file.now.here.bytes.now file.now }
    ensures { IfOk result (λ found. length found.items ≡ 0
        → All (Holds file.now.here.bytes.now) (map expectation_value expectations.now)) }
{
    let mut latest = Readers::new(alloc, "*", file)?;
    let mut found = Vec::new(alloc);
    for expectation in expectations {
        let group = other_group(&file.here.site, expectation.agent);
        let agent = group.unwrap_or(expectation.agent);
        latest = readers_for(alloc, latest, agent, file)?;
        let checked = checked_on(alloc, expectation, group, &latest, file)?;
        add_if_failing(alloc, report, &mut found, &checked)?;
    }
    end_line(report)?;
    Ok(found)
}

/// What is said after the number of expectations, if none fails.
fn holding_words(found: &Findings, number: usize) -> &'static str {
    match (found.is_empty(), number) {
        (false, _) => "",
        (true, 1) => " expectation holds",
        (true, _) => " expectations hold",
    }
}

fn write_holding(out: &mut Report, found: &Findings, number: usize) -> fmt::Result {
    let words = holding_words(found, number);
    if words.is_empty() {
        return Ok(());
    }
    write!(out, "{number}{words}")?;
    out.end_line()
}

/// Fails with all lines in which a name is like that of a known crawler, if the file doesn't have it.
fn check_names(
    alloc: Global,
    name: &str,
    expectations: &[Expectation<'_>],
    site: &Site,
) -> Result<(), Error> {
    let mut malformed = Vec::new(alloc);
    for expectation in expectations {
        let agent = expectation.agent;
        if expectation.is_any || site.is_named(agent) {
            continue;
        }
        if let Some(crawler) = meant(alloc, agent.as_bytes())? {
            malformed.push((expectation.number, Flaw::Near(crawler)))?;
        }
    }
    check_lines(alloc, name, malformed)
}

/// Checks the expectations in a text against a file that was read. Fails if there are none.
fn check_read<'a>(
    alloc: Global,
    name: &str,
    text: &'a [u8],
    file: &'a FileReadings<'_>,
) -> Result<(Report, Findings), Error>
    requires { AreReadings file.now.here.bytes.now file.now }
    ensures { IfOk result (λ checked. AreFailuresOf text.now file.now.here.bytes.now
        (length checked.1.items)) }
{
    let expectations = expectations_in(alloc, name, text)?;
    if expectations.is_empty() {
        return Err(without_entries(alloc, name, EntryKind::Expectation));
    }
    check_names(alloc, name, &expectations, &file.here.site)?;
    let all = about_each(alloc, &expectations, &file.here)?;
    let mut report = Failing {
        out: Report::new(alloc),
        name,
        by: other_readers(&file.here.labels),
        line: 0,
        number: 0,
        ignoring: Vec::new(alloc),
        expected: None,
    };
    let found = failures(alloc, &mut report, &all, file)?;
    write_holding(&mut report.out, &found, expectations.len())?;
    Ok((report.out, found))
}

/// Checks the expectations in a text, of a file with this name, against a robots.txt file. The report has a
/// line for each that fails, or how many hold if none fails; the findings are those that fail.
///
/// # Errors
///
/// `Error::Malformed` for all malformed lines of the text, or all with a misspelled name, `Error::Empty` if
/// there are no expectations in it, and `Error::Memory` if an allocation failed or a URL is too long for
/// `url`. An expectation fails if the file is rejected for its crawler, which isn't an error.
pub fn check(
    alloc: Global,
    name: &str,
    text: &[u8],
    file: &[u8],
) -> Result<(Report, Findings), Error>
    ensures { IfOk result (λ checked. AreFailuresOf text.now file.now (length checked.1.items)) }
{
    let readings = FileReadings::new(alloc, "*", file)?;
    check_read(alloc, name, text, &readings)
}
