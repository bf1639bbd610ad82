//! The report on an input.
ghost use Rattle.std.specs.Prelude.{◌≡◌, ◌≢◌, ◌++◌, ◌∷◌, [], Err, IfErr, IfOk, OnOk, Ok, map, string_bytes};
ghost use Rattle.safe_output.specs.Lines.{ended};
ghost use Rattle.robots_verdict.specs.Report.{AddsVerdict, AddsVerdicts, IsReport, delay_line, sitemap_line};

use crate::fault::Fault;
use crate::header::read_header;
use crate::verdicts::{counted_decision_on, push_decision};
use itoa::Buffer;
use safe_output::lines::push_line;
use std::alloc::{AllocError, Global};
use texting_robots::{Error, Robot};

fn push_delay(text: &mut String, delay: Option<u64>) -> Result<(), AllocError>
    ensures { OnOk result (string_bytes text.new ≡ string_bytes text.old
        ++ ended (delay_line delay ∷ [])) }
{
    match delay {
        Some(micros) => push_line(text, "delay ", Buffer::new().format(micros)),
        None => push_line(text, "delay ", "none"),
    }
}

fn push_sitemaps(text: &mut String, sitemaps: &[String]) -> Result<(), AllocError>
    ensures { OnOk result (string_bytes text.new ≡ string_bytes text.old
        ++ ended (map sitemap_line (map string_bytes sitemaps.now))) }
{
    for sitemap in sitemaps {
        push_line(text, "sitemap ", sitemap)?;
    }
    Ok(())
}

/// Appends the line for a URL.
fn push_verdict(alloc: Global, text: &mut String, robot: &Robot, url: &str) -> Result<(), Error>
    ensures ok { OnOk result (AddsVerdict robot.now.rules url.now (string_bytes text.old) (string_bytes text.new)) }
    ensures memory { IfErr result (λ error. error ≡ Error.Memory) }
{
    let decision = counted_decision_on(alloc, robot, url)?;
    push_decision(text, &decision)?;
    Ok(push_line(text, "", url)?)
}

fn push_verdicts(
    alloc: Global,
    text: &mut String,
    robot: &Robot,
    urls: &[&str],
) -> Result<(), Error>
    ensures ok { OnOk result (AddsVerdicts robot.now.rules
        (map (λ url. url.now) urls.now) (string_bytes text.old) (string_bytes text.new)) }
    ensures memory { IfErr result (λ error. error ≡ Error.Memory) }
{
    for url in urls {
        push_verdict(alloc, text, robot, url)?;
    }
    Ok(())
}

pub(crate) fn report_of(alloc: Global, input: &[u8]) -> Result<String, Fault>
    ensures ok { IfOk result (λ text. IsReport input.now (Ok (string_bytes text))) }
    ensures fault { IfErr result (λ fault. fault ≢ Fault.Memory → IsReport input.now (Err fault)) }
    ensures memory { IfErr result (λ fault. fault ≡ Fault.Memory → input.now ≢ []) }
{
    let header = read_header(alloc, input)?;
    let robot = Robot::new(alloc, header.agent, header.file)?;
    let mut text = String::new(alloc);
    push_delay(&mut text, robot.delay)?;
    push_sitemaps(&mut text, &robot.sitemaps)?;
    push_verdicts(alloc, &mut text, &robot, &header.urls)?;
    Ok(text)
}
