//! Prints how a file is read as RFC 9309 reads it.
use crate::show::Given;
use rfc9309::StandardSite;
use rfc9309::text::standard_text;
use texting_robots::Error;

/// The text of the first bytes of a file.
pub(crate) fn shows_standard_text(rt: &HostRuntime, given: &Given<'_>) -> Result<bool, Error> {
    let text = standard_text(rt.alloc(), given.file, given.number)?;
    Ok(println!(rt; "{text:?}").is_ok())
}

/// The answers for a crawler on a URL, by the first bytes of a file, or why there are none.
pub(crate) fn shows_standard(
    rt: &HostRuntime,
    given: &Given<'_>,
    url: &str,
) -> Result<bool, Error> {
    let site = StandardSite::new(rt.alloc(), given.file, given.number)?;
    let well = println!(rt; "{}", site.bytes() > given.file.len()).is_ok();
    match site.robot(rt.alloc(), given.word) {
        Ok(robot) => {
            let answer = robot.allowed(rt.alloc(), url)?;
            let decision = robot.decision(rt.alloc(), url)?;
            Ok(well && println!(rt; "{answer} {decision:?}").is_ok())
        }
        Err(error) => Ok(well && println!(rt; "{error:?}").is_ok()),
    }
}
