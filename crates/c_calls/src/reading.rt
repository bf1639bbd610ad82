//! What C keeps of a file: a robot or a site. The file is read as the Rust crate `texting_robots` reads it, or,
//! if `by_rfc9309`, as RFC 9309 does: then a text stands for it, and URLs are compared in normal form.
ghost use Rattle.std.specs.Prelude.{◌≡◌, ◌*◌, ◌≤◌, ℕ, ℤ, IfErr, IfOk, List, length, string_bytes, true};
ghost use Rattle.rfc9309.specs.{StandardReading.IsStandardVerdict, StandardTarget.written_target};
ghost use Rattle.c_calls.specs.File.{IsRobotIn, bytes_read, read_text, site_of, target_in};
ghost use Rattle.c_calls.specs.Verdicts.{IsVerdictFor, is_allowed};
ghost use Rattle.c_calls.specs.{declared.reading.OpenRobot.OpenRobot};
ghost use Rattle.texting_robots.specs.Callers.{IsRejectionOf, seen_of};

use rfc9309::StandardSite;
use rfc9309::normal::normal_target;
use rfc9309::target::written_target;
use std::alloc::{AllocError, Global};
use texting_robots::robot::FILE_LIMIT;
use texting_robots::{Robot, RobotError, Site, match_target};

/// What rules are compared with for a URL.
pub(crate) fn target(alloc: Global, by_rfc9309: bool, url: &str) -> Result<String, AllocError>
    ensures { IfOk result (λ target. string_bytes target ≡ target_in by_rfc9309 url.now) }
{
    if !by_rfc9309 {
        return match_target(alloc, url);
    }
    let target = written_target(alloc, url)?;
    normal_target(alloc, &target)
}

/// What a file means for one crawler.
#[derive(Drop)]
pub struct OpenRobot {
    /// The robot of the file, or of the text that stands for it.
    pub(crate) robot: Robot,
    /// The file's delay for the crawler.
    pub(crate) delay: Option<u64>,
    pub(crate) by_rfc9309: bool,
}

impl OpenRobot {
    /// How many bytes of memory it takes. Only a bound is proved.
    pub(crate) fn bytes(&self) -> usize
        ensures { seen_of (64 * length self.now.robot.rules) ≤ result }
    {
        let more = size_of::<OpenRobot>().saturating_sub(size_of::<Robot>());
        self.robot.bytes().saturating_add(more)
    }
}

/// A file for all crawlers.
#[derive(Drop)]
pub struct OpenSite {
    /// The file itself, which has the delays, the sitemaps and the names.
    pub(crate) file: Site,
    /// In RFC 9309's reading, the text that stands for the file.
    pub(crate) text: Option<StandardSite>,
}

impl OpenSite {
    pub(crate) fn new(alloc: Global, file: &[u8], by_rfc9309: bool) -> Result<Self, AllocError>
        ensures { IfOk result (λ site. site ≡ site_of by_rfc9309 file.now) }
    {
        let site = Site::new(alloc, file)?;
        if !by_rfc9309 {
            return Ok(OpenSite {
                file: site,
                text: None,
            });
        }
        let text = StandardSite::new(alloc, file, FILE_LIMIT)?;
        Ok(OpenSite {
            file: site,
            text: Some(text),
        })
    }

    /// What the rules are read in.
    pub(crate) fn read_site(&self) -> &Site
        ensures { result.now ≡ read_text self.now }
    {
        match &self.text {
            None => &self.file,
            Some(text) => text.text_site(),
        }
    }

    /// The crawler's robot, without sitemaps.
    pub(crate) fn robot(&self, alloc: Global, agent: &str) -> Result<OpenRobot, RobotError>
        ensures robot { IfOk result (IsRobotIn agent.now self.now) }
        ensures rejected { IfErr result (IsRejectionOf agent.now (read_text self.now)) }
    {
        Ok(OpenRobot {
            robot: self.read_site().robot_without_sitemaps(alloc, agent)?,
            delay: self.file.delay(agent),
            by_rfc9309: self.text.is_some(),
        })
    }

    /// How many bytes of memory it takes. Only a bound is proved.
    pub(crate) fn bytes(&self) -> usize
        ensures { length self.now.file ≤ result }
    {
        let more = size_of::<OpenSite>().saturating_sub(size_of::<Site>());
        let text = match &self.text {
            None => 0,
            Some(text) => text.bytes().saturating_sub(size_of::<StandardSite>()),
        };
        self.file.bytes().saturating_add(more).saturating_add(text)
    }
}

/// In RFC 9309's reading, a number is the standard's verdict for the file on the path and query of the URL.
pub fn standard_verdicts_are_those()
    ensures { (agent file url : List ℕ) (robot : OpenRobot) (number : ℤ)
        → IsRobotIn agent (site_of true file) robot → IsVerdictFor robot url number
        → IsStandardVerdict agent (bytes_read file) (written_target url) (is_allowed number) }
{}
