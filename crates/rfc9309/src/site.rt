//! Files, and what they mean for one crawler, in RFC 9309's reading.
ghost use Rattle.std.specs.Prelude.{◌≡◌, ◌≤◌, ℕ, IfErr, IfOk, List, length, take};
ghost use Rattle.rfc9309.specs.StandardReading.{IsStandardDecision, IsStandardVerdict, standard_text};
ghost use Rattle.rfc9309.specs.{Matching.all_stay, Matching.normal_uri, StandardTarget.written_target};
ghost use Rattle.texting_robots.specs.Callers.{IsRejectionOf, IsRobotWithoutSitemaps};

use crate::target::StandardTarget;
use crate::text::standard_text;
use std::alloc::{AllocError, Global};
use std::marker::Model;
use texting_robots::{Decision, Robot, RobotError, Site};

/// A file that is read as RFC 9309 reads it, for many crawlers. The delays, the sitemaps, and the names of
/// crawlers are those of the file's own [`Site`].
#[derive(Drop)]
pub struct StandardSite {
    site: Site,
}

impl Model for StandardSite {
    ghost use Rattle.std.specs.Prelude.{ℕ, List};

    ghost Value = { List ℕ };

    ghost view = { λ s. s.site };
}

impl StandardSite {
    /// Reads the first `limit` bytes of the file. No file is rejected here.
    pub fn new(alloc: Global, file: &[u8], limit: usize) -> Result<Self, AllocError>
        ensures { IfOk result (λ site. site ≡ standard_text (take limit file.now)) }
    {
        let text = standard_text(alloc, file, limit)?;
        let site = Site::with_limit(alloc, &text, text.len())?;
        Ok(StandardSite { site })
    }

    /// The `Site` of the text, for lists of rules and group names. Ask its robots only for targets in normal
    /// form, such as a [`StandardTarget`].
    pub fn text_site(&self) -> &Site
        ensures { result.now ≡ self.now }
    {
        &self.site
    }

    /// How many bytes of memory it takes, as [`Site::bytes`] counts them.
    pub fn bytes(&self) -> usize
        ensures { length self.now ≤ result }
    {
        self.site.bytes()
    }

    /// What the file means for the crawler with the product token `agent`.
    ///
    /// # Errors
    ///
    /// `RobotError::Overlong` with the number of the file's line if one of the crawler's rules ends with `$`
    /// and has more than 4,096 bytes in normal form, each run of stars counted as one.
    pub fn robot(&self, alloc: Global, agent: &str) -> Result<StandardRobot, RobotError>
        ensures robot { IfOk result (IsRobotWithoutSitemaps agent.now self.now) }
        ensures rejected { IfErr result (IsRejectionOf agent.now self.now) }
    {
        let robot = self.site.robot_without_sitemaps(alloc, agent)?;
        Ok(StandardRobot { robot })
    }
}

/// What a file means for one crawler, as RFC 9309 reads it.
#[derive(Drop)]
pub struct StandardRobot {
    robot: Robot,
}

impl Model for StandardRobot {
    ghost use Rattle.texting_robots.specs.Robot.{RobotValue};

    ghost Value = { RobotValue };

    ghost view = { λ r. r.robot };
}

impl StandardRobot {
    /// The `Robot` of the text, for its rules and its group. Ask it only for targets in normal form.
    pub fn text_robot(&self) -> &Robot
        ensures { result.now ≡ self.now }
    {
        &self.robot
    }

    /// Whether the crawler may fetch the URL or the path, as [`StandardTarget::new`] reads it.
    pub fn allowed(&self, alloc: Global, url: &str) -> Result<bool, AllocError>
        ensures { IfOk result (λ answer. (agent file : List ℕ)
            → IsRobotWithoutSitemaps agent (standard_text file) self.now
            → IsStandardVerdict agent file (written_target url.now) answer) }
    {
        Ok(self.decision(alloc, url)?.allowed)
    }

    /// Whether the crawler may fetch the URL or the path, and the line that decides.
    #[tactic(auto, using(crate::proofs::StandardLemmas::decides))]
    pub fn decision(&self, alloc: Global, url: &str) -> Result<Decision, AllocError>
        ensures { IfOk result
            (IsStandardDecision self.now (normal_uri all_stay (written_target url.now))) }
    {
        let target = StandardTarget::new(alloc, url)?;
        Ok(self.robot.decide_prepared(target.as_str()))
    }
}
