//! A site: a file that is read once, and the robots, rules, names and sitemaps that it gives.
ghost use Rattle.std.specs.Prelude.{◌≡◌, ◌≤◌, ◌++◌, [], All, IfErr, IfOk, IsOk, None, OnOk, length, map};
ghost use Rattle.std.specs.Prelude.{slice_get, string_bytes, take};
ghost use Rattle.std.specs.List.{filter_map, list_any};
ghost use Rattle.std.specs.{Option.option_to_list, Str.str_to_ascii_lowercase};
ghost use Rattle.texting_robots.specs.{Agents.agents_in, Labels.is_named, Pattern.IsOverlong};
ghost use Rattle.texting_robots.specs.{Line.HasLines, Line.by_value, Group.group_name, Group.is_agent};
ghost use Rattle.texting_robots.specs.Robot.{IsRobotOfFile, IsRobotWithoutSitemaps, file_limit};
ghost use Rattle.texting_robots.specs.Executable.{captured_delays, file_lines, placed_rules, sitemap_in};
ghost use Rattle.texting_robots.specs.Executable.{IsRejectionOf, sitemaps_in};
ghost use Rattle.texting_robots.specs.Rules.{AreRulesFor, AreSitemapsOf, HasNoRulesOrSitemaps, IsDelayFor};
ghost use Rattle.texting_robots.specs.Internal.Segments.{AreEntries, rules_in};
ghost use Rattle.texting_robots.specs.Internal.{Group.text_from, Site.rejection_at};
ghost use Rattle.texting_robots.specs.OwnLines.{delay_of, rule_of};

mod lines;
mod names;
mod own;
mod rules;

use crate::builder::{as_text, push_text};
use crate::error::{Error, RobotError};
use crate::escape::holds_escaped;
use crate::parser::Line;
use crate::robot::{FILE_LIMIT, Robot};
use crate::rules::{RuleTable, Rules};
pub use lines::MemberLine;
use lines::{ByteRange, KeptLine, SiteLines};
use names::NameIndex;
pub use own::OwnLines;
pub use rules::{SiteRule, SiteRules};
use std::alloc::{AllocError, Global};
use std::marker::Model;

/// A robots.txt file that is read once for many crawlers. It has a copy of the bytes, the names in
/// user-agent lines, and the position of each Allow, Disallow, Crawl-delay and sitemap.
#[derive(Drop)]
pub struct Site {
    text: Vec<u8>,
    /// The members (Allow, Disallow and Crawl-delay), in file order.
    lines: Vec<KeptLine>,
    names: NameIndex,
    sitemaps: Vec<ByteRange>,
    /// The last delay above the first user-agent line.
    early: Option<u64>,
}

impl Model for Site {
    ghost use Rattle.std.specs.Prelude.{ℕ, List};
    ghost use Rattle.texting_robots.specs.Internal.Site.{IsIndexOf};

    ghost Value = { List ℕ };

    ghost view = { λ s. s.text.items };

    ghost invariant = { λ s. IsIndexOf s.text.items s.lines.items s.names s.sitemaps.items s.early };
}

fn push_if_text<'a>(texts: &mut Vec<&'a str>, bytes: &'a [u8]) -> Result<(), AllocError>
    ensures { OnOk result (map (λ text. text.now) texts.new.items
        ≡ map (λ text. text.now) texts.old.items ++ option_to_list (text_from bytes.now)) }
{
    let Some(text) = as_text(bytes) else {
        return Ok(());
    };
    texts.push(text)?;
    Ok(())
}

fn push_if_sitemap<'a>(sitemaps: &mut Vec<&'a str>, line: Line<'a>) -> Result<(), AllocError>
    ensures { OnOk result (map (λ text. text.now) sitemaps.new.items
        ≡ map (λ text. text.now) sitemaps.old.items ++ option_to_list (sitemap_in (by_value line.entry))) }
{
    match line {
        Line::Sitemap(value) => push_if_text(sitemaps, value),
        _ => Ok(()),
    }
}

fn push_sitemap(alloc: Global, sitemaps: &mut Vec<String>, line: Line<'_>) -> Result<(), AllocError>
    ensures added { OnOk result (map string_bytes sitemaps.new.items ≡ map string_bytes sitemaps.old.items
        ++ option_to_list (sitemap_in (by_value line.entry))) }
    ensures without_memory { sitemap_in (by_value line.entry) ≡ None → IsOk result }
{
    match line {
        Line::Sitemap(value) => push_text(alloc, sitemaps, value, None),
        _ => Ok(()),
    }
}

fn rejection_at(line: usize, error: Error) -> RobotError
    ensures { result ≡ rejection_at line error }
{
    match error {
        Error::InvalidRule => RobotError::Overlong(line),
        Error::InvalidRobots | Error::Memory => RobotError::Memory,
    }
}

impl Site {
    /// Reads the first [`FILE_LIMIT`] bytes of the file `txt`, in one pass. No file is rejected here: if a
    /// rule is too long, [`Site::robot`] returns an error for the crawlers that it applies to.
    pub fn new(alloc: Global, txt: &[u8]) -> Result<Self, AllocError>
        ensures { IfOk result (λ site. site ≡ take file_limit txt.now) }
    {
        Site::with_limit(alloc, txt, FILE_LIMIT)
    }

    /// Reads the first `limit` bytes of the file `txt`, or all if there are fewer, like [`Site::new`].
    pub fn with_limit(alloc: Global, txt: &[u8], limit: usize) -> Result<Self, AllocError>
        ensures { IfOk result (λ site. site ≡ take limit txt.now) }
    {
        let text = txt[..limit.min(txt.len())].to_vec(alloc)?;
        let lines = SiteLines::read(alloc, &text)?;
        let names = NameIndex::new(alloc, lines.agent_lines)?;
        Ok(Site {
            text,
            lines: lines.member_lines,
            names,
            sitemaps: lines.sitemaps,
            early: lines.early,
        })
    }

    /// How many bytes of memory the site takes: its own size and the capacities of its vectors. Only a bound
    /// is proved.
    pub fn bytes(&self) -> usize
        ensures { length self.now ≤ result }
    {
        let lines = self.lines.capacity().saturating_mul(size_of::<KeptLine>());
        let sitemaps = self
            .sitemaps
            .capacity()
            .saturating_mul(size_of::<ByteRange>());
        size_of::<Site>()
            .saturating_add(self.text.capacity())
            .saturating_add(lines)
            .saturating_add(sitemaps)
            .saturating_add(self.names.bytes())
    }

    /// The bytes that were read.
    pub fn text(&self) -> &[u8]
        ensures { result.now ≡ self.now }
    {
        &self.text
    }

    /// Whether the file has a user-agent line. If it has none, all rules and delays apply to every crawler.
    pub fn has_agents(&self) -> bool
        ensures { result ≡ list_any is_agent (file_lines self.now) }
    {
        !self.names.lines().is_empty()
    }

    /// Whether a user-agent line names the crawler, ASCII letters in any case.
    pub fn is_named(&self, agent: &str) -> bool
        ensures { result ≡ is_named agent.now (file_lines self.now) }
    {
        self.names.first(agent.as_bytes()) < self.names.lines().len()
    }

    /// The group name for the crawler: its product token if a user-agent line has it, else `*`. Crawlers with the same
    /// group name, ASCII letters in any case, have the same robot.
    pub fn group_name<'n>(&self, agent: &'n str) -> &'n [u8]
        ensures { str_to_ascii_lowercase result.now ≡ group_name agent.now (file_lines self.now) }
    {
        if self.is_named(agent) {
            agent.as_bytes()
        } else {
            b"*"
        }
    }

    /// The names in user-agent lines that are UTF-8, in file order, including `*`. Of names that differ only
    /// in the case of ASCII letters, only the first is returned.
    pub fn agents(&self, alloc: Global) -> Result<Vec<&str>, AllocError>
        ensures { IfOk result (λ agents. map (λ agent. agent.now) agents.items ≡ agents_in (file_lines self.now)) }
    {
        let mut agents = Vec::new(alloc);
        for (position, line) in self.names.lines().iter().enumerate() {
            if self.names.first(&line.name) != position {
                continue;
            }
            push_if_text(&mut agents, &line.name)?;
        }
        Ok(agents)
    }

    /// The members that apply to the crawler, in file order.
    pub fn own_lines<'s, 'n>(&'s self, agent: &'n str) -> OwnLines<'s, 'n>
        ensures rules { filter_map rule_of result ≡ placed_rules agent.now (file_lines self.now) }
        ensures delays { filter_map delay_of result ≡ captured_delays agent.now (file_lines self.now) }
    {
        OwnLines::new(&self.text, &self.lines, &self.names, self.group_name(agent))
    }

    /// The rules that apply to the crawler, in file order.
    pub fn rules<'s, 'n>(&'s self, agent: &'n str) -> SiteRules<'s, 'n>
        ensures { result ≡ placed_rules agent.now (file_lines self.now) }
    {
        SiteRules {
            lines: self.own_lines(agent),
        }
    }

    /// The crawler's rules in file order, or the first one that is too long.
    fn own_rules(&self, alloc: Global, agent: &str) -> Result<RuleTable, RobotError>
        ensures known { IfOk result AreEntries }
        ensures rules { IfOk result (λ own. rules_in own ≡ placed_rules agent.now (file_lines self.now)) }
        ensures accepted { IfOk result (λ own. All (λ placed. ¬ IsOverlong placed.rule.0) (rules_in own)) }
        ensures rejected { IfErr result (IsRejectionOf agent.now self.now) }
        ensures without_memory { placed_rules agent.now (file_lines self.now) ≡ [] → IsOk result }
    {
        let mut own = RuleTable::new(alloc, self.text.len());
        for rule in self.rules(agent) {
            if let Err(error) = own.push(
                rule.value,
                holds_escaped(rule.value.as_bytes()),
                None,
                rule.is_allow,
                rule.line,
            ) {
                return Err(rejection_at(rule.line, error));
            }
        }
        Ok(own)
    }

    /// The robot of [`Robot::new`] for the crawler with the product token `agent`, but without sitemaps, or
    /// the reason why there is none. Only members that apply to this crawler are parsed. Only rules are
    /// allocated.
    pub fn robot_without_sitemaps(&self, alloc: Global, agent: &str) -> Result<Robot, RobotError>
        ensures robot { IfOk result (IsRobotWithoutSitemaps agent.now self.now) }
        ensures rejected { IfErr result (IsRejectionOf agent.now self.now) }
        ensures without_memory { HasLines self.now (λ lines. AreRulesFor agent.now lines []) → IsOk result }
    {
        let rules = self.own_rules(alloc, agent)?;
        Ok(Robot {
            delay: self.delay(agent),
            sitemaps: Vec::new(alloc),
            rules: Rules::sorted(rules),
        })
    }

    /// The robot of [`Robot::new`] for the crawler with the product token `agent`, or the reason why there is none.
    pub fn robot(&self, alloc: Global, agent: &str) -> Result<Robot, RobotError>
        ensures robot { IfOk result (IsRobotOfFile agent.now self.now) }
        ensures rejected { IfErr result (IsRejectionOf agent.now self.now) }
        ensures without_memory { HasLines self.now (HasNoRulesOrSitemaps agent.now) → IsOk result }
    {
        let robot = self.robot_without_sitemaps(alloc, agent)?;
        let sitemaps = self.all_sitemaps(alloc)?;
        Ok(Robot { sitemaps, ..robot })
    }

    /// The first delay in the crawler's groups.
    fn own_delay(&self, agent: &str) -> Option<u64>
        ensures { result ≡ slice_get (captured_delays agent.now (file_lines self.now)) 0 }
    {
        for line in self.own_lines(agent) {
            if let Line::CrawlDelay(delay) = line.line
                && delay.is_some()
            {
                return delay;
            }
        }
        None
    }

    /// How many microseconds the crawler with the product token `agent` has to wait between two requests, if
    /// the file specifies that. It is also returned if a rule is too long.
    pub fn delay(&self, agent: &str) -> Option<u64>
        ensures { HasLines self.now (λ lines. IsDelayFor agent.now lines result) }
    {
        self.own_delay(agent).or(self.early)
    }

    /// A copy of the sitemaps, for a robot.
    fn all_sitemaps(&self, alloc: Global) -> Result<Vec<String>, AllocError>
        ensures sitemaps { IfOk result (λ sitemaps. map string_bytes sitemaps.items ≡ sitemaps_in (file_lines self.now)) }
        ensures without_memory { sitemaps_in (file_lines self.now) ≡ [] → IsOk result }
    {
        let mut all = Vec::new(alloc);
        for span in &self.sitemaps {
            push_sitemap(alloc, &mut all, span.line_in(&self.text))?;
        }
        Ok(all)
    }

    /// The sitemaps that the file lists, in file order, the same for every crawler.
    pub fn sitemaps(&self, alloc: Global) -> Result<Vec<&str>, AllocError>
        ensures { IfOk result (λ sitemaps. HasLines self.now
            (λ lines. AreSitemapsOf lines (map (λ text. text.now) sitemaps.items))) }
    {
        let mut all = Vec::new(alloc);
        for span in &self.sitemaps {
            push_if_sitemap(&mut all, span.line_in(&self.text))?;
        }
        Ok(all)
    }
}
