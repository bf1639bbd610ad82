//! Which lines apply to a crawler. A member of a group is an Allow, a Disallow or a Crawl-delay; it is
//! captured if it applies to the crawler. A first pass finds the group name. A tracker that reads the lines
//! in order then finds the captured ones.
ghost use Rattle.std.specs.Prelude.{◌≡◌, ◌||◌, not, false};
ghost use Rattle.std.specs.{Str.str_to_ascii_lowercase};
ghost use Rattle.texting_robots.specs.{Group.group_name, Labels.is_named, Line.by_value};
ghost use Rattle.texting_robots.specs.{Executable.delay_before_agents};
ghost use Rattle.texting_robots.specs.Internal.Group.{captured_ahead, start_of, step};

use crate::parser::{Kind, LazyLines, Line};

/// What the first pass over a file finds out for a crawler.
#[derive(Drop)]
pub(crate) struct Group<'a> {
    /// The crawler's product token if a user-agent line has it, else `*`.
    pub(crate) name: &'a [u8],
    pub(crate) is_named: bool,
    pub(crate) start: GroupTracker,
    /// The last delay above the first user-agent line, if there are both.
    pub(crate) delay_before_agents: Option<u64>,
}

/// Reads the lines up to the first user-agent line, among which a delay may be, and then looks for a
/// user-agent line that names the crawler.
#[tactic(auto, using(crate::proofs::RulesLemmas::last_or_cons, crate::proofs::NameLemmas::tested_names))]
#[inline(never)]
pub(crate) fn group_for<'a>(agent: &'a [u8], lines: LazyLines<'_>) -> Group<'a>
    ensures name { str_to_ascii_lowercase result.name.now ≡ group_name agent.now lines.entry }
    ensures named { result.is_named ≡ is_named agent.now lines.entry }
    ensures start { result.start ≡ start_of lines.entry }
    ensures delay { result.delay_before_agents ≡ delay_before_agents lines.entry }
{
    let mut left = lines;
    let mut last = None;
    while let Some(line) = left.next() {
        match line.kind() {
            Some(Kind::UserAgent) => {
                if let Line::UserAgent(name) = line.read() {
                    let is_named = name.eq_ignore_ascii_case(agent) || left.name_agent(agent);
                    return Group {
                        name: if is_named { agent } else { b"*" },
                        is_named,
                        start: GroupTracker::start(true),
                        delay_before_agents: last,
                    };
                }
            }
            Some(Kind::CrawlDelay) => {
                if let Line::CrawlDelay(delay) = line.read() {
                    last = delay.or(last);
                }
            }
            _ => {}
        }
    }
    Group {
        name: b"*",
        is_named: false,
        start: GroupTracker::start(false),
        delay_before_agents: None,
    }
}

/// The state while the lines are read from first to last.
#[derive(Clone, Copy)]
pub(crate) struct GroupTracker {
    /// Whether a member at this position would be captured.
    pub(crate) captured: bool,
    /// Whether a user-agent line since the last member has the group name.
    pub(crate) named: bool,
}

impl GroupTracker {
    /// Above all lines. Without user-agent lines all members are captured.
    fn start(has_agents: bool) -> Self
        ensures captured { result.captured ≡ not has_agents }
        ensures named { result.named ≡ false }
    {
        GroupTracker {
            captured: !has_agents,
            named: false,
        }
    }

    /// Reads a user-agent line, which may have the group name.
    pub(crate) fn step_agent(&mut self, is_named: bool)
        ensures { let named = is_named || self.old.named in self.new ≡ record { captured = named; named = named } }
    {
        self.named = self.named || is_named;
        self.captured = self.named;
    }

    #[tactic(auto, using(crate::proofs::NameLemmas::tested_names))]
    pub(crate) fn step(&mut self, name: &[u8], line: Line<'_>)
        ensures { self.new ≡ step (str_to_ascii_lowercase name.now) self.old (by_value line.entry) }
    {
        match line {
            Line::UserAgent(value) => self.step_agent(value.eq_ignore_ascii_case(name)),
            Line::Allow(_) | Line::Disallow(_) | Line::CrawlDelay(_) => self.named = false,
            _ => {}
        }
    }

    /// Whether the next member is captured. If none is left: whether one after the last line would be.
    pub(crate) fn ahead(self, name: &[u8], left: LazyLines<'_>) -> bool
        ensures { result ≡ captured_ahead (str_to_ascii_lowercase name.now) self left.entry }
    {
        let mut tracker = self;
        for line in left {
            let line = line.read();
            if line.is_member() {
                return tracker.captured;
            }
            tracker.step(name, line);
        }
        tracker.captured
    }
}
