//! The lines of a file that a site keeps, and the pass over the file that collects them.
ghost use Rattle.std.specs.Prelude.{◌≡◌, ◌++◌, ◌||◌, IfOk, None, OnOk, [], false, if◌then◌else◌, length, map, true};
ghost use Rattle.std.specs.List.{filter_map};
ghost use Rattle.std.specs.Option.{option_to_list};
ghost use Rattle.texting_robots.specs.Executable.{delay_before_agents, file_lines, sitemap_in, sitemaps_in};
ghost use Rattle.texting_robots.specs.Group.{is_agent};
ghost use Rattle.texting_robots.specs.Line.{UserAgent, by_value};
ghost use Rattle.texting_robots.specs.Internal.Site.{bytes_at, count_after, early_after, joins_after, line_at, listed, named};
ghost use Rattle.texting_robots.specs.Internal.Site.{named_in, named_of, group_after, tag_at, tag_in, tag_of, tagged};

use crate::parser::{LazyLine, Line, empty_lines, split_line, without_bom};
use std::alloc::{AllocError, Global};

/// Where a line's content is in the bytes of a file.
#[derive(Clone, Copy)]
pub(crate) struct ByteRange {
    pub(crate) start: usize,
    pub(crate) len: usize,
}

impl ByteRange {
    fn bytes_in<'t>(self, text: &'t [u8]) -> &'t [u8]
        ensures { result.now ≡ bytes_at text.now self }
    {
        let rest = &text[self.start.min(text.len())..];
        &rest[..self.len.min(rest.len())]
    }

    pub(crate) fn line_in<'t>(self, text: &'t [u8]) -> Line<'t>
        ensures { by_value result ≡ line_at text.now self }
    {
        LazyLine::new(self.bytes_in(text)).read()
    }
}

/// A member of a group: an Allow, a Disallow or a Crawl-delay.
#[derive(Clone, Copy)]
pub struct MemberLine<'a> {
    pub line: Line<'a>,
    /// The number of the line, counted from 1 among all lines of the file.
    pub number: usize,
    /// The number of the first line of its group, or 0 if there is none.
    pub(crate) group: usize,
}

/// A member, by its position in the file.
#[derive(Clone, Copy)]
pub(crate) struct KeptLine {
    pub(crate) span: ByteRange,
    pub(crate) number: usize,
    pub(crate) group: usize,
}

impl KeptLine {
    pub(crate) fn read<'t>(&self, text: &'t [u8]) -> MemberLine<'t>
        ensures { tag_of result ≡ tag_at text.now self.now }
    {
        MemberLine {
            line: self.span.line_in(text),
            number: self.number,
            group: self.group,
        }
    }
}

#[derive(Drop)]
pub(crate) struct AgentLine {
    pub(crate) name: Vec<u8>,
    /// The number of the first line of its group.
    pub(crate) group: usize,
    /// How many members are above it, which is the index of the first of its group.
    pub(crate) start: usize,
}

/// What a site keeps of the lines that were read, and the state between two lines.
#[derive(Drop)]
pub(crate) struct SiteLines {
    pub(crate) member_lines: Vec<KeptLine>,
    pub(crate) agent_lines: Vec<AgentLine>,
    pub(crate) sitemaps: Vec<ByteRange>,
    /// The last delay above the first user-agent line.
    pub(crate) early: Option<u64>,
    /// Whether a user-agent line was read.
    begun: bool,
    /// The first line of the last group, or 0.
    group: usize,
    /// Whether the next user-agent line belongs to it.
    joins: bool,
}

/// The last delay above the user-agent lines, after one more line.
fn early_after(begun: bool, early: Option<u64>, line: Line<'_>) -> Option<u64>
    ensures { result ≡ early_after begun early (by_value line.entry) }
{
    match line {
        Line::CrawlDelay(delay) if !begun => delay.or(early),
        _ => early,
    }
}

impl SiteLines {
    fn new(alloc: Global) -> Self
        ensures lines { result.member_lines.items ≡ [] }
        ensures names { result.agent_lines.items ≡ [] }
        ensures sitemaps { result.sitemaps.items ≡ [] }
        ensures early { result.early ≡ None }
        ensures begun { result.begun ≡ false }
        ensures group { result.group ≡ 0 }
        ensures joins { result.joins ≡ false }
    {
        SiteLines {
            member_lines: Vec::new(alloc),
            agent_lines: Vec::new(alloc),
            sitemaps: Vec::new(alloc),
            early: None,
            begun: false,
            group: 0,
            joins: false,
        }
    }

    fn add_agent(&mut self, alloc: Global, number: usize, name: &[u8]) -> Result<(), AllocError>
        ensures lines { self.new.member_lines ≡ self.old.member_lines }
        ensures names { OnOk result (map named_of self.new.agent_lines.items ≡ map named_of self.old.agent_lines.items
            ++ option_to_list (named_in (group_after self.old.group self.old.joins number (UserAgent name.now))
            (length self.old.member_lines.items) (UserAgent name.now))) }
        ensures sitemaps { self.new.sitemaps ≡ self.old.sitemaps }
        ensures group { self.new.group ≡ group_after self.old.group self.old.joins number (UserAgent name.now) }
        ensures joins { self.new.joins ≡ true }
        ensures early { self.new.early ≡ self.old.early }
        ensures begun { self.new.begun ≡ true }
    {
        if !self.joins {
            self.group = number;
        }
        self.begun = true;
        self.joins = true;
        self.agent_lines.push(AgentLine {
            name: name.to_vec(alloc)?,
            group: self.group,
            start: self.member_lines.len(),
        })?;
        Ok(())
    }

    /// Adds the line with this number, which is at `span`.
    fn add(
        &mut self,
        alloc: Global,
        text: &[u8],
        number: usize,
        span: ByteRange,
    ) -> Result<(), AllocError>
        ensures lines { OnOk result (map (tag_at text.now) self.new.member_lines.items
            ≡ map (tag_at text.now) self.old.member_lines.items
            ++ option_to_list (tag_in self.old.group number (line_at text.now span))) }
        ensures count { OnOk result (length self.new.member_lines.items
            ≡ count_after (length self.old.member_lines.items) (line_at text.now span)) }
        ensures names { OnOk result (map named_of self.new.agent_lines.items ≡ map named_of self.old.agent_lines.items
            ++ option_to_list (named_in (group_after self.old.group self.old.joins number (line_at text.now span))
            (length self.old.member_lines.items) (line_at text.now span))) }
        ensures sitemaps { OnOk result (filter_map (listed text.now) self.new.sitemaps.items
            ≡ filter_map (listed text.now) self.old.sitemaps.items ++ option_to_list (sitemap_in (line_at text.now span))) }
        ensures group { OnOk result (self.new.group ≡ group_after self.old.group self.old.joins number (line_at text.now span)) }
        ensures joins { OnOk result (self.new.joins ≡ joins_after self.old.joins (line_at text.now span)) }
        ensures early { OnOk result (self.new.early ≡ early_after self.old.begun self.old.early (line_at text.now span)) }
        ensures begun { OnOk result (self.new.begun ≡ (self.old.begun || is_agent (line_at text.now span))) }
    {
        let line = span.line_in(text);
        self.early = early_after(self.begun, self.early, line);
        match line {
            Line::UserAgent(name) => self.add_agent(alloc, number, name),
            Line::Allow(_) | Line::Disallow(_) | Line::CrawlDelay(_) => {
                self.joins = false;
                let group = self.group;
                self.member_lines.push(KeptLine {
                    span,
                    number,
                    group,
                })?;
                Ok(())
            }
            Line::Sitemap(_) => {
                self.sitemaps.push(span)?;
                Ok(())
            }
            _ => Ok(()),
        }
    }

    /// `early` is dropped if there was no user-agent line.
    fn finished(self) -> Self
        ensures lines { result.member_lines ≡ self.member_lines }
        ensures names { result.agent_lines ≡ self.agent_lines }
        ensures sitemaps { result.sitemaps ≡ self.sitemaps }
        ensures early { result.early ≡ (if self.begun then self.early else None) }
    {
        let early = if self.begun { self.early } else { None };
        SiteLines { early, ..self }
    }

    pub(crate) fn read(alloc: Global, text: &[u8]) -> Result<Self, AllocError>
        ensures lines { IfOk result (λ s. map (tag_at text.now) s.member_lines.items ≡ tagged (file_lines text.now)) }
        ensures names { IfOk result (λ s. map named_of s.agent_lines.items ≡ named (file_lines text.now)) }
        ensures sitemaps { IfOk result (λ s. filter_map (listed text.now) s.sitemaps.items
            ≡ sitemaps_in (file_lines text.now)) }
        ensures early { IfOk result (λ s. s.early ≡ delay_before_agents (file_lines text.now)) }
    {
        let mut lines = SiteLines::new(alloc);
        let mut number = 0;
        let mut rest = without_bom(text);
        while !rest.is_empty() {
            let start = text.len() - rest.len();
            let (body, after) = split_line(rest, true);
            let len = body.len();
            number += 1;
            lines.add(alloc, text, number, ByteRange { start, len })?;
            // an empty line changes nothing but the number
            let empty = empty_lines(after, true);
            number += empty;
            rest = after.split_at(empty).1;
        }
        Ok(lines.finished())
    }
}
