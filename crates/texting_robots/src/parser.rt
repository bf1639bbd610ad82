//! The lines of a robots.txt file. The content of a line is its bytes without the line terminator.
ghost use Rattle.std.specs.Prelude.{◌≡◌, ◌⊎◌, ◌<◌, ◌≤◌, ◌++◌, ◌∷◌, IfErr, IfOk, None, Some, false, length, ℕ};
ghost use Rattle.std.specs.Prelude.{IfSome, MatchOption, map, option_map, true, List};
ghost use Rattle.std.specs.Iterator.{YieldsFirst, YieldsFirstBy, item_count};
ghost use Rattle.std.specs.{List.AllZip, Str.str_to_ascii_lowercase};
ghost use Rattle.texting_robots.specs.Executable.{file_bodies, file_lines, parsed};
ghost use Rattle.texting_robots.specs.Internal.{Cut.bodies_of, Cut.read_as, Line.line_of, Line.line_with};
ghost use Rattle.texting_robots.specs.Internal.{Plain.HoldsPlain, Statement.kind_by, Statement.skip_blanks};
ghost use Rattle.texting_robots.specs.{Group.is_agent, Group.is_agent_named, Group.is_member, Labels.is_named};
ghost use Rattle.texting_robots.specs.Line.{AreFileBodiesOf, AreFileLinesOf, AreLinesOf, HoldRangesOf};
ghost use Rattle.texting_robots.specs.Line.{IsLineOf, by_value, delay_in, is_raw, is_sitemap, nul_as_lf, value_in};
ghost use Rattle.texting_robots.specs.Line.{without_bom};

mod agents;
mod cut;
mod delay;
mod statement;

use crate::error::Error;
use agents::without_others;
pub(crate) use cut::empty_lines;
use cut::{after_end, body_len};
pub use delay::read_delay;
pub use statement::{Kind, field_names};
use statement::{kind_by, seen_value, skip_blanks, tail_as, value_is};
use std::alloc::{AllocError, Global};
use std::marker::Model;

/// A line of a file. A value is what is between separator and comment, without Unicode white space at its
/// ends.
#[derive(Clone, Copy, PartialEq, Eq, Debug)]
pub enum Line<'a> {
    /// The name of a crawler that the group is for, or `*`.
    UserAgent(&'a [u8]),
    /// A pattern of what may be fetched. A Disallow with an empty value is an Allow of `/`.
    Allow(&'a [u8]),
    /// A pattern of what may not be fetched.
    Disallow(&'a [u8]),
    /// The address of a sitemap.
    Sitemap(&'a [u8]),
    /// How many microseconds a crawler has to wait between two requests. The parser never returns `None`
    /// here.
    CrawlDelay(Option<u64>),
    /// A line that is no directive: its whole content.
    Raw(&'a [u8]),
}

impl<'a> Line<'a> {
    /// The value, or the whole content if it is `Raw`. A delay has a number and no bytes.
    pub fn value(self) -> Option<&'a [u8]>
        ensures { option_map (λ value. value.now) result ≡ value_in (by_value self.entry) }
    {
        match self {
            Line::UserAgent(value)
            | Line::Allow(value)
            | Line::Disallow(value)
            | Line::Sitemap(value)
            | Line::Raw(value) => Some(value),
            Line::CrawlDelay(_) => None,
        }
    }

    pub(crate) fn is_member(self) -> bool
        ensures { result ≡ is_member (by_value self.entry) }
    {
        matches!(
            self,
            Line::Allow(_) | Line::Disallow(_) | Line::CrawlDelay(_)
        )
    }
}

/// A line that isn't parsed yet.
#[derive(Drop)]
pub(crate) struct LazyLine<'a> {
    body: &'a [u8],
    /// The line without leading spaces and tabs.
    text: &'a [u8],
    /// Determined by the first letter of `text`.
    kind: Option<Kind>,
}

impl<'a> Model for LazyLine<'a> {
    ghost use Rattle.std.specs.Prelude.{◌≡◌};
    ghost use Rattle.texting_robots.specs.{Line.LineValue, Internal.Line.line_of};
    ghost use Rattle.texting_robots.specs.Internal.Statement.{kind_by, skip_blanks};

    ghost Value = { LineValue };

    ghost view = { λ s. line_of s.body.now };

    ghost invariant = { λ s. (s.text.now ≡ skip_blanks s.body.now) × (s.kind ≡ kind_by s.text.now) };
}

impl<'a> LazyLine<'a> {
    #[inline(always)]
    pub(crate) fn new(body: &'a [u8]) -> Self
        ensures { result ≡ line_of body.now }
    {
        let text = skip_blanks(body);
        LazyLine {
            body,
            text,
            kind: kind_by(text),
        }
    }

    /// The only kind of directive that the line may be.
    #[inline(always)]
    pub(crate) fn kind(&self) -> Option<Kind>
        ensures agent { (result ≡ Some Kind.UserAgent) ⊎ (is_agent self.now ≡ false) }
        ensures delay { (result ≡ Some Kind.CrawlDelay) ⊎ (delay_in self.now ≡ None) }
        ensures sitemap { (result ≡ Some Kind.Sitemap) ⊎ (is_sitemap self.now ≡ false) }
        ensures raw { result ≡ Some Kind.UserAgent → (is_agent self.now ≡ true) ⊎ (is_raw self.now ≡ true) }
    {
        self.kind
    }

    /// Whether the line names the crawler, if it is a user-agent line.
    #[tactic(auto, using(crate::proofs::LineLemmas::no_agent_tail, crate::proofs::LineLemmas::no_agent_kind))]
    #[inline(always)]
    pub(crate) fn naming(&self, agent: &[u8]) -> Option<bool>
        ensures { MatchOption result (is_agent self.now ≡ false) (λ named. (is_agent self.now ≡ true)
            × (named ≡ is_agent_named (str_to_ascii_lowercase agent.now) self.now)) }
    {
        match self.kind {
            Some(Kind::UserAgent) => Some(value_is(tail_as(Kind::UserAgent, self.text)?, agent)),
            _ => None,
        }
    }

    /// Whether the line is a user-agent line that names the crawler.
    #[tactic(auto, using(crate::proofs::AgentLemmas::no_agent))]
    #[inline(always)]
    fn names(&self, agent: &[u8]) -> bool
        ensures { result ≡ is_agent_named (str_to_ascii_lowercase agent.now) self.now }
    {
        match self.naming(agent) {
            Some(is_named) => is_named,
            None => false,
        }
    }

    #[inline(always)]
    pub(crate) fn read(&self) -> Line<'a>
        ensures { by_value result ≡ self.now }
    {
        self.read_seen().0
    }

    /// The line, and the index of the first wildcard of its value, if
    /// [`first_in_plain`](crate::plain::first_in_plain) tells it.
    #[tactic(auto, using(crate::proofs::LineLemmas::line_without_kind))]
    #[inline(always)]
    pub(crate) fn read_seen(&self) -> (Line<'a>, Option<usize>)
        ensures line { by_value result.0 ≡ self.now }
        ensures plain { IfSome result.1 (HoldsPlain (by_value result.0)) }
    {
        match self.kind {
            // the usual kinds are constants, each with code of its own
            Some(Kind::Disallow) => read_kind(Kind::Disallow, self.text, self.body),
            Some(Kind::Allow) => read_kind(Kind::Allow, self.text, self.body),
            Some(kind) => read_kind(kind, self.text, self.body),
            None => (Line::Raw(self.body), None),
        }
    }
}

/// [`LazyLine::read_seen`] of a line whose first letter is that of `kind`.
#[tactic(auto, using(crate::proofs::LineLemmas::line_read, crate::proofs::LineLemmas::line_without_tail, crate::proofs::PlainLemmas::plain_line))]
#[inline(always)]
fn read_kind<'a>(kind: Kind, text: &'a [u8], body: &'a [u8]) -> (Line<'a>, Option<usize>)
    requires { (text.now ≡ skip_blanks body.now) × (kind_by text.now ≡ Some kind) }
    ensures line { by_value result.0 ≡ line_of body.now }
    ensures plain { IfSome result.1 (HoldsPlain (by_value result.0)) }
{
    match tail_as(kind, text) {
        Some(tail) => {
            let (value, first) = seen_value(tail);
            (line_with(kind, value, body), first)
        }
        None => (Line::Raw(body), None),
    }
}

/// The content of the first line, and the later lines. If `nul_ends`, NUL is read as LF.
#[inline(always)]
pub(crate) fn split_line<'a>(text: &'a [u8], nul_ends: bool) -> (&'a [u8], &'a [u8])
    requires { 0 < length text.now }
    ensures lines { bodies_of (read_as nul_ends text.now) ≡ result.0.now ∷ bodies_of (read_as nul_ends result.1.now) }
    ensures parts { (ending : List ℕ) × (text.now ≡ result.0.now ++ (ending ++ result.1.now)) }
    ensures shorter { length result.1.now < length text.now }
{
    let (body, after) = text.split_at(body_len(text, nul_ends));
    (body, after_end(after, nul_ends))
}

/// An iterator over the contents of a file's lines.
#[derive(Drop)]
pub struct BodyIter<'a> {
    rest: &'a [u8],
    nul_ends: bool,
}

impl<'a> Model for BodyIter<'a> {
    ghost use Rattle.std.specs.Prelude.{ℕ, List};
    ghost use Rattle.texting_robots.specs.Internal.Cut.{bodies_of, read_as};

    ghost Value = { List (List ℕ) };

    ghost view = { λ s. bodies_of (read_as s.nul_ends s.rest.now) };
}

impl<'a> Iterator for BodyIter<'a> {
    type Item = &'a [u8];

    ghost next_gives = { YieldsFirstBy (λ body. body.now) (λ s. s) };

    ghost remaining = { item_count (λ s. s) };

    #[inline(always)]
    fn next(&mut self) -> Option<&'a [u8]> {
        if self.rest.is_empty() {
            return None;
        }
        let (body, rest) = split_line(self.rest, self.nul_ends);
        self.rest = rest;
        Some(body)
    }
}

/// An iterator over the lines of a text, which doesn't parse them.
#[derive(Drop)]
pub(crate) struct LazyLines<'a> {
    bodies: BodyIter<'a>,
}

impl<'a> Model for LazyLines<'a> {
    ghost use Rattle.std.specs.Prelude.{List, map};
    ghost use Rattle.texting_robots.specs.{Line.LineValue, Internal.Line.line_of};

    ghost Value = { List LineValue };

    ghost view = { λ s. map line_of s.bodies };
}

impl<'a> LazyLines<'a> {
    /// Whether a user-agent line names the crawler. Other lines are skipped many bytes at a time.
    pub(crate) fn name_agent(&self, agent: &[u8]) -> bool
        ensures { result ≡ is_named agent.now self.now }
    {
        let nul_ends = self.bodies.nul_ends;
        let mut rest = self.bodies.rest;
        while !rest.is_empty() {
            let (body, after) = split_line(rest, nul_ends);
            if LazyLine::new(body).names(agent) {
                return true;
            }
            rest = without_others(after, nul_ends);
        }
        false
    }

    /// The lines with the contents that are left.
    pub(crate) fn of(bodies: &BodyIter<'a>) -> Self
        ensures { result ≡ map line_of bodies.now }
    {
        LazyLines {
            bodies: BodyIter {
                rest: bodies.rest,
                nul_ends: bodies.nul_ends,
            },
        }
    }
}

impl<'a> Iterator for LazyLines<'a> {
    type Item = LazyLine<'a>;

    ghost next_gives = { YieldsFirst (λ s. s) };

    ghost remaining = { item_count (λ s. s) };

    #[inline(always)]
    fn next(&mut self) -> Option<LazyLine<'a>> {
        Some(LazyLine::new(self.bodies.next()?))
    }
}

/// An iterator over the lines of a text.
#[derive(Drop)]
pub struct LineIter<'a> {
    lazy: LazyLines<'a>,
}

impl<'a> Model for LineIter<'a> {
    ghost use Rattle.std.specs.Prelude.{List};
    ghost use Rattle.texting_robots.specs.Line.{LineValue};

    ghost Value = { List LineValue };

    ghost view = { λ s. s.lazy };
}

impl<'a> Iterator for LineIter<'a> {
    type Item = Line<'a>;

    ghost next_gives = { YieldsFirstBy by_value (λ s. s) };

    ghost remaining = { item_count (λ s. s) };

    fn next(&mut self) -> Option<Line<'a>> {
        Some(self.lazy.next()?.read())
    }
}

/// Drops a leading EF, then BB, then BF: a byte order mark or a part of one.
pub(crate) fn without_bom<'a>(text: &'a [u8]) -> &'a [u8]
    ensures value { result.now ≡ without_bom text.now }
    ensures end { (front : List ℕ) × (text.now ≡ front ++ result.now) }
{
    let text = text.strip_prefix(b"\xEF").unwrap_or(text);
    let text = text.strip_prefix(b"\xBB").unwrap_or(text);
    text.strip_prefix(b"\xBF").unwrap_or(text)
}

/// The lines of a text, in order. NUL isn't a line terminator here, unlike in [`file_lines`].
#[tactic(auto, using(crate::proofs::LineLemmas::lines_are, crate::proofs::LineLemmas::lines_range))]
pub fn lines<'a>(input: &'a [u8]) -> LineIter<'a>
    ensures value { result ≡ parsed input.now }
    ensures count { length result ≤ length input.now }
    ensures lines { AreLinesOf result input.now }
    ensures ranges { HoldRangesOf result input.now }
{
    LineIter {
        lazy: LazyLines {
            bodies: BodyIter {
                rest: without_bom(input),
                nul_ends: false,
            },
        },
    }
}

/// The contents of the lines of [`file_lines`], including field names and comments. They are slices of
/// `input`, and contain no CR, LF or NUL.
#[tactic(auto, using(crate::proofs::LineLemmas::file_bodies_are, crate::proofs::LineLemmas::lines_of_file_bodies))]
pub fn file_bodies<'a>(input: &'a [u8]) -> BodyIter<'a>
    ensures value { result ≡ file_bodies input.now }
    ensures bodies { AreFileBodiesOf result input.now }
    ensures lines { AllZip IsLineOf (file_lines input.now) result }
    ensures count { length result ≤ length input.now }
{
    BodyIter {
        rest: without_bom(input),
        nul_ends: true,
    }
}

pub(crate) fn lazy_file_lines<'a>(input: &'a [u8]) -> LazyLines<'a>
    ensures value { result ≡ file_lines input.now }
    ensures count { length result ≤ length input.now }
{
    LazyLines {
        bodies: file_bodies(input),
    }
}

/// The lines of a file, in order. NUL is read as LF. There are no more lines than bytes.
pub fn file_lines<'a>(input: &'a [u8]) -> LineIter<'a>
    ensures value { result ≡ file_lines input.now }
    ensures lines { AreFileLinesOf result input.now }
    ensures ranges { HoldRangesOf result (map nul_as_lf input.now) }
    ensures count { length result ≤ length input.now }
{
    LineIter {
        lazy: lazy_file_lines(input),
    }
}

/// The line of a directive, or `Raw` if its delay can't be read.
#[tactic(auto, using(crate::proofs::DelayLemmas::is_delay_of))]
#[inline(always)]
fn line_with<'a>(kind: Kind, value: &'a [u8], body: &'a [u8]) -> Line<'a>
    ensures { by_value result ≡ line_with kind value.now body.now }
{
    match kind {
        Kind::UserAgent => Line::UserAgent(value),
        Kind::Allow => Line::Allow(value),
        Kind::Disallow => match value {
            [] => Line::Allow(b"/"),
            _ => Line::Disallow(value),
        },
        Kind::Sitemap => Line::Sitemap(value),
        Kind::CrawlDelay => match read_delay(value) {
            Some(delay) => Line::CrawlDelay(Some(delay)),
            None => Line::Raw(body),
        },
    }
}

fn collected<'a>(alloc: Global, lines: LineIter<'a>) -> Result<Vec<Line<'a>>, AllocError>
    ensures { IfOk result (λ all. map by_value all.items ≡ lines.entry) }
{
    let mut all = Vec::new(alloc);
    for line in lines {
        all.push(line)?;
    }
    Ok(all)
}

/// All lines of a text, in order. NUL isn't a line terminator here, unlike in [`file_lines`].
#[tactic(auto, using(crate::proofs::LineLemmas::lines_are, crate::proofs::LineLemmas::lines_range))]
pub fn robots_txt_parse<'a>(alloc: Global, input: &'a [u8]) -> Result<Vec<Line<'a>>, Error>
    ensures value { IfOk result (λ lines. map by_value lines.items ≡ parsed input.now) }
    ensures lines { IfOk result (λ lines. AreLinesOf (map by_value lines.items) input.now) }
    ensures ranges { IfOk result (λ lines. HoldRangesOf (map by_value lines.items) input.now) }
    ensures memory { IfErr result (λ e. e ≡ Error.Memory) }
{
    Ok(collected(alloc, lines(input))?)
}
