//! The lines of a file with their membership in a crawler's group, for programs that show a site owner what
//! each line does. A member of a group is an Allow, a Disallow or a Crawl-delay.
ghost use Rattle.std.specs.Prelude.{◌≡◌, ◌≤◌, length};
ghost use Rattle.std.specs.Iterator.{YieldsFirstBy, item_count};
ghost use Rattle.texting_robots.specs.{Group.group_name, Line.by_value, Internal.Group.membership_by};
ghost use Rattle.texting_robots.specs.Executable.{file_bodies, file_lines};
ghost use Rattle.texting_robots.specs.Labels.{is_named, label_by_value, labels_of};

use crate::groups::{GroupTracker, group_for};
use crate::parser::{BodyIter, LazyLine, LazyLines, Line, file_bodies, lazy_file_lines};
use std::marker::Model;

/// Whether a line belongs to a crawler's group.
#[derive(Clone, Copy, PartialEq, Eq, Debug)]
pub enum Membership {
    /// In the crawler's group: a member that applies to the crawler, or a user-agent line of a group with the
    /// group name, even if no member follows.
    Own,
    /// In another group: any other member below a user-agent line, or any other user-agent line.
    Other,
    /// In no group: an ignored line, a sitemap, or a member above all user-agent lines, which may still have
    /// the crawler's delay. If a file has no user-agent line, all members are `Own`.
    Ungrouped,
}

/// A line of a file with its number, its membership and its content.
#[derive(Clone, Copy, PartialEq, Eq, Debug)]
pub struct LabeledLine<'a> {
    /// Counted from 1 among all lines of the file, as in `Decision`.
    pub number: usize,
    pub membership: Membership,
    pub line: Line<'a>,
    /// The whole content of the line, including its field name and its comment.
    pub body: &'a [u8],
}

/// An iterator over the labeled lines of a file.
#[derive(Drop)]
pub struct LabeledLineIter<'n, 'a> {
    name: &'n [u8],
    bodies: BodyIter<'a>,
    position: usize,
    tracker: GroupTracker,
    /// Whether a user-agent line was returned.
    begun: bool,
    /// If known: whether the next member applies to the crawler, or, if none is left, whether one would.
    ahead: Option<bool>,
}

impl<'n, 'a> Model for LabeledLineIter<'n, 'a> {
    ghost use Rattle.std.specs.Prelude.{◌≡◌, ◌+◌, ◌<◌, ◌^◌, List, length, map};
    ghost use Rattle.std.specs.{Option.IfSome, Str.str_to_ascii_lowercase};
    ghost use Rattle.texting_robots.specs.Labels.{Label};
    ghost use Rattle.texting_robots.specs.Internal.{Line.line_of, Group.captured_ahead, Group.labels_from};

    ghost Value = { List Label };

    ghost view = { λ s. labels_from (str_to_ascii_lowercase s.name.now) s.tracker s.begun s.position s.bodies };

    ghost invariant = { λ s. (s.position + length s.bodies < 2 ^ 64)
        × IfSome s.ahead (λ known. captured_ahead (str_to_ascii_lowercase s.name.now) s.tracker (map line_of s.bodies)
        ≡ known) };
}

/// `captured`: members apply here; `begun`: this line or one above is a user-agent line.
fn membership_of(captured: bool, begun: bool, line: Line<'_>) -> Membership
    ensures { result ≡ membership_by captured begun (by_value line.entry) }
{
    let of_group = line.is_member() || matches!(line, Line::UserAgent(_));
    if of_group && captured {
        Membership::Own
    } else if of_group && begun {
        Membership::Other
    } else {
        Membership::Ungrouped
    }
}

impl<'n, 'a> Iterator for LabeledLineIter<'n, 'a> {
    type Item = LabeledLine<'a>;

    ghost next_gives = { YieldsFirstBy label_by_value (λ s. s) };

    ghost remaining = { item_count (λ s. s) };

    fn next(&mut self) -> Option<LabeledLine<'a>> {
        let captured = match self.ahead {
            Some(known) => known,
            None => self.tracker.ahead(self.name, LazyLines::of(&self.bodies)),
        };
        let body = self.bodies.next()?;
        let line = LazyLine::new(body).read();
        self.position += 1;
        self.tracker.step(self.name, line);
        self.begun = self.begun || matches!(line, Line::UserAgent(_));
        self.ahead = (!line.is_member()).then_some(captured);
        Some(LabeledLine {
            number: self.position,
            membership: membership_of(captured, self.begun, line),
            line,
            body,
        })
    }
}

/// The lines of the file `txt`, each with its number and its membership for the crawler with the product token `agent`.
/// There are no more lines than bytes.
///
/// All bytes are read, while a robot reads the first [`FILE_LIMIT`](crate::robot::FILE_LIMIT). To
/// compare these lines with a robot's rules or decisions, pass the same bytes.
pub fn labeled_lines<'n, 'a>(agent: &'n str, txt: &'a [u8]) -> LabeledLineIter<'n, 'a>
    ensures labels { result ≡ labels_of (group_name agent.now (file_lines txt.now)) (file_bodies txt.now) }
    ensures count { length result ≤ length txt.now }
{
    let group = group_for(agent.as_bytes(), lazy_file_lines(txt));
    LabeledLineIter {
        name: group.name,
        bodies: file_bodies(txt),
        position: 0,
        tracker: group.start,
        begun: false,
        ahead: None,
    }
}

/// Whether a user-agent line of the file `txt` names the crawler with the product token `agent`, ASCII
/// letters in any case. All bytes are read, as by [`labeled_lines`].
pub fn is_named(agent: &str, txt: &[u8]) -> bool
    ensures { result ≡ is_named agent.now (file_lines txt.now) }
{
    group_for(agent.as_bytes(), lazy_file_lines(txt)).is_named
}
