//! The lines kept by a site that apply to one crawler.
ghost use Rattle.std.specs.Prelude.{◌≡◌, ◌+◌, ◌<◌, ◌≤◌, ◌∷◌, [], MatchOption, drop, length, map};
ghost use Rattle.std.specs.{Iterator.YieldsFirstBy, Iterator.item_count, Str.str_to_ascii_lowercase};
ghost use Rattle.texting_robots.specs.{Internal.Site.AreOfFile, OwnLines.tag_of};
ghost use Rattle.texting_robots.specs.Internal.Site.{IsWalk, IsWholeWalk, own_at, in_front, tag_at};

use crate::site::lines::{KeptLine, MemberLine};
use crate::site::names::NameIndex;
use std::marker::Model;

/// Where an iteration is.
#[derive(Clone, Copy)]
pub(crate) struct Position {
    /// The index of the next user-agent line with the group name, or the number of user-agent lines.
    pub(crate) name_index: usize,
    /// The group whose members are next.
    pub(crate) group: usize,
    /// The index of the next of these members, if one is left.
    pub(crate) at: usize,
}

/// An iterator over the members that apply to a crawler, in file order.
///
/// It goes from one user-agent line with the group name to the next, and returns the members of its group.
#[derive(Drop)]
pub struct OwnLines<'s, 'n> {
    text: &'s [u8],
    lines: &'s [KeptLine],
    names: &'s NameIndex,
    /// The group name.
    name: &'n [u8],
    position: Position,
}

impl<'s, 'n> Model for OwnLines<'s, 'n> {
    ghost use Rattle.std.specs.{Prelude.List, Prelude.map, Str.str_to_ascii_lowercase};
    ghost use Rattle.texting_robots.specs.Internal.Site.{IsWalk, own_at, tag_at};
    ghost use Rattle.texting_robots.specs.OwnLines.{Tagged};

    ghost Value = { List Tagged };

    ghost view = { λ s. own_at (str_to_ascii_lowercase s.name.now) s.position s.names.now
        (map (tag_at s.text.now) s.lines.now) };

    ghost invariant = { λ s. IsWalk (str_to_ascii_lowercase s.name.now) s.position s.names.now
        (map (tag_at s.text.now) s.lines.now) };
}

fn line_of_group<'t>(
    text: &'t [u8],
    lines: &[KeptLine],
    at: usize,
    group: usize,
) -> Option<MemberLine<'t>>
    ensures { MatchOption result (in_front group (drop at (map (tag_at text.now) lines.now)) ≡ []) (λ line. (at < length lines.now)
        × (in_front group (drop at (map (tag_at text.now) lines.now)) ≡ tag_of line ∷ in_front group (drop (at + 1) (map (tag_at text.now) lines.now)))) }
{
    match lines.get(at) {
        Some(line) if line.group == group => Some(line.read(text)),
        _ => None,
    }
}

/// The next line that applies from `start` on, and the position after it.
fn next_line<'t>(
    text: &'t [u8],
    lines: &[KeptLine],
    names: &NameIndex,
    name: &[u8],
    start: Position,
) -> Option<(MemberLine<'t>, Position)>
    requires { IsWalk (str_to_ascii_lowercase name.now) start names.now (map (tag_at text.now) lines.now) }
    ensures { MatchOption result
        (own_at (str_to_ascii_lowercase name.now) start names.now (map (tag_at text.now) lines.now) ≡ [])
        (λ next. IsWalk (str_to_ascii_lowercase name.now) next.1 names.now (map (tag_at text.now) lines.now)
        × (own_at (str_to_ascii_lowercase name.now) start names.now (map (tag_at text.now) lines.now)
        ≡ tag_of next.0 ∷ own_at (str_to_ascii_lowercase name.now) next.1 names.now (map (tag_at text.now) lines.now))) }
{
    let mut name_index = start.name_index;
    let mut group = start.group;
    let mut at = start.at;
    loop {
        if let Some(line) = line_of_group(text, lines, at, group) {
            let at = at + 1;
            return Some((
                line,
                Position {
                    name_index,
                    group,
                    at,
                },
            ));
        }
        let named = names.lines().get(name_index)?;
        name_index = names.after(name_index, name);
        if named.group > group {
            group = named.group;
            at = named.start;
        }
    }
}

/// 0 in a file without user-agent lines, as all members apply then; else the number of members.
fn first_line(lines: &[KeptLine], names: &NameIndex) -> usize
    ensures unnamed { length names.now ≡ 0 → result ≡ 0 }
    ensures named { 0 < length names.now → length lines.now ≤ result }
{
    if names.lines().is_empty() {
        0
    } else {
        lines.len()
    }
}

impl<'s, 'n> OwnLines<'s, 'n> {
    pub(super) fn new(
        text: &'s [u8],
        lines: &'s [KeptLine],
        names: &'s NameIndex,
        name: &'n [u8],
    ) -> Self
        requires { AreOfFile names.now (map (tag_at text.now) lines.now) }
        ensures { IsWholeWalk (str_to_ascii_lowercase name.now) names.now (map (tag_at text.now) lines.now) result }
    {
        let position = Position {
            name_index: names.first(name),
            group: 0,
            at: first_line(lines, names),
        };
        OwnLines {
            text,
            lines,
            names,
            name,
            position,
        }
    }
}

impl<'s, 'n> Iterator for OwnLines<'s, 'n> {
    type Item = MemberLine<'s>;

    ghost next_gives = { YieldsFirstBy tag_of (λ s. s) };

    ghost remaining = { item_count (λ s. s) };

    fn next(&mut self) -> Option<MemberLine<'s>> {
        let (line, position) = next_line(
            self.text,
            self.lines,
            self.names,
            self.name,
            self.position,
        )?;
        self.position = position;
        Some(line)
    }
}
