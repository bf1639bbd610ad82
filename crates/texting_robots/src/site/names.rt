//! The user-agent lines of a file, found by their names.
ghost use Rattle.std.specs.Prelude.{◌≡◌, ◌+◌, ◌<◌, ◌%◌, IfOk, drop, length, map, replicate};
ghost use Rattle.std.specs.{List.position_or_len, Str.str_to_ascii_lowercase};
ghost use Rattle.texting_robots.specs.Internal.Site.{AreLinked, first_named, hash_from, bucket_of, is_in};
ghost use Rattle.texting_robots.specs.Internal.Site.{named_of};

use crate::site::lines::AgentLine;
use std::alloc::{AllocError, Global};
use std::marker::Model;

/// The user-agent lines of a file, in file order, and a hash table that finds the next one with a name.
///
/// There are as many buckets as lines. A look-up compares the name with those of one bucket, usually one or
/// two. The hash function is fixed, so someone can write a file whose names are all in one bucket.
#[derive(Drop)]
pub(crate) struct NameIndex {
    lines: Vec<AgentLine>,
    /// For each bucket the index of its first line, or the number of lines.
    heads: Vec<usize>,
    /// For each line the index of the next one in its bucket, or the number of lines.
    nexts: Vec<usize>,
}

impl Model for NameIndex {
    ghost use Rattle.std.specs.Prelude.{List, map};
    ghost use Rattle.texting_robots.specs.Internal.Site.{AreLinked, Named, named_of};

    ghost Value = { List Named };

    ghost view = { λ s. map named_of s.lines.items };

    ghost invariant = { λ s. AreLinked 0 (map named_of s.lines.items) s.heads.items s.nexts.items };
}

/// A hash, which is the same for names that differ only in the case of ASCII letters.
fn hash_of(name: &[u8]) -> usize
    ensures { result ≡ hash_from 0 (str_to_ascii_lowercase name.now) }
{
    let mut hash = 0;
    for byte in name {
        hash = (hash * 33 + usize::from(byte.to_ascii_lowercase())) % 16_777_216;
    }
    hash
}

fn bucket_of(name: &[u8], count: usize) -> usize
    requires { 0 < count }
    ensures value { result ≡ bucket_of count (str_to_ascii_lowercase name.now) }
    ensures within { result < count }
{
    hash_of(name) % count
}

/// Links the lines of each bucket, from the last line to the first.
fn link(lines: &[AgentLine], heads: &mut [usize], nexts: &mut [usize])
    requires heads { heads.old ≡ replicate (length lines.now) (length lines.now) }
    requires nexts { length nexts.old ≡ length lines.now }
    ensures { AreLinked 0 (map named_of lines.now) heads.new nexts.new }
{
    let mut position = lines.len();
    while position > 0 {
        position -= 1;
        let bucket = bucket_of(&lines[position].name, heads.len());
        nexts[position] = heads[bucket];
        heads[bucket] = position;
    }
}

impl NameIndex {
    pub(crate) fn new(alloc: Global, lines: Vec<AgentLine>) -> Result<Self, AllocError>
        ensures { IfOk result (λ names. names ≡ map named_of lines.items) }
    {
        let count = lines.len();
        let mut heads = vec![in alloc; count; count]?;
        let mut nexts = vec![in alloc; count; count]?;
        link(&lines, &mut heads, &mut nexts);
        Ok(NameIndex {
            lines,
            heads,
            nexts,
        })
    }

    pub(crate) fn lines(&self) -> &[AgentLine]
        ensures { map named_of result.now ≡ self.now }
    {
        &self.lines
    }

    /// The first line with the name from `start` on, or the number of lines. `start` is also that
    /// number, or a line of the name's bucket.
    fn find_from(&self, start: usize, name: &[u8]) -> usize
        requires { position_or_len (is_in (length self.now) (bucket_of (length self.now) (str_to_ascii_lowercase name.now)))
            (drop start self.now) ≡ 0 }
        ensures { result ≡ start + first_named (str_to_ascii_lowercase name.now) (drop start self.now) }
    {
        let mut position = start;
        while position < self.lines.len() {
            if self.lines[position].name.eq_ignore_ascii_case(name) {
                return position;
            }
            position = self.nexts[position];
        }
        position
    }

    pub(crate) fn bytes(&self) -> usize {
        let mut bytes = self.lines.capacity().saturating_mul(size_of::<AgentLine>());
        for line in &self.lines {
            bytes = bytes.saturating_add(line.name.capacity());
        }
        let links = self.heads.capacity().saturating_add(self.nexts.capacity());
        bytes.saturating_add(links.saturating_mul(size_of::<usize>()))
    }

    /// The first line with this name, ASCII letters in any case, or the number of lines.
    pub(crate) fn first(&self, name: &[u8]) -> usize
        ensures { result ≡ first_named (str_to_ascii_lowercase name.now) self.now }
    {
        if self.lines.is_empty() {
            return 0;
        }
        let heads = self.heads.as_slice();
        self.find_from(heads[bucket_of(name, heads.len())], name)
    }

    /// The next line with the same name as the line at `position`, or the number of lines.
    pub(crate) fn after(&self, position: usize, name: &[u8]) -> usize
        requires within { position < length self.now }
        requires here { first_named (str_to_ascii_lowercase name.now) (drop position self.now) ≡ 0 }
        ensures { result ≡ position + 1 + first_named (str_to_ascii_lowercase name.now) (drop (position + 1) self.now) }
    {
        self.find_from(self.nexts[position], name)
    }
}
