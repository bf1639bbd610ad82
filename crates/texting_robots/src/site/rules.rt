//! The rules that apply to one crawler.
ghost use Rattle.std.specs.Prelude.{◌≡◌, IfOk, string_bytes};
ghost use Rattle.std.specs.Iterator.{YieldsFirst, item_count};
ghost use Rattle.texting_robots.specs.{Executable.rule_with, OwnLines.rule_of, OwnLines.tag_of, Rules.placed};

use crate::builder::as_text;
use crate::escape::{holds_escaped, push_escaped};
use crate::parser::Line;
use crate::site::lines::MemberLine;
use crate::site::own::OwnLines;
use std::alloc::{AllocError, Global};
use std::marker::Model;

/// An Allow or a Disallow whose value is UTF-8.
#[derive(Drop)]
pub struct SiteRule<'s> {
    /// Verbatim, except that the value of an empty Disallow, which is an Allow, is `/`.
    pub value: &'s str,
    pub is_allow: bool,
    /// Counted from 1 among all lines of the file.
    pub line: usize,
}

impl<'s> Model for SiteRule<'s> {
    ghost use Rattle.texting_robots.specs.{Escape.escaped, Rules.PlacedRule};

    ghost Value = { PlacedRule };

    ghost view = { λ r. record { rule = (escaped r.value.now, r.is_allow); line = r.line } };
}

impl<'s> SiteRule<'s> {
    /// The pattern, which is the escaped value.
    pub fn pattern(&self, alloc: Global) -> Result<String, AllocError>
        ensures { IfOk result (λ pattern. string_bytes pattern ≡ self.now.rule.0) }
    {
        let mut pattern = String::new(alloc);
        push_escaped(
            &mut pattern,
            self.value,
            holds_escaped(self.value.as_bytes()),
        )?;
        Ok(pattern)
    }
}

/// An iterator over the rules that apply to a crawler, in file order.
#[derive(Drop)]
pub struct SiteRules<'s, 'n> {
    pub(super) lines: OwnLines<'s, 'n>,
}

impl<'s, 'n> Model for SiteRules<'s, 'n> {
    ghost use Rattle.std.specs.{Prelude.List, List.filter_map};
    ghost use Rattle.texting_robots.specs.{Rules.PlacedRule, OwnLines.rule_of};

    ghost Value = { List PlacedRule };

    ghost view = { λ s. filter_map rule_of s.lines };
}

fn rule_with<'s>(value: &'s [u8], is_allow: bool, line: usize) -> Option<SiteRule<'s>>
    ensures { result ≡ placed line (rule_with value.now is_allow) }
{
    let value = as_text(value)?;
    Some(SiteRule {
        value,
        is_allow,
        line,
    })
}

fn rule_in<'s>(line: &MemberLine<'s>) -> Option<SiteRule<'s>>
    ensures { result ≡ rule_of (tag_of line.now) }
{
    match line.line {
        Line::Allow(value) => rule_with(value, true, line.number),
        Line::Disallow(value) => rule_with(value, false, line.number),
        _ => None,
    }
}

impl<'s, 'n> Iterator for SiteRules<'s, 'n> {
    type Item = SiteRule<'s>;

    ghost next_gives = { YieldsFirst (λ s. s) };

    ghost remaining = { item_count (λ s. s) };

    fn next(&mut self) -> Option<SiteRule<'s>> {
        loop {
            let line = self.lines.next()?;
            if let Some(rule) = rule_in(&line) {
                return Some(rule);
            }
        }
    }
}
