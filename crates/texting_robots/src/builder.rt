//! Reads a whole file for one crawler: the rules and the delay that apply, and the sitemaps.
ghost use Rattle.std.specs.Prelude.{◌≡◌, ◌++◌, [], IfErr, IfOk, IsOk, MatchOption, None, OnOk, false, map};
ghost use Rattle.std.specs.Prelude.{string_bytes, true};
ghost use Rattle.std.specs.Option.{IfSome, IsSomeAnd, option_or, option_to_list};
ghost use Rattle.std.specs.{List.list_any, Str.is_utf8, Str.str_to_ascii_lowercase};
ghost use Rattle.texting_robots.specs.Internal.Segments.{AreEntries, rules_in};
ghost use Rattle.texting_robots.specs.{Error.IsMemoryErrorOr, Escape.is_escaped, Pattern.IsOverlong};
ghost use Rattle.texting_robots.specs.{Executable.file_lines, Line.delay_in};
ghost use Rattle.texting_robots.specs.Executable.{placed_rules, rule_in, rule_with, sitemap_in, sitemaps_in};
ghost use Rattle.texting_robots.specs.Internal.Group.{if_captured, placed, step, text_from};
ghost use Rattle.texting_robots.specs.Internal.{Plain.IsPlain, Robot.IsComputedRobot};
ghost use Rattle.texting_robots.specs.{Robot.IsFileRejected};

use crate::error::Error;
use crate::escape::holds_escaped;
use crate::groups::{GroupTracker, group_for};
use crate::parser::{Kind, LazyLine, Line, lazy_file_lines};
use crate::rules::{RuleTable, Rules};
use percent_encoding::ascii_str;
use std::alloc::{AllocError, Global};
use std::marker::Model;

/// The parts of a robot.
#[derive(Drop)]
pub(crate) struct Parts {
    pub(crate) delay: Option<u64>,
    pub(crate) sitemaps: Vec<String>,
    pub(crate) rules: Rules,
}

impl Model for Parts {
    ghost use Rattle.std.specs.Prelude.{map, string_bytes};
    ghost use Rattle.texting_robots.specs.Robot.{RobotValue};

    ghost Value = { RobotValue };

    ghost view = { λ p. record { delay = p.delay; sitemaps = map string_bytes p.sitemaps.items; rules = p.rules } };
}

/// What the lines read so far give a crawler.
#[derive(Drop)]
pub(crate) struct RobotBuilder {
    pub(crate) tracker: GroupTracker,
    /// The first delay that applies.
    pub(crate) delay: Option<u64>,
    pub(crate) sitemaps: Vec<String>,
    pub(crate) rules: RuleTable,
}

/// The value, if it is UTF-8, and whether some byte has to be escaped. If none has, it is ASCII.
fn decoded<'a>(value: &'a [u8]) -> Option<(&'a str, bool)>
    ensures { MatchOption result (is_utf8 value.now ≡ false) (λ decoded. (is_utf8 value.now ≡ true)
        × (decoded.0.now ≡ value.now) × (decoded.1 ≡ list_any is_escaped value.now)) }
{
    if !holds_escaped(value) {
        return Some((ascii_str(value), false));
    }
    match std::str::from_utf8(value) {
        Ok(text) => Some((text, true)),
        Err(_) => None,
    }
}

pub(crate) fn as_text<'a>(value: &'a [u8]) -> Option<&'a str>
    ensures { MatchOption result (is_utf8 value.now ≡ false)
        (λ text. (is_utf8 value.now ≡ true) × (text.now ≡ value.now)) }
{
    match decoded(value) {
        Some((text, _)) => Some(text),
        None => None,
    }
}

/// [`decoded`] of a value. With `first`, see [`LazyLine::read_seen`], no byte of it has to be looked at.
fn decoded_seen<'a>(value: &'a [u8], first: Option<usize>) -> Option<(&'a str, bool)>
    requires { IfSome first (IsPlain value.now) }
    ensures { MatchOption result (is_utf8 value.now ≡ false) (λ decoded. (is_utf8 value.now ≡ true)
        × (decoded.0.now ≡ value.now) × (decoded.1 ≡ list_any is_escaped value.now)) }
{
    match first {
        Some(_) => Some((ascii_str(value), false)),
        None => decoded(value),
    }
}

/// Adds the rule of a value, or nothing if that isn't UTF-8. `first`: see [`LazyLine::read_seen`].
fn push_rule(
    rules: &mut RuleTable,
    value: &[u8],
    first: Option<usize>,
    is_allow: bool,
    line: usize,
) -> Result<(), Error>
    requires known { AreEntries rules.old }
    requires plain { IfSome first (IsPlain value.now) }
    ensures known { OnOk result (AreEntries rules.new) }
    ensures added { OnOk result (rules_in rules.new
        ≡ rules_in rules.old ++ option_to_list (placed line (rule_with value.now is_allow))) }
    ensures accepted { OnOk result (IfSome (rule_with value.now is_allow) (λ rule. ¬ IsOverlong rule.0)) }
    ensures rejected { IfErr result (IsMemoryErrorOr
        (IsSomeAnd (rule_with value.now is_allow) (λ rule. IsOverlong rule.0))) }
    ensures without_memory { rule_with value.now is_allow ≡ None → IsOk result }
{
    match decoded_seen(value, first) {
        Some((text, holds_escaped)) => rules.push(text, holds_escaped, first, is_allow, line),
        None => Ok(()),
    }
}

pub(crate) fn push_text(
    alloc: Global,
    texts: &mut Vec<String>,
    value: &[u8],
    first: Option<usize>,
) -> Result<(), AllocError>
    requires { IfSome first (IsPlain value.now) }
    ensures added { OnOk result (map string_bytes texts.new.items ≡ map string_bytes texts.old.items
        ++ option_to_list (text_from value.now)) }
    ensures without_memory { text_from value.now ≡ None → IsOk result }
{
    let Some((text, _)) = decoded_seen(value, first) else {
        return Ok(());
    };
    texts.push(String::from_str(alloc, text)?)?;
    Ok(())
}

impl RobotBuilder {
    pub(crate) fn new(alloc: Global, start: GroupTracker, file_len: usize) -> Self
        ensures known { AreEntries result.rules }
        ensures tracker { result.tracker ≡ start }
        ensures delay { result.delay ≡ None }
        ensures sitemaps { map string_bytes result.sitemaps.items ≡ [] }
        ensures rules { rules_in result.rules ≡ [] }
    {
        RobotBuilder {
            tracker: start,
            delay: None,
            sitemaps: Vec::new(alloc),
            rules: RuleTable::new(alloc, file_len),
        }
    }

    /// Reads the next line, for the group `name`. Only a rule or a sitemap is allocated. If members
    /// don't apply here, only user-agent lines and sitemaps are parsed.
    #[tactic(auto, using(crate::proofs::RulesLemmas::no_sitemap, crate::proofs::RulesLemmas::nothing_in))]
    pub(crate) fn take(
        &mut self,
        alloc: Global,
        name: &[u8],
        number: usize,
        line: &LazyLine<'_>,
    ) -> Result<(), Error>
        requires { AreEntries self.old.rules }
        ensures known { OnOk result (AreEntries self.new.rules) }
        ensures tracker { OnOk result (self.new.tracker ≡ step (str_to_ascii_lowercase name.now) self.old.tracker line.now) }
        ensures rules { OnOk result (rules_in self.new.rules ≡ rules_in self.old.rules
            ++ option_to_list (if_captured self.old.tracker (placed number (rule_in line.now)))) }
        ensures sitemaps { OnOk result (map string_bytes self.new.sitemaps.items
            ≡ map string_bytes self.old.sitemaps.items ++ option_to_list (sitemap_in line.now)) }
        ensures delay { OnOk result (self.new.delay ≡ option_or self.old.delay (if_captured self.old.tracker (delay_in line.now))) }
        ensures accepted { OnOk result (IfSome (if_captured self.old.tracker (placed number (rule_in line.now)))
            (λ placed. ¬ IsOverlong placed.rule.0)) }
        ensures rejected { IfErr result (IsMemoryErrorOr
            (IsSomeAnd (if_captured self.old.tracker (placed number (rule_in line.now))) (λ placed. IsOverlong placed.rule.0))) }
        ensures without_memory { if_captured self.old.tracker (placed number (rule_in line.now)) ≡ None
            → sitemap_in line.now ≡ None → IsOk result }
    {
        let captured = self.tracker.captured;
        match line.kind() {
            Some(Kind::UserAgent) => {
                if let Some(is_named) = line.naming(name) {
                    self.tracker.step_agent(is_named);
                }
                return Ok(());
            }
            Some(Kind::Sitemap) => {}
            _ => {
                if !captured && !self.tracker.named {
                    return Ok(());
                }
            }
        }
        let (line, first) = line.read_seen();
        self.tracker.step(name, line);
        match line {
            Line::Sitemap(value) => Ok(push_text(alloc, &mut self.sitemaps, value, first)?),
            _ if !captured => Ok(()),
            Line::Allow(value) => push_rule(&mut self.rules, value, first, true, number),
            Line::Disallow(value) => push_rule(&mut self.rules, value, first, false, number),
            Line::CrawlDelay(delay) => {
                self.delay = self.delay.or(delay);
                Ok(())
            }
            Line::UserAgent(_) | Line::Raw(_) => Ok(()),
        }
    }
}

/// Reads a file in two passes: the first finds the crawler's group name, the second what applies.
pub(crate) fn read_file(alloc: Global, agent: &str, txt: &[u8]) -> Result<Parts, Error>
    ensures robot { IfOk result (IsComputedRobot agent.now (file_lines txt.now)) }
    ensures rejected { IfErr result (IsMemoryErrorOr (IsFileRejected agent.now txt.now)) }
    ensures without_memory { placed_rules agent.now (file_lines txt.now) ≡ []
        → sitemaps_in (file_lines txt.now) ≡ [] → IsOk result }
{
    let group = group_for(agent.as_bytes(), lazy_file_lines(txt));
    let mut reading = RobotBuilder::new(alloc, group.start, txt.len());
    for (position, line) in lazy_file_lines(txt).enumerate() {
        reading.take(alloc, group.name, position + 1, &line)?;
    }
    Ok(Parts {
        delay: reading.delay.or(group.delay_before_agents),
        sitemaps: reading.sitemaps,
        rules: Rules::sorted(reading.rules),
    })
}
