//! What a query costs at most, and a query with a budget.
ghost use Rattle.std.specs.Prelude.{◌≡◌, ◌≢◌, ◌+◌, ◌<◌, ◌≤◌, ◌^◌, IfErr, IfNone, IfOk, IfSome, IsOk, None, ℕ};
ghost use Rattle.std.specs.Prelude.{List, length, max, string_bytes};
ghost use Rattle.std.specs.Option.{option_map_or};
ghost use Rattle.texting_robots.specs.{Cost.cost_of, Verdict.robots_file, View.LooksAtMost, View.seen_of};
ghost use Rattle.texting_robots.specs.Decision.{IsDecidingLine, IsDecisionOn};
ghost use Rattle.texting_robots.specs.Internal.Segments.{AreEntries, ArePairsOf, HaveMasks, IsFirstMatch};
ghost use Rattle.texting_robots.specs.Internal.Segments.{NoneBetween, NoneMatches, rules_in};

use super::{NO_RULE, RuleTable, Rules};
use crate::decision::Decision;
use crate::error::TooCostly;
use crate::prefilter::bigrams::BigramSet;
use crate::prefilter::first_near;
use crate::view::View;

impl RuleTable {
    /// The index `at`, or a later one if the rules before it can't match a text with these bigrams.
    fn near(&self, at: usize, pairs: Option<BigramSet>) -> usize
        requires known { AreEntries self.now }
        requires masked { HaveMasks (string_bytes self.now.text) self.now.entries.items self.now.masks.items }
        requires within { at < length self.now.entries.items }
        ensures from { at ≤ result }
        ensures within { result ≤ length self.now.entries.items }
        ensures apart { (text : List ℕ) → ArePairsOf text pairs → NoneBetween self.now text at result }
    {
        let Some(pairs) = pairs else {
            return at;
        };
        let mask = match self.masks.get(at) {
            Some(mask) => BigramSet { bits: *mask },
            None => self.entries[at].prefilter.pairs,
        };
        if mask.are_within(pairs) {
            return at;
        }
        first_near(&self.masks, at + 1, pairs.bits)
    }

    /// The index of the first rule that matches. Each one tried or passed over counts as a look. It
    /// gives up if more looks than the limit might be counted next.
    fn first_within(
        &self,
        view: &mut View<'_>,
        pairs: Option<BigramSet>,
        limit: u64,
    ) -> Result<Option<usize>, TooCostly>
        requires known { AreEntries self.now }
        requires masked { HaveMasks (string_bytes self.now.text) self.now.entries.items self.now.masks.items }
        requires pairs { ArePairsOf view.old.text pairs }
        ensures none { IfOk result (λ found. IfNone found (NoneMatches self.now view.old.text)) }
        ensures some { IfOk result (λ found. IfSome found (IsFirstMatch self.now view.old.text)) }
        ensures text { view.new.text ≡ view.old.text }
        ensures grows { view.old.looks ≤ view.new.looks }
        ensures visits { IfOk result (λ found. view.old.looks
            + option_map_or (λ at. at + 1) found (length self.now.entries.items) ≤ view.new.looks) }
        ensures looks { view.new.looks ≤ max view.old.looks limit }
        ensures costly { IfErr result (λ _. limit
            < view.old.looks + cost_of (rules_in self.now) (length view.old.text)) }
    {
        let len = view.len();
        let mut at = 0;
        while at < self.entries.len() {
            let near = self.near(at, pairs);
            let left = limit.saturating_sub(view.seen());
            if at < near {
                let apart = (near - at) as u64;
                if left < apart {
                    return Err(TooCostly);
                }
                view.count(apart);
                at = near;
                continue;
            }
            let pattern = self.pattern(&self.entries[at]);
            if left <= pattern.most_looks(len) {
                return Err(TooCostly);
            }
            view.count(1);
            if pattern.matches(view) {
                return Ok(Some(at));
            }
            at += 1;
        }
        Ok(None)
    }
}

impl Rules {
    pub(crate) fn cost(&self, len: usize) -> u64
        ensures { result ≡ seen_of (cost_of self.now len) }
    {
        let mut cost: u64 = 0;
        for entry in &self.table.entries {
            let looks = self.table.pattern(entry).most_looks(len);
            cost = cost.saturating_add(1).saturating_add(looks);
        }
        cost
    }

    #[inline(never)]
    pub(crate) fn decision_within(
        &self,
        view: &mut View<'_>,
        pairs: Option<BigramSet>,
        budget: u64,
    ) -> Result<Decision, TooCostly>
        requires { ArePairsOf view.old.text pairs }
        ensures decision { IfOk result (IsDecisionOn self.now view.old.text) }
        ensures looks { LooksAtMost view.old view.new budget }
        ensures visits { IfOk result (λ _. view.old.text ≢ robots_file → IsDecidingLine self.now view.old.text None
            → view.old.looks + length self.now ≤ view.new.looks) }
        ensures ample { cost_of self.now (length view.old.text) ≤ budget
            → view.old.looks + cost_of self.now (length view.old.text) < 2 ^ 64 → IsOk result }
    {
        if view.is_robots_file() {
            return Ok(NO_RULE);
        }
        let limit = view.seen().saturating_add(budget);
        match self.table.first_within(view, pairs, limit)? {
            Some(at) => Ok(self.table.decision_at(at)),
            None => Ok(NO_RULE),
        }
    }
}
