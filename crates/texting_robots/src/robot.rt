//! The robot: it reads a file for one crawler, and answers whether a URL may be fetched.
ghost use Rattle.std.specs.Prelude.{◌≡◌, ◌≢◌, ◌+◌, ◌*◌, ◌<◌, ◌≤◌, ◌^◌, IfErr, IfOk, IsOk, None, length, take};
ghost use Rattle.std.specs.Prelude.{string_bytes};
ghost use Rattle.texting_robots.specs.{Cost.cost_of, Error.IsMemoryErrorOr, Line.HasLines};
ghost use Rattle.texting_robots.specs.{Prepared.prepared, Prepared.target_of, View.LooksAtMost, View.seen_of};
ghost use Rattle.texting_robots.specs.Verdict.{IsVerdict, robots_file};
ghost use Rattle.texting_robots.specs.Decision.{IsDecidingLine, IsDecisionOn, LooksForRules};
ghost use Rattle.texting_robots.specs.Robot.{IsFileRejected, IsRobotOfFile, file_limit};
ghost use Rattle.texting_robots.specs.Rules.{HasNoRulesOrSitemaps, unplaced};

use crate::builder::read_file;
pub use crate::decision::Decision;
use crate::error::{Error, TooCostly};
use crate::prefilter::bigrams::BigramSet;
use crate::prepared::{match_target, prepare, target};
use crate::rules::Rules;
use crate::view::View;
use std::alloc::{AllocError, Global};
use std::marker::Model;
use url::Url;

/// How many bytes of a file [`Robot::new`] reads: Google's limit of 500 kibibytes.
pub const FILE_LIMIT: usize = 512_000;

/// What a robots.txt file means for one crawler.
#[derive(Debug, Drop)]
pub struct Robot {
    /// How many microseconds the crawler has to wait between two requests, if the file specifies that. It may be
    /// `u64::MAX`, as for `Crawl-delay: inf`, so cap it before you add it to a time.
    pub delay: Option<u64>,
    /// The sitemaps that the file lists, in file order, the same for every crawler.
    pub sitemaps: Vec<String>,
    pub(crate) rules: Rules,
}

impl Model for Robot {
    ghost use Rattle.std.specs.Prelude.{map, string_bytes};
    ghost use Rattle.texting_robots.specs.Robot.{RobotValue};

    ghost Value = { RobotValue };

    ghost view = { λ r. record { delay = r.delay; sitemaps = map string_bytes r.sitemaps.items; rules = r.rules } };
}

impl Robot {
    /// Reads the first [`FILE_LIMIT`] bytes of the file `txt` for the crawler with the product token `agent`.
    ///
    /// `agent` is compared in full with the values of user-agent lines, ASCII letters in any case. It isn't
    /// trimmed. Lines that aren't directives are ignored. Only rules and sitemaps are allocated.
    ///
    /// # Errors
    ///
    /// `Error::InvalidRule` if a rule that applies to this crawler, in UTF-8, contains `$` and has more than
    /// 4,096 bytes, escaped and with each run of stars counted as one. `Error::Memory` if
    /// an allocation fails.
    pub fn new(alloc: Global, agent: &str, txt: &[u8]) -> Result<Self, Error>
        ensures robot { IfOk result (IsRobotOfFile agent.now (take file_limit txt.now)) }
        ensures rejected { IfErr result (IsMemoryErrorOr (IsFileRejected agent.now (take file_limit txt.now))) }
        ensures without_memory { HasLines (take file_limit txt.now) (HasNoRulesOrSitemaps agent.now) → IsOk result }
    {
        Robot::with_limit(alloc, agent, txt, FILE_LIMIT)
    }

    /// Reads the first `limit` bytes of the file `txt`, or all if there are fewer, like [`Robot::new`].
    ///
    /// The limit includes a byte order mark. If it cuts a line, the first part of that line is read as a
    /// line.
    ///
    /// # Errors
    ///
    /// As for [`Robot::new`]. `Error::Memory`, too, if an index into the rules needs more than 32 bits.
    pub fn with_limit(alloc: Global, agent: &str, txt: &[u8], limit: usize) -> Result<Self, Error>
        ensures robot { IfOk result (IsRobotOfFile agent.now (take limit txt.now)) }
        ensures rejected { IfErr result (IsMemoryErrorOr (IsFileRejected agent.now (take limit txt.now))) }
        ensures without_memory { HasLines (take limit txt.now) (HasNoRulesOrSitemaps agent.now) → IsOk result }
    {
        let parts = read_file(alloc, agent, &txt[..limit.min(txt.len())])?;
        Ok(Robot {
            delay: parts.delay,
            sitemaps: parts.sitemaps,
            rules: parts.rules,
        })
    }

    /// How many bytes of memory the robot takes: its own size and the capacities of its vectors. Only a bound
    /// is proved.
    pub fn bytes(&self) -> usize
        ensures { seen_of (64 * length self.now.rules) ≤ result }
    {
        let mut sitemaps = self.sitemaps.capacity().saturating_mul(size_of::<String>());
        for sitemap in &self.sitemaps {
            sitemaps = sitemaps.saturating_add(sitemap.capacity());
        }
        size_of::<Robot>()
            .saturating_add(sitemaps)
            .saturating_add(self.rules.bytes())
    }

    /// The match target of a URL, which patterns are compared with: its path, query and fragment, as the
    /// crate `url` writes them.
    ///
    /// For the empty string it is `/`. A string that isn't a URL, such as a path alone, is escaped as
    /// patterns are. One with neither a scheme nor a leading slash, such as `example.com/a`, usually matches
    /// no rule, and so is allowed.
    ///
    /// # Errors
    ///
    /// `Error::Memory` if an allocation fails, or if the URL has more bytes than `url` can count.
    pub fn prepare_url(alloc: Global, url: &str) -> Result<String, Error>
        ensures ok { IfOk result (λ text. string_bytes text ≡ prepared url.now) }
        ensures memory { IfErr result (λ e. e ≡ Error.Memory) }
    {
        Ok(match_target(alloc, url)?)
    }

    /// Whether the crawler may fetch a URL, or a path alone. Any other string is matched as
    /// described at [`Robot::prepare_url`]. As tests show, it doesn't allocate for a path without
    /// bytes to escape, nor for an `http` or `https` URL without a user that `url` would leave
    /// unchanged, but for a missing last slash, and whose host is a name with a last label that
    /// begins with a letter.
    ///
    /// # Errors
    ///
    /// As for [`Robot::prepare_url`].
    pub fn allowed(&self, alloc: Global, url: &str) -> Result<bool, Error>
        ensures ok { IfOk result (λ answer. IsVerdict (unplaced self.now.rules) (prepared url.now) answer) }
        ensures memory { IfErr result (λ e. e ≡ Error.Memory) }
    {
        let text = prepare(alloc, url)?;
        Ok(self.allowed_prepared(text.as_str()))
    }

    /// Whether the crawler may fetch a URL that is already parsed.
    pub fn allowed_url(&self, url: &Url) -> bool
        ensures { IsVerdict (unplaced self.now.rules) (target_of url.now) result }
    {
        self.allowed_prepared(target(url))
    }

    /// Whether the crawler may fetch the URL with this match target.
    pub fn allowed_prepared(&self, text: &str) -> bool
        ensures { IsVerdict (unplaced self.now.rules) text.now result }
    {
        self.rules.allow(text.as_bytes())
    }

    /// Whether the crawler may fetch a URL, or a path alone, and the line that decides. It reads the URL as
    /// [`Robot::allowed`] does, and allocates only if that call does. It counts no comparisons, so it is
    /// faster than [`Robot::decision`], with the same result.
    ///
    /// # Errors
    ///
    /// If an allocation fails, or if the URL has more bytes than `url` can count.
    pub fn decide(&self, alloc: Global, url: &str) -> Result<Decision, AllocError>
        ensures verdict { IfOk result (λ decision. IsVerdict (unplaced self.now.rules) (prepared url.now) decision.allowed) }
        ensures line { IfOk result (λ decision. IsDecidingLine self.now.rules (prepared url.now) decision.line) }
    {
        let text = prepare(alloc, url)?;
        Ok(self.decide_prepared(text.as_str()))
    }

    /// Whether the crawler may fetch the URL with this match target, and the line that decides. No
    /// comparisons are counted.
    pub fn decide_prepared(&self, text: &str) -> Decision
        ensures verdict { IsVerdict (unplaced self.now.rules) text.now result.allowed }
        ensures line { IsDecidingLine self.now.rules text.now result.line }
    {
        self.rules.decide(text.as_bytes())
    }

    /// Whether the crawler may fetch the URL whose match target is the text of the view. For each
    /// rule it takes at most 2 × (length of the text) looks; a look is one call of [`View::same`].
    /// If a rule matches, only rules count that are at least as long as the longest matching one.
    pub fn allowed_view(&self, view: &mut View<'_>) -> bool
        ensures verdict { IsVerdict (unplaced self.now.rules) view.old.text result }
        ensures looks { LooksForRules self.now.rules view.old view.new }
        ensures cost { view.new.looks ≤ view.old.looks + cost_of self.now.rules (length view.old.text) }
    {
        self.decision(view).allowed
    }

    /// The verdict of [`Robot::allowed_view`], with its bound on looks, and the deciding line.
    pub fn decision(&self, view: &mut View<'_>) -> Decision
        ensures verdict { IsVerdict (unplaced self.now.rules) view.old.text result.allowed }
        ensures line { IsDecidingLine self.now.rules view.old.text result.line }
        ensures looks { LooksForRules self.now.rules view.old view.new }
        ensures cost { view.new.looks ≤ view.old.looks + cost_of self.now.rules (length view.old.text) }
    {
        self.rules.decision(view)
    }

    /// What [`Robot::decision`] costs at most for a text of this length: its looks, and one for each rule.
    pub fn cost(&self, len: usize) -> u64
        ensures { result ≡ seen_of (cost_of self.now.rules len) }
    {
        self.rules.cost(len)
    }

    /// The result of [`Robot::decision`], unless that may take more looks than the budget, by which each rule
    /// that is tried counts as a look, too. Use it for files that may be hostile.
    ///
    /// # Errors
    ///
    /// `TooCostly` if the next rule might take more looks than are left of the budget. A new view and a
    /// budget of at least [`Robot::cost`] never lead to it.
    pub fn decision_within(&self, view: &mut View<'_>, budget: u64) -> Result<Decision, TooCostly>
        ensures decision { IfOk result (IsDecisionOn self.now.rules view.old.text) }
        ensures looks { LooksAtMost view.old view.new budget }
        ensures visits { IfOk result (λ _. view.old.text ≢ robots_file
            → IsDecidingLine self.now.rules view.old.text None
            → view.old.looks + length self.now.rules ≤ view.new.looks) }
        ensures ample { cost_of self.now.rules (length view.old.text) ≤ budget
            → view.old.looks + cost_of self.now.rules (length view.old.text) < 2 ^ 64 → IsOk result }
    {
        self.rules.decision_within(view, None, budget)
    }

    /// [`Robot::decision_within`] for a view of `text`. A rule with a pair of adjacent bytes after
    /// a `*` that the text lacks is usually passed over, as one look. Finding pairs isn't counted.
    ///
    /// # Errors
    ///
    /// `TooCostly`, as for [`Robot::decision_within`].
    pub fn decision_of_target(
        &self,
        text: &str,
        view: &mut View<'_>,
        budget: u64,
    ) -> Result<Decision, TooCostly>
        requires { view.old.text ≡ text.now }
        ensures decision { IfOk result (IsDecisionOn self.now.rules text.now) }
        ensures looks { LooksAtMost view.old view.new budget }
        ensures visits { IfOk result (λ _. text.now ≢ robots_file
            → IsDecidingLine self.now.rules text.now None
            → view.old.looks + length self.now.rules ≤ view.new.looks) }
        ensures ample { cost_of self.now.rules (length text.now) ≤ budget
            → view.old.looks + cost_of self.now.rules (length text.now) < 2 ^ 64 → IsOk result }
    {
        let pairs = BigramSet::of(text.as_bytes());
        self.rules.decision_within(view, Some(pairs), budget)
    }
}
