//! Theorems about the specification, each written as the contract of an empty function.
ghost use Rattle.std.specs.Prelude.{◌&&◌, ◌||◌, [], All, Bool, codes, Contains, false, if◌then◌else◌, ℕ};
ghost use Rattle.std.specs.Prelude.{IsTrue, List, nat_eq, not, slice_get, Some, take, true};
ghost use Rattle.std.specs.Prelude.{◌+◌, ◌↔◌, ◌∷◌, ◌≡◌, ◌≢◌, ◌≤◌, length};
ghost use Rattle.std.specs.List.{count_by, list_any, starts_with};
ghost use Rattle.std.specs.Str.{byte, is_utf8, IsUtf8, str_to_ascii_lowercase};
ghost use Rattle.texting_robots.specs.{Callers.Allow, Labels.IsInOwnGroup};
ghost use Rattle.texting_robots.specs.Callers.{AreLabelsOf, AreRulesFor, Disallow, escaped, HoldsRule, Label};
ghost use Rattle.texting_robots.specs.Callers.{file_limit, file_lines, is_named, IsDecidingLine, IsDenied};
ghost use Rattle.texting_robots.specs.Callers.{IsRobotOfFile, IsVerdict, LineValue, Matches};
ghost use Rattle.texting_robots.specs.Callers.{Rule, PlacedRule, RobotValue, agents_in, bodies_in, delay_for};
ghost use Rattle.texting_robots.specs.Callers.{UserAgent, bodies_read, file_bodies, lines_read, placed_rules};
ghost use Rattle.texting_robots.specs.Callers.{rules_for, unplaced};
ghost use Rattle.robots_rules.specs.Blocks.{HaveSameRobot, IsLeftOf, begin_with_mark};
ghost use Rattle.robots_rules.specs.Needless.{lines_without, numbers_of};
ghost use Rattle.rfc9309.specs.Rfc9309.{Group, IsFile};
ghost use Rattle.rfc9309.specs.Matching.{all_stay, normal_uri};
ghost use Rattle.warning_theorems.specs.{Syntax.IsRobotStated};
ghost use Rattle.rfc9309.specs.StandardTarget.{begins_as_url, written_target};
ghost use Rattle.robots_warnings.specs.Conflicts.{IsConflict, IsEmptyDisallow, is_empty_at, is_overruling};
ghost use Rattle.robots_warnings.specs.Closed.{IsReplacing, line_closing_site, opened_paths, opens_little};
ghost use Rattle.robots_warnings.specs.{Closed.star_count, Conflicts.stated_rules, Contents.is_cut_to_root};
ghost use Rattle.robots_warnings.specs.{Crawlers.IsPastLimit, Positions.is_above_agents};
ghost use Rattle.robots_warnings.specs.{Positions.later_delays, Repeated.IsRepeat, Rules.begins_oddly};
ghost use Rattle.robots_warnings.specs.{Rules.has_dollar_inside, Targets.has_odd_target, Urls.is_unparsable};
ghost use Rattle.audit_core.specs.Audit.{AuditValue, IsAuditOf};
ghost use Rattle.audit_core.specs.{Target.asked_target, Request.RequestValue};
ghost use Rattle.rfc9309.specs.Conformance.{has_syntax};
ghost use Rattle.warning_theorems.specs.Examples as example;

/// The lines that an audit with `--needless` warns of as needless can be deleted together: if exactly these
/// are deleted, every verdict is the same, on any text, for each crawler.
pub fn needless_lines_decide_nothing()
    ensures named { (requested : RequestValue) (file : List ℕ) (audit : AuditValue)
        → (is : IsAuditOf requested file audit)
        → (agent name : List ℕ) → Contains (codes "*" ∷ agents_in (lines_read file)) name
        → str_to_ascii_lowercase agent ≡ str_to_ascii_lowercase name → (text : List ℕ) (answer : Bool)
        → IsVerdict (rules_for agent (lines_read file)) text answer
        ↔ IsVerdict (rules_for agent (lines_without (numbers_of is.needless.rules) (lines_read file)))
        text answer }
    ensures others { (requested : RequestValue) (file : List ℕ) (audit : AuditValue)
        → (is : IsAuditOf requested file audit)
        → (agent : List ℕ) → is_named agent (lines_read file) ≡ false → (text : List ℕ) (answer : Bool)
        → IsVerdict (rules_for agent (lines_read file)) text answer
        ↔ IsVerdict (rules_for agent (lines_without (numbers_of is.needless.rules) (lines_read file)))
        text answer }
{}

/// If exactly these lines are deleted from the file, with their line ends, `Robot::new` gives each crawler
/// the same as before: every verdict, the delay, the sitemaps, and whether the file is rejected. A byte order
/// mark that the file begins with may stay, or be deleted too.
pub fn needless_lines_can_be_deleted()
    ensures { (requested : RequestValue) (file left : List ℕ) (audit : AuditValue) (agent : List ℕ)
        → (is : IsAuditOf requested file audit) → is.needless.rules ≢ []
        → IsLeftOf (numbers_of is.needless.rules) file left
        → IsUtf8 agent → HaveSameRobot agent (take file_limit file) (take file_limit left) }
{}

/// An audit gives a file RFC 9309 syntax exactly if it has at most 512,000 bytes, all of which
/// follow the standard's grammar with the extensions of `rfc9309` (`syntax`). Then each crawler for
/// which it isn't rejected gets the rules, the delay and the sitemaps that it states, where a Crawl-delay
/// ends a list of user-agent lines (`robot`).
pub fn syntax_is_that_of_the_standard()
    ensures syntax { (requested : RequestValue) (file : List ℕ) (audit : AuditValue)
        → IsAuditOf requested file audit
        → (has_syntax audit.syntax ≡ true)
        ↔ ((length file ≤ file_limit) × ((groups : List Group) × IsFile groups file)) }
    ensures robot { (requested : RequestValue) (file : List ℕ) (audit : AuditValue)
        → IsAuditOf requested file audit → has_syntax audit.syntax ≡ true → (agent : List ℕ)
        (robot : RobotValue) → IsRobotOfFile agent (take file_limit file) robot
        → IsRobotStated agent file robot }
{}

/// A file of the grammar, one with a line that isn't in it, and one that isn't looked at.
pub fn examples_of_syntax()
    ensures { example.syntax }
{}

/// A line with `allowed-and-disallowed` has a Disallow that applies to one of the crawlers reported on, and
/// an Allow with the same pattern applies to that crawler too, where `/` and `*` are the same. That Disallow
/// decides no verdict for the crawler: none at all if the patterns are equal (`same`), and none on a path if
/// they are `/` and `*` (`path`).
pub fn allowed_and_disallowed_never_decides()
    ensures same { (is_empty : ℕ → Bool) (agent : List ℕ) (lines : List LineValue) (rules : List PlacedRule)
        (number other : ℕ) (text : List ℕ) → (is : IsConflict is_empty agent lines number other)
        → is.opposed.allowed ≡ is.opposed.pattern → AreRulesFor agent lines rules
        → ¬ IsDecidingLine rules text (Some number) }
    ensures path { (is_empty : ℕ → Bool) (agent : List ℕ) (lines : List LineValue) (rules : List PlacedRule)
        (number other : ℕ) (path : List ℕ) → IsConflict is_empty agent lines number other
        → AreRulesFor agent lines rules → ¬ IsDecidingLine rules (byte "/" ∷ path) (Some number) }
{}

/// The numbers of empty Disallows, as the warnings have them, are those of the Disallows without a value.
pub fn empty_disallows()
    ensures { (name file : List ℕ) (labels : List Label) (number : ℕ)
        → AreLabelsOf name (lines_read file) labels
        → bodies_in labels ≡ bodies_read file
        → IsTrue (is_empty_at labels number) ↔ IsEmptyDisallow (bodies_read file) number }
{}

/// If no line has `empty-disallow` because of the rules of a crawler, every verdict is the same for it where
/// an empty Disallow is no rule, as for RFC 9309 and Google.
pub fn without_empty_disallows()
    ensures { (is_empty : ℕ → Bool) (agent file : List ℕ) (rules : List PlacedRule)
        → ((number : ℕ) → IsTrue (is_empty number) ↔ IsEmptyDisallow (bodies_read file) number)
        → ((number : ℕ) → is_overruling is_empty number (placed_rules agent (lines_read file)) ≡ false)
        → AreRulesFor agent (lines_read file) rules → (text : List ℕ) (answer : Bool)
        → IsVerdict (unplaced rules) text answer
        ↔ IsVerdict (unplaced (stated_rules is_empty rules)) text answer }
{}

/// If `closed-site` is given because of the rules of a crawler, every path is denied to it, unless it
/// begins with `/robots.txt` or with the path of a sitemap that the file lists, or an Allow matches it that
/// opens little.
pub fn closed_site()
    ensures { (agent : List ℕ) (lines : List LineValue) (rules : List PlacedRule) (number : ℕ) (text : List ℕ)
        → line_closing_site lines agent ≡ Some number → AreRulesFor agent lines rules
        → list_any (starts_with nat_eq (byte "/" ∷ text)) (opened_paths lines) ≡ false
        → ((pattern : List ℕ) → Contains (unplaced rules) (pattern, true) → opens_little pattern ≡ true
        → ¬ Matches pattern (byte "/" ∷ text))
        → IsDenied (unplaced rules) (byte "/" ∷ text) }
{}

/// A rule with `repeated-rule` decides no verdict, for any crawler.
pub fn repeated_rule()
    ensures { (agent : List ℕ) (lines : List LineValue) (rules : List PlacedRule) (text : List ℕ) (number : ℕ)
        → IsRepeat lines number → AreRulesFor agent lines rules
        → ¬ IsDecidingLine rules text (Some number) }
{}

/// If lines with `repeated-rule` are deleted from a file of at most 512,000 bytes, one or several or all,
/// with their line ends, every verdict stays the same, for any crawler, unless the first line that stays
/// begins with a byte of the byte order mark.
pub fn repeated_rules_can_be_deleted()
    ensures { (agent file left numbers text : List ℕ) (answer : Bool) → length file ≤ file_limit
        → All (IsRepeat (lines_read file)) numbers
        → IsLeftOf numbers file left → begin_with_mark (lines_without numbers (file_bodies file)) ≡ false
        → IsVerdict (rules_for agent (lines_read file)) text answer
        ↔ IsVerdict (rules_for agent (lines_read left)) text answer }
{}

/// A rule with the error `hash-in-rule` matches every path, also an empty Disallow, which is an Allow of
/// `/`.
pub fn hash_in_rule()
    ensures { (value tail comment path : List ℕ) → is_cut_to_root value tail comment ≡ true
        → Matches (escaped value) (byte "/" ∷ path) }
{}

/// A line with `group-without-star-rules` is a user-agent line, and its list of user-agent lines has the name
/// of a crawler that is reported on. No Disallow that applies to this crawler has the pattern of a Disallow
/// that applies to `*`. The number in the message is how many Disallows `*` has.
pub fn group_without_star_rules()
    ensures group { (agents : List (List ℕ)) (lines : List LineValue) (number : ℕ)
        → IsReplacing agents lines lines number
        → (position : ℕ) × (value agent : List ℕ) × (number ≡ position + 1)
        × (slice_get lines position ≡ Some (UserAgent value)) × Contains agents agent
        × IsInOwnGroup (str_to_ascii_lowercase agent) lines position
        × ((star other : ℕ) (pattern : List ℕ) → HoldsRule (codes "*") lines star (pattern, false)
        → ¬ HoldsRule agent lines other (pattern, false)) }
    ensures count { (lines : List LineValue) (rules : List PlacedRule) → AreRulesFor (codes "*") lines rules
        → star_count lines ≡ count_by (λ (placed : PlacedRule). not placed.rule.1) rules }
{}

/// If lines with `repeated-delay` are deleted from a file of at most 512,000 bytes, one or several or all,
/// with their line ends, the delay of every crawler stays the same, unless the first line that stays begins
/// with a byte of the byte order mark.
pub fn repeated_delay()
    ensures { (name agent file left : List ℕ) (labels : List Label) (numbers : List ℕ)
        → length file ≤ file_limit → AreLabelsOf name (lines_read file) labels
        → All (Contains (later_delays labels)) numbers
        → IsLeftOf numbers file left → begin_with_mark (lines_without numbers (file_bodies file)) ≡ false
        → delay_for agent (lines_read left) ≡ delay_for agent (lines_read file) }
{}

/// A line with `group-past-size-limit` is a user-agent line whose name none of the lines within the size
/// limit has.
pub fn group_past_size_limit()
    ensures { (read : List LineValue) (file : List ℕ) (number : ℕ)
        → IsPastLimit read file number
        → (position : ℕ) × (value : List ℕ) × (number ≡ position + 1)
        × (slice_get (file_lines file) position ≡ Some (UserAgent value)) × (is_named value read ≡ false) }
{}

/// A line with `rule-not-utf-8` has no rule, for any crawler.
pub fn rule_not_utf_8()
    ensures { (value agent : List ℕ) (lines : List LineValue) (position : ℕ) (is_allow : Bool) (rule : Rule)
        → is_utf8 value ≡ false
        → slice_get lines position ≡ Some (if is_allow then Allow value else Disallow value)
        → ¬ HoldsRule agent lines position rule }
{}

/// A line with `rule-before-user-agent` has no rule, for any crawler.
pub fn rule_before_user_agent()
    ensures { (name agent : List ℕ) (lines : List LineValue) (labels : List Label) (position : ℕ)
        (label : Label) (rule : Rule)
        → AreLabelsOf name lines labels → slice_get labels position ≡ Some label
        → is_above_agents label ≡ true
        → ¬ HoldsRule agent lines position rule }
{}

/// A rule with `dollar-not-at-end` matches no text.
#[tactic(auto, using(crate::proofs::WarningLemmas::dollar_inside_matches_nothing))]
pub fn dollar_not_at_end()
    ensures { (value text : List ℕ) → has_dollar_inside value ≡ true → ¬ Matches (escaped value) text }
{}

/// A rule with `missing-slash`, `url-as-rule`, `quoted-rule` or `regex-syntax` that starts with neither a
/// slash nor a star matches no path.
#[tactic(auto, unfolding(texting_robots::specs::Pattern::MatchesWith))]
pub fn missing_slash()
    ensures { (value text : List ℕ) → begins_oddly value ≡ true
        → ¬ Matches (escaped value) (byte "/" ∷ text) }
{}

/// If there is no `url-not-normal`, the match target of a path, or of an http(s) URL that can be parsed, is
/// in normal form, and is that of the path and the query as they are written. So it is what the standard
/// compares.
pub fn url_not_normal()
    ensures { (text : List ℕ)
        → (starts_with nat_eq text (codes "/") || (begins_as_url text && not (is_unparsable text))) ≡ true
        → has_odd_target text ≡ false → (normal_uri all_stay (asked_target text) ≡ asked_target text)
        × (normal_uri all_stay (written_target text) ≡ asked_target text) }
{}
