//! Theorems about the specification. Each is the contract of an empty function. That each input has exactly
//! one result means that contracts which state this result determine it.
ghost use Rattle.std.specs.Prelude.{◌≡◌, ◌≢◌, ◌<◌, ◌↔◌, ◌⊎◌, ℕ, Bool, true, false, not, List, [], ◌∷◌, ◌++◌};
ghost use Rattle.std.specs.Prelude.{Any, ◌+◌, Option, Some, None, IsTrue, IsPermutation, Contains};
ghost use Rattle.std.specs.Prelude.{filter, length, slice_get};
ghost use Rattle.std.specs.declared.cmp.Ordering.TheVariants.{Less, Equal};
ghost use Rattle.std.specs.{List.AllZip, List.filter_map, List.list_any, Str.str_to_ascii_lowercase};
ghost use Rattle.texting_robots.specs.{declared.parser.statement.Kind.Kind, Decision.IsDecidingRule};
ghost use Rattle.texting_robots.specs.{Decision.IsDecidingLine, Statement.IsStatement, Verdict.robots_file};
ghost use Rattle.texting_robots.specs.{Delay.IsDelay, Groups.lines_for, Order.pattern_cmp, Verdict.IsVerdict};
ghost use Rattle.texting_robots.specs.{Cut.IsCut, Cut.Pair, Groups.groups, Order.IsBefore};
ghost use Rattle.texting_robots.specs.Group.{IsCaptured, group_name, is_agent, is_member};
ghost use Rattle.texting_robots.specs.Theorems.{IsSameKind, Same, SameButSitemaps, crlf_to_lf};
ghost use Rattle.texting_robots.specs.Line.{AreFileLinesOf, AreLinesOf, HoldRangesOf, LineValue, delay_in};
ghost use Rattle.texting_robots.specs.Line.{IsLineOf, is_raw, is_sitemap};
ghost use Rattle.texting_robots.specs.Labels.{AreLabelsOf, Label, bodies_in, labels_of};
ghost use Rattle.texting_robots.specs.Executable.{captured_delays, delay_for, file_lines, parsed, placed_in};
ghost use Rattle.texting_robots.specs.Executable.{placed_rules, cut, delay_of, is_captured, rules_for};
ghost use Rattle.texting_robots.specs.Executable.{sitemaps_in};
ghost use Rattle.texting_robots.specs.Pattern.{IsOverlong, Matches, MatchesWith, collapsed};
ghost use Rattle.texting_robots.specs.Robot.{AnswerAlike, IsRobotOf, RobotValue};
ghost use Rattle.texting_robots.specs.Rules.{AreRulesFor, AreSitemapsOf, HoldsRule, IsDelayFor, IsRejected};
ghost use Rattle.texting_robots.specs.Rules.{PlacedRule, Rule, unplaced};
ghost use Rattle.texting_robots.specs.Examples as example;

/// Every input can be split into lines. Each value is a range of bytes of its line's content, except the `/`
/// of an empty Disallow.
pub fn parse_takes_all()
    ensures { (text : List ℕ) → (lines : List LineValue) × AreLinesOf lines text × HoldRangesOf lines text }
{}

/// Ignored lines (`Raw`) change no rule, verdict, delay, sitemap or rejection, but may change line numbers.
pub fn raw_changes_nothing()
    ensures { (agent : List ℕ) (lines others : List LineValue)
        → filter (λ line. not (is_raw line)) lines ≡ filter (λ line. not (is_raw line)) others
        → Same agent lines agent others }
{}

/// Another Allow in place of an Allow, or another Disallow in place of a Disallow, changes nothing for a
/// crawler to which the line doesn't apply.
pub fn uncaptured_reaches_nothing()
    ensures { (agent : List ℕ) (front back : List LineValue) (line other : LineValue) → IsSameKind line other
        → (let lines = front ++ line ∷ back in ¬ IsCaptured (group_name agent lines) lines (length front)
        → Same agent lines agent (front ++ other ∷ back)) }
{}

/// Sitemap lines affect only the sitemaps, and these are the same for every crawler.
pub fn sitemaps_for_all()
    ensures others { (agent : List ℕ) (lines others : List LineValue)
        → filter (λ line. not (is_sitemap line)) lines ≡ filter (λ line. not (is_sitemap line)) others
        → SameButSitemaps agent lines agent others }
    ensures sitemaps { (agent other : List ℕ) (lines : List LineValue) (robot another : RobotValue)
        → IsRobotOf agent lines robot → IsRobotOf other lines another → robot.sitemaps ≡ another.sitemaps }
{}

/// Reordering the rules changes no verdict.
pub fn order_changes_nothing()
    ensures { (rules others : List Rule) (text : List ℕ) (answer : Bool) → IsPermutation rules others
        → IsVerdict rules text answer → IsVerdict others text answer }
{}

/// One more Disallow never makes a denied URL allowed, and one more Allow never makes an allowed URL denied.
pub fn one_more_rule()
    ensures disallow { (front back : List Rule) (pattern text : List ℕ) → IsVerdict (front ++ back) text false
        → IsVerdict (front ++ (pattern, false) ∷ back) text false }
    ensures allow { (front back : List Rule) (pattern text : List ℕ) → IsVerdict (front ++ back) text true
        → IsVerdict (front ++ (pattern, true) ∷ back) text true }
{}

/// Collapsing runs of stars doesn't change what a pattern matches. Which rule is longer is decided before it.
pub fn collapse_keeps_meaning()
    ensures meaning { (anchors : Bool) (pattern text : List ℕ)
        → MatchesWith anchors (collapsed pattern) text ↔ MatchesWith anchors pattern text }
    ensures length { (deny allow text : List ℕ) → text ≢ robots_file → Matches deny text → Matches allow text
        → IsVerdict ((deny, false) ∷ (allow, true) ∷ []) text false ↔ (length allow < length deny) }
{}

/// Crawlers whose product tokens differ only in the case of ASCII letters get the same rules, delay and
/// sitemaps.
pub fn agent_case()
    ensures { (agent other : List ℕ) (lines : List LineValue)
        → str_to_ascii_lowercase agent ≡ str_to_ascii_lowercase other → Same agent lines other lines }
{}

/// The match target `/robots.txt` is always allowed.
pub fn robots_file_allowed()
    ensures { (rules : List Rule) → IsVerdict rules robots_file true }
{}

/// `IsBefore` is a strict total order.
pub fn order_agrees()
    ensures one { (p q : List ℕ) → (p ≡ q) ⊎ (IsBefore p q ⊎ IsBefore q p) }
    ensures not_both { (p q : List ℕ) → IsBefore p q → ¬ IsBefore q p }
    ensures not_equal { (p : List ℕ) → ¬ IsBefore p p }
    ensures transitive { (p q r : List ℕ) → IsBefore p q → IsBefore q r → IsBefore p r }
{}

/// Replacing each CR LF with LF doesn't change the lines.
pub fn cr_lf_is_lf()
    ensures { (text : List ℕ) (lines : List LineValue) → AreLinesOf lines (crlf_to_lf text) ↔ AreLinesOf lines text }
{}

/// Each text has exactly one cut into line contents and terminators.
pub fn each_text_has_one_cut()
    ensures { (text : List ℕ) → IsCut (cut text) text × ((pairs : List Pair) → IsCut pairs text → pairs ≡ cut text) }
{}

/// The content of a line is a directive of at most one kind, with one value.
pub fn one_statement_fits()
    ensures { (kind other : Kind) (value text body : List ℕ) → IsStatement kind value body
        → IsStatement other text body → (kind ≡ other) × (value ≡ text) }
{}

/// Each text denotes exactly one delay or none, as `delay_of` computes it.
pub fn each_text_has_one_delay()
    ensures { (text : List ℕ) (delay : Option ℕ) → IsDelay text delay ↔ delay ≡ delay_of text }
{}

/// Each text has exactly one list of lines, which `parsed` computes.
pub fn each_text_has_its_lines()
    ensures { (text : List ℕ) (lines : List LineValue) → AreLinesOf lines text ↔ lines ≡ parsed text }
{}

/// Each file has exactly one list of lines, which `file_lines` computes.
pub fn each_file_has_its_lines()
    ensures some { (text : List ℕ) → (lines : List LineValue) × AreFileLinesOf lines text }
    ensures one { (text : List ℕ) (lines others : List LineValue) → AreFileLinesOf lines text
        → AreFileLinesOf others text → lines ≡ others }
    ensures computed { (text : List ℕ) (lines : List LineValue) → AreFileLinesOf lines text ↔ lines ≡ file_lines text }
{}

/// `is_captured`, which is a function, agrees with `IsCaptured`, which is a relation.
#[tactic(auto, using(crate::proofs::CapturedLemmas::is_captured_decides))]
pub fn captured_agrees()
    ensures { (name : List ℕ) (lines : List LineValue) (i : ℕ)
        → IsTrue (is_captured name lines i) ↔ IsCaptured name lines i }
{}

/// Each line has exactly one label, which `labels_of` computes from the lines' contents.
pub fn each_line_has_its_label()
    ensures { (name : List ℕ) (lines : List LineValue) (bodies : List (List ℕ)) (labels : List Label)
        → AllZip IsLineOf lines bodies
        → (AreLabelsOf name lines labels × (bodies_in labels ≡ bodies)) ↔ (labels ≡ labels_of name bodies) }
{}

/// The comparison of patterns by `cmp` and `partial_cmp` agrees with `IsBefore` and with equality.
pub fn comparison_agrees()
    ensures less { (p q : List ℕ) → (pattern_cmp p q ≡ Less) ↔ IsBefore p q }
    ensures equal { (p q : List ℕ) → (pattern_cmp p q ≡ Equal) ↔ (p ≡ q) }
{}

/// At most one line decides about a text.
pub fn one_line_decides()
    ensures { (rules : List PlacedRule) (text : List ℕ) (line other : Option ℕ)
        → IsDecidingLine rules text line → IsDecidingLine rules text other → line ≡ other }
{}

/// The deciding line applies to the crawler, and is an Allow or a Disallow with the deciding pattern.
pub fn deciding_line_holds_its_rule()
    ensures { (agent : List ℕ) (lines : List LineValue) (rules : List PlacedRule) (text : List ℕ) (number : ℕ)
        → AreRulesFor agent lines rules → IsDecidingLine rules text (Some number)
        → (placed : PlacedRule) × IsDecidingRule rules text placed × (placed.line ≡ number)
        × (position : ℕ) × (number ≡ position + 1) × HoldsRule agent lines position placed.rule }
{}

/// The deciding line determines the verdict: an Allow allows, and a Disallow denies. If no line decides, the
/// verdict is "allowed".
pub fn deciding_line_gives_the_verdict()
    ensures line { (agent : List ℕ) (lines : List LineValue) (rules : List PlacedRule) (text : List ℕ) (position : ℕ)
        (rule : Rule) → AreRulesFor agent lines rules → IsDecidingLine rules text (Some (position + 1))
        → HoldsRule agent lines position rule → IsVerdict (unplaced rules) text rule.1 }
    ensures none { (rules : List PlacedRule) (text : List ℕ) → IsDecidingLine rules text None
        → IsVerdict (unplaced rules) text true }
{}

/// Lines have exactly one list of rules for a crawler, up to order, and the order changes no result.
/// `placed_rules` computes the list, which also determines whether the lines are rejected.
pub fn each_agent_has_its_rules()
    ensures some { (agent : List ℕ) (lines : List LineValue) → (rules : List PlacedRule) × AreRulesFor agent lines rules }
    ensures one { (agent : List ℕ) (lines : List LineValue) (rules others : List PlacedRule)
        → AreRulesFor agent lines rules → AreRulesFor agent lines others → IsPermutation rules others }
    ensures alike { (agent : List ℕ) (lines : List LineValue) (rules others : List PlacedRule)
        → AreRulesFor agent lines rules → AreRulesFor agent lines others → AnswerAlike rules others }
    ensures computed { (agent : List ℕ) (lines : List LineValue) (rules : List PlacedRule)
        → AreRulesFor agent lines rules ↔ IsPermutation (placed_rules agent lines) rules }
    ensures rejected { (agent : List ℕ) (lines : List LineValue)
        → IsRejected agent lines ↔ Any (λ (rule : Rule). IsOverlong rule.0) (rules_for agent lines) }
{}

/// Lines have exactly one delay for a crawler, or none, as `delay_for` computes it.
pub fn each_agent_has_its_delay()
    ensures { (agent : List ℕ) (lines : List LineValue) (delay : Option ℕ)
        → IsDelayFor agent lines delay ↔ delay ≡ delay_for agent lines }
{}

/// Lines have exactly one list of sitemaps, which `sitemaps_in` computes.
pub fn each_file_has_its_sitemaps()
    ensures { (lines : List LineValue) (sitemaps : List (List ℕ))
        → AreSitemapsOf lines sitemaps ↔ sitemaps ≡ sitemaps_in lines }
{}

/// Worked examples, each a theorem, which `specs/Examples.antt` states.
pub fn examples_of_lines()
    ensures line_ends { example.line_ends }
    ensures lf_before_cr { example.lf_before_cr }
    ensures last_line { example.last_line }
    ensures nul { example.nul }
    ensures cut_short { example.cut_short }
    ensures byte_order_mark { example.byte_order_mark }
    ensures nonstandard_keys { example.nonstandard_keys }
    ensures separators { example.separators }
    ensures no_separator { example.no_separator }
    ensures two_colons { example.two_colons }
    ensures comments { example.comments }
    ensures empty_values { example.empty_values }
    ensures no_number { example.no_number }
{}

pub fn examples_of_delays()
    ensures seconds { example.seconds }
    ensures rounded_down { example.rounded_down }
    ensures greatest { example.greatest }
    ensures minus { example.minus }
    ensures no_delay { example.no_delay }
{}

pub fn examples_of_groups()
    ensures own_group { example.own_group }
    ensures two_names { example.two_names }
    ensures star_group { example.star_group }
    ensures empty_group { example.empty_group }
    ensures captured { example.captured }
    ensures merged_groups { example.merged_groups }
    ensures no_agents { example.no_agents }
    ensures values { example.values }
    ensures raw_in_a_group { example.raw_in_a_group }
    ensures which_delay { example.which_delay }
{}

pub fn examples_of_patterns()
    ensures beginning { example.beginning }
    ensures stars { example.stars }
    ensures ends { example.ends }
    ensures star_after { example.star_after }
    ensures dollar_inside { example.dollar_inside }
    ensures plain_dollar { example.plain_dollar }
    ensures one_star { example.one_star }
    ensures overlong { example.overlong }
    ensures not_overlong { example.not_overlong }
    ensures order { example.order }
{}

pub fn examples_of_verdicts()
    ensures longest { example.longest }
    ensures no_match { example.no_match }
    ensures tie { example.tie }
    ensures stars_count { example.stars_count }
    ensures first_named { example.first_named }
    ensures robots_file { example.robots_file }
    ensures empty_allow { example.empty_allow }
{}

pub fn examples_of_urls()
    ensures prepared_url { example.prepared_url }
    ensures prepared_path { example.prepared_path }
    ensures escapes { example.escapes }
    ensures address { example.address }
    ensures no_address { example.no_address }
{}

pub fn example_of_a_file()
    ensures lines { example.lines }
    ensures robot { example.robot }
    ensures answers { example.answers }
{}

/// If a file has user-agent lines, the rules and delays for a crawler are those in the groups with its group
/// name, in file order: the specification by positions agrees with the groups of RFC 9309.
pub fn captured_by_groups()
    ensures lines { (name : List ℕ) (lines : List LineValue) (position : ℕ) (line : LineValue)
        → list_any is_agent lines ≡ true → slice_get lines position ≡ Some line → IsTrue (is_member line)
        → IsCaptured name lines position ↔ Contains (lines_for name (groups lines)) (position, line) }
    ensures rules { (agent : List ℕ) (lines : List LineValue) → list_any is_agent lines ≡ true
        → placed_rules agent lines ≡ filter_map placed_in (lines_for (group_name agent lines) (groups lines)) }
    ensures delays { (agent : List ℕ) (lines : List LineValue) → list_any is_agent lines ≡ true
        → captured_delays agent lines
        ≡ filter_map (λ line. delay_in line.1) (lines_for (group_name agent lines) (groups lines)) }
{}

/// Crawlers with the same group name have the same robots, so callers can keep one for all that a file
/// doesn't name.
#[tactic(auto, using(crate::proofs::SiteOwnLemmas::same_group_robot))]
pub fn one_robot_a_group()
    ensures { (agent other : List ℕ) (lines : List LineValue) (robot : RobotValue)
        → group_name agent lines ≡ group_name other lines → IsRobotOf agent lines robot → IsRobotOf other lines robot }
{}
