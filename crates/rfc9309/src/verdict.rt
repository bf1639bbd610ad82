//! Where the verdict of this library is that of RFC 9309, sections 2.2.2 and 2.2.3. Each theorem is the
//! contract of an empty function.
ghost use Rattle.std.specs.Prelude.{◌≡◌, ◌↔◌, ℕ, Bool, true, false, List, length, take};
ghost use Rattle.{std.specs.List.AllZip, std.specs.List.list_any, texting_robots.specs.Escape.is_escaped};
ghost use Rattle.rfc9309.specs.Comparable.{AreComparable, IsPlainPath, is_normal};
ghost use Rattle.rfc9309.specs.Matching.{IsMatch, IsRfcVerdict, Reading, all_stay, normal_uri, octets};
ghost use Rattle.rfc9309.specs.{Rfc9309.IsFileWith, StandardRobot.IsReadAs};
ghost use Rattle.texting_robots.specs.Callers.{IsRobotOfFile, IsVerdict, Matches, RobotValue, Rule, escaped};
ghost use Rattle.texting_robots.specs.Callers.{file_limit, unplaced};
ghost use Rattle.rfc9309.specs.Examples as example;
ghost use Rattle.rfc9309.specs.Rfc9309 as rfc;

/// On normal forms, what a pattern of this library matches is what the standard's rule matches, whichever
/// reserved octets are percent-encoded:
///
/// - `matching`: a rule's path matches a URI by the standard exactly if it does here when escaped.
/// - `octets`: the octets of the rule are those of this pattern.
/// - `written`: if nothing is escaped, these are the octets of the path as written.
pub fn normal_paths_match_so()
    ensures matching { (stays : Reading) (path uri : List ℕ) → normal_uri stays uri ≡ uri
        → IsPlainPath stays path → Matches (escaped path) uri ↔ IsMatch stays path uri }
    ensures octets { (stays : Reading) (path : List ℕ) → IsPlainPath stays path
        → length (escaped path) ≡ octets stays path }
    ensures written { (stays : Reading) (path : List ℕ) → IsPlainPath stays path
        → list_any is_escaped path ≡ false → length path ≡ octets stays path }
{}

/// A URI is in normal form, if reserved octets stay, exactly if it contains only unreserved octets, reserved
/// ones other than `*`, `$` and `#`, and `%`, and each escape has uppercase digits and isn't that of an
/// unreserved octet.
pub fn normal_uris_are_those()
    ensures { (uri : List ℕ) → (normal_uri all_stay uri ≡ uri) ↔ (is_normal uri ≡ true) }
{}

/// The verdict of this library is that of the standard, if `AreComparable` holds of the rules and the URI.
/// Here `stays` says which reserved octets stay in a normal form, and `count` gives the octets of a rule, by
/// which one of several matches is chosen:
///
/// - `rules`: for rules that are read from rules of the grammar.
/// - `robot`: for the robot of a file that follows the extended grammar, as `Robot::new` makes it, and the
///   rules of its groups, where a Crawl-delay ends a list of user-agent lines, unlike in the standard.
pub fn verdicts_agree()
    ensures rules { (stays : Reading) (count : List ℕ → ℕ) (members : List rfc.Member) (rules : List Rule)
        (uri : List ℕ) (answer : Bool) → AllZip IsReadAs members rules
        → AreComparable stays count members uri
        → IsVerdict rules uri answer ↔ IsRfcVerdict stays count members uri answer }
    ensures robot { (stays : Reading) (count : List ℕ → ℕ) (agent file uri : List ℕ)
        (groups : List rfc.Group) (numbers : List (List ℕ)) (robot : RobotValue) (answer : Bool)
        → IsFileWith numbers groups (take file_limit file) → IsRobotOfFile agent (take file_limit file) robot
        → AreComparable stays count (rfc.rules_for agent groups) uri
        → IsVerdict (unplaced robot.rules) uri answer
        ↔ IsRfcVerdict stays count (rfc.rules_for agent groups) uri answer }
{}

/// The tables of the standard, and what isn't in normal form, and may be matched otherwise here.
pub fn examples_of_matching()
    ensures encoding { example.encoding }
    ensures literals { example.literals }
    ensures differences { example.differences }
    ensures reserved_in_uri { example.reserved_in_uri }
    ensures reserved_alike { example.reserved_alike }
{}

/// The second example of the standard; rules of several forms that meet the conditions of `verdicts_agree`,
/// by which one URI is disallowed and another one isn't; and an empty Disallow.
pub fn examples_of_verdicts()
    ensures longest { example.longest }
    ensures mixed { example.mixed }
    ensures empty_disallow { example.empty_disallow }
{}
