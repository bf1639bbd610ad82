//! The grammar of RFC 9309, section 2.2, and what this library does with a file that follows it: theorems
//! about the specification, each written as the contract of an empty function. Any other file, too, has its
//! verdicts by the standard: [`StandardSite`] and [`StandardRobot`] read it so.
#![tactic(auto)]

pub mod conformance;
pub mod edits;
mod grammar;
pub mod normal;
pub mod site;
pub mod standard;
pub mod target;
pub mod text;
pub mod verdict;

ghost use Rattle.std.specs.Prelude.{◌≡◌, ℕ, All, true, List, codes, take};
ghost use Rattle.std.specs.List.{AllZip};
ghost use Rattle.rfc9309.specs.LineForms.{AreForms, Form, HasForm};
ghost use Rattle.rfc9309.specs.StandardRobot.{IsReadAs, IsRejectedAs, IsRobotAs};
ghost use Rattle.rfc9309.specs.{LineTest.has_form, Rfc9309.IsFileWith};
ghost use Rattle.texting_robots.specs.Executable.{file_lines, rules_for, sitemaps_in};
ghost use Rattle.texting_robots.specs.Robot.{IsFileRejected, IsRobotOfFile, RobotValue, file_limit};
ghost use Rattle.texting_robots.specs.{Cut.IsBodyByte, Trim.IsTrimOf};
ghost use Rattle.rfc9309.specs.Rfc9309 as rfc;
ghost use Rattle.rfc9309.specs.Sample as sample;

pub use site::{StandardRobot, StandardSite};
pub use target::StandardTarget;

/// Files that follow the extended grammar `IsFile`:
///
/// - `read`: the rules that this library finds for a crawler are, in order, those that the grammar's groups
/// have for it, each changed as `IsReadAs` states.
/// - `once`: a file has one list of groups.
/// - `sitemaps`: the library's sitemaps are, in order, the addresses of the sitemap lines, trimmed.
/// - `listed`: the grammar yields exactly one list of sitemap addresses for a file.
/// - `bare`: a file that follows the standard's own grammar follows the extended one, with its groups merged.
pub fn standard_files_are_read_so()
    ensures read { (text : List ℕ) (groups : List rfc.Group) (agent : List ℕ) → rfc.IsFile groups text
        → AllZip IsReadAs (rfc.rules_for agent groups) (rules_for agent (file_lines text)) }
    ensures once { (text : List ℕ) (groups others : List rfc.Group) → rfc.IsFile groups text
        → rfc.IsFile others text → groups ≡ others }
    ensures sitemaps { (text : List ℕ) (addresses : List (List ℕ)) → rfc.ListsSitemaps addresses text
        → AllZip IsTrimOf (sitemaps_in (file_lines text)) addresses }
    ensures listed { (text : List ℕ) (groups : List rfc.Group) → rfc.IsFile groups text
        → (addresses : List (List ℕ)) × rfc.ListsSitemaps addresses text
        × ((others : List (List ℕ)) → rfc.ListsSitemaps others text → others ≡ addresses) }
    ensures bare { (text : List ℕ) (groups : List rfc.Group) → rfc.IsRobotstxt groups text
        → rfc.IsFile (rfc.merged groups) text }
{}

/// What `Robot::new` returns for a file whose first 512,000 bytes follow the extended grammar, apart from
/// `Error::Memory`:
///
/// - `robot`: the robot has the rules, the delay and the sitemaps that the file states for the crawler, as
/// `IsRobotAs` says. The delay is the first of its groups, or else the last one above all groups; in a file
/// without groups it is the first one.
/// - `rejected`: if the file is rejected, one of these rules is too long.
/// - `delays`: each file has such delays above its groups, maybe none.
/// - `forms`: the same as `robot`, for a file whose lines have the forms of the grammar's lines.
pub fn standard_robots()
    ensures robot { (agent file : List ℕ) (groups : List rfc.Group) (numbers addresses : List (List ℕ))
        (robot : RobotValue) → IsFileWith numbers groups (take file_limit file)
        → rfc.ListsSitemaps addresses (take file_limit file)
        → IsRobotOfFile agent (take file_limit file) robot
        → IsRobotAs agent groups numbers addresses robot }
    ensures rejected { (agent file : List ℕ) (groups : List rfc.Group)
        → rfc.IsFile groups (take file_limit file)
        → IsFileRejected agent (take file_limit file) → IsRejectedAs agent groups }
    ensures delays { (text : List ℕ) (groups : List rfc.Group) → rfc.IsFile groups text
        → (numbers : List (List ℕ)) × IsFileWith numbers groups text }
    ensures forms { (agent file : List ℕ) (forms : List Form) (robot : RobotValue)
        → AreForms forms (take file_limit file) → IsRobotOfFile agent (take file_limit file) robot
        → (groups : List rfc.Group) × (numbers : List (List ℕ)) × (addresses : List (List ℕ))
        × IsFileWith numbers groups (take file_limit file)
        × rfc.ListsSitemaps addresses (take file_limit file)
        × IsRobotAs agent groups numbers addresses robot }
{}

/// The two samples follow the grammars of `standard_files_are_read_so`, and between them they use every
/// production. So there are files to which that theorem applies.
pub fn standard_samples_are_files()
    ensures bare { rfc.IsRobotstxt sample.bare_groups sample.bare_text }
    ensures wide { rfc.IsFile sample.wide_groups sample.wide_text }
    ensures sitemaps { rfc.ListsSitemaps sample.wide_sitemaps sample.wide_text }
    ensures rules { rfc.rules_for (codes "BOT") sample.wide_groups ≡ sample.wide_rules }
{}

/// When a text follows the extended grammar, by its lines:
///
/// - `file`: it does if each of its lines has the form of one of the grammar's lines, each rule is below a
/// user-agent line, and nothing else is in the text than lines and a byte order mark, as `AreForms` says.
/// - `only`: no other text does.
/// - `test`: a line has a form if its content passes the test `has_form`.
/// - `exact`: only then, since the content of a line has no CR or LF.
pub fn line_forms_make_files()
    ensures file { (text : List ℕ) (forms : List Form) → AreForms forms text
        → (groups : List rfc.Group) × rfc.IsFile groups text }
    ensures only { (text : List ℕ) (groups : List rfc.Group) → rfc.IsFile groups text
        → (forms : List Form) × AreForms forms text }
    ensures test { (form : Form) (body : List ℕ) → has_form form body ≡ true → HasForm form body }
    ensures exact { (form : Form) (body : List ℕ) → All IsBodyByte body → HasForm form body
        → has_form form body ≡ true }
{}

/// The standard's own grammar as it is printed, and by lines:
///
/// - `lines`: each file of the grammar is one by lines, with its groups merged.
/// - `printed`: each file by lines is one of the grammar, with the same groups.
pub fn grammar_is_by_lines()
    ensures lines { (groups : List rfc.Group) (text : List ℕ) → rfc.IsRobotstxt groups text
        → rfc.IsRobotstxtByLines (rfc.merged groups) text }
    ensures printed { (groups : List rfc.Group) (text : List ℕ) → rfc.IsRobotstxtByLines groups text
        → rfc.IsRobotstxt groups text }
{}
