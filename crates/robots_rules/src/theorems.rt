//! Theorems about the specification. Each is the contract of an empty function.
ghost use Rattle.std.specs.Prelude.{◌≡◌, ◌≢◌, ◌↔◌, ◌∷◌, Bool, Contains, List, [], codes, false, ℕ};
ghost use Rattle.std.specs.Str.{IsUtf8};
ghost use Rattle.texting_robots.specs.Callers.{IsVerdict, LineValue, agents_in, is_named, placed_rules};
ghost use Rattle.texting_robots.specs.Callers.{rules_for};
ghost use Rattle.robots_rules.specs.declared.needless.NeedlessRule.{NeedlessRule};
ghost use Rattle.robots_rules.specs.Blocks.{AreFoundIn, AreWholeLines, HaveSameRobot, IsLeftOf};
ghost use Rattle.robots_rules.specs.Needless.{AreDeletable, lines_without, numbers_of};
ghost use Rattle.robots_rules.specs.Examples as example;

/// Deleting lines that can be deleted changes no verdict of any crawler whose name is UTF-8, whether the file
/// names it or not.
pub fn deleting_changes_no_verdict()
    ensures { (lines : List LineValue) (numbers : List ℕ) → AreDeletable numbers lines → (agent : List ℕ)
        → IsUtf8 agent → (text : List ℕ) (answer : Bool)
        → IsVerdict (rules_for agent lines) text answer
        ↔ IsVerdict (rules_for agent (lines_without numbers lines)) text answer }
{}

/// If the found lines are deleted from the bytes of a file, with their line ends, each crawler's robot has
/// the same verdicts, delay and sitemaps, and whether the file is rejected for it stays the same. The byte
/// order mark of the file may stay, or be deleted too.
pub fn deleting_changes_no_robot()
    ensures { (file left : List ℕ) (found : List NeedlessRule) (agent : List ℕ) → AreFoundIn file found
        → found ≢ [] → IsLeftOf (numbers_of found) file left → IsUtf8 agent → HaveSameRobot agent file left }
{}

/// So there is a file that is left if lines are deleted.
pub fn each_file_has_whole_lines()
    ensures { (file : List ℕ) → (whole : List (List ℕ)) × AreWholeLines whole file }
{}

/// A crawler that no user-agent line names has the rules of `*`, so they don't change for it either.
pub fn others_have_the_rules_of_star()
    ensures { (agent : List ℕ) (lines : List LineValue) → is_named agent lines ≡ false
        → placed_rules agent lines ≡ placed_rules (codes "*") lines }
{}

/// Worked examples. `specs/Examples.antt` shows by them what can't be deleted.
pub fn examples()
    ensures not_both { example.not_both }
    ensures between { example.between }
{}
