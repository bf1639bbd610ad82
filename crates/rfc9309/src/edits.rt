//! What an edit of a file changes for a crawler to which the edited line doesn't apply.
ghost use Rattle.std.specs.Prelude.{ℕ, List, take};
ghost use Rattle.texting_robots.specs.Callers.{IsFileRejected, IsRobotOfFile, RobotValue, file_limit};
ghost use Rattle.rfc9309.specs.Edits.{DifferInRule, example};

/// If two files have the same lines in their first 512,000 bytes but for one, a rule in both, which isn't
/// captured for a crawler in the first file, then `Robot::new` returns the same for both: the rules with the
/// numbers of their lines, the delay and the sitemaps (`robot`), or `InvalidRule` (`rejection`).
pub fn rules_of_others_change_nothing()
    ensures robot { (agent file other : List ℕ) (robot : RobotValue) → DifferInRule agent file other
        → IsRobotOfFile agent (take file_limit file) robot
        → IsRobotOfFile agent (take file_limit other) robot }
    ensures rejection { (agent file other : List ℕ) → DifferInRule agent file other
        → IsFileRejected agent (take file_limit file) → IsFileRejected agent (take file_limit other) }
{}

/// Two files that differ in such a rule.
pub fn example_of_an_edit()
    ensures { example }
{}
