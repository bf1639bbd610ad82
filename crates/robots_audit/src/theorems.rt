//! A theorem about what the program writes, as the contract of an empty function.
ghost use Rattle.std.specs.Prelude.{List, ℕ};
ghost use Rattle.robots_audit.specs.Answer.{Answers, IsSafe, IsSafeAnswer};
ghost use Rattle.audit_core.specs.{declared.answer.Answer.Answer};
ghost use Rattle.safe_output.specs.Sanitize.{IsPrintable};

/// No report contains invalid UTF-8, a control character other than LF, a bidirectional control character or
/// a line separator. No text, JSON or SARIF has a line that is a command of a workflow on GitHub, and no page
/// has `##[`.
pub fn no_terminal_is_steered()
    ensures safe { (answer : Answer) → Answers answer → IsSafeAnswer answer }
    ensures printable { (text : List ℕ) → IsSafe text → IsPrintable text }
{}
