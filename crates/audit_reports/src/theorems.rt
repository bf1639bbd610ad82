//! Theorems about annotations and SARIF logs, each written as the contract of an empty function.
ghost use Rattle.std.specs.Prelude.{false, IsTrue, List, ℕ, ◌≡◌};
ghost use Rattle.audit_core.specs.{declared.findings.Finding.Finding};
ghost use Rattle.audit_reports.specs.Github.{command, is_in_property, property_text};
ghost use Rattle.safe_output.specs.Sanitize.{has_command, IsPrintableIn};
ghost use Rattle.std.specs.Prelude.{List, Some, flat_map, ℕ, ◌≡◌};
ghost use Rattle.audit_reports.specs.Sarif.{literal_char, shown};

/// A workflow command for GitHub is a single line that steers no terminal; no text in a property ends the
/// property, and no other command begins within the line of a finding.
pub fn no_text_ends_a_command()
    ensures line { (file : List ℕ) (finding : Finding) → IsPrintableIn false (command file finding) }
    ensures property { (text : List ℕ) → IsTrue (is_in_property (property_text text)) }
    ensures inside { (file : List ℕ) (finding : Finding) → has_command (command file finding) ≡ false }
{}

/// A text that is escaped for a message of a SARIF log, as each message is, shows its characters, and has
/// neither a placeholder nor a link.
pub fn no_text_becomes_a_link()
    ensures { (text : List ℕ) → shown (flat_map literal_char text) ≡ Some text }
{}
