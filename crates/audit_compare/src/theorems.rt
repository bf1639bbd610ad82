//! Theorems about comparisons, each written as the contract of an empty function.
ghost use Rattle.std.specs.Prelude.{[], Bool, List, true, ℕ, ◌↔◌, ◌≡◌};
ghost use Rattle.texting_robots.specs.Callers.{IsVerdict, LineValue, lines_read, rules_for};
ghost use Rattle.audit_compare.specs.declared.compared.Compared.{Compared};
ghost use Rattle.audit_compare.specs.Compare.{IsCompared, is_unchanged, rules_only_in};

/// If a crawler has the same rules in two files, in whatever lines, both files give each text the same
/// verdict. So they do if `--compare` finds that nothing differs for a crawler.
pub fn same_rules_decide_alike()
    ensures rules { (agent : List ℕ) (older newer : List LineValue) (text : List ℕ) (allowed : Bool)
        → rules_only_in older newer agent ≡ [] → rules_only_in newer older agent ≡ []
        → IsVerdict (rules_for agent older) text allowed ↔ IsVerdict (rules_for agent newer) text allowed }
    ensures reported { (urls : List (List ℕ)) (older newer agent : List ℕ) (compared : Compared)
        (text : List ℕ) (allowed : Bool) → IsCompared urls older newer agent compared
        → is_unchanged compared ≡ true → IsVerdict (rules_for agent (lines_read older)) text allowed
        ↔ IsVerdict (rules_for agent (lines_read newer)) text allowed }
{}
