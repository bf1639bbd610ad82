//! Theorems about the specification, each written as the contract of an empty function.
ghost use Rattle.std.specs.Prelude.{◌≡◌, ℕ, List, Result};
ghost use Rattle.robots_verdict.specs.{declared.fault.Fault.Fault, Report.IsReport};

pub fn each_input_has_one_report()
    ensures { (input : List ℕ) (report other : Result (List ℕ) Fault) → IsReport input report
        → IsReport input other → report ≡ other }
{}

pub fn each_input_has_a_report()
    ensures { (input : List ℕ) → (report : Result (List ℕ) Fault) × IsReport input report }
{}
