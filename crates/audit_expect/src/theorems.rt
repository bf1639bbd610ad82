//! What it means that expectations hold. The theorem is the contract of an empty function.
ghost use Rattle.std.specs.Prelude.{◌≡◌, ℕ, List, false};
ghost use Rattle.rfc9309.specs.{Matching.all_stay, Matching.normal_uri, StandardTarget.written_target};
ghost use Rattle.audit_expect.specs.{Expect.ExpectationValue, Expectations.Holds};

/// For one crawler and one file, no two opposite expectations hold about URLs or paths, which aren't
/// patterns, if the normal forms of their paths and queries, as they are written, are the same.
pub fn no_opposite_expectations_hold()
    ensures { (file : List ℕ) (one other : ExpectationValue) → Holds file one → Holds file other
        → one.is_pattern ≡ false → other.is_pattern ≡ false → one.agent ≡ other.agent
        → normal_uri all_stay (written_target one.url) ≡ normal_uri all_stay (written_target other.url)
        → one.allowed ≡ other.allowed }
{}
