//! Files for the meanings that need no body, so that a caller has a `Site` in each case.
ghost use Rattle.std.specs.Prelude.{IfOk, false, true};
ghost use Rattle.robots_responses.specs.Responses.{DecidesAll};

use std::alloc::{AllocError, Global};
use texting_robots::Site;

/// A file that allows everything to every crawler.
#[tactic(auto, using(crate::proofs::SiteLemmas::allows_all))]
pub fn allow_all(alloc: Global) -> Result<Site, AllocError>
    ensures { IfOk result (DecidesAll true) }
{
    Site::new(alloc, b"")
}

/// A file that denies everything but `/robots.txt` to every crawler. Its rule isn't `/`, since a match target
/// needn't begin with a slash.
#[tactic(auto, using(crate::proofs::SiteLemmas::denies_all))]
pub fn deny_all(alloc: Global) -> Result<Site, AllocError>
    ensures { IfOk result (DecidesAll false) }
{
    Site::new(alloc, b"User-agent: *\nDisallow: *\n")
}
