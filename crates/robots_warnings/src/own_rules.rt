//! The rules of one crawler as a list: each search in it is faster than one more pass over the file.
ghost use Rattle.std.specs.Prelude.{◌≡◌, IfOk};
ghost use Rattle.texting_robots.specs.Callers.{file_lines, placed_rules};

use std::alloc::{AllocError, Global};
use texting_robots::site::{Site, SiteRule};

/// The rules that apply to the crawler, in file order.
pub fn own_rules<'s>(
    alloc: Global,
    site: &'s Site,
    agent: &str,
) -> Result<Vec<SiteRule<'s>>, AllocError>
    ensures { IfOk result (λ rules. rules.items ≡ placed_rules agent.now (file_lines site.now)) }
{
    site.rules(agent).collect(alloc)
}
