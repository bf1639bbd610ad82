//! A link checker: how many of a page's links a crawler may not fetch.
ghost use Rattle.std.specs.{Prelude.◌≡◌, Prelude.map, Prelude.sum_by, List.AllZip};
ghost use Rattle.robots_examples.specs.LinkCheck.{AreDenied};
ghost use Rattle.texting_robots.specs.Callers.{LooksForRules, seen_of, unplaced};

use texting_robots::Robot;
use texting_robots::view::View;

/// How many links are denied, and how many byte comparisons (looks) their views have counted in all, including those
/// before the call; at most `u64::MAX`.
#[derive(Clone, Copy, PartialEq, Eq, Debug)]
pub struct Denied {
    pub count: usize,
    pub looks: u64,
}

/// How many links are denied; each view has the match target of one. It doesn't allocate.
pub fn count_denied(robot: &Robot, links: &mut [View<'_>]) -> Denied
    ensures count { AreDenied (unplaced robot.now.rules) (map (λ link. link.text) links.old) result.count }
    ensures views { AllZip (LooksForRules robot.now.rules) links.old links.new }
    ensures looks { result.looks ≡ seen_of (sum_by (λ link. link.looks) links.new) }
{
    let mut count = 0;
    let mut looks: u64 = 0;
    for link in links.iter_mut() {
        if !robot.allowed_view(link) {
            count += 1;
        }
        looks = looks.saturating_add(link.seen());
    }
    Denied { count, looks }
}
