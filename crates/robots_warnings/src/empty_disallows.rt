//! Empty Disallows, which are read as an Allow of `/`.
ghost use Rattle.std.specs.Prelude.{◌≡◌, ℕ, IfOk, map};
ghost use Rattle.std.specs.{BTreeSet.contains, Ordering.nat_cmp};
ghost use Rattle.texting_robots.specs.Callers.{label_by_value};
ghost use Rattle.robots_warnings.specs.Conflicts.{is_empty_at};

use crate::numbers::{LineNumbers, insert_if};
use rfc9309::text::is_empty_disallow;
use std::alloc::{AllocError, Global};
use std::collections::BTreeSet;
use texting_robots::labels::LabeledLine;

pub(crate) fn empty_disallows(
    alloc: Global,
    labels: &[LabeledLine<'_>],
) -> Result<LineNumbers, AllocError>
    ensures { IfOk result (λ numbers. (number : ℕ) → contains nat_cmp numbers number
        ≡ is_empty_at (map label_by_value labels.now) number) }
{
    let mut numbers = BTreeSet::new(alloc);
    let mut rest = labels;
    while let [labeled, after @ ..] = rest {
        let is = is_empty_disallow(labeled.line, labeled.body);
        insert_if(&mut numbers, is, labeled.number)?;
        rest = after;
    }
    Ok(numbers)
}
