//! Line numbers, collected from the lines for which a condition holds.
ghost use Rattle.std.specs.Prelude.{[], ◌≡◌, ◌==◌, ◌&&◌, ◌||◌, ◌++◌, ◌∷◌, ℕ, OnOk, if◌then◌else◌};
ghost use Rattle.std.specs.{BTreeSet.contains, Ordering.nat_cmp};

use std::alloc::AllocError;
use std::collections::BTreeSet;

pub(crate) type LineNumbers = BTreeSet<usize>;

pub(crate) fn insert_if(
    numbers: &mut LineNumbers,
    holds: bool,
    number: usize,
) -> Result<(), AllocError>
    ensures { OnOk result ((other : ℕ) → contains nat_cmp numbers.new other
        ≡ (contains nat_cmp numbers.old other || (holds && number == other))) }
{
    if holds {
        numbers.insert(number)?;
    }
    Ok(())
}

pub(crate) fn push_if(found: &mut Vec<usize>, holds: bool, number: usize) -> Result<(), AllocError>
    ensures { OnOk result (found.new.items ≡ found.old.items ++ (if holds then number ∷ [] else [])) }
{
    if holds {
        found.push(number)?;
    }
    Ok(())
}
