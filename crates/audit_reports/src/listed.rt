//! Which warnings the text lists: when notes are joined, the first twenty of each name and level, and the
//! number of the others.
use audit_core::joined::joined;
use robots_warnings::table::Cause;
use robots_warnings::warning::Warning;
use std::alloc::{AllocError, Global};
use std::collections::BTreeMap;

const MOST: usize = 20;

/// How many warnings there are, by name and level.
type Counts = BTreeMap<&'static str, [usize; 3]>;

/// How many warnings with the name and the level of this one aren't listed.
#[derive(Clone, Copy)]
pub(crate) struct More {
    pub(crate) cause: Cause,
    pub(crate) number: usize,
}

#[derive(Drop)]
pub(crate) struct Listing<'a> {
    pub(crate) warnings: Vec<Warning<'a>>,
    pub(crate) more: Vec<More>,
}

/// The result is how many with its name and level were counted before.
fn count(counts: &mut Counts, cause: Cause) -> Result<usize, AllocError> {
    let numbers = counts.entry(cause.name())?.or_insert([0; 3]);
    let place = numbers[cause.level() as usize];
    numbers[cause.level() as usize] = place.saturating_add(1);
    Ok(place)
}

fn counted(counts: &Counts, cause: Cause) -> usize {
    counts.get(cause.name()).copied().unwrap_or([0; 3])[cause.level() as usize]
}

/// The warnings that are listed, in order, and how many more there are, in the order of the first of them.
pub(crate) fn listing_of<'a>(
    alloc: Global,
    warnings: &[Warning<'a>],
) -> Result<Listing<'a>, AllocError> {
    let mut counts = BTreeMap::new(alloc);
    let mut listed = Vec::new(alloc);
    let mut more = Vec::new(alloc);
    for warning in &joined(alloc, warnings)? {
        let cause = warning.cause;
        let place = count(&mut counts, cause)?;
        if place < MOST {
            listed.push(warning.copy())?;
        } else if place == MOST {
            more.push(More { cause, number: 0 })?;
        }
    }
    for others in more.iter_mut() {
        others.number = counted(&counts, others.cause).saturating_sub(MOST);
    }
    Ok(Listing {
        warnings: listed,
        more,
    })
}
