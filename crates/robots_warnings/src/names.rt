//! Sets of names, ignoring ASCII case.
ghost use Rattle.std.specs.Prelude.{IfOk};
ghost use Rattle.robots_warnings.specs.Internal.Names.{AddsName};

use std::alloc::{AllocError, Global};
use std::collections::BTreeSet;

pub type Names = BTreeSet<Vec<u8>>;

/// The result is whether the name is new.
pub fn add_name(alloc: Global, names: &mut Names, name: &[u8]) -> Result<bool, AllocError>
    ensures { IfOk result (λ is_new. AddsName names.old names.new name.now is_new) }
{
    let lowered = name.to_ascii_lowercase(alloc)?;
    Ok(names.insert(lowered)?)
}
