//! The errors for a file of `--expect` or `--urls-from` that can't be used, as lines are malformed or there
//! are no entries.
ghost use Rattle.std.specs.Prelude.{◌≡◌, OnOk, length};

use audit_core::error::{EntryKind, Error, MalformedLine};
use std::alloc::{AllocError, Global};

/// An entry, nothing, or something that is wrong.
pub(crate) type Line<T> = Result<Option<T>, MalformedLine>;

pub(crate) fn check_lines(
    alloc: Global,
    name: &str,
    malformed: Vec<MalformedLine>,
) -> Result<(), Error>
    ensures { OnOk result (length malformed.items ≡ 0) }
{
    if malformed.is_empty() {
        return Ok(());
    }
    match String::from_str(alloc, name) {
        Ok(file) => Err(Error::Malformed(file, malformed)),
        Err(AllocError) => Err(Error::Memory),
    }
}

/// `Error::Memory` if an allocation fails.
pub(crate) fn without_entries(alloc: Global, name: &str, entry: EntryKind) -> Error {
    match String::from_str(alloc, name) {
        Ok(file) => Error::Empty(file, entry),
        Err(AllocError) => Error::Memory,
    }
}
