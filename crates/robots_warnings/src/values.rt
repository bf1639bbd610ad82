//! Sets of the values of rules.
ghost use Rattle.std.specs.Prelude.{[], ◌∷◌, bytes_eq};
ghost use Rattle.std.proofs.Common.{rules};
ghost use Rattle.std.specs.Cmp.Rules.{comparing, hashing};

use std::collections::HashSet;
use std::hash::{Hash, Hasher};

/// A rule's value, hashed in one piece, and not byte by byte as a slice is.
#[derive(Clone, Copy)]
pub(crate) struct Value<'a> {
    pub(crate) bytes: &'a [u8],
}

impl PartialEq for Value<'_> {
    ghost eq = { λ one two. bytes_eq one.bytes.now two.bytes.now };

    ghost laws = { Prim.search (comparing, rules) };

    fn eq(&self, other: &Self) -> bool {
        self.bytes == other.bytes
    }
}

impl Eq for Value<'_> {
    ghost laws = { Prim.search (comparing, rules) };
}

impl Hash for Value<'_> {
    ghost hash_input = { λ value. value.bytes.now ∷ [] };

    ghost respects_eq = { Prim.search (hashing, rules) };

    fn hash<H: Hasher>(&self, state: &mut H) {
        state.write(self.bytes);
    }
}

pub(crate) type Values<'a> = HashSet<Value<'a>>;
