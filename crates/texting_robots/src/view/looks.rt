//! A counter that only contracts can read. At run time it has no number.
ghost use Rattle.std.specs.Prelude.{◌≡◌, ◌+◌, ◌<◌};

use std::marker::Model;
use std::snapshot::Snapshot;

/// How many looks were taken: none, or one and others more than before. A snapshot has no bytes at run time.
#[derive(Drop)]
pub(super) struct Looks {
    last: Option<(Snapshot<Looks>, Snapshot<u64>)>,
}

impl Model for Looks {
    ghost use Rattle.std.specs.Prelude.{ℕ, ◌+◌, option_map, unwrap_or};

    ghost Value = { ℕ };

    ghost view = { λ looks. unwrap_or (option_map (λ last. last.0.value + 1 + last.1.value) looks.last) 0 };

    ghost size = { λ total. total };
}

impl Looks {
    pub(super) fn none() -> Looks
        ensures { result ≡ 0 }
    {
        Looks { last: None }
    }

    pub(super) fn more(&self, looks: u64) -> Looks
        requires { 0 < looks }
        ensures { result ≡ self.now + looks }
    {
        let others = looks - 1;
        Looks {
            last: Some((Snapshot::of(self), Snapshot::of(&others))),
        }
    }
}
