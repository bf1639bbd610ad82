//! The errors that end a run, with their messages and exit statuses.
use safe_output::streams::{ReadError, WriteError};
use std::alloc::{AllocError, AllocFailed};
use texting_robots::Error;

/// The error that ended a run.
#[derive(Drop)]
pub enum Fault {
    /// A read failed, or the input needed too many.
    Read,
    /// A write or a flush failed, or a write accepted no bytes.
    Write,
    /// The input has no empty line after its first line.
    NoEmptyLine,
    HeaderNotUtf8,
    /// A rule that applies to the crawler contains `$` and is too long.
    InvalidRule,
    /// An allocation failed, or a URL is too long for the crate `url`.
    Memory,
}

impl Fault {
    ghost use Rattle.std.specs.Prelude.{◌≡◌};
    ghost use Rattle.robots_verdict.specs.Fault.{status_of, text_of};

    pub fn text(&self) -> &'static str
        ensures { result.now ≡ text_of self.now }
    {
        match self {
            Fault::Read => "robots_verdict: reading the input failed",
            Fault::Write => "robots_verdict: writing the output failed",
            Fault::NoEmptyLine => "robots_verdict: no empty line after the URLs",
            Fault::HeaderNotUtf8 => "robots_verdict: a header line isn't UTF-8",
            Fault::InvalidRule => "robots_verdict: a captured rule with $ is too long",
            Fault::Memory => "robots_verdict: out of memory",
        }
    }

    pub fn status(&self) -> u8
        ensures { result ≡ status_of self.now }
    {
        match self {
            Fault::Read | Fault::Write => 1,
            Fault::NoEmptyLine | Fault::HeaderNotUtf8 => 2,
            Fault::InvalidRule => 3,
            Fault::Memory => 4,
        }
    }
}

impl From<AllocError> for Fault {
    ghost use Rattle.std.specs.Prelude.{◌≡◌};
    ghost use Rattle.robots_verdict.specs.declared.fault.Fault.TheVariants.{Memory};

    ghost from_gives = { λ _ fault. fault ≡ Memory };

    fn from(_: AllocError) -> Fault {
        Fault::Memory
    }
}

impl<T: Drop> From<AllocFailed<T>> for Fault {
    ghost use Rattle.std.specs.Prelude.{◌≡◌};
    ghost use Rattle.robots_verdict.specs.declared.fault.Fault.TheVariants.{Memory};

    ghost from_gives = { λ _ fault. fault ≡ Memory };

    fn from(_: AllocFailed<T>) -> Fault {
        Fault::Memory
    }
}

impl From<Error> for Fault {
    ghost use Rattle.std.specs.Prelude.{◌≡◌};
    ghost use Rattle.robots_verdict.specs.Fault.{fault_of};

    ghost from_gives = { λ error fault. fault ≡ fault_of error };

    fn from(error: Error) -> Fault {
        match error {
            Error::InvalidRule => Fault::InvalidRule,
            Error::Memory | Error::InvalidRobots => Fault::Memory,
        }
    }
}

impl From<ReadError> for Fault {
    ghost use Rattle.std.specs.Prelude.{◌≡◌};
    ghost use Rattle.robots_verdict.specs.Fault.{fault_of_read};

    ghost from_gives = { λ fault own. own ≡ fault_of_read fault };

    fn from(fault: ReadError) -> Fault {
        match fault {
            ReadError::Folder | ReadError::Read => Fault::Read,
            ReadError::Memory => Fault::Memory,
        }
    }
}

impl From<WriteError> for Fault {
    ghost use Rattle.std.specs.Prelude.{◌≡◌};
    ghost use Rattle.robots_verdict.specs.declared.fault.Fault.TheVariants.{Write};

    ghost from_gives = { λ _ fault. fault ≡ Write };

    fn from(_: WriteError) -> Fault {
        Fault::Write
    }
}
