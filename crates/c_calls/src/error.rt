//! The errors of the C functions.
use std::alloc::{AllocError, AllocFailed};
use texting_robots::RobotError;

#[derive(Debug, PartialEq, Eq, Drop)]
pub enum Error {
    /// The crawler's name or a URL isn't UTF-8.
    NotUtf8,
    /// An allocation failed, or a URL is too long for the crate `url`.
    Memory,
    BufferTooSmall,
    NoDelay,
    /// The URL has no robots.txt file.
    NoRobotsUrl,
    /// The file is rejected: the crawler's rule in this line is too long.
    Overlong(usize),
    /// The places where URLs end decrease, or one is after the end of the text.
    InvalidEnds,
    /// The verdict might take more looks than its budget.
    TooCostly,
}

impl Error {
    ghost use Rattle.std.specs.Prelude.{◌≡◌};
    ghost use Rattle.c_calls.specs.Status.{line_after, status_of};

    pub fn status(&self) -> i32
        ensures { result ≡ status_of self.now }
    {
        match self {
            Error::NotUtf8 => -1,
            Error::Memory => -2,
            Error::BufferTooSmall => -3,
            Error::NoDelay => -4,
            Error::NoRobotsUrl => -5,
            Error::Overlong(_) => -6,
            Error::InvalidEnds => -7,
            Error::TooCostly => -8,
        }
    }

    /// Writes the line of a rule that is too long.
    pub fn status_at(&self, line: &mut usize) -> i32
        ensures status { result ≡ status_of self.now }
        ensures line { line.new ≡ line_after self.now line.old }
    {
        if let Error::Overlong(number) = self {
            *line = *number;
        }
        self.status()
    }
}

impl From<AllocError> for Error {
    ghost use Rattle.std.specs.Prelude.{◌≡◌};
    ghost use Rattle.c_calls.specs.declared.error.Error.TheVariants.{Memory};

    ghost from_gives = { λ _ error. error ≡ Memory };

    fn from(_: AllocError) -> Error {
        Error::Memory
    }
}

impl<T: Drop> From<AllocFailed<T>> for Error {
    ghost use Rattle.std.specs.Prelude.{◌≡◌};
    ghost use Rattle.c_calls.specs.declared.error.Error.TheVariants.{Memory};

    ghost from_gives = { λ _ error. error ≡ Memory };

    fn from(_: AllocFailed<T>) -> Error {
        Error::Memory
    }
}

impl From<RobotError> for Error {
    ghost use Rattle.std.specs.Prelude.{◌≡◌};
    ghost use Rattle.c_calls.specs.Status.{error_of};

    ghost from_gives = { λ rejection error. error ≡ error_of rejection };

    fn from(rejection: RobotError) -> Error {
        match rejection {
            RobotError::Overlong(line) => Error::Overlong(line),
            RobotError::Memory => Error::Memory,
        }
    }
}
