//! Why a call fails.
use std::alloc::{AllocError, AllocFailed};
use thiserror::Error;

#[derive(Debug, Drop, Error)]
pub enum Error {
    /// No call returns this, since every file can be parsed.
    #[error("Failed to parse robots.txt")]
    InvalidRobots,
    /// A pattern contains `$` and has more than 4,096 bytes, each run of stars counted as one. `Robot::new` counts the
    /// bytes of the escaped pattern.
    #[error("Rule with $ is too long")]
    InvalidRule,
    /// An allocation failed, or a URL has more bytes than `url` can count.
    #[error("Out of memory")]
    Memory,
}

/// Why a site has no robot for a crawler.
#[derive(Debug, Drop)]
pub enum RobotError {
    /// `Error::InvalidRule`: the crawler's first rule that is too long is in the line with this number.
    Overlong(usize),
    /// `Error::Memory`.
    Memory,
}

/// A query gave up, since it might have taken more looks than its budget.
#[derive(Debug, Drop, Error)]
#[error("Query is too costly")]
pub struct TooCostly;

impl From<AllocError> for Error {
    ghost use Rattle.std.specs.Prelude.{◌≡◌};
    ghost use Rattle.texting_robots.specs.declared.error.Error.TheVariants.{Memory};

    ghost from_gives = { λ _ e. e ≡ Memory };

    fn from(_: AllocError) -> Error {
        Error::Memory
    }
}

impl<T: Drop> From<AllocFailed<T>> for Error {
    ghost use Rattle.std.specs.Prelude.{◌≡◌};
    ghost use Rattle.texting_robots.specs.declared.error.Error.TheVariants.{Memory};

    ghost from_gives = { λ _ e. e ≡ Memory };

    fn from(_: AllocFailed<T>) -> Error {
        Error::Memory
    }
}

impl From<RobotError> for Error {
    ghost use Rattle.std.specs.Prelude.{◌≡◌};
    ghost use Rattle.texting_robots.specs.{Error.error_of};

    ghost from_gives = { λ rejection e. e ≡ error_of rejection };

    fn from(rejection: RobotError) -> Error {
        match rejection {
            RobotError::Overlong(_) => Error::InvalidRule,
            RobotError::Memory => Error::Memory,
        }
    }
}

impl From<AllocError> for RobotError {
    ghost use Rattle.std.specs.Prelude.{◌≡◌};
    ghost use Rattle.texting_robots.specs.declared.error.RobotError.TheVariants.{Memory};

    ghost from_gives = { λ _ rejection. rejection ≡ Memory };

    fn from(_: AllocError) -> RobotError {
        RobotError::Memory
    }
}
