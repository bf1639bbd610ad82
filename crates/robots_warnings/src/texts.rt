//! The texts of the warnings, in their order.
use crate::rows::{COUNT, FIRST_COUNT, every_row, first_rows, later_rows};
use crate::table::Cause;

macro_rules! messages {
    ($($cause:ident $level:ident $name:literal
        $text:literal $($more:literal)*,)*) => {
        [$((Cause::$cause, $text)),*]
    };
}

macro_rules! examples {
    ($($cause:ident $level:ident $name:literal
        $message:literal $text:literal $($more:literal)*,)*) => {
        [$((Cause::$cause, $text)),*]
    };
}

macro_rules! corrections {
    ($($cause:ident $level:ident $name:literal
        $message:literal $example:literal $text:literal $condition:literal,)*) => {
        [$((Cause::$cause, $text)),*]
    };
}

macro_rules! conditions {
    ($($cause:ident $level:ident $name:literal
        $message:literal $example:literal $correction:literal $text:literal,)*) => {
        [$((Cause::$cause, $text)),*]
    };
}

static FIRST_MESSAGES: [(Cause, &str); FIRST_COUNT] = first_rows!(messages);

static LATER_MESSAGES: [(Cause, &str); COUNT - FIRST_COUNT] = later_rows!(messages);

static EXAMPLES: [(Cause, &str); COUNT] = every_row!(examples);

static CORRECTIONS: [(Cause, &str); COUNT] = every_row!(corrections);

static CONDITIONS: [(Cause, &str); COUNT] = every_row!(conditions);

pub(crate) fn first_messages() -> &'static [(Cause, &'static str)] {
    &FIRST_MESSAGES
}

pub(crate) fn later_messages() -> &'static [(Cause, &'static str)] {
    &LATER_MESSAGES
}

pub(crate) fn examples() -> &'static [(Cause, &'static str)] {
    &EXAMPLES
}

/// The examples without the warnings, or nothing.
pub fn corrections() -> &'static [(Cause, &'static str)] {
    &CORRECTIONS
}

/// When the warnings are given, or nothing: the first warning of a name says it for all of that name.
pub fn conditions() -> &'static [(Cause, &'static str)] {
    &CONDITIONS
}
