//! Colors of warnings on a terminal.

use std::env::{self, VarError};
use std::io::IsTerminal;

/// `by_default` is what no value and `auto` mean.
pub fn requested_colors(word: Option<&str>, by_default: bool) -> bool {
    match word {
        Some(word) if word == "always" => true,
        Some(word) if word == "never" => false,
        _ => by_default,
    }
}

type Variable = Result<String, VarError>;

fn is_set(variable: &Variable) -> bool {
    match variable {
        Ok(value) => !value.is_empty(),
        Err(error) => !matches!(error, VarError::NotPresent),
    }
}

fn is_dumb(name: &Variable) -> bool {
    match name {
        Ok(name) => name.as_str() == "dumb",
        Err(_) => false,
    }
}

/// Whether standard error is a terminal that can show colors, and NO_COLOR is unset or empty.
pub fn colors_by_default(rt: &HostRuntime) -> bool {
    let is_terminal = rt.stderr().is_terminal();
    let (no_color, term) = (env::var(rt, "NO_COLOR"), env::var(rt, "TERM"));
    is_terminal && !is_set(&no_color) && !is_dumb(&term)
}
