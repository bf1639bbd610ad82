//! How many warnings there are of each level.

use robots_warnings::warning::Warning;
use safe_output::level::Level;
use std::fmt;

fn count_at(level: Level, warnings: &[Warning<'_>]) -> usize {
    warnings
        .iter()
        .filter(|warning| warning.cause.level() as usize == level as usize)
        .count()
}

/// The numbers of errors, warnings and notes.
#[derive(Clone, Copy)]
pub struct Counts {
    pub errors: usize,
    pub warnings: usize,
    pub notes: usize,
}

pub fn counts_of(warnings: &[Warning<'_>]) -> Counts {
    Counts {
        errors: count_at(Level::Error, warnings),
        warnings: count_at(Level::Warning, warnings),
        notes: count_at(Level::Note, warnings),
    }
}

impl fmt::Display for Counts {
    fn fmt<W: fmt::Write>(&self, f: &mut fmt::Formatter<W>) -> fmt::Result {
        let mut separator = "";
        let counts = [
            (Level::Error, self.errors),
            (Level::Warning, self.warnings),
            (Level::Note, self.notes),
        ];
        for (level, count) in counts {
            if count > 0 {
                let word = level.word();
                let end = if count > 1 { "s" } else { "" };
                write!(f, "{separator}{count} {word}{end}")?;
                separator = ", ";
            }
        }
        Ok(())
    }
}
