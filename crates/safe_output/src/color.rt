//! Colors for words of levels, which are inserted into a text.
ghost use Rattle.std.specs.Prelude.{IfOk, List, ℕ, string_bytes};
ghost use Rattle.safe_output.specs.{Sanitize.IsPrintable, Text.IsColored, Text.IsColoredTo};

use crate::level::{Level, shown_word};
use std::alloc::{AllocError, Global};

/// Appends all up to the word at `at` and that in color, and returns the rest. If the word isn't
/// there, it appends nothing.
#[tactic(auto, using(crate::proofs::ReportLemmas::word_colored))]
fn push_colored<'a>(
    shown: &mut String,
    text: &'a str,
    at: usize,
    level: Level,
) -> Result<&'a str, AllocError>
    ensures { IfOk result (λ rest. (all : List ℕ) → IsColoredTo all text.now (string_bytes shown.old)
        → IsColoredTo all rest.now (string_bytes shown.new)) }
{
    let word = level.word();
    if let Some((front, later)) = text.split_at_checked(at)
        && let Some((found, rest)) = later.split_at_checked(word.len())
        && found == word
    {
        shown.push_str(front)?;
        shown.push_str(shown_word(true, level))?;
        return Ok(rest);
    }
    Ok(text)
}

/// The text with these words in color. A word that isn't at its place is passed over.
#[tactic(auto, using(crate::proofs::ReportLemmas::colored_start, crate::proofs::ReportLemmas::colored_end))]
pub(crate) fn colored(
    alloc: Global,
    text: &str,
    words: &[(usize, Level)],
) -> Result<String, AllocError>
    requires { IsPrintable text.now }
    ensures { IfOk result (λ shown. IsColored text.now (string_bytes shown)) }
{
    let mut shown = String::new(alloc);
    let mut rest = text;
    for (place, level) in words {
        let done = text.len().saturating_sub(rest.len());
        rest = push_colored(&mut shown, rest, place.saturating_sub(done), *level)?;
    }
    shown.push_str(rest)?;
    Ok(shown)
}
