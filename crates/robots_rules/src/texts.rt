//! Texts that a pattern matches. Nothing is proved here: they are only tried.

use std::alloc::{AllocError, Global};

/// Stands in place of a star, and at the end: few patterns have it.
const FILLER: &[u8] = b"~";

/// The pattern matches the text; and how many steps that took, of which there are at most so many.
pub fn is_match_within(pattern: &[u8], text: &[u8], most: usize) -> (bool, usize) {
    let mut at: usize = 0;
    let mut read: usize = 0;
    let mut star = None;
    for step in 0..most {
        let Some(byte) = pattern.get(at).copied() else {
            return (true, step);
        };
        at = at.saturating_add(1);
        if byte == b'*' {
            star = Some((at, read));
            continue;
        }
        if byte == b'$' && read == text.len() {
            continue;
        }
        if byte != b'$' && text.get(read).copied() == Some(byte) {
            read = read.saturating_add(1);
            continue;
        }
        let Some((after, from)) = star else {
            return (false, step);
        };
        if from >= text.len() {
            return (false, step);
        }
        at = after;
        read = from.saturating_add(1);
        star = Some((after, read));
    }
    (false, most)
}

/// The pattern with this text in place of each star, or of the first one, and at the end if that is open.
pub fn filled(
    alloc: Global,
    pattern: &[u8],
    filler: &[u8],
    is_once: bool,
) -> Result<Vec<u8>, AllocError> {
    let mut text = Vec::new(alloc);
    let mut is_open = true;
    for byte in pattern {
        if *byte == b'$' {
            is_open = false;
        } else if *byte != b'*' {
            text.push(*byte)?;
        } else if is_open {
            text.extend_from_slice(filler)?;
            is_open = !is_once;
        }
    }
    if is_open {
        text.extend_from_slice(filler)?;
    }
    Ok(text)
}

/// The pattern without its stars, and this text at its end or before its last dollar, if a star is there.
pub fn ended(alloc: Global, pattern: &[u8], end: &[u8]) -> Result<Vec<u8>, AllocError> {
    let mut text = filled(alloc, pattern, b"", false)?;
    if !pattern.contains(&b'$') || pattern.ends_with(b"*$") {
        text.extend_from_slice(end)?;
    }
    Ok(text)
}

/// Texts that a pattern matches, unless it has a dollar inside.
#[derive(Drop)]
pub struct Texts {
    pub shortest: Vec<u8>,
    pub longer: Vec<u8>,
}

impl Texts {
    pub fn new(alloc: Global, pattern: &[u8]) -> Result<Texts, AllocError> {
        Ok(Texts {
            shortest: filled(alloc, pattern, b"", false)?,
            longer: filled(alloc, pattern, FILLER, false)?,
        })
    }

    /// Whether the pattern matches both texts. Steps are subtracted.
    pub fn are_matched(&self, pattern: &[u8], steps: &mut usize) -> bool {
        let (is_first, first) = is_match_within(pattern, &self.shortest, *steps);
        *steps = steps.saturating_sub(first).saturating_sub(2);
        if !is_first {
            return false;
        }
        let (is_second, second) = is_match_within(pattern, &self.longer, *steps);
        *steps = steps.saturating_sub(second);
        is_second
    }
}
