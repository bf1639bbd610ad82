//! Formats a delay in seconds, exactly.
use std::fmt;

const MILLION: u64 = 1_000_000;

const DIGITS: u32 = 6;

/// Microseconds, written as seconds, such as `1.5 s`.
#[derive(Clone, Copy)]
pub struct Delay(pub u64);

impl fmt::Display for Delay {
    fn fmt<W: fmt::Write>(&self, f: &mut fmt::Formatter<W>) -> fmt::Result {
        let seconds = self.0 / MILLION;
        write!(f, "{seconds}")?;
        let mut rest = self.0 % MILLION;
        if rest > 0 {
            f.write_str(".")?;
        }
        for _ in 0..DIGITS {
            if rest > 0 {
                let digit = rest * 10 / MILLION;
                write!(f, "{digit}")?;
                rest = rest * 10 % MILLION;
            }
        }
        f.write_str(" s")
    }
}
