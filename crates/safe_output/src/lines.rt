//! Appends lines and numbers to a `String` as they are: for robots_verdict and the C library. Reports, whose
//! text must be safe to show, use `report`.
ghost use Rattle.std.specs.Prelude.{◌≡◌, ◌++◌, ◌∷◌, [], OnOk, string_bytes};
ghost use Rattle.std.specs.Io.{StartsWith};
ghost use Rattle.safe_output.specs.Lines.{ended};

use itoa::{Buffer, Integer};
use std::alloc::AllocError;

/// Appends a line of two parts. After an error the text may end with its start.
pub fn push_line(text: &mut String, front: &str, back: &str) -> Result<(), AllocError>
    ensures added { OnOk result (string_bytes text.new ≡ string_bytes text.old
        ++ ended ((front.now ++ back.now) ∷ [])) }
    ensures kept { StartsWith (string_bytes text.new) (string_bytes text.old) }
{
    text.push_str(front)?;
    text.push_str(back)?;
    text.push('\n')
}

pub fn push_number<I: Integer>(text: &mut String, number: I) -> Result<(), AllocError>
    ensures added { OnOk result (string_bytes text.new ≡ string_bytes text.old ++ I.text number) }
    ensures kept { StartsWith (string_bytes text.new) (string_bytes text.old) }
{
    text.push_str(Buffer::new().format(number))
}
