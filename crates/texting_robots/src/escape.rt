//! Percent-encoding of patterns and match targets.
ghost use Rattle.std.specs.Prelude.{◌≡◌, ◌+◌, ◌<◌, ◌≤◌, ◌++◌, ◌∷◌, [], All, IsOk, OnErr, OnOk, IfOk, false};
ghost use Rattle.std.specs.Prelude.{length, string_bytes, take, true};
ghost use Rattle.std.specs.{Cow.cow_str_bytes, Fmt.digit_glyph, List.list_any};
ghost use Rattle.texting_robots.specs.Escape.{escaped, is_escaped};

use crate::byte_set::{ByteSet, prefix_len_in};
use percent_encoding::{
    AsciiSet, CONTROLS, ascii_set, ascii_str, percent_encode, utf8_percent_encode,
};
use std::alloc::{AllocError, Global};
use std::borrow::CowStr;

const ESCAPED: AsciiSet = ascii_set!(CONTROLS.add(b' ').add(b'"').add(b'<').add(b'>').add(b'`'));

/// The bytes that aren't escaped.
pub(crate) const UNESCAPED: &ByteSet = &[
    184, 252, 248, 252, 252, 252, 252, 252, 252, 252, 252, 252, 244, 252, 244, 124,
];

/// The escaped string. It is borrowed if no byte is escaped.
pub(crate) fn escaped<'a>(alloc: Global, text: &'a str) -> Result<CowStr<'a, Global>, AllocError>
    ensures ok { IfOk result (λ s. cow_str_bytes s ≡ escaped text.now) }
    ensures without_memory { All (λ b. is_escaped b ≡ false) text.now → IsOk result }
{
    if !holds_escaped(text.as_bytes()) {
        return Ok(CowStr::Borrowed(text));
    }
    utf8_percent_encode(text, ESCAPED).into_cow(alloc)
}

fn is_escaped(byte: u8) -> bool
    ensures { result ≡ is_escaped byte }
{
    (byte <= b' ')
        | (byte > b'~')
        | (byte == b'"')
        | (byte == b'<')
        | (byte == b'>')
        | (byte == b'`')
}

#[tactic(auto, using(crate::proofs::PlainLemmas::some_escaped))]
pub(crate) fn holds_escaped(bytes: &[u8]) -> bool
    ensures { result ≡ list_any is_escaped bytes.now }
{
    prefix_len_in(UNESCAPED, bytes) < bytes.len()
}

/// The uppercase hexadecimal digit.
fn hex_digit(value: u8) -> u8
    requires { value < 16 }
    ensures { result ≡ digit_glyph true value }
{
    if value < 10 {
        b'0' + value
    } else {
        b'A' - 10 + value
    }
}

/// Sets the byte at `len`. Returns the next index.
#[tactic(auto, using(std::proofs::lemmas::List::take_more_set))]
#[inline(always)]
fn put(text: &mut [u8], len: usize, byte: u8) -> usize
    requires { len < length text.old }
    ensures next { result ≡ len + 1 }
    ensures put { take result text.new ≡ take len text.old ++ byte ∷ [] }
{
    text[len] = byte;
    len + 1
}

/// Appends a few escaped bytes in one go.
#[tactic(auto, using(crate::proofs::NormalizedLemmas::escaped_ascii))]
fn push_few_escapes(out: &mut String, bytes: &[u8]) -> Result<(), AllocError>
    requires { length bytes.now ≤ 16 }
    ensures { OnOk result (string_bytes out.new ≡ string_bytes out.old ++ escaped bytes.now) }
{
    let mut text = [0; 48];
    let mut len = 0;
    for byte in bytes {
        if is_escaped(*byte) {
            len = put(&mut text, len, b'%');
            len = put(&mut text, len, hex_digit(*byte / 16));
            len = put(&mut text, len, hex_digit(*byte % 16));
        } else {
            len = put(&mut text, len, *byte);
        }
    }
    out.push_str(ascii_str(&text[..len]))
}

/// Appends the escaped bytes sixteen at a time, as a call for each escape takes longer.
#[tactic(auto, using(crate::proofs::NormalizedLemmas::escaped_parts))]
#[inline(never)]
fn push_escapes(out: &mut String, bytes: &[u8]) -> Result<(), AllocError>
    ensures { OnOk result (string_bytes out.new ≡ string_bytes out.old ++ escaped bytes.now) }
{
    let mut rest = bytes;
    while rest.len() > 16 {
        let (few, more) = rest.split_at(16);
        push_few_escapes(out, few)?;
        rest = more;
    }
    push_few_escapes(out, rest)
}

/// Appends the escaped string. Most strings hold no escaped byte and are copied in one go.
#[tactic(auto, using(crate::proofs::NormalizedLemmas::escaped_plain))]
pub(crate) fn push_escaped(
    out: &mut String,
    text: &str,
    holds_escaped: bool,
) -> Result<(), AllocError>
    requires { holds_escaped ≡ list_any is_escaped text.now }
    ensures { OnOk result (string_bytes out.new ≡ string_bytes out.old ++ escaped text.now) }
{
    if holds_escaped {
        return push_escapes(out, text.as_bytes());
    }
    out.push_str(text)
}

/// Appends any bytes, escaped as patterns are: each control character, space, `"`, `<`, `>`, backquote and
/// non-ASCII byte becomes `%` and two uppercase hexadecimal digits. If an allocation fails, nothing is
/// appended.
#[tactic(auto, using(std::proofs::lemmas::Result::on_ok_weaker, crate::proofs::NormalizedLemmas::encode_is_escaped))]
pub fn push_escaped_bytes(out: &mut String, bytes: &[u8]) -> Result<(), AllocError>
    ensures ok { OnOk result (string_bytes out.new ≡ string_bytes out.old ++ escaped bytes.now) }
    ensures rejected { OnErr result (string_bytes out.new ≡ string_bytes out.old) }
{
    percent_encode(bytes, ESCAPED).append_to(out)
}
