//! Parts of a byte string, and bytes in it.
ghost use Rattle.std.specs.Prelude.{◌≡◌, ◌<◌, ◌≤◌, ◌==◌, ℕ, Bool, List, MatchOption, false, length, take};
ghost use Rattle.std.specs.{Char.digit_value, Char.is_ascii_hexdigit, Fn.FnReturnsAt, List.position_or_len};
ghost use Rattle.std.specs.{Prelude.true, Str.is_utf8};
ghost use Rattle.safe_output.specs.Bytes.{after_byte, before_byte, from_first, has, needs_no_escape};
ghost use Rattle.safe_output.specs.Bytes.{somewhere, trim_blanks, trim_blanks_start};

use memchr::memchr;

/// Whether the text contains the byte.
pub fn has(byte: u8, text: &[u8]) -> bool
    ensures { result ≡ has byte text.now }
{
    text.iter().any(|other| *other == byte)
}

/// Where the byte is, or the length of the text if it isn't there.
#[tactic(auto, using(texting_robots::proofs::Shared::found_or_end))]
pub fn place(byte: u8, text: &[u8]) -> usize
    ensures value { result ≡ position_or_len (λ b. b == byte) text.now }
    ensures within { result ≤ length text.now }
{
    memchr(byte, text).unwrap_or(text.len())
}

/// The text before the byte, or all of it if there is none.
pub fn before_byte(byte: u8, text: &[u8]) -> &[u8]
    ensures { result.now ≡ before_byte byte text.now }
{
    &text[..place(byte, text)]
}

/// The text after the byte; empty if there is none.
pub fn after_byte(byte: u8, text: &[u8]) -> &[u8]
    ensures { result.now ≡ after_byte byte text.now }
{
    match &text[place(byte, text)..] {
        [_, after @ ..] => after,
        [] => &[],
    }
}

/// The text from the first byte on for which the test holds; empty if there is none.
pub fn from_first<'a, F: Fn(&[u8]) -> bool>(text: &'a [u8], test: F) -> &'a [u8]
    requires { F.IsAlwaysCallable test }
    ensures { (p : List ℕ → Bool) → ((x : List ℕ) (r : Bool) → FnReturnsAt F.Fn test x r → r ≡ p x)
        → result.now ≡ from_first p text.now }
{
    let mut rest = text;
    while let [_, after @ ..] = rest {
        if test(rest) {
            return rest;
        }
        rest = after;
    }
    rest
}

/// Whether the test holds for the rest of the text from some byte on.
#[tactic(auto, using(crate::proofs::BytesLemmas::somewhere_first))]
pub fn somewhere<F: Fn(&[u8]) -> bool>(text: &[u8], test: F) -> bool
    requires { F.IsAlwaysCallable test }
    ensures { (p : List ℕ → Bool) → ((x : List ℕ) (r : Bool) → FnReturnsAt F.Fn test x r → r ≡ p x)
        → result ≡ somewhere p text.now }
{
    !from_first(text, test).is_empty()
}

/// The first bytes of the text, at most so many.
#[tactic(auto, using(std::proofs::lemmas::List::take_min))]
pub fn first(count: usize, text: &[u8]) -> &[u8]
    ensures { result.now ≡ take count text.now }
{
    &text[..count.min(text.len())]
}

/// The text without spaces and tabs at its start.
pub fn trim_blanks_start(text: &[u8]) -> &[u8]
    ensures { result.now ≡ trim_blanks_start text.now }
{
    let mut rest = text;
    while let [b' ' | b'\t', after @ ..] = rest {
        rest = after;
    }
    rest
}

/// The text without spaces and tabs at both ends.
pub fn trim_blanks(text: &[u8]) -> &[u8]
    ensures { result.now ≡ trim_blanks text.now }
{
    let mut rest = trim_blanks_start(text);
    while let [before @ .., b' ' | b'\t'] = rest {
        rest = before;
    }
    rest
}

/// The text, if it is UTF-8.
pub fn as_text(value: &[u8]) -> Option<&str>
    ensures { MatchOption result (is_utf8 value.now ≡ false)
        (λ text. (is_utf8 value.now ≡ true) × (text.now ≡ value.now)) }
{
    match std::str::from_utf8(value) {
        Ok(text) => Some(text),
        Err(_) => None,
    }
}

pub fn is_utf8(value: &[u8]) -> bool
    ensures { result ≡ is_utf8 value.now }
{
    as_text(value).is_some()
}

/// Whether the byte needs no escape anywhere in a URL.
pub fn needs_no_escape(byte: u8) -> bool
    ensures { result ≡ needs_no_escape byte }
{
    byte.is_ascii_alphanumeric() || has(byte, b"-._~")
}

/// The value of a hexadecimal digit.
pub fn hex_value(digit: u8) -> u8
    requires { is_ascii_hexdigit digit ≡ true }
    ensures value { result ≡ digit_value digit }
    ensures bound { result < 16 }
{
    match digit {
        b'0'..=b'9' => digit - b'0',
        b'A'..=b'F' => digit - b'A' + 10,
        _ => digit - b'a' + 10,
    }
}
