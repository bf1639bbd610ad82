//! Crawl delays: how long a crawler has to wait between two requests.
ghost use Rattle.std.specs.Prelude.{◌≡◌, ◌==◌, ◌≤◌, All, length, take};
ghost use Rattle.std.specs.Char.{IsAsciiDigit, is_ascii_digit};
ghost use Rattle.std.specs.{List.list_all, List.prefix_len, Option.option_copied, Str.byte};
ghost use Rattle.std.specs.Str.Parse.{digits_value_after, starts_with_minus, without_leading_sign};
ghost use Rattle.texting_robots.specs.{Delay.IsDelay};
ghost use Rattle.texting_robots.specs.Internal.Delay as steps;

use std::marker::Model;

/// A decimal number of seconds: its digits, and its exponent with a possible sign.
#[derive(Drop)]
struct Number<'a> {
    whole: &'a [u8],
    fraction: &'a [u8],
    exponent: &'a [u8],
}

impl<'a> Model for Number<'a> {
    ghost use Rattle.texting_robots.specs.{Internal.Delay.HasDigits, Delay.Decimal};

    ghost Value = { Decimal };

    ghost view = { λ n. record { whole = n.whole.now; fraction = n.fraction.now; exponent = n.exponent.now } };

    ghost invariant = { λ n. HasDigits (record { whole = n.whole.now; fraction = n.fraction.now; exponent = n.exponent.now }) };
}

/// How many digits of the fraction are whole microseconds.
const MICROS_DIGITS: usize = 6;

/// A number other than 0 that is followed by so many zeros is above `u64::MAX`.
const ZEROS: [u8; 20] = [b'0'; 20];

/// Whether the text has a minus, and what follows its sign, if any.
fn split_sign(text: &[u8]) -> (bool, &[u8])
    ensures minus { result.0 ≡ starts_with_minus text.now }
    ensures rest { result.1.now ≡ without_leading_sign text.now }
{
    match text {
        [b'-', rest @ ..] => (true, rest),
        [b'+', rest @ ..] => (false, rest),
        _ => (false, text),
    }
}

fn digits_len(text: &[u8]) -> usize
    ensures value { result ≡ prefix_len is_ascii_digit text.now }
    ensures within { result ≤ length text.now }
{
    text.iter().take_while(|byte| byte.is_ascii_digit()).count()
}

fn split_digits(text: &[u8]) -> (&[u8], &[u8])
    ensures digits { result.0.now ≡ steps.digits_in_front text.now }
    ensures rest { result.1.now ≡ steps.after_digits text.now }
{
    text.split_at(digits_len(text))
}

/// The digits after a leading point, if there is one, and what follows them.
fn split_fraction(text: &[u8]) -> (&[u8], &[u8])
    ensures digits { result.0.now ≡ steps.fraction_in_front text.now }
    ensures rest { result.1.now ≡ steps.after_fraction text.now }
{
    match text {
        [b'.', rest @ ..] => split_digits(rest),
        _ => (&[], text),
    }
}

fn are_digits(text: &[u8]) -> bool
    ensures { result ≡ list_all is_ascii_digit text.now }
{
    text.iter().all(|byte| byte.is_ascii_digit())
}

fn are_zeros(text: &[u8]) -> bool
    ensures { result ≡ list_all (λ digit. digit == byte "0") text.now }
{
    text.iter().all(|digit| *digit == b'0')
}

fn is_numeral(text: &[u8]) -> bool
    ensures { result ≡ steps.is_numeral text.now }
{
    !text.is_empty() && are_digits(text)
}

/// What follows `e` if that is an exponent; nothing for no text; `None` for anything else.
fn read_exponent(text: &[u8]) -> Option<&[u8]>
    ensures { option_copied result ≡ steps.exponent_of text.now }
{
    match text {
        [] => Some(text),
        [b'e' | b'E', exponent @ ..] if is_numeral(split_sign(exponent).1) => Some(exponent),
        _ => None,
    }
}

fn read_number(text: &[u8]) -> Option<Number<'_>>
    ensures { result ≡ steps.number_of text.now }
{
    let (whole, rest) = split_digits(text);
    let (fraction, rest) = split_fraction(rest);
    if whole.is_empty() && fraction.is_empty() {
        return None;
    }
    let exponent = read_exponent(rest)?;
    Some(Number {
        whole,
        fraction,
        exponent,
    })
}

fn first(digits: &[u8], count: usize) -> &[u8]
    ensures { result.now ≡ take count digits.now }
{
    digits.get(..count).unwrap_or(digits)
}

/// The number `start` with these digits after its own, at most `u64::MAX`.
#[tactic(auto, using(crate::proofs::DelayNumbers::digit_there, crate::proofs::DelayNumbers::one_more_digit, crate::proofs::DelayNumbers::all_digits_read))]
fn append_digits(start: u64, digits: &[u8]) -> u64
    requires { All IsAsciiDigit digits.now }
    ensures { result ≡ steps.bounded (digits_value_after 10 start digits.now) }
{
    let mut number = start;
    for digit in digits {
        number = number
            .saturating_mul(10)
            .saturating_add(u64::from(*digit - b'0'));
    }
    number
}

impl Number<'_> {
    fn is_zero(&self) -> bool
        ensures { result ≡ steps.is_zero self.now }
    {
        are_zeros(self.whole) && are_zeros(self.fraction)
    }

    /// How many digits, from the first one on, are whole microseconds.
    fn micros_digits(&self) -> usize
        ensures { result ≡ steps.bounded (steps.places self.now) }
    {
        let (minus, exponent) = split_sign(self.exponent);
        let exponent = append_digits(0, exponent) as usize;
        let digits = self.whole.len() + MICROS_DIGITS;
        if minus {
            digits.saturating_sub(exponent)
        } else {
            digits.saturating_add(exponent)
        }
    }

    /// The delay in microseconds, rounded down, at most `u64::MAX`.
    fn micros(&self) -> u64
        ensures { result ≡ steps.rounded self.now }
    {
        let whole = self.micros_digits();
        let fraction = whole.saturating_sub(self.whole.len());
        let zeros = fraction.saturating_sub(self.fraction.len());
        let micros = append_digits(0, first(self.whole, whole));
        let micros = append_digits(micros, first(self.fraction, fraction));
        append_digits(micros, first(&ZEROS, zeros))
    }
}

fn is_infinite(text: &[u8]) -> bool
    ensures { result ≡ steps.is_infinite text.now }
{
    text.eq_ignore_ascii_case(b"inf") || text.eq_ignore_ascii_case(b"infinity")
}

/// Parses a delay in seconds. The result is in microseconds, rounded down, and at most `u64::MAX`.
///
/// The text isn't trimmed. It has to be a decimal number, possibly with an exponent, or `inf` or `infinity`.
/// For anything else, and for a delay below zero, the result is `None`.
#[tactic(auto, using(crate::proofs::DelayLemmas::is_delay))]
pub fn read_delay(text: &[u8]) -> Option<u64>
    ensures { IsDelay text.now result }
{
    let (minus, unsigned) = split_sign(text);
    if !minus && is_infinite(unsigned) {
        return Some(u64::MAX);
    }
    let number = read_number(unsigned)?;
    if minus {
        number.is_zero().then_some(0)
    } else {
        Some(number.micros())
    }
}
