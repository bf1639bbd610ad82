//! Normal forms of rules' paths and of match targets, in which RFC 9309 compares them, if reserved octets
//! stay.
ghost use Rattle.std.specs.Prelude.{◌≡◌, ◌<◌, ◌≤◌, ◌++◌, IfOk, OnOk, drop, length, slice_index, string_bytes};
ghost use Rattle.std.specs.Prelude.{take, true};
ghost use Rattle.std.specs.{Char.is_ascii_hexdigit, Fmt.digit_glyph, List.list_all};
ghost use Rattle.rfc9309.specs.Comparable.{begins_odd_escape, is_normal, is_uri_octet};
ghost use Rattle.rfc9309.specs.Matching.{all_stay, normal_escape, normal_from, normal_octet, normal_uri};
ghost use Rattle.rfc9309.specs.Matching.{is_escape, is_kept, percent_encoded};
ghost use Rattle.rfc9309.specs.StandardReading.{front_of, pattern_of};
ghost use Rattle.rfc9309.specs.StandardTarget.{reading_of};

use safe_output::bytes::{has, hex_value, needs_no_escape, somewhere};
use std::alloc::{AllocError, Global};
use texting_robots::byte_set::{ByteSet, prefix_len_in};

/// The octets of URIs in normal form without `%`.
const PLAIN: &ByteSet = &[
    184, 252, 248, 248, 248, 248, 252, 252, 252, 252, 248, 124, 84, 124, 212, 124,
];

/// The octets of rules in normal form without `%`.
const RULE: &ByteSet = &[
    184, 252, 248, 252, 248, 248, 252, 252, 252, 252, 252, 124, 84, 124, 212, 124,
];

/// What is put in normal form.
#[derive(Clone, Copy, PartialEq, Eq)]
pub(crate) enum Side {
    /// The path of a rule, in which a star is special, without a `$` at its end.
    Rule,
    /// The path and query of a URI, where nothing is special.
    Uri,
}

fn is_kept(side: Side, byte: u8) -> bool
    ensures { result ≡ is_kept (reading_of side) true byte }
{
    match byte {
        b'*' | b'#' => side == Side::Rule,
        _ => needs_no_escape(byte) || has(byte, b"%:/?[]@!&'()+,;="),
    }
}

/// An uppercase hexadecimal digit.
fn glyph(value: u8) -> u8
    requires { value < 16 }
    ensures { result ≡ digit_glyph true value }
{
    if value < 10 {
        b'0' + value
    } else {
        b'A' + (value - 10)
    }
}

fn push_encoded(normal: &mut Vec<u8>, byte: u8) -> Result<(), AllocError>
    ensures { OnOk result (normal.new.items ≡ normal.old.items ++ percent_encoded byte) }
{
    normal.push(b'%')?;
    normal.push(glyph(byte / 16))?;
    normal.push(glyph(byte % 16))?;
    Ok(())
}

fn push_octet(normal: &mut Vec<u8>, side: Side, byte: u8) -> Result<(), AllocError>
    ensures { OnOk result (normal.new.items ≡ normal.old.items ++ normal_octet (reading_of side) true byte) }
{
    if is_kept(side, byte) {
        normal.push(byte)?;
        return Ok(());
    }
    push_encoded(normal, byte)
}

fn push_escape(normal: &mut Vec<u8>, high: u8, low: u8) -> Result<(), AllocError>
    requires high { is_ascii_hexdigit high ≡ true }
    requires low { is_ascii_hexdigit low ≡ true }
    ensures { OnOk result (normal.new.items ≡ normal.old.items ++ normal_escape high low) }
{
    let byte = hex_value(high) * 16 + hex_value(low);
    if needs_no_escape(byte) {
        normal.push(byte)?;
        return Ok(());
    }
    normal.push(b'%')?;
    normal.push(high.to_ascii_uppercase())?;
    normal.push(low.to_ascii_uppercase())?;
    Ok(())
}

fn begins_escape(text: &[u8]) -> bool
    ensures value { result
        ≡ is_escape (slice_index text.now 0) (slice_index text.now 1) (slice_index text.now 2) }
    ensures within { result ≡ true → 2 < length text.now }
{
    match text {
        [first, high, low, ..] => {
            *first == b'%' && high.is_ascii_hexdigit() && low.is_ascii_hexdigit()
        }
        _ => false,
    }
}

/// How many leading bytes can be copied; not all where nothing is gained.
#[tactic(auto, using(crate::proofs::NormalLemmas::rule_run))]
fn copied_len(side: Side, text: &[u8]) -> usize
    ensures value { normal_from (reading_of side) true text.now
        ≡ take result text.now ++ normal_from (reading_of side) true (drop result text.now) }
    ensures within { result ≤ length text.now }
{
    match side {
        Side::Rule => prefix_len_in(RULE, text),
        Side::Uri => 0,
    }
}

/// Appends the normal form of the text.
fn push_normal(normal: &mut Vec<u8>, side: Side, text: &[u8]) -> Result<(), AllocError>
    ensures { OnOk result (normal.new.items
        ≡ normal.old.items ++ normal_from (reading_of side) true text.now) }
{
    let mut rest = text;
    while let [first, next @ ..] = rest {
        if begins_escape(rest) {
            push_escape(normal, rest[1], rest[2])?;
            rest = &rest[3..];
        } else {
            push_octet(normal, side, *first)?;
            let copied = copied_len(side, next);
            normal.extend_from_slice(&next[..copied])?;
            rest = &next[copied..];
        }
    }
    Ok(())
}

/// The path without the `$` at its end, if it has one.
fn front_of<'a>(path: &'a [u8]) -> &'a [u8]
    ensures { result.now ≡ front_of path.now }
{
    match path {
        [front @ .., b'$'] => front,
        _ => path,
    }
}

/// Appends the pattern of a rule's path: its normal form, with a `$` at its end if it has one there.
pub fn push_pattern(text: &mut Vec<u8>, path: &[u8]) -> Result<(), AllocError>
    ensures { OnOk result (text.new.items ≡ text.old.items ++ pattern_of all_stay path.now) }
{
    push_normal(text, Side::Rule, front_of(path))?;
    if path.ends_with(b"$") {
        text.push(b'$')?;
    }
    Ok(())
}

fn is_uri_octet(byte: u8) -> bool
    ensures { result ≡ is_uri_octet byte }
{
    needs_no_escape(byte) || has(byte, b"%:/?[]@!&'()+,;=")
}

fn are_uri_octets(target: &[u8]) -> bool
    ensures { result ≡ list_all is_uri_octet target.now }
{
    target.iter().all(|byte| is_uri_octet(*byte))
}

/// The text begins with an escape that isn't in normal form.
fn begins_odd_escape(text: &[u8]) -> bool
    ensures { result ≡ begins_odd_escape text.now }
{
    match text {
        [b'%', high, low, ..] if high.is_ascii_hexdigit() && low.is_ascii_hexdigit() => {
            high.is_ascii_lowercase()
                || low.is_ascii_lowercase()
                || needs_no_escape(hex_value(*high) * 16 + hex_value(*low))
        }
        _ => false,
    }
}

/// Whether the path and query of a URI are in normal form.
#[tactic(auto, using(crate::proofs::NormalLemmas::plain_skipped, std::proofs::lemmas::List::take_rest))]
pub fn is_normal(target: &[u8]) -> bool
    ensures { result ≡ is_normal target.now }
{
    let rest = &target[prefix_len_in(PLAIN, target)..];
    are_uri_octets(rest) && !somewhere(rest, begins_odd_escape)
}

/// The normal form of a match target.
pub fn normal_target(alloc: Global, target: &[u8]) -> Result<String, AllocError>
    ensures { IfOk result (λ normal. string_bytes normal ≡ normal_uri all_stay target.now) }
{
    let mut normal = Vec::new(alloc);
    push_normal(&mut normal, Side::Uri, target)?;
    match String::from_utf8(normal) {
        Ok(text) => Ok(text),
        Err(_) => unreachable!(),
    }
}
