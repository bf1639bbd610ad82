//! Sanitizes text: escapes invalid UTF-8, what is unsafe to display, and starts of commands.
ghost use Rattle.std.specs.Prelude.{◌≡◌, ◌++◌, OnOk, encode_utf8_all, flat_map, string_bytes};
ghost use Rattle.std.specs.{List.list_all, Str.chars, Io.StartsWith};
ghost use Rattle.safe_output.specs.Sanitize.{begins_command, has_command, is_printable, is_printable_byte};
ghost use Rattle.safe_output.specs.Sanitize.{safe_chunk, safe_in, sanitized, sanitized_in, turns_text};
ghost use Rattle.safe_output.specs.Sanitize.{without_commands, without_hash};

use crate::bytes::somewhere;
use bstr::decode_utf8;
use std::alloc::AllocError;
use std::str::from_utf8;
use texting_robots::push_escaped_bytes;

/// Whether the character may change the direction of a text.
fn turns_text(char: char) -> bool
    ensures { result ≡ turns_text char }
{
    matches!(char, '\u{61C}' | '\u{200E}'..='\u{200F}' | '\u{202A}'..='\u{202E}' | '\u{2066}'..='\u{2069}')
}

/// Whether the character is safe to display, as is LF if the text may have several lines.
fn is_printable(char: char, has_lines: bool) -> bool
    ensures { result ≡ is_printable has_lines char }
{
    match char {
        '\n' => has_lines,
        '\u{2028}' | '\u{2029}' => false,
        _ => !char.is_control() && !turns_text(char),
    }
}

fn is_printable_byte(byte: u8, has_lines: bool) -> bool
    ensures { result ≡ is_printable_byte has_lines byte }
{
    ((byte >= b' ') & (byte <= b'~')) | (has_lines & (byte == b'\n'))
}

/// The loop doesn't stop at the first unprintable byte, since usually there is none.
pub(crate) fn are_printable_bytes(bytes: &[u8], has_lines: bool) -> bool
    ensures { result ≡ list_all (is_printable_byte has_lines) bytes.now }
{
    let mut all = true;
    for byte in bytes {
        all &= is_printable_byte(*byte, has_lines);
    }
    all
}

/// Appends a chunk, escaped unless it is printable; `None` is for bytes that aren't valid UTF-8.
fn push_chunk(
    text: &mut String,
    char: Option<char>,
    bytes: &[u8],
    has_lines: bool,
) -> Result<(), AllocError>
    ensures added { OnOk result (string_bytes text.new ≡ string_bytes text.old ++ safe_chunk has_lines char bytes.now) }
    ensures kept { StartsWith (string_bytes text.new) (string_bytes text.old) }
{
    match char {
        Some(char) if is_printable(char, has_lines) => text.push(char),
        _ => push_escaped_bytes(text, bytes),
    }
}

/// Appends the bytes, one UTF-8 unit after another, and escapes what isn't printable.
pub(crate) fn push_chunks(
    text: &mut String,
    bytes: &[u8],
    has_lines: bool,
) -> Result<(), AllocError>
    ensures added { OnOk result (string_bytes text.new ≡ string_bytes text.old ++ safe_in has_lines bytes.now) }
    ensures kept { StartsWith (string_bytes text.new) (string_bytes text.old) }
{
    let mut rest = bytes;
    while !rest.is_empty() {
        let (char, size) = decode_utf8(rest);
        let (chunk, later) = rest.split_at(size);
        push_chunk(text, char, chunk, has_lines)?;
        rest = later;
    }
    Ok(())
}

/// Whether a command of a workflow on GitHub begins here.
fn begins_command(text: &[u8]) -> bool
    ensures { result ≡ begins_command text.now }
{
    text.starts_with(b"##[")
}

/// Whether `##[` occurs.
pub(crate) fn has_command(text: &[u8]) -> bool
    ensures { result ≡ has_command text.now }
{
    somewhere(text, begins_command)
}

fn push_without_hash(text: &mut String, char: char) -> Result<(), AllocError>
    ensures added { OnOk result (string_bytes text.new
        ≡ string_bytes text.old ++ encode_utf8_all (without_hash char)) }
    ensures kept { StartsWith (string_bytes text.new) (string_bytes text.old) }
{
    if char == '#' {
        text.push_str("%23")
    } else {
        text.push(char)
    }
}

fn push_without_hashes(text: &mut String, plain: &str) -> Result<(), AllocError>
    ensures added { OnOk result (string_bytes text.new
        ≡ string_bytes text.old ++ encode_utf8_all (flat_map without_hash (chars plain.now))) }
    ensures kept { StartsWith (string_bytes text.new) (string_bytes text.old) }
{
    for char in plain.chars() {
        push_without_hash(text, char)?;
    }
    Ok(())
}

/// Appends the text, with each `#` escaped if it contains the start of a command.
#[tactic(auto, unfolding(crate::specs::Sanitize::without_commands))]
pub(crate) fn push_without_commands(text: &mut String, plain: &str) -> Result<(), AllocError>
    ensures added { OnOk result (string_bytes text.new ≡ string_bytes text.old ++ without_commands plain.now) }
    ensures kept { StartsWith (string_bytes text.new) (string_bytes text.old) }
{
    if has_command(plain.as_bytes()) {
        push_without_hashes(text, plain)
    } else {
        text.push_str(plain)
    }
}

/// Appends the sanitized bytes. If all are printable ASCII, they are copied at once.
fn push_sanitized_in(text: &mut String, bytes: &[u8], has_lines: bool) -> Result<(), AllocError>
    ensures added { OnOk result (string_bytes text.new ≡ string_bytes text.old ++ sanitized_in has_lines bytes.now) }
    ensures kept { StartsWith (string_bytes text.new) (string_bytes text.old) }
{
    if are_printable_bytes(bytes, has_lines)
        && let Ok(plain) = from_utf8(bytes)
    {
        return push_without_commands(text, plain);
    }
    let mut safe = String::new(*text.allocator());
    push_chunks(&mut safe, bytes, has_lines)?;
    push_without_commands(text, &safe)
}

/// Appends the sanitized bytes, without any line end.
pub fn push_sanitized(text: &mut String, bytes: &[u8]) -> Result<(), AllocError>
    ensures added { OnOk result (string_bytes text.new ≡ string_bytes text.old ++ sanitized bytes.now) }
    ensures kept { StartsWith (string_bytes text.new) (string_bytes text.old) }
{
    push_sanitized_in(text, bytes, false)
}
