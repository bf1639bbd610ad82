//! The expectations in the file of `--expect`, one per line, and how a text is cut into parts.
ghost use Rattle.std.specs.Prelude.{◌≡◌, ◌==◌, ◌∷◌, ◌++◌, [], IfOk, OnOk, length, map};
ghost use Rattle.std.specs.{List.slice_split, Option.option_to_list};
ghost use Rattle.audit_expect.specs.Expect.{AreExpectedIn, asked, demand_of, demanded, goes_on, is_any};
ghost use Rattle.audit_expect.specs.Expect.{line_expects, lines_expect, words, words_with_name};
ghost use Rattle.audit_expect.specs.Internal.Expectations.{expectation_value, expected_by};

use crate::entries::{Line, check_lines};
use crate::patterns::escaped_text;
use audit_core::crawler::is_crawler_name;
use audit_core::error::{Error, Flaw, MalformedLine};
use robots_warnings::crawlers::{is_wrong, meant};
use robots_warnings::facts::without_utf8_bom;
use robots_warnings::spellings::{Spelling, spelled};
use robots_warnings::targets::has_dot_segment;
use robots_warnings::urls::is_absolute_url;
use safe_output::bytes::{after_byte, as_text, before_byte, has};
use std::alloc::{AllocError, Global};

/// What has to be allowed or denied.
#[derive(Clone, Copy)]
pub(crate) struct Expectation<'a> {
    /// The number of the expectation's line.
    pub(crate) number: usize,
    /// Whether the URL must be allowed to the crawler, or else denied.
    pub(crate) allowed: bool,
    pub(crate) agent: &'a str,
    /// Whether it is about any crawler; `agent` is then one of them, once the file was read.
    pub(crate) is_any: bool,
    pub(crate) url: &'a str,
    /// Whether `url` is a pattern, and all paths that it matches are meant.
    pub(crate) is_pattern: bool,
}

fn lines(alloc: Global, text: &[u8]) -> Result<Vec<&[u8]>, AllocError>
    ensures { IfOk result (λ found. map (λ line. line.now) found.items
        ≡ slice_split (λ b. b == 10) text.now) }
{
    text.split(|byte| *byte == b'\n').collect(alloc)
}

fn words(alloc: Global, line: &[u8]) -> Result<Vec<&[u8]>, AllocError>
    ensures { IfOk result (λ found. map (λ word. word.now) found.items ≡ words line.now) }
{
    line.split(|byte| *byte == b' ' || *byte == b'\t' || *byte == b'\r')
        .filter(|word| !word.is_empty())
        .collect(alloc)
}

/// If a word precedes the first quotation mark, what is between this and the next one is a word, too.
fn words_with_name(alloc: Global, line: &[u8]) -> Result<Vec<&[u8]>, AllocError>
    ensures { IfOk result (λ found. map (λ word. word.now) found.items ≡ words_with_name line.now) }
{
    let mut found = words(alloc, before_byte(b'"', line))?;
    if found.len() != 1 {
        return words(alloc, line);
    }
    let rest = after_byte(b'"', line);
    found.push(before_byte(b'"', rest))?;
    let others = words(alloc, after_byte(b'"', rest))?;
    found.extend_from_slice(&others)?;
    Ok(found)
}

pub(crate) fn is_path_or_url(alloc: Global, word: &[u8]) -> Result<bool, AllocError> {
    if word.starts_with(b"/") {
        return Ok(true);
    }
    is_absolute_url(alloc, word)
}

fn is_asked_otherwise(alloc: Global, word: &[u8]) -> Result<bool, AllocError> {
    if !word.starts_with(b"/") {
        return Ok(false);
    }
    let plain = spelled(alloc, Spelling::Standard, word)?;
    Ok(has(b'#', word) || has_dot_segment(&plain))
}

/// Whether something follows the first `$`.
fn goes_on(word: &[u8]) -> bool
    ensures { result ≡ goes_on word.now }
{
    !after_byte(b'$', word).is_empty()
}

fn is_pattern(alloc: Global, word: &[u8]) -> Result<bool, AllocError> {
    let is_long = escaped_text(alloc, word)?.len() > 4096;
    Ok(
        (word.starts_with(b"/") || word.starts_with(b"*"))
            && !has(b'#', word)
            && !goes_on(word)
            && !(is_long && has(b'$', word)),
    )
}

fn asked_flaw(
    alloc: Global,
    expects_pattern: bool,
    word: &[u8],
) -> Result<Option<Flaw>, AllocError> {
    if expects_pattern && !is_pattern(alloc, word)? {
        Ok(Some(Flaw::Pattern))
    } else if !expects_pattern && !is_path_or_url(alloc, word)? {
        Ok(Some(Flaw::Url))
    } else if is_asked_otherwise(alloc, word)? {
        Ok(Some(Flaw::Path))
    } else {
        Ok(None)
    }
}

fn demand_of(word: &[u8]) -> Option<(bool, bool)>
    ensures { result ≡ demand_of word.now }
{
    if word == b"allow".as_slice() {
        Some((true, false))
    } else if word == b"deny".as_slice() {
        Some((false, false))
    } else if word == b"allow-all".as_slice() {
        Some((true, true))
    } else if word == b"deny-all".as_slice() {
        Some((false, true))
    } else {
        None
    }
}

/// Whether the word is a pattern, and the word or the only path that it matches.
fn asked(expects_all: bool, word: &[u8]) -> (bool, &[u8])
    ensures { (result.0, result.1.now) ≡ asked expects_all word.now }
{
    match word {
        [path @ .., b'$'] if expects_all && !(has(b'*', word) || goes_on(word)) => (false, path),
        _ => (expects_all, word),
    }
}

/// Whether the name stands for every crawler.
pub(crate) fn is_any(name: &str) -> bool
    ensures { result ≡ is_any name.now }
{
    name.eq_ignore_ascii_case("any")
}

fn name_flaw(alloc: Global, name: &str) -> Result<Option<Flaw>, AllocError> {
    if !is_crawler_name(name) {
        return Ok(Some(Flaw::Agent));
    }
    if is_any(name) || !is_wrong(name.as_bytes()) {
        return Ok(None);
    }
    Ok(meant(alloc, name.as_bytes())?.map(Flaw::Meant))
}

fn expects<'a>(
    alloc: Global,
    number: usize,
    word: &[u8],
    agent: &'a [u8],
    url: &'a [u8],
) -> Result<Line<Expectation<'a>>, AllocError>
    ensures { IfOk result (λ found. IfOk found (λ entry. expected_by (option_to_list entry)
        ≡ demanded (word.now ∷ agent.now ∷ url.now ∷ []) ∷ [])) }
{
    let Some((allowed, expects_all)) = demand_of(word) else {
        return Ok(Err((number, Flaw::Form)));
    };
    let (is_pattern, url) = asked(expects_all, url);
    let (Some(agent), Some(url)) = (as_text(agent), as_text(url)) else {
        return Ok(Err((number, Flaw::NotUtf8)));
    };
    if let Some(flaw) = name_flaw(alloc, agent)? {
        return Ok(Err((number, flaw)));
    }
    if let Some(flaw) = asked_flaw(alloc, is_pattern, url.as_bytes())? {
        return Ok(Err((number, flaw)));
    }
    Ok(Ok(Some(Expectation {
        number,
        allowed,
        agent,
        is_any: is_any(agent),
        url,
        is_pattern,
    })))
}

fn expectation_in<'a>(
    alloc: Global,
    number: usize,
    line: &'a [u8],
) -> Result<Line<Expectation<'a>>, AllocError>
    ensures { IfOk result (λ found. IfOk found (λ entry.
        expected_by (option_to_list entry) ≡ line_expects line.now)) }
{
    let words = words_with_name(alloc, line)?;
    if words.is_empty() {
        return Ok(Ok(None));
    }
    if words[0].starts_with(b"#") {
        return Ok(Ok(None));
    }
    if words.len() != 3 {
        return Ok(Err((number, Flaw::Form)));
    }
    expects(alloc, number, words[0], words[1], words[2])
}

fn push_line<'a>(
    alloc: Global,
    found: &mut Vec<Expectation<'a>>,
    malformed: &mut Vec<MalformedLine>,
    number: usize,
    line: &'a [u8],
) -> Result<(), AllocError>
    ensures { OnOk result (length malformed.new.items ≡ 0 → (length malformed.old.items ≡ 0)
        × (expected_by found.new.items ≡ expected_by found.old.items ++ line_expects line.entry.now)) }
{
    match expectation_in(alloc, number, line)? {
        Ok(Some(expectation)) => Ok(found.push(expectation)?),
        Ok(None) => Ok(()),
        Err(line) => Ok(malformed.push(line)?),
    }
}

/// Fails with all malformed lines.
fn line_expectations<'a>(
    alloc: Global,
    name: &str,
    text: &'a [u8],
) -> Result<Vec<Expectation<'a>>, Error>
    ensures { IfOk result (λ found. expected_by found.items ≡ lines_expect text.now) }
{
    let mut found = Vec::new(alloc);
    let mut malformed = Vec::new(alloc);
    let mut number: usize = 0;
    let lines = lines(alloc, text)?;
    for line in &lines {
        number = number.saturating_add(1);
        push_line(alloc, &mut found, &mut malformed, number, line)?;
    }
    check_lines(alloc, name, malformed)?;
    Ok(found)
}

/// The text may begin with a byte order mark.
pub(crate) fn expectations_in<'a>(
    alloc: Global,
    name: &str,
    text: &'a [u8],
) -> Result<Vec<Expectation<'a>>, Error>
    ensures { IfOk result (λ found. AreExpectedIn text.now (map expectation_value found.items)) }
{
    line_expectations(alloc, name, without_utf8_bom(text))
}
