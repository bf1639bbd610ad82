//! Field names: which one was probably intended in an ignored line, and what is unusual in a directive.
use crate::several_values::begins_unseen;
use crate::table::Cause;
use crate::tokens::is_token_byte;
use rfc9309::target::begins_as_url;
use safe_output::bytes::{
    after_byte, before_byte, first, has, somewhere, trim_blanks, trim_blanks_start,
};
use std::alloc::{AllocError, Global};
use strsim::generic_levenshtein;
use texting_robots::parser::{Kind, field_names};

/// The usual field names in the order of the search, with the warning if an ignored line seems to mean one.
const DIRECTIVES: [(&str, Cause); 5] = [
    ("user-agent", Cause::LikeUserAgent),
    ("allow", Cause::LikeAllow),
    ("disallow", Cause::LikeDisallow),
    ("sitemap", Cause::LikeSitemap),
    ("crawl-delay", Cause::LikeCrawlDelay),
];

/// Field names that other crawlers support or supported, in the order of the search, and the warning for each.
const UNSUPPORTED: [(&str, Cause); 12] = [
    ("noindex", Cause::NoindexLine),
    ("nofollow", Cause::NofollowLine),
    ("host", Cause::HostLine),
    ("request-rate", Cause::RequestRateLine),
    ("visit-time", Cause::VisitTimeLine),
    ("clean-param", Cause::CleanParamLine),
    ("content-signal", Cause::ContentSignalLine),
    ("content-usage", Cause::ContentUsageLine),
    ("robot-version", Cause::RobotVersionLine),
    ("comment", Cause::CommentLine),
    ("no-index", Cause::NoindexLine),
    ("no-follow", Cause::NofollowLine),
];

/// Names before a colon that mean a usual one.
const OTHER_FORMS: [(&str, Cause); 5] = [
    ("agent", Cause::LikeUserAgent),
    ("useragnet", Cause::LikeUserAgent),
    ("user agnet", Cause::LikeUserAgent),
    ("allowed", Cause::LikeAllow),
    ("disallowed", Cause::LikeDisallow),
];

const KINDS: [Kind; 5] = [
    Kind::UserAgent,
    Kind::Allow,
    Kind::Disallow,
    Kind::Sitemap,
    Kind::CrawlDelay,
];

fn name_before<'a>(byte: u8, body: &'a [u8]) -> &'a [u8] {
    trim_blanks(before_byte(byte, body))
}

fn name_in<'a>(body: &'a [u8]) -> &'a [u8] {
    name_before(b':', body)
}

fn first_word<'a>(body: &'a [u8]) -> &'a [u8] {
    before_byte(b'\t', before_byte(b' ', trim_blanks_start(body)))
}

fn is_name(name: &str, word: &[u8]) -> bool {
    word.eq_ignore_ascii_case(name.as_bytes())
}

pub(crate) fn begins_with(name: &str, word: &[u8]) -> bool {
    is_name(name, first(name.len(), word))
}

fn is_accepted(kind: Kind, word: &[u8]) -> bool {
    for spelling in field_names(kind) {
        if is_name(spelling, word) {
            return true;
        }
    }
    false
}

/// Whether two or more bytes of a product token follow the name, and the first is a letter, or after `allow`
/// and `disallow` also `-` or `_`.
fn goes_on(name: &str, word: &[u8]) -> bool {
    match word.get(name.len()) {
        Some(byte) => is_token_byte(*byte)
            && matches!(word.get(name.len() + 1), Some(next) if is_token_byte(*next))
            && (byte.is_ascii_alphabetic() || name.as_bytes().ends_with(b"allow")),
        None => false,
    }
}

fn may_mean(alloc: Global, name: &str, word: &[u8]) -> Result<bool, AllocError> {
    if begins_with(name, word) {
        return Ok(!goes_on(name, word));
    }
    if name.len().abs_diff(word.len()) > 2 {
        return Ok(false);
    }
    let lowered = word.to_ascii_lowercase(alloc)?;
    Ok(generic_levenshtein(alloc, &lowered, name.as_bytes())? <= 2)
}

fn first_in(names: &[(&str, Cause)], name: &[u8], word: &[u8]) -> Option<Cause> {
    for (known, cause) in names {
        if is_name(known, name) || is_name(known, word) {
            return Some(*cause);
        }
    }
    None
}

fn may_either_mean(
    alloc: Global,
    name: &[u8],
    word: &[u8],
    known: &str,
) -> Result<bool, AllocError> {
    Ok(may_mean(alloc, known, name)? || may_mean(alloc, known, word)?)
}

fn directive_in(
    alloc: Global,
    names: &[(&str, Cause)],
    name: &[u8],
    word: &[u8],
) -> Result<Option<Cause>, AllocError> {
    for (known, cause) in names {
        if may_either_mean(alloc, name, word, known)? {
            return Ok(Some(*cause));
        }
    }
    Ok(None)
}

fn has_host(body: &[u8]) -> bool {
    let value = trim_blanks(after_byte(b':', before_byte(b'#', body)));
    begins_as_url(value)
        || (!value.is_empty()
            && value.iter().all(|byte| byte.is_ascii_alphanumeric()
                || matches!(*byte, b'-' | b'.' | b':')))
}

pub(crate) fn meant_by(alloc: Global, body: &[u8]) -> Result<Cause, AllocError> {
    let (name, word) = (name_in(body), first_word(body));
    if somewhere(before_byte(b':', word), begins_unseen) {
        return Ok(Cause::UnseenInName);
    }
    if has(b'=', body) && is_any_accepted(name_before(b'=', body)) {
        return Ok(Cause::EqualsSign);
    }
    if is_accepted(Kind::CrawlDelay, name) || is_accepted(Kind::CrawlDelay, word) {
        return Ok(Cause::InvalidDelay);
    }
    if (is_name("host", name) || is_name("host", word)) && has_host(body) {
        return Ok(Cause::HostName);
    }
    if let Some(cause) = first_in(&UNSUPPORTED, name, word) {
        return Ok(cause);
    }
    if let Some(cause) = first_in(&OTHER_FORMS, name, name) {
        return Ok(cause);
    }
    match directive_in(alloc, &DIRECTIVES, name, word)? {
        Some(cause) => Ok(cause),
        None => Ok(Cause::UnrecognizedLine),
    }
}

pub(crate) fn is_misspelled(body: &[u8]) -> bool {
    let text = trim_blanks_start(body);
    !DIRECTIVES.iter().any(|row| begins_with(row.0, text))
}

fn begins_field(name: &str, text: &[u8]) -> bool {
    begins_with(name, text) && text.get(name.len()) == Some(&b':')
}

fn after_seam<'a>(text: &'a [u8]) -> &'a [u8] {
    match text {
        [b' ' | b'\t' | b'*', after @ ..] => after,
        [b'\\', b'n' | b'r', after @ ..] => after,
        [last, first, ..]
            if (last.is_ascii_alphanumeric() || has(*last, b"/$?="))
                && first.is_ascii_uppercase() => &text[1..],
        _ => &[],
    }
}

pub(crate) fn begins_inner_field(text: &[u8]) -> bool {
    let after = after_seam(text);
    begins_field("user-agent", text) || DIRECTIVES.iter().any(|row| begins_field(row.0, after))
}

fn is_any_accepted(word: &[u8]) -> bool {
    KINDS.iter().any(|kind| is_accepted(*kind, word))
}

pub(crate) fn is_without_colon(body: &[u8]) -> bool {
    !(body.contains(&b':') && is_any_accepted(name_in(body)))
}
