//! The path and the query of a URL, which RFC 9309 compares in normal form.
ghost use Rattle.std.specs.Prelude.{◌≡◌, ◌≤◌, IfOk, IfSome, drop, length};
ghost use Rattle.std.specs.List.{position_or_len, prefix_len};
ghost use Rattle.rfc9309.specs.Matching.{all_stay, normal_uri};
ghost use Rattle.rfc9309.specs.StandardTarget.{begins_as_url, begins_in_any_case, ends_authority};
ghost use Rattle.rfc9309.specs.StandardTarget.{is_scheme_byte, site_len, written_target};

use crate::normal::{is_normal, normal_target};
use safe_output::bytes::{before_byte, first, has};
use std::alloc::{AllocError, Global};
use std::borrow::CowStr;
use std::marker::Model;
use texting_robots::byte_set::{ByteSet, prefix_len_in};

/// The ASCII bytes other than `/`, `?` and `#`.
const AUTHORITY: &ByteSet = &[
    255, 255, 255, 251, 255, 255, 255, 255, 255, 255, 255, 255, 255, 255, 255, 243,
];

pub fn begins_in_any_case(front: &[u8], text: &[u8]) -> bool
    ensures { result ≡ begins_in_any_case front.now text.now }
{
    first(front.len(), text).eq_ignore_ascii_case(front)
}

/// Whether the text starts with `http://` or `https://`.
pub fn begins_as_url(text: &[u8]) -> bool
    ensures { result ≡ begins_as_url text.now }
{
    begins_in_any_case(b"http://", text) || begins_in_any_case(b"https://", text)
}

/// How many leading bytes may be those of a scheme.
fn scheme_len(text: &[u8]) -> usize
    ensures value { result ≡ prefix_len is_scheme_byte text.now }
    ensures within { result ≤ length text.now }
{
    text.iter()
        .take_while(|byte| byte.is_ascii_alphanumeric() || has(**byte, b"+-."))
        .count()
}

fn authority_len_by_bytes(text: &[u8]) -> usize
    ensures value { result ≡ position_or_len ends_authority text.now }
    ensures within { result ≤ length text.now }
{
    text.iter().take_while(|byte| !has(**byte, b"/?#")).count()
}

#[tactic(auto, using(crate::proofs::NormalLemmas::authority_split, std::proofs::lemmas::List::take_rest))]
fn authority_len(text: &[u8]) -> usize
    ensures value { result ≡ position_or_len ends_authority text.now }
    ensures within { result ≤ length text.now }
{
    let plain = prefix_len_in(AUTHORITY, text);
    plain + authority_len_by_bytes(&text[plain..])
}

/// How long the scheme, `://` and the authority of a URL are, or 0 if the text doesn't start so.
#[tactic(auto, using(std::proofs::lemmas::List::take_rest))]
fn site_len(text: &[u8]) -> usize
    ensures value { result ≡ site_len text.now }
    ensures within { result ≤ length text.now }
{
    let scheme = scheme_len(text);
    let rest = &text[scheme..];
    if let [first, ..] = text
        && first.is_ascii_alphabetic()
        && rest.starts_with(b"://")
    {
        scheme + 3 + authority_len(&rest[3..])
    } else {
        0
    }
}

#[tactic(auto, using(std::proofs::lemmas::List::take_rest))]
fn after_site(url: &str) -> Option<&str>
    ensures { IfSome result (λ rest. rest.now ≡ drop (site_len url.now) url.now) }
{
    url.get(site_len(url.as_bytes())..)
}

/// The path and the query of a path or an absolute URL, as they are written; an empty path is `/`.
#[tactic(auto, using(std::proofs::lemmas::List::take_rest))]
pub fn written_target(alloc: Global, text: &str) -> Result<Vec<u8>, AllocError>
    ensures { IfOk result (λ target. target.items ≡ written_target text.now) }
{
    let text = text.as_bytes();
    let part = before_byte(b'#', &text[site_len(text)..]);
    let mut target = Vec::new(alloc);
    if !part.starts_with(b"/") {
        target.push(b'/')?;
    }
    target.extend_from_slice(part)?;
    Ok(target)
}

/// The path and the query of a URL or a path in normal form, which any number of robots can be asked for.
/// They are copied only if they aren't written so at the end of the URL.
#[derive(Drop)]
pub struct StandardTarget<'u> {
    text: CowStr<'u, Global>,
}

impl<'u> Model for StandardTarget<'u> {
    ghost use Rattle.std.specs.Prelude.{ℕ, List};
    ghost use Rattle.std.specs.Cow.{cow_str_bytes};

    ghost Value = { List ℕ };

    ghost view = { λ t. cow_str_bytes t.text };
}

impl<'u> StandardTarget<'u> {
    /// The target of a path or an absolute URL as it is written, up to a `#`.
    #[tactic(auto, using(crate::proofs::NormalLemmas::no_fragment, crate::proofs::NormalLemmas::normal_uris, std::proofs::lemmas::Bool::and_parts))]
    pub fn new(alloc: Global, url: &'u str) -> Result<Self, AllocError>
        ensures { IfOk result (λ target. target ≡ normal_uri all_stay (written_target url.now)) }
    {
        if let Some(target) = after_site(url)
            && target.as_bytes().starts_with(b"/")
            && is_normal(target.as_bytes())
        {
            return Ok(StandardTarget {
                text: CowStr::Borrowed(target),
            });
        }
        let text = normal_target(alloc, &written_target(alloc, url)?)?;
        Ok(StandardTarget {
            text: CowStr::Owned(text),
        })
    }

    /// The target, for [`texting_robots::Robot::decide_prepared`] and the like.
    pub fn as_str(&self) -> &str
        ensures { result.now ≡ self.now }
    {
        self.text.as_str()
    }
}
