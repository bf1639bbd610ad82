//! The names of crawlers in arguments and in the file of `--expect`.
ghost use Rattle.std.specs.Prelude.{◌≡◌};
ghost use Rattle.std.specs.{Char.is_ascii_digit, List.list_all, List.list_any};
ghost use Rattle.audit_core.specs.Audit.{has_space_around, has_version, is_crawler_name, is_name_byte};
ghost use Rattle.audit_core.specs.Audit.{is_own_name};

use crate::error::{Error, Flaw, argument};
use safe_output::bytes::has;
use std::alloc::Global;

fn is_name_byte(byte: u8) -> bool
    ensures { result ≡ is_name_byte byte }
{
    byte.is_ascii_alphanumeric()
        || ((byte == b'_' || byte == b'-') || (byte == b'.' || byte == b' '))
}

fn are_name_bytes(name: &[u8]) -> bool
    ensures { result ≡ list_all is_name_byte name.now }
{
    name.iter().all(|byte| is_name_byte(*byte))
}

fn has_digit(name: &[u8]) -> bool
    ensures { result ≡ list_any is_ascii_digit name.now }
{
    name.iter().any(|byte| byte.is_ascii_digit())
}

/// A dot and a digit, as in `Googlebot.2`.
fn has_version(name: &[u8]) -> bool
    ensures { result ≡ has_version name.now }
{
    has(b'.', name) && has_digit(name)
}

fn has_space_around(name: &[u8]) -> bool
    ensures { result ≡ has_space_around name.now }
{
    name.starts_with(b" ") || name.ends_with(b" ")
}

/// Letters, digits, `_`, `-`, dots and spaces, as in `MJ12bot` and `archive.org_bot`, but no version.
fn is_own_name(name: &[u8]) -> bool
    ensures { result ≡ is_own_name name.now }
{
    (!name.is_empty() && are_name_bytes(name)) && !(has_space_around(name) || has_version(name))
}

/// Whether a crawler can call itself so, or the name is `*`.
pub fn is_crawler_name(name: &str) -> bool
    ensures { result ≡ is_crawler_name name.now }
{
    name == "*" || is_own_name(name.as_bytes())
}

fn name_flaw(name: &str) -> Flaw {
    if has(b',', name.as_bytes()) {
        Flaw::Names
    } else {
        Flaw::Agent
    }
}

/// The crawler, if there is a single one.
pub fn single<'a>(agents: &[&'a str]) -> Option<&'a str> {
    match agents {
        [agent] => Some(*agent),
        _ => None,
    }
}

/// Fails with the first of these names that no crawler has.
pub fn are_crawlers(alloc: Global, names: &[&str]) -> Result<(), Error> {
    for name in names {
        if !is_crawler_name(name) {
            return Err(argument(alloc, name, name_flaw(name)));
        }
    }
    Ok(())
}
