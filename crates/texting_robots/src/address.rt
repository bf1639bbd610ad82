//! The address of a site's robots.txt file.
ghost use Rattle.std.specs.Prelude.{◌≡◌, ◌++◌, codes, decimal, IfOk, OnOk, option_map, string_bytes};
ghost use Rattle.url.specs.Parser.{GivesBy};
ghost use Rattle.texting_robots.specs.Prepared.{with_delimiter};
ghost use Rattle.texting_robots.specs.Address.{robots_address, robots_address_of};

use std::alloc::{AllocError, Global};
use url::{ParseError, Url};

fn push_port(alloc: Global, text: &mut String, port: Option<u16>) -> Result<(), AllocError>
    ensures { OnOk result (string_bytes text.new
        ≡ string_bytes text.old ++ with_delimiter (codes ":") (option_map decimal port)) }
{
    if let Some(port) = port {
        text.push(':')?;
        text.push_str(&port.to_string(alloc)?)?;
    }
    Ok(())
}

fn text_of(alloc: Global, scheme: &str, host: &str, port: Option<u16>) -> Result<String, AllocError>
    ensures { IfOk result (λ s. string_bytes s
        ≡ scheme.now ++ codes "://" ++ host.now ++ with_delimiter (codes ":") (option_map decimal port)
        ++ codes "/robots.txt") }
{
    let mut text = String::from_str(alloc, scheme)?;
    text.push_str("://")?;
    text.push_str(host)?;
    push_port(alloc, &mut text, port)?;
    text.push_str("/robots.txt")?;
    Ok(text)
}

/// The address of the robots.txt file of the site that a parsed URL is on. The errors are those of
/// [`get_robots_url`].
pub fn robots_url_of(alloc: Global, url: &Url) -> Result<String, ParseError>
    ensures { GivesBy string_bytes result (robots_address_of url.now) }
{
    if url.cannot_be_a_base() {
        return Err(ParseError::SetHostOnCannotBeABaseUrl);
    }
    let scheme = url.scheme();
    if scheme != "http" && scheme != "https" {
        return Err(ParseError::EmptyHost);
    }
    let Some(host) = url.host_str() else {
        return Err(ParseError::EmptyHost);
    };
    Ok(text_of(alloc, scheme, host, url.port())?)
}

/// The address of the robots.txt file of the site that a URL is on.
///
/// # Errors
///
/// The error of `url` for a string that it can't parse, `SetHostOnCannotBeABaseUrl` for a URL that can't be a
/// base, and `EmptyHost` for one that isn't `http` or `https` or has no host. `OutOfMemory` if an allocation
/// fails, and `Overflow` if a URL has more bytes than `url` can count.
pub fn get_robots_url(alloc: Global, url: &str) -> Result<String, ParseError>
    ensures { GivesBy string_bytes result (robots_address url.now) }
{
    let url = Url::parse(alloc, url)?;
    robots_url_of(alloc, &url)
}
