//! The parts of an input: its header, which is the crawler's name and the URLs, and the file.
ghost use Rattle.std.specs.Prelude.{◌≡◌, ◌≢◌, ◌<◌, [], Err, IfErr, IfOk, IfSome, MatchOption, Some, false, length, map, true};
ghost use Rattle.std.specs.{Io.BufRead.strip_last, List.list_all, Option.IsSomeAnd, Option.option_map, Str.is_utf8};
ghost use Rattle.robots_verdict.specs.Input.{are_utf8, cr, line_from, split};
ghost use Rattle.robots_verdict.specs.{Internal.IsFirstLf, Internal.IsOneLine, Internal.value_of, Report.IsReport};

use crate::fault::Fault;
use safe_output::bytes::as_text;
use std::alloc::Global;

/// An input whose header is UTF-8.
#[derive(Drop)]
pub struct Header<'a> {
    pub agent: &'a str,
    pub urls: Vec<&'a str>,
    pub file: &'a [u8],
}

/// An input whose header needn't be UTF-8.
#[derive(Drop)]
struct RawInput<'a> {
    agent: &'a [u8],
    urls: Vec<&'a [u8]>,
    file: &'a [u8],
}

fn without_cr<'a>(line: &'a [u8]) -> &'a [u8]
    ensures { result.now ≡ strip_last cr line.now }
{
    if !line.is_empty() && line[line.len() - 1] == b'\r' {
        return &line[..line.len() - 1];
    }
    line
}

fn find_lf(input: &[u8]) -> Option<usize>
    ensures { MatchOption result (IsOneLine input.now) (λ place. IsFirstLf input.now place) }
{
    input.iter().position(|byte| *byte == b'\n')
}

/// The first line without its LF or CR LF, and what follows. `None` if no LF is left.
fn first_line<'a>(input: &'a [u8]) -> Option<(&'a [u8], &'a [u8])>
    ensures line { option_map (λ found. (found.0.now, found.1.now)) result ≡ line_from [] input.now }
    ensures shorter { IfSome result (λ found. length found.1.now < length input.now) }
{
    match find_lf(input) {
        Some(end) => Some((without_cr(&input[..end]), &input[end + 1..])),
        None => None,
    }
}

/// Splits an input at its first empty line after the line with the crawler's name.
fn split<'a>(alloc: Global, input: &'a [u8]) -> Result<RawInput<'a>, Fault>
    ensures ok { IfOk result (λ parts. split input.now ≡ Some (record {
      agent = parts.agent.now;
      urls = map (λ url. url.now) parts.urls.items;
      file = parts.file.now;
    })) }
    ensures fault { IfErr result (λ fault. fault ≢ Fault.Memory → IsReport input.now (Err fault)) }
    ensures memory { IfErr result (λ fault. fault ≡ Fault.Memory
        → (input.now ≢ []) × ¬ IsSomeAnd (split input.now) (λ parts. parts.urls ≡ [])) }
{
    let Some((agent, mut rest)) = first_line(input) else {
        return Err(Fault::NoEmptyLine);
    };
    let mut urls = Vec::new(alloc);
    while let Some((url, next)) = first_line(rest) {
        if url.is_empty() {
            return Ok(RawInput {
                agent,
                urls,
                file: next,
            });
        }
        urls.push(url)?;
        rest = next;
    }
    Err(Fault::NoEmptyLine)
}

fn text_of<'a>(bytes: &'a [u8]) -> Result<&'a str, Fault>
    ensures ok { IfOk result (λ text. (text.now ≡ bytes.now) × (is_utf8 bytes.now ≡ true)) }
    ensures fault { IfErr result (λ fault. (fault ≡ Fault.HeaderNotUtf8) × (is_utf8 bytes.now ≡ false)) }
{
    as_text(bytes).ok_or(Fault::HeaderNotUtf8)
}

fn texts_of<'a>(alloc: Global, urls: &[&'a [u8]]) -> Result<Vec<&'a str>, Fault>
    ensures ok { IfOk result (λ texts. (map (λ url. url.now) texts.items ≡ map (λ url. url.now) urls.now)
        × (list_all is_utf8 (map (λ url. url.now) urls.now) ≡ true)) }
    ensures fault { IfErr result (λ fault. fault ≢ Fault.Memory → (fault ≡ Fault.HeaderNotUtf8)
        × (list_all is_utf8 (map (λ url. url.now) urls.now) ≡ false)) }
    ensures memory { IfErr result (λ fault. fault ≡ Fault.Memory → urls.now ≢ []) }
{
    let mut texts = Vec::new(alloc);
    for url in urls {
        texts.push(text_of(url)?)?;
    }
    Ok(texts)
}

/// The parts of an input. If both errors apply, it is `NoEmptyLine`. Only URLs need allocations.
pub(crate) fn read_header<'a>(alloc: Global, input: &'a [u8]) -> Result<Header<'a>, Fault>
    ensures input { IfOk result (λ header. split input.now ≡ Some (value_of header)) }
    ensures texts { IfOk result (λ header. are_utf8 (value_of header) ≡ true) }
    ensures fault { IfErr result (λ fault. fault ≢ Fault.Memory → IsReport input.now (Err fault)) }
    ensures memory { IfErr result (λ fault. fault ≡ Fault.Memory
        → (input.now ≢ []) × ¬ IsSomeAnd (split input.now) (λ parts. parts.urls ≡ [])) }
{
    let parts = split(alloc, input)?;
    let agent = text_of(parts.agent)?;
    let urls = texts_of(alloc, &parts.urls)?;
    Ok(Header {
        agent,
        urls,
        file: parts.file,
    })
}
