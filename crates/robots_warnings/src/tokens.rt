//! Conditions on the name of a crawler.
ghost use Rattle.std.specs.Prelude.{◌≡◌, ◌≤◌, length};
ghost use Rattle.std.specs.List.{before_first, position_or_len};
ghost use Rattle.robots_warnings.specs.Crawlers.{ends_token, is_token_byte};

use rfc9309::target::begins_in_any_case;
use safe_output::bytes::somewhere;

pub(crate) fn is_token_byte(byte: u8) -> bool
    ensures { result ≡ is_token_byte byte }
{
    byte.is_ascii_alphabetic() || byte == b'_' || byte == b'-'
}

fn token_len(value: &[u8]) -> usize
    ensures value { result ≡ position_or_len ends_token value.now }
    ensures within { result ≤ length value.now }
{
    value
        .iter()
        .take_while(|byte| is_token_byte(**byte))
        .count()
}

pub(crate) fn token_front(value: &[u8]) -> &[u8]
    ensures { result.now ≡ before_first ends_token value.now }
{
    &value[..token_len(value)]
}

pub(crate) fn is_product_token(value: &[u8]) -> bool {
    value == b"*".as_slice() || (!value.is_empty() && value.iter().all(|byte| is_token_byte(*byte)))
}

fn is_name_byte(byte: u8) -> bool {
    is_token_byte(byte) || byte.is_ascii_digit() || byte == b'.' || byte == b' '
}

fn begins_crawler_word(text: &[u8]) -> bool {
    begins_in_any_case(b"bot", text)
        || begins_in_any_case(b"crawler", text)
        || begins_in_any_case(b"spider", text)
}

fn begins_names(text: &[u8]) -> bool {
    match text {
        [_, _, _, _, rest @ ..] => {
            begins_in_any_case(b"bot ", text)
                && somewhere(rest, begins_crawler_word)
                && !rest.eq_ignore_ascii_case(b"bot")
        }
        _ => false,
    }
}

pub(crate) fn is_usual_name(value: &[u8]) -> bool {
    let name = match value {
        [name @ .., b'*'] => name,
        _ => value,
    };
    !value.is_empty()
        && name.iter().all(|byte| is_name_byte(*byte))
        && !somewhere(value, begins_names)
}
