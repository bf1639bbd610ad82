//! Whether a line is one of the extended grammar. The content of a line is its bytes without the terminator.
ghost use Rattle.std.specs.Prelude.{◌≡◌};
ghost use Rattle.std.specs.{List.list_all, List.list_any, Str.str_eq_ignore_ascii_case};
ghost use Rattle.safe_output.specs.Bytes.{is_blank};
ghost use Rattle.rfc9309.specs.Conformance.{is_line_below};
ghost use Rattle.rfc9309.specs.LineTest.{are_some, has_form, is_comment_byte, is_comment_text, is_digit};
ghost use Rattle.rfc9309.specs.LineTest.{is_identifier_byte, is_keyed, is_number, is_other_name, is_pattern};
ghost use Rattle.rfc9309.specs.LineTest.{is_product_token, is_value_byte, is_value_text, lower, value_in};
ghost use Rattle.rfc9309.specs.LineForms.{Agent, Delay, Empty, Other, Rule, Sitemap};

use safe_output::bytes::{after_byte, before_byte, has, is_utf8, trim_blanks};

/// The field names that this library recognizes. Lines with others are ignored.
const NAMES: &[&str] = &[
    "user-agent",
    "useragent",
    "allow",
    "disallow",
    "dissallow",
    "dissalow",
    "disalow",
    "diasllow",
    "disallaw",
    "sitemap",
    "site-map",
    "crawl-delay",
    "crawldelay",
];

/// The value of a line, between the first colon and a comment, trimmed.
fn value_in<'a>(body: &'a [u8]) -> &'a [u8]
    ensures { result.now ≡ value_in body.now }
{
    trim_blanks(before_byte(b'#', after_byte(b':', body)))
}

fn are_comment_bytes(text: &[u8]) -> bool
    ensures { result ≡ list_all is_comment_byte text.now }
{
    text.iter().all(|byte| *byte >= b' ' || *byte == b'\t')
}

/// The text may come after the `#` of a comment.
fn is_comment(text: &[u8]) -> bool
    ensures { result ≡ is_comment_text text.now }
{
    is_utf8(text) && are_comment_bytes(text)
}

fn are_value_bytes(text: &[u8]) -> bool
    ensures { result ≡ list_all is_value_byte text.now }
{
    text.iter().all(|byte| *byte > b' ' && *byte != b'#')
}

/// UTF-8 without spaces, control characters other than DEL, and `#`.
fn is_value(text: &[u8]) -> bool
    ensures { result ≡ is_value_text text.now }
{
    is_utf8(text) && are_value_bytes(text)
}

fn are_blank(text: &[u8]) -> bool
    ensures { result ≡ list_all is_blank text.now }
{
    text.iter().all(|byte| *byte == b' ' || *byte == b'\t')
}

fn are_identifier_bytes(text: &[u8]) -> bool
    ensures { result ≡ list_all is_identifier_byte text.now }
{
    text.iter().all(|byte| matches!(*byte, b'-' | b'_' | b'A'..=b'Z' | b'a'..=b'z'))
}

fn is_identifier(text: &[u8]) -> bool
    ensures { result ≡ are_some is_identifier_byte text.now }
{
    !text.is_empty() && are_identifier_bytes(text)
}

fn are_digit_bytes(text: &[u8]) -> bool
    ensures { result ≡ list_all is_digit text.now }
{
    text.iter().all(|byte| byte.is_ascii_digit())
}

fn are_digits(text: &[u8]) -> bool
    ensures { result ≡ are_some is_digit text.now }
{
    !text.is_empty() && are_digit_bytes(text)
}

fn is_product_token(value: &[u8]) -> bool
    ensures { result ≡ is_product_token value.now }
{
    is_identifier(value) || value == b"*".as_slice()
}

fn is_pattern(value: &[u8]) -> bool
    ensures { result ≡ is_pattern value.now }
{
    match value {
        [] => true,
        [b'/' | b'*', rest @ ..] => is_value(rest),
        _ => false,
    }
}

/// Digits, or digits around a point.
#[tactic(auto, unfolding(crate::specs::LineTest::is_number))]
fn is_number(value: &[u8]) -> bool
    ensures { result ≡ is_number value.now }
{
    are_digits(value)
        || (has(b'.', value)
            && are_digits(before_byte(b'.', value))
            && are_digits(after_byte(b'.', value)))
}

fn is_any_of(names: &[&str], name: &[u8]) -> bool
    ensures { result ≡ list_any (λ known. str_eq_ignore_ascii_case name.now known.now) names.now }
{
    names
        .iter()
        .any(|known| name.eq_ignore_ascii_case(known.as_bytes()))
}

/// An identifier that isn't a field name which this library recognizes.
fn is_other_name(name: &[u8]) -> bool
    ensures { result ≡ is_other_name name.now }
{
    is_identifier(name) && !is_any_of(NAMES, name)
}

/// The line's field name is `word`, in lower or upper case, and its comment, if it has one, is allowed.
fn is_keyed(word: &str, body: &[u8]) -> bool
    requires { lower word.now ≡ word.now }
    ensures { result ≡ is_keyed word.now body.now }
{
    has(b':', body)
        && trim_blanks(before_byte(b':', body)).eq_ignore_ascii_case(word.as_bytes())
        && is_comment(after_byte(b'#', after_byte(b':', body)))
}

fn is_empty_line(body: &[u8]) -> bool
    ensures { result ≡ has_form Empty body.now }
{
    are_blank(before_byte(b'#', body)) && is_comment(after_byte(b'#', body))
}

pub(crate) fn is_agent_line(body: &[u8]) -> bool
    ensures { result ≡ has_form Agent body.now }
{
    is_keyed("user-agent", body) && is_product_token(value_in(body))
}

fn is_rule_line(body: &[u8]) -> bool
    ensures { result ≡ has_form Rule body.now }
{
    (is_keyed("allow", body) || is_keyed("disallow", body)) && is_pattern(value_in(body))
}

fn is_delay_line(body: &[u8]) -> bool
    ensures { result ≡ has_form Delay body.now }
{
    is_keyed("crawl-delay", body) && is_number(value_in(body))
}

fn is_sitemap_line(body: &[u8]) -> bool
    ensures { result ≡ has_form Sitemap body.now }
{
    is_keyed("sitemap", body) && is_value(value_in(body))
}

fn is_other_line(body: &[u8]) -> bool
    ensures { result ≡ has_form Other body.now }
{
    has(b':', body)
        && is_other_name(trim_blanks(before_byte(b':', body)))
        && is_comment(after_byte(b':', body))
}

/// A line of the grammar other than a user-agent line; a rule only if a user-agent line is above (`below`).
#[tactic(auto, unfolding(crate::specs::Conformance::is_line_below))]
pub(crate) fn is_line_below(below: bool, body: &[u8]) -> bool
    ensures { result ≡ is_line_below below body.now }
{
    (below && is_rule_line(body))
        || is_empty_line(body)
        || is_sitemap_line(body)
        || is_delay_line(body)
        || is_other_line(body)
}
