//! The conditions of warnings about a file, a line and its position, grouped by what they inspect.

use crate::contents::{has_odd_comment, has_odd_space, is_cut_short, is_cut_to_root, is_emptied};
use crate::facts::FileFacts;
use crate::field_names::{begins_inner_field, is_misspelled};
use crate::positions::{
    Preceding, are_joined, is_above_agents, is_empty_group, is_ignored, is_split, name_star,
};
use crate::rules::{
    has_dollar_inside, has_dot_segment, has_more_after_dollar, has_odd_character, has_odd_start,
    has_question_marks, has_quote_at_end, has_wildcard, holds_otherwise, is_expression, is_quoted,
    is_url_in_path,
};
use crate::several_values::{has_tag, several_values};
use crate::table::Cause;
use crate::tokens::{is_product_token, is_usual_name};
use crate::urls::{has_odd_host, is_absolute_url};
use rfc9309::target::begins_as_url;
use safe_output::bytes::{has, is_utf8, somewhere};
use std::alloc::{AllocError, Global};
use texting_robots::labels::{LabeledLine, Membership};

/// A warning, and whether its condition holds.
pub(crate) type Check = (Cause, bool);

pub(crate) fn file_checks(facts: FileFacts) -> [Check; 9] {
    let is_empty = !(facts.kinds.text || facts.is_too_large);
    [
        (Cause::HtmlPage, facts.is_html),
        (Cause::Utf16Text, facts.is_utf_16),
        (Cause::NoDirectives, facts.is_other_text),
        (Cause::EmptyFile, is_empty && !facts.has_hash),
        (Cause::OnlyComments, is_empty && facts.has_hash),
        (Cause::FileTooLarge, facts.is_too_large),
        (
            Cause::NoUserAgent,
            facts.kinds.rule && !facts.kinds.user_agent,
        ),
        (Cause::DamagedByteOrderMark, facts.has_damaged_mark),
        (Cause::NulInLine, facts.has_nul && !facts.is_utf_16),
    ]
}

/// `lacks_colon`: there is no colon after the field name.
pub(crate) fn field_checks(body: &[u8], lacks_colon: bool) -> [Check; 2] {
    [
        (Cause::NonstandardField, is_misspelled(body)),
        (Cause::MissingColon, lacks_colon),
    ]
}

/// Comments are only checked if `is_in_scope` is true.
pub(crate) fn raw_rule_checks(
    is_in_scope: bool,
    value: &[u8],
    tail: &[u8],
    comment: &[u8],
) -> [Check; 4] {
    [
        (Cause::SpaceAroundValue, has_odd_space(value, tail)),
        (
            Cause::HashLeavesRoot,
            is_in_scope && is_cut_to_root(value, tail, comment),
        ),
        (
            Cause::HashEmptiesRule,
            is_in_scope && is_emptied(value, tail, comment),
        ),
        (
            Cause::HashInRule,
            is_in_scope && is_cut_short(value, tail, comment),
        ),
    ]
}

fn has_several_directives(text: &[u8]) -> bool {
    has(b':', text) && somewhere(text, begins_inner_field)
}

pub(crate) fn user_agent_checks(value: &[u8]) -> [Check; 2] {
    let is_other = !is_product_token(value);
    let is_usual = is_usual_name(value);
    [
        (
            Cause::InvalidProductToken,
            is_other && !(is_usual || has_several_directives(value)),
        ),
        (Cause::UnusualProductToken, is_other && is_usual),
    ]
}

pub(crate) fn is_in_scope_of(all_groups: bool, membership: Membership) -> bool {
    all_groups || membership == Membership::Own
}

pub(crate) fn rule_checks(value: &[u8]) -> [Check; 17] {
    let is_regex = is_expression(value);
    let is_odd = has_odd_start(value);
    let has_equals = value.starts_with(b"=");
    let is_encoded_otherwise = holds_otherwise(value);
    let is_other = is_regex | has_tag(value);
    let has_odd_byte = has_odd_character(value) & !(is_quoted(value) | is_other);
    let (several, seems_several) = several_values(value);
    let is_explained = has_several_directives(value) | has_equals;
    [
        (Cause::RuleNotUtf8, !is_utf8(value)),
        (Cause::EqualsInRule, is_odd & has_equals),
        (Cause::MissingSlash, is_odd & !(has_equals | is_regex)),
        (Cause::UrlInPath, is_url_in_path(value)),
        (Cause::UrlAsRule, begins_as_url(value)),
        (Cause::OddCharacter, has_odd_byte & !is_encoded_otherwise),
        (Cause::UnencodedCharacter, is_encoded_otherwise & !is_other),
        (Cause::QuoteAtEnd, has_quote_at_end(value)),
        (Cause::QuotedRule, is_quoted(value)),
        (Cause::RegexWithoutSlash, is_odd & is_regex),
        (Cause::RegexSyntax, !is_odd & is_regex),
        (Cause::StarAfterDollar, has_more_after_dollar(value)),
        (Cause::DollarNotAtEnd, has_dollar_inside(value)),
        (Cause::EscapedWildcard, has_wildcard(value)),
        (Cause::DotSegment, has_dot_segment(value)),
        (Cause::QuestionMarks, has_question_marks(value)),
        (several, (is_utf8(value) & seems_several) & !is_explained),
    ]
}

pub(crate) fn sitemap_checks(alloc: Global, value: &[u8]) -> Result<[Check; 3], AllocError> {
    let (cause, seems_several) = several_values(value);
    Ok([
        (cause, seems_several),
        (Cause::SitemapNotAbsolute, !is_absolute_url(alloc, value)?),
        (Cause::SitemapNotPublic, has_odd_host(alloc, value)?),
    ])
}

pub(crate) fn text_checks(tail: &[u8], comment: &[u8]) -> [Check; 2] {
    [
        (Cause::SeveralDirectives, has_several_directives(tail)),
        (Cause::ControlInComment, has_odd_comment(comment)),
    ]
}

/// `last` is the number of the last rule or delay, `above` is the only name of the group above the line, and
/// `from_here` are the lines from this one on.
pub(crate) fn position_checks(
    last: Option<usize>,
    preceding: Preceding,
    above: Option<&[u8]>,
    labeled: &LabeledLine<'_>,
    from_here: &[LabeledLine<'_>],
) -> [Check; 6] {
    let is_split = is_split(preceding, above, labeled, from_here);
    let is_star = is_split && name_star(from_here);
    [
        (Cause::RuleBeforeUserAgent, is_above_agents(labeled)),
        (Cause::EmptyGroup, is_empty_group(last, labeled)),
        (Cause::GroupSplitByDelay, is_split && !is_star),
        (Cause::DelayAboveStar, is_star),
        (Cause::GroupJoinedToNext, are_joined(from_here)),
        (Cause::IgnoredDelay, is_ignored(above, labeled.line)),
    ]
}
