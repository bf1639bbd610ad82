//! For `--explain`: what is proved about the warnings with a name.

/// The name of warnings, and a text about those with this name.
pub(crate) type Named = (&'static str, &'static str);

#[rattlefmt::skip]
static THEOREMS: [(&str, &str); 17] = [
    ("closed-site",
        "if the message names no reading, each path is denied to the crawler, if the file isn't rejected for it, unless it begins with /robots.txt or with the path of a sitemap, or an Allow matches it that is /$, ends, but for *, $ and ?, as a static file does (.css, .js, .txt, .xml, .json, a picture or a font), or begins with /.well-known or /sitemap (theorem closed_site)"),
    ("url-not-normal",
        "without this note the path and the query that are compared are the normal form of what is written, so what the report says of RFC 9309's reading applies (theorem url_not_normal)"),
    ("hash-in-rule", "as an error: what is left of the rule matches every path (theorem hash_in_rule)"),
    ("rule-not-utf-8", "no crawler has the rule (theorem rule_not_utf_8)"),
    ("missing-slash", "such a rule matches nothing that starts with / (theorem missing_slash)"),
    ("url-as-rule", "as an error: such a rule matches nothing that starts with / (theorem missing_slash)"),
    ("quoted-rule",
        "a rule that begins with a quote matches nothing that starts with / (theorem missing_slash)"),
    ("regex-syntax", "as an error: such a rule matches nothing that starts with / (theorem missing_slash)"),
    ("dollar-not-at-end",
        "if another byte than * or $ follows, the rule matches nothing (theorem dollar_not_at_end)"),
    ("rule-before-user-agent", "no crawler has the rule (theorem rule_before_user_agent)"),
    ("group-past-size-limit", "no line within the limit has the name (theorem group_past_size_limit)"),
    ("allowed-and-disallowed",
        "the Disallow decides no verdict for that crawler, or, if one of the paths is *, none on a path (theorem allowed_and_disallowed_never_decides)"),
    ("empty-disallow",
        "for a crawler of the report without such a line, every verdict is the same where an empty Disallow is no rule (theorem without_empty_disallows)"),
    ("repeated-delay",
        "in a file of at most 512,000 bytes, if some or all of these lines are deleted, with their line ends, the delay of every crawler is the same, unless the first line then begins with a byte of a byte order mark (theorem repeated_delay)"),
    ("group-without-star-rules",
        "a crawler of the report that the group names has none of the Disallows of *, and the number is right (theorem group_without_star_rules)"),
    ("repeated-rule",
        "it decides no verdict (theorem repeated_rule); in a file of at most 512,000 bytes, if some or all of these lines are deleted, with their line ends, every verdict of every crawler is the same, unless the first line then begins with a byte of a byte order mark (theorem repeated_rules_can_be_deleted)"),
    ("needless-rule",
        "if exactly these lines are deleted, with their line ends, every verdict, the delay, the sitemaps and whether the file is rejected stay the same for each crawler (theorem needless_lines_can_be_deleted)"),
];

pub(crate) fn theorems() -> &'static [Named] {
    &THEOREMS
}
