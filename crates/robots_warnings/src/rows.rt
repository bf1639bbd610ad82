//! Every warning, in the order of `Cause`: its cause, its level, its name, its message, which states what is wrong,
//! what happens, and what to do, an example, the example without the warning, and for `--explain` when it is given.
//! The last two may be empty: a condition is with the first warning of a name.

pub(crate) const COUNT: usize = 101;

/// How many of the rows are the first ones.
pub(crate) const FIRST_COUNT: usize = 56;

/// The first rows and others, for a macro that takes a column of them.
#[rattlefmt::skip]
macro_rules! first_rows { ($column:ident $($more:tt)*) => { $column![
    HtmlPage Error "html-page"
        "no usable line found; the text starts with <, so it may be an HTML page; serve a plain-text robots.txt instead"
        "<html>\n</html>"
        "User-agent: *\nDisallow: /search"
        "the file has no directive, and its first character is <, not counting a byte order mark, spaces, tabs and line ends; then no line has a warning of its own",
    Utf16Text Error "utf-16-text"
        "no usable line found; the file looks like UTF-16; save it as UTF-8"
        "\\xFF\\xFED\\x00" ""
        "the file has no directive, and it starts with the byte order mark of UTF-16, or it has at least four bytes and every second one of the first 64 is NUL; then no line has a warning of its own",
    NoDirectives Error "no-directives"
        "no usable User-agent, Allow, Disallow, Crawl-delay or Sitemap line found, so everything is allowed; write one directive per line, for example: Disallow: /search"
        "hello\nworld"
        "User-agent: *\nDisallow: /search"
        "the file has no directive, although a line is neither empty nor a comment, and it looks neither like HTML nor like UTF-16; then no line has a warning of its own",
    EmptyFile Warning "empty-file"
        "the file is empty or has only blank lines, so every URL may be fetched; pass the right file, or, if that is meant, write User-agent: * and an empty Disallow"
        "\\x20"
        "User-agent: *\nDisallow:"
        "the file has nothing but blank lines, comments and possibly a byte order mark, and at most 512,000 bytes; it is a note if it has a #",
    OnlyComments Note "empty-file"
        "the file has nothing but comments, so every URL may be fetched; if that is meant, User-agent: * and an empty Disallow say so"
        "# no rules" "" "",
    FileTooLarge Warning "file-too-large"
        "the file is larger than 512,000 bytes (500 KiB); the rest is ignored; shorten it or move important groups to the top"
        "Disallow: /\\{512000 a}" ""
        "the file has more than 512,000 bytes",
    NoUserAgent Warning "no-user-agent"
        "rules are read, but no User-agent line; valid rules are applied here, but Google ignores them; add User-agent: * above them"
        "Disallow: /a\nDisallow: /b"
        "User-agent: *\nDisallow: /a\nDisallow: /b"
        "a rule is read, but no User-agent line",
    DamagedByteOrderMark Warning "damaged-byte-order-mark"
        "the file starts with the byte EF, BB or BF, as a damaged byte order mark does; it is skipped here, but other crawlers may not recognize the first line; delete it, and save the file as UTF-8"
        "\\xEF\\xBBAllow: /"
        "User-agent: *\nAllow: /"
        "the file starts with EF, BB or BF, but not with all three bytes of a byte order mark",
    NulInLine Warning "nul-in-line"
        "the file contains a NUL byte, which ends a line here, but may not in other crawlers; put a line end in its place, or delete it at the end of a line"
        "Allow: /\\x00"
        "User-agent: *\nAllow: /"
        "the first 512,000 bytes have a NUL byte, and the file doesn't look like UTF-16",
    UrlNotNormal Note "url-not-normal"
        "its path and query aren't what RFC 9309 compares (only needed escapes, in uppercase; * $ ^ { } and others escaped), or crawlers change them (they resolve the segments . and .., and write / for \\ and %27 for ' in a query), so they may decide otherwise; check these forms too"
        "robots_audit robots.txt /%c3" ""
        "the path and the query that are compared here have a byte other than letters, digits, % and -._~:/?[]@!&'()+,;=, an escape with lowercase digits or of a letter, a digit or one of -._~, a % that begins no escape, or a path segment . or ..; or they aren't what is written in the URL, with only such bytes and needed escapes",
    InvalidDelay Warning "invalid-delay"
        "the delay is ignored: its value is missing, negative or not a number of seconds; write, for example: Crawl-delay: 1.5"
        "User-agent: *\nCrawl-delay: ten"
        "User-agent: *\nCrawl-delay: 10"
        "the field name is Crawl-delay, but the value isn't a number of seconds that is 0 or more",
    NoindexLine Warning "noindex-line"
        "Noindex isn't supported in robots.txt and is ignored; use a robots meta tag or an X-Robots-Tag header, and keep the page crawlable so that crawlers see it"
        "User-agent: *\nNoindex: /a" ""
        "the field name of an ignored line is Noindex",
    NofollowLine Warning "nofollow-line"
        "Nofollow isn't supported in robots.txt and is ignored; use a robots meta tag or rel=\"nofollow\" on the links"
        "User-agent: *\nNofollow: /a" ""
        "the field name of an ignored line is Nofollow",
    HostName Note "host-line"
        "Host isn't supported here and is ignored; redirect the other host names to this one"
        "User-agent: *\nHost: example.com" ""
        "the field name of an ignored line is Host; it is a note if its value is a host name, possibly with a port, or begins with http:// or https://",
    HostLine Warning "host-line"
        "Host isn't supported here and is ignored, and the line has no plain host name; delete it"
        "User-agent: *\nHost: /a" "" "",
    RequestRateLine Warning "request-rate-line"
        "Request-rate isn't supported here and is ignored; use Crawl-delay with the seconds between requests, for example: Crawl-delay: 10"
        "User-agent: *\nRequest-rate: 1/10"
        "User-agent: *\nCrawl-delay: 10"
        "the field name of an ignored line is Request-rate",
    VisitTimeLine Warning "visit-time-line"
        "Visit-time isn't supported here and is ignored; use Crawl-delay, or return HTTP 429 or 503 when the server is busy"
        "User-agent: *\nVisit-time: 0100-0500"
        "User-agent: *\nCrawl-delay: 10"
        "the field name of an ignored line is Visit-time",
    CleanParamLine Note "clean-param-line"
        "Clean-param isn't supported here and is ignored; use rel=\"canonical\", or block the parameter, for example: Disallow: /*?ref="
        "User-agent: *\nClean-param: ref /"
        "User-agent: *\nDisallow: /*?ref="
        "the field name of an ignored line is Clean-param",
    ContentSignalLine Note "content-signal-line"
        "Content-Signal states how content may be used and doesn't affect crawling; to block a crawler, add a Disallow rule to its group"
        "User-agent: *\nContent-Signal: ai-train=no" ""
        "the field name of an ignored line is Content-Signal",
    ContentUsageLine Note "content-usage-line"
        "Content-Usage states how content may be used and doesn't affect crawling; to block a crawler, add a Disallow rule to its group"
        "User-agent: *\nContent-Usage: ai=n" ""
        "the field name of an ignored line is Content-Usage",
    RobotVersionLine Warning "robot-version-line"
        "Robot-version isn't supported here and is ignored; delete the line"
        "User-agent: *\nRobot-version: 2.0" ""
        "the field name of an ignored line is Robot-version",
    CommentLine Warning "comment-line"
        "Comment isn't a directive and is ignored; start comments with #"
        "User-agent: *\nComment: hello"
        "User-agent: *\n# hello"
        "the field name of an ignored line is Comment",
    LikeUserAgent Error "unrecognized-line"
        "the line is ignored, so it begins no group, and the rules below it, if any, go where the lines above it lead; did you mean \"User-agent:\"?"
        "User-agent: *\nUser-agnet: a"
        "User-agent: *\nUser-agent: a\nDisallow: /b"
        "the line is neither blank nor a comment, and has no known field name; a name is suggested if the text before the colon is Agent, Allowed or Disallowed, or it or the first word begins with the name, with at most one letter more (for Allow and Disallow also - or _), or differs from it in at most two bytes; an invisible character in the name, or = in place of the colon, is named",
    LikeAllow Warning "unrecognized-line"
        "the line is ignored; did you mean \"Allow:\"?"
        "User-agent: *\nAlow: /a"
        "User-agent: *\nAllow: /a" "",
    LikeDisallow Warning "unrecognized-line"
        "the line is ignored; did you mean \"Disallow:\"?"
        "User-agent: *\nDisalow; /a"
        "User-agent: *\nDisallow: /a" "",
    LikeSitemap Warning "unrecognized-line"
        "the line is ignored; did you mean \"Sitemap:\"?"
        "User-agent: *\nSitemaps: https://example.com/s.xml"
        "User-agent: *\nDisallow: /a\nSitemap: https://example.com/s.xml" "",
    LikeCrawlDelay Warning "unrecognized-line"
        "the line is ignored; did you mean \"Crawl-delay:\"?"
        "User-agent: *\nCrawl-dely: 1"
        "User-agent: *\nCrawl-delay: 1" "",
    UnseenInName Warning "unrecognized-line"
        "the line is ignored; its field name has an invisible character, such as a zero-width space or a byte order mark; delete it"
        "User-agent: *\n\\xE2\\x80\\x8BDisallow: /a"
        "User-agent: *\nDisallow: /a" "",
    EqualsSign Warning "unrecognized-line"
        "the line is ignored, since = isn't a colon; write, for example, \"Disallow: /path\""
        "User-agent: *\nDisallow=/a"
        "User-agent: *\nDisallow: /a" "",
    UnrecognizedLine Warning "unrecognized-line"
        "the line isn't a known directive and is ignored; write, for example, \"Disallow: /path\", or start a comment with #"
        "User-agent: *\nhello"
        "User-agent: *\n# hello" "",
    NonstandardField Warning "nonstandard-field"
        "misspelled field name; accepted here, but other crawlers may ignore the line; write User-agent, Allow, Disallow, Sitemap or Crawl-delay"
        "User-agent: *\nUseragent: *\nDisallow: /a"
        "User-agent: *\nDisallow: /a"
        "the field name of a directive isn't spelled as in the message, ASCII letters in any case",
    MissingColon Warning "missing-colon"
        "no colon after the field name; accepted here, but other crawlers may ignore the line; add the colon"
        "User-agent: *\nDisallow /a"
        "User-agent: *\nDisallow: /a"
        "a directive has no colon after its field name",
    SpaceAroundValue Warning "space-around-value"
        "white space other than spaces and tabs, such as a no-break space, is dropped around the value here, but other crawlers may keep it; delete it"
        "User-agent: *\nDisallow: /a\\xC2\\xA0"
        "User-agent: *\nDisallow: /a"
        "the value of a directive with a colon, except a delay, has white space other than spaces and tabs around it",
    InvalidProductToken Warning "invalid-product-token"
        "not a valid product token (ASCII letters, _ and - only, or a single *); here no crawler gets the rules below by this line, and crawlers disagree on how to match it; write one name per User-agent line, without version, quotes or *"
        "User-agent: *\nUser-agent: Bot/1.0\nDisallow: /a"
        "User-agent: *\nUser-agent: Bot\nDisallow: /a"
        "the name isn't a product token, nor like names that crawlers have: ASCII letters, digits, _, -, dots and spaces, possibly with a single * at the end; several names in one line aren't such a name either; not with several-directives",
    UnusualProductToken Note "unusual-product-token"
        "not a valid product token (ASCII letters, _ and - only), although some crawlers have such names; here the whole name is compared, but others, such as Google, read only the letters, _ and - at its start; check the crawler's documentation"
        "User-agent: MJ12bot\nDisallow: /a" ""
        "the name isn't a product token, but like names that crawlers have: ASCII letters, digits, _, -, dots and spaces, possibly with a single * at the end",
    HashLeavesRoot Error "hash-in-rule"
        "everything from # on is a comment, so what is left of the rule is the whole site, or an empty Disallow, an Allow of / here; rules can't be about the part of a URL after #; write %23 if a path has one, or a space before a comment"
        "User-agent: *\nDisallow: /#/admin"
        "User-agent: *\nDisallow: /%23/admin"
        "a # directly follows a byte of the value of a rule with a colon, or a comment that begins with #/, #!/ or # and a letter or digit is in place of a value; it is an error if the whole site or, before #/ or #!/, an empty Disallow is left; it isn't given if an empty Allow is left, or what is left has an error of its own",
    HashEmptiesRule Warning "hash-in-rule"
        "the # begins a comment, so nothing is left of the rule, and an empty Disallow is an Allow of / here; write a path, without a fragment, or a space after the # of a comment"
        "User-agent: *\nDisallow: #top"
        "User-agent: *\nDisallow: # top" "",
    HashInRule Warning "hash-in-rule"
        "everything from # on is a comment, so the rule is shorter and matches more paths; write %23 for a # in a path, or a space before a comment"
        "User-agent: *\nDisallow: /a#b"
        "User-agent: *\nDisallow: /a # b" "",
    RuleNotUtf8 Warning "rule-not-utf-8"
        "the rule isn't valid UTF-8, so it matches nothing and only ends the list of names above it, if any; save the file as UTF-8"
        "User-agent: *\nDisallow: /\\xE9"
        "User-agent: *\nDisallow: /%C3%A9"
        "the value of a rule isn't UTF-8",
    EqualsInRule Error "missing-slash"
        "the rule matches no path, since = isn't a colon, but the start of its value; write, for example, \"Disallow: /path\""
        "User-agent: *\nDisallow = /a"
        "User-agent: *\nDisallow: /a"
        "the value of a rule begins with neither / nor *, unless it looks like a URL or a regular expression, or gives quoted-rule",
    MissingSlash Error "missing-slash"
        "the rule doesn't start with / or *, so it matches no path; add a leading /, or /* if it may come later in the path"
        "User-agent: *\nDisallow: search"
        "User-agent: *\nDisallow: /search" "",
    UrlInPath Warning "url-as-rule"
        "what looks like a URL or a host follows a slash, so the rule matches only paths that begin so; if that isn't meant, keep only the part after the host, for example: /search"
        "User-agent: *\nDisallow: /https://example.com/a"
        "User-agent: *\nDisallow: /a"
        "as an error: the value of a rule begins with http:// or https://; as a warning: such a text, or a host name with a dot and a slash, follows a slash at its start",
    UrlAsRule Error "url-as-rule"
        "the rule starts like a URL, but rules apply to paths, so it matches none; keep only the part after the host, for example: /search"
        "User-agent: *\nDisallow: https://example.com/a"
        "User-agent: *\nDisallow: /a" "",
    OddCharacter Note "unencoded-character"
        "the rule contains a character that crawlers encode differently (a vertical bar, \", <, >, a backquote or a lone %; after a ? or *, also \\ ^ { } or '), so it may not match; use * in its place"
        "User-agent: *\nDisallow: /?{id}"
        "User-agent: *\nDisallow: /?*id"
        "as a warning: a rule has one of ^ { } \\ in its path, ' or a backquote in its query, or a tab; as a note: a vertical bar, \", <, >, a backquote, the byte 7F or a % without two hexadecimal digits anywhere, or one of \\ ^ { } ' after the first ? or *, which may match a ?; the note isn't given for a rule in quotes or with the warning, and neither for a rule with regex-syntax or an HTML tag",
    UnencodedCharacter Warning "unencoded-character"
        "the rule contains a character that usually has another form in URLs (^ { } \\ in a path, ' or a backquote in a query, or a tab); use * in its place"
        "User-agent: *\nDisallow: /{id}"
        "User-agent: *\nDisallow: /*id" "",
    QuoteAtEnd Warning "quoted-rule"
        "the quote at the end is treated as part of the path, so the rule matches only paths with it; remove it, unless that is meant"
        "User-agent: *\nDisallow: /a\\xE2\\x80\\x9D"
        "User-agent: *\nDisallow: /a"
        "as an error: the value of a rule begins with a typographic quote, or begins and ends with the same straight one; as a warning: its last character is its only typographic quote",
    QuotedRule Error "quoted-rule"
        "the quotes are treated as part of the path, so the rule won't match; remove them"
        "User-agent: *\nDisallow: \"/a\""
        "User-agent: *\nDisallow: /a" "",
    RegexWithoutSlash Error "regex-syntax"
        "this looks like a regular expression, which robots.txt doesn't support, and it doesn't start with / or *, so it matches no path; write what paths start with, with * for any characters, and a final $ for the end of the URL, for example: /admin"
        "User-agent: *\nDisallow: ^/admin"
        "User-agent: *\nDisallow: /admin"
        "a rule has a bracket with a range such as [a-z], .* at its start, after / or ( or before $, ^ at its start, (?, \\ before a letter or digit, a final + after a dot, ] or ), or (, a vertical bar and ) in this order; or ??; without the latter, it is an error if the rule begins with neither / nor *, and gives neither url-as-rule nor quoted-rule",
    QuestionMarks Warning "regex-syntax"
        "a ? stands for itself in robots.txt, so ?? matches only two of them; use * for any characters"
        "User-agent: *\nDisallow: /product-??"
        "User-agent: *\nDisallow: /product-" "",
    RegexSyntax Warning "regex-syntax"
        "this looks like a regular expression, which robots.txt doesn't support; use * for any characters, and a final $ for the end of the URL"
        "User-agent: *\nDisallow: /.*"
        "User-agent: *\nDisallow: /*b" "",
    StarAfterDollar Warning "dollar-not-at-end"
        "only stars or more $ follow the first $, so it is the end of the path here; by RFC 9309 a $ is special only at the end of a rule, and this one is literal; delete what follows it"
        "User-agent: *\nDisallow: /a$*"
        "User-agent: *\nDisallow: /a$"
        "a byte follows the first $ of a rule",
    DollarNotAtEnd Warning "dollar-not-at-end"
        "the rule has a $ before its end, so it matches nothing here (some crawlers match $ literally); use $ only at the end, or * in place of a literal $"
        "User-agent: *\nDisallow: /$a"
        "User-agent: *\nDisallow: /*a" "",
    NonstandardEscape Warning "nonstandard-escape"
        "the rule has a lowercase or unnecessary percent escape; here it can match only URLs written that way; use uppercase (%C3), and don't encode letters, digits, - . _ ~"
        "User-agent: *\nDisallow: /%c3"
        "User-agent: *\nDisallow: /%C3"
        "a rule has an escape with lowercase digits, or of a letter, a digit or one of -._~; not if the group has the rule of the same kind in the standard spelling, too: /%2b and /%2B",
    EscapedWildcard Warning "escaped-wildcard"
        "by RFC 9309, %2A and %24 also match a raw * or $ in a URL; here they match only URLs with the escape, and browsers write the raw character; use * in its place"
        "User-agent: *\nDisallow: /a%2Ab"
        "User-agent: *\nDisallow: /a*b"
        "a rule has %2A or %24, hexadecimal digits in any case",
    EscapedDelimiter Note "escaped-delimiter"
        "the rule has an escaped delimiter, such as %2F or %3A; here it doesn't match URLs with the plain character in its place, but in some crawlers it may; if these are meant too, add a rule for them"
        "User-agent: *\nDisallow: /a%2Fb"
        "User-agent: *\nDisallow: /a%2Fb\nDisallow: /a/b"
        "a rule has an escape of one of :/?[]@!&()+,;= ; not if the group has the rule of the same kind with the plain characters, too: /a%2Fb and /a/b",
    DotSegment Error "dot-segment"
        "the rule contains a . or .. segment, which crawlers resolve in a URL's path before matching; write the resolved path"
        "User-agent: *\nDisallow: /../a"
        "User-agent: *\nDisallow: /a"
        "the path of a rule has a segment . or .. before its first ?",
    $($more)*
] }; }

/// The other rows. A proof about all messages in one table would take too long.
#[rattlefmt::skip]
macro_rules! later_rows { ($macro:ident $($column:ident)?) => { $macro![$($column)?
    SpaceInValue Warning "several-values"
        "all of this is read as one value, with the white space or control character in it; write one value per line, %20 for a space, and comments after #"
        "User-agent: *\nDisallow: /a/ /b/"
        "User-agent: *\nDisallow: /a/\nDisallow: /b/"
        "the value of a rule or a sitemap has white space inside, or another byte up to 0x20; a comma or semicolon before / or http; a < before a letter, / or !; or a soft hyphen, a zero-width space, a word joiner or a byte order mark; the first of these is named; not for a rule that isn't UTF-8, begins with = or has several-directives",
    CommaInValue Warning "several-values"
        "all of this is read as one value, with the comma or semicolon in it; write one value per line"
        "User-agent: *\nDisallow: /a/,/b/"
        "User-agent: *\nDisallow: /a/\nDisallow: /b/" "",
    TagInValue Warning "several-values"
        "all of this is read as one value, with the HTML tag in it; delete the tag, and write one value per line"
        "User-agent: *\nDisallow: /a<br>"
        "User-agent: *\nDisallow: /a" "",
    UnseenInValue Warning "several-values"
        "all of this is read as one value, with an invisible character in it, such as a zero-width space or a byte order mark; delete it"
        "User-agent: *\nDisallow: /a\\xE2\\x80\\x8B"
        "User-agent: *\nDisallow: /a" "",
    DelayNotation Warning "delay-notation"
        "the delay is read here, but other crawlers may ignore it; write only digits, possibly with a point and more digits, and no invisible characters, for example: Crawl-delay: 1.5"
        "User-agent: *\nCrawl-delay: 1e3"
        "User-agent: *\nCrawl-delay: 1000"
        "a delay with a colon isn't written as digits, possibly with a point and more digits",
    DelayOverADay Warning "delay-over-a-day"
        "the delay is longer than a day; the value is in seconds between requests, for example: Crawl-delay: 10"
        "User-agent: *\nCrawl-delay: 100000"
        "User-agent: *\nCrawl-delay: 10"
        "a delay is longer than 86,400 seconds",
    SitemapNotAbsolute Warning "sitemap-not-absolute"
        "the sitemap isn't a valid URL that starts with http:// or https://; write, for example, https://example.com/sitemap.xml"
        "User-agent: *\nSitemap: /s.xml"
        "User-agent: *\nDisallow: /a\nSitemap: https://example.com/s.xml"
        "the value of a sitemap isn't an http(s) URL that can be parsed",
    SitemapNotPublic Warning "sitemap-not-public"
        "the sitemap's host isn't a public name (it is missing, an IP address, localhost, undefined or null), so search engines may not fetch it; write the site's own, for example: https://example.com/sitemap.xml"
        "User-agent: *\nSitemap: http://localhost/s.xml"
        "User-agent: *\nDisallow: /a\nSitemap: https://example.com/s.xml"
        "the host of an absolute http(s) URL is an IP address, localhost, undefined or null, or the URL has a third slash in place of a host",
    HashCutsSitemap Note "sitemap-fragment"
        "a # begins a comment, so the rest of the line isn't part of the sitemap's URL; delete it, or write a space before the #"
        "Sitemap: https://example.com/s.xml#a"
        "Sitemap: https://example.com/s.xml"
        "a # directly follows the value of a sitemap with a colon",
    SitemapDenied Note "sitemap-denied"
        "a rule for * denies this sitemap, if it is on the host of this file, so crawlers without a group aren't allowed to fetch it; allow it by a longer Allow, or correct the rule"
        "User-agent: *\nDisallow: /s\nSitemap: https://example.com/s.xml"
        "User-agent: *\nDisallow: /s\nAllow: /s.xml\nSitemap: https://example.com/s.xml"
        "the value of a sitemap is an http(s) URL that can be parsed, and a rule for * denies its path and query; not if the whole site is closed to * or the file is rejected for it; its host isn't compared with that of the file, which isn't known; the number is the line of that rule",
    RepeatedSitemap Note "repeated-sitemap"
        "a line above lists the same sitemap, so this one changes nothing; delete it, or correct it if another sitemap is meant"
        "Sitemap: https://example.com/s.xml\nSitemap: https://example.com/s.xml"
        "Sitemap: https://example.com/s.xml"
        "the value of a sitemap, in UTF-8, is that of one above it anywhere in the file; the number is the first such line; in a file of more than 512,000 bytes the message doesn't propose a deletion, since more of the file would be read then",
    RepeatedSitemapPastLimit Note "repeated-sitemap"
        "a line above lists the same sitemap, so this one changes nothing"
        "Sitemap: https://example.com/s.xml\nSitemap: https://example.com/s.xml\n\\{512000 #}" "" "",
    SeveralDirectives Error "several-directives"
        "another field name follows in the same line, where it isn't recognized; write each User-agent, Allow, Disallow, Crawl-delay and Sitemap on a line of its own"
        "User-agent: * Disallow: /"
        "User-agent: *\nDisallow: /a"
        "after the first colon of a line and before a comment there is User-agent: anywhere, or Allow:, Disallow:, Sitemap: or Crawl-delay: after a space, a tab, a star, a literal \\n or \\r, or, with a capital letter, directly after a letter, a digit, /, $, ? or =",
    ControlInComment Note "control-in-comment"
        "the comment contains a control character or isn't valid UTF-8, which RFC 9309 doesn't allow; it has no effect here; delete the character, or save the file as UTF-8"
        "# \\x01"
        "# a"
        "a comment has a byte below 0x20 other than a tab, or isn't UTF-8",
    CutLine Warning "cut-line"
        "the line goes beyond the first 512,000 bytes, so only its first part is read; shorten the file, or move the line up"
        "User-agent: *\nDisallow: /\\{512000 a}" ""
        "the limit of 512,000 bytes cuts this line, which has no other warning about its text then",
    RuleBeforeUserAgent Error "rule-before-user-agent"
        "the rule comes before the first User-agent line, so it belongs to no group and is ignored; move it below the User-agent line it is meant for"
        "Disallow: /a\nUser-agent: *"
        "User-agent: *\nDisallow: /a"
        "a rule is above all User-agent lines of a file that has one",
    EmptyGroup Warning "empty-group"
        "no rule that is read follows this User-agent line, so its group is empty: if the name has no other group, it may fetch everything; add rules or delete the line"
        "Disallow: /a\nUser-agent: *"
        "User-agent: *\nDisallow: /a"
        "no rule and no delay follows a User-agent line",
    DelayAboveStar Note "group-split-by-delay"
        "only a Crawl-delay ends the group above, so names that only it has get none of the rules of * below; crawlers that ignore the delay, such as Google's, apply these to that group too; add to it those meant for it, or, if its names have no other group, an empty Disallow"
        "User-agent: a\nCrawl-delay: 1\nUser-agent: *\nDisallow: /b"
        "User-agent: a\nCrawl-delay: 1\nDisallow: /b\nUser-agent: *\nDisallow: /b"
        "only delays are between a User-agent line and one above it, and the lower group has rules; not if the only name above is in the lower group, too; it is a note if that group is the one of *",
    GroupSplitByDelay Warning "group-split-by-delay"
        "only a Crawl-delay ends the group above; crawlers that ignore it, such as Google's, apply the rules below to that group too; add to that group the rules meant for it, or move the Crawl-delay down to join the two"
        "User-agent: a\nCrawl-delay: 1\nUser-agent: b\nDisallow: /"
        "User-agent: a\nUser-agent: b\nCrawl-delay: 1\nDisallow: /" "",
    GroupJoinedToNext Warning "group-joined-to-next"
        "the next User-agent line belongs to the same group, since no rule or delay is between the two; rules below it, if any, are for both lines; if that isn't meant, add rules here, or an empty Disallow; if it is, move one line directly below the other"
        "User-agent: a\n\nUser-agent: b\nDisallow: /c"
        "User-agent: a\nDisallow:\n\nUser-agent: b\nDisallow: /c"
        "another User-agent line follows with neither a rule nor a delay between the two, but with a sitemap, an ignored line or a blank line; not for a comment alone, and not for a blank line if another one follows below the second User-agent line",
    GroupPastSizeLimit Warning "group-past-size-limit"
        "this name isn't in the first 512,000 bytes, so its group is ignored; move the group up or shorten the file"
        "\\{512000 #}\nUser-agent: a" ""
        "a User-agent line past the first 512,000 bytes has a name that no line before it has",
    AllowedAndDisallowed Warning "allowed-and-disallowed"
        "a crawler that gets this Disallow also gets an Allow with the same path, and the Allow wins here; delete the one you don't want"
        "Allow: /a\nDisallow: /a"
        "Disallow: /a"
        "a crawler of the report has this Disallow and an Allow with an equal path; * and / are equal; an empty Disallow isn't such an Allow; the number is the line of the first such Allow, for the first such crawler",
    EmptyDisallow Warning "empty-disallow"
        "here an empty Disallow is an Allow of /, which wins over a Disallow of / or * for the same crawler; for RFC 9309 and Google it is no rule, and that Disallow applies; delete the one you don't want"
        "User-agent: *\nDisallow: /\nDisallow:"
        "User-agent: *\nDisallow: /"
        "a crawler of the report has this empty Disallow and a Disallow of / or *, but no Allow of these that is written so; the number is the line of that Disallow",
    RepeatedDelay Warning "repeated-delay"
        "the delay differs from one above it in the same group, so it isn't used here, but other crawlers may use it; delete all but one"
        "User-agent: *\nCrawl-delay: 1\nCrawl-delay: 2"
        "User-agent: *\nCrawl-delay: 1"
        "the delay differs from the first one below the same User-agent lines, or in a file without any; in a file of more than 512,000 bytes the message doesn't propose a deletion, since more of the file would be read then",
    RepeatedDelayPastLimit Warning "repeated-delay"
        "the delay differs from one above it in the same group, so it isn't used here, but other crawlers may use it"
        "User-agent: *\nCrawl-delay: 1\nCrawl-delay: 2\n\\{512000 #}" "" "",
    IgnoredDelay Note "ignored-delay"
        "the crawler of this group probably ignores Crawl-delay; see its vendor's help for how to slow it down"
        "User-agent: Googlebot\nCrawl-delay: 10"
        "User-agent: Googlebot\nDisallow: /a"
        "a valid delay below a User-agent line whose name contains google or yandex; no other one is between that line and the last rule above it",
    ClosedSite Warning "closed-site"
        "may fetch nothing, or only what Allows for the home page, sitemaps or files such as style sheets match; if search engines should read the site, delete this rule or add a longer Allow"
        "User-agent: *\nDisallow: /"
        "User-agent: *\nDisallow: /private/"
        "a Disallow matches every path, and each Allow at least as long is /$, /robots.txt or the path of a sitemap of the file, begins with /.well-known or /sitemap, ends as static files do (/*.js, which also matches /a.jsp), or matches no path; not if the vendor applies another group, or the name is in the file and gives misspelled-name. A warning for large search engines, and for * and crawlers without a group if no group lets a large search engine in; else a note. If only one of two readings, here and RFC 9309's, leaves a crawler nothing of the site, or only what Allows of other pages than the home page match: an error for Googlebot, and a warning or a note for other crawlers, if it is RFC 9309's",
    ClosedSiteToOthers Note "closed-site"
        "may fetch nothing, or only what Allows for the home page, sitemaps or files such as style sheets match; if that isn't meant, correct this rule or add a longer Allow"
        "User-agent: GPTBot\nDisallow: /"
        "User-agent: GPTBot\nDisallow: /\nAllow: /public/" "",
    ClosedInOneReading Error "closed-site"
        "may fetch nothing, or only what a few Allows match, in one of two readings of this file: that of RFC 9309 and Google, and the one here, in which a Crawl-delay ends a list of names, and an empty Disallow is an Allow of /; write the file so that both agree"
        "User-agent: *\nCrawl-delay: 10\nUser-agent: GPTBot\nDisallow: /"
        "User-agent: *\nCrawl-delay: 10\nDisallow:\nUser-agent: GPTBot\nDisallow: /" "",
    ClosedByStandard Warning "closed-site"
        "may fetch nothing, or only what a few Allows match, as RFC 9309 reads this file, but more as it is read here; write the file so that both agree"
        "User-agent: *\nCrawl-delay: 10\nUser-agent: GPTBot\nDisallow: /"
        "" "",
    ClosedByStandardToOthers Note "closed-site"
        "may fetch nothing, or only what a few Allows match, as RFC 9309 reads this file, but more as it is read here; if that isn't meant, write the file so that both agree"
        "User-agent: Applebot\nCrawl-delay: 10\nUser-agent: GPTBot\nDisallow: /"
        "" "",
    ClosedHomePage Warning "closed-home-page"
        "may fetch only what this rule doesn't match or an Allow at least as long names, so not the home page; if search engines should read that, delete this rule or add a longer Allow"
        "User-agent: *\nDisallow: /\nAllow: /blog/"
        "User-agent: *\nDisallow: /\nAllow: /$\nAllow: /blog/"
        "a Disallow of *, of a crawler without a group of its own or of a large search engine matches the path /, each Allow that matches it is shorter, and closed-site isn't given for the crawler; lines count as there; it is a note if none of the crawlers is a large search engine, and a group of its own doesn't close the whole site to one",
    ClosedHomePageToOthers Note "closed-home-page"
        "may fetch only what this rule doesn't match or an Allow at least as long names, so not the home page, but a large search engine has a group that doesn't close the whole site; if that isn't meant, delete this rule or add a longer Allow"
        "User-agent: Googlebot\nAllow: /\nUser-agent: *\nDisallow: /$" "" "",
    GroupWithoutStarRules Note "group-without-star-rules"
        "the group has none of the Disallow rules of *, and a crawler that a group names gets only the rules of such groups; repeat in this group those that should apply to it"
        "User-agent: *\nDisallow: /a\nUser-agent: FerrisBot\nDisallow: /b"
        "User-agent: *\nDisallow: /a\nUser-agent: FerrisBot\nDisallow: /a\nDisallow: /b"
        "a crawler of a group has none of the Disallow rules of *, in any of its groups, and no rule for the whole site, while * has a Disallow for a part of the site; not if only a Crawl-delay is between the group and that of * below; the number is how many Disallows * has",
    RepeatedRule Note "repeated-rule"
        "the same rule is above in the same group, so this one decides no verdict; delete it, or correct it if another path is meant"
        "User-agent: *\nDisallow: /a\nDisallow: /a"
        "User-agent: *\nDisallow: /a"
        "the same rule is above it, below the same User-agent lines, or in a file without any; an empty Disallow repeats an Allow of /, as it means that here, but an Allow of / doesn't repeat an empty Disallow, which is no rule for other crawlers; in a file of more than 512,000 bytes the message doesn't propose a deletion, since more of the file would be read then",
    RepeatedPastLimit Note "repeated-rule"
        "the same rule is above in the same group, so this one decides no verdict"
        "User-agent: *\nDisallow: /a\nDisallow: /a\n\\{512000 #}" "" "",
    WrongName Warning "misspelled-name"
        "no crawler has this name, and a group applies only to a crawler with its very name; write the crawler's own"
        "User-agent: ChatGPT\nDisallow: /a"
        "User-agent: ChatGPT-User\nDisallow: /a"
        "the name in a User-agent line, or that of a crawler of the report that the file doesn't name, is none of the about hundred names that this program knows, but it, or the letters, _ and - that it begins with, begins with the same letter as one of them and differs from it in one byte if that has at least five, or in two if it has at least nine, where two bytes that are swapped count as one; or, as a warning, it is one of some wrong names such as ChatGPT, OpenAI and all",
    MisspelledName Note "misspelled-name"
        "no known crawler has this name, and a group applies only to a crawler with its very name; correct it if another one is meant"
        "User-agent: Googlbot\nDisallow: /a"
        "User-agent: Googlebot\nDisallow: /a" "",
    VendorGroup Note "vendor-group"
        "the crawler has no group of its own, so its vendor applies that of another one, which may not be the one that is reported here; check the report on that one, or add a group"
        "# robots_audit robots.txt --agent Googlebot-News\nUser-agent: Googlebot\nDisallow: /a"
        "# robots_audit robots.txt --agent Googlebot-News\nUser-agent: Googlebot\nUser-agent: Googlebot-News\nDisallow: /a"
        "a crawler of the report is known to get the group of another one from its vendor, if it has none of its own, and the file names that one, but not this one; a line names a crawler if the letters, _ and - that its value begins with are the name; only the first such line is looked at, and none if a line has exactly the crawler's name",
    StarIgnoringCrawler Note "star-ignoring-crawler"
        "the crawler has no group of its own, and its vendor doesn't apply the group of * to it, so it may fetch everything; add a group for it"
        "# robots_audit robots.txt --agent AdsBot-Google\nUser-agent: *\nDisallow: /a"
        "# robots_audit robots.txt --agent AdsBot-Google\nUser-agent: *\nUser-agent: AdsBot-Google\nDisallow: /a"
        "a crawler of the report is known to get no group from its vendor, if it has none of its own, and the file has a group of *, but doesn't name this one",
    NeverDecides Note "needless-rule"
        "another rule matches everything that this one matches and takes precedence, so this one never decides for a crawler that gets both, and no other crawler needs it; correct it if it should decide, or delete all needless rules"
        "# robots_audit robots.txt --needless\nUser-agent: *\nDisallow: /*b\nDisallow: /b"
        "# robots_audit robots.txt --needless\nUser-agent: *\nDisallow: /*b"
        "with --needless: no verdict changes, here or by RFC 9309, if all these rules are deleted, but one may if only some are; that groups could be joined isn't looked for. Allow: / and empty Disallows stay. None is given if the file has over 512,000 bytes, or is rejected for a crawler in one of these readings. Crawlers that apply the first matching rule, or join groups such as those of Googlebot and Googlebot/2.1, may need them",
    MatchesNothing Note "needless-rule"
        "this rule matches nothing, except perhaps /robots.txt, which is always allowed; correct it, or delete all needless rules"
        "# robots_audit robots.txt --needless\nUser-agent: *\nDisallow: /a\nDisallow: /robots.txt$"
        "# robots_audit robots.txt --needless\nUser-agent: *\nDisallow: /a" "",
    AllowedAnyway Note "needless-rule"
        "this rule isn't needed: if all needless rules are deleted, what it allows stays allowed; correct it, or delete all of them"
        "# robots_audit robots.txt --needless\nUser-agent: *\nDisallow: /a\nAllow: /b" "" "",
    NotNeeded Note "needless-rule"
        "this rule isn't needed: another one of the same kind matches everything that it matches, and no verdict changes if all needless rules are deleted; delete them all, or correct this one"
        "# robots_audit robots.txt --needless\nUser-agent: *\nDisallow: /a\nDisallow: /ab"
        "# robots_audit robots.txt --needless\nUser-agent: *\nDisallow: /a" "",
    NeedlessUndecided Note "needless-undecided"
        "whether this rule can be deleted isn't decided, nor whether some others of its crawler can, as there are too many rules, or too many *"
        "# robots_audit robots.txt --needless\nUser-agent: *\nDisallow: /\\{2000 a*}b\nDisallow: /\\{2000 a*}b*" ""
        "with --needless: comparing a crawler's rules with and without this one would take too long; neither it nor those that are tried after it are reported as needless-rule",
] }; }

/// All rows, for a macro that takes a column of them.
macro_rules! every_row {
    ($column:ident) => {
        later_rows![first_rows $column]
    };
}

pub(crate) use every_row;
pub(crate) use first_rows;
pub(crate) use later_rows;
