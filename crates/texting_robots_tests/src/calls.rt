//! Calls that allocate. Each checks its result, and that its object is unchanged after a failure.
use crate::flush::reports_flushes;
use safe_output::write::{push_attribute, push_close, push_open};
use std::alloc::Global;
use std::cmp::Ordering;
use texting_robots::minregex::MinRegex;
use texting_robots::parser::{Line, robots_txt_parse};
use texting_robots::view::View;
use texting_robots::{Decision, Error, Robot, allowed_in_file};
use url::{ParseError, Url};

/// The variants after `RobotAndUrl` allocate nothing more than the call before `, then` in their name.
pub(crate) enum Call {
    ParseLines,
    Pattern,
    Clone,
    Robot,
    OneAgent,
    Allowed,
    PreparePath,
    PrepareUrl,
    RobotAndUrl,
    Matches,
    Verdicts,
    VerdictOnUrl,
    LineEnds,
    Messages,
    Attribute,
    Flush,
}

/// The calls with their names, in order.
pub(crate) const CALLS: &[(&str, Call)] = &[
    ("robots_txt_parse", Call::ParseLines),
    ("MinRegex::new", Call::Pattern),
    ("MinRegex::clone", Call::Clone),
    ("Robot::new", Call::Robot),
    ("allowed_in_file", Call::OneAgent),
    ("Robot::allowed", Call::Allowed),
    ("Robot::prepare_url of a path", Call::PreparePath),
    ("Robot::prepare_url of a URL", Call::PrepareUrl),
    ("a robot and a URL", Call::RobotAndUrl),
    ("MinRegex::new, then matches without memory", Call::Matches),
    ("Robot::new, then verdicts without memory", Call::Verdicts),
    (
        "a robot and a URL, then a verdict without memory",
        Call::VerdictOnUrl,
    ),
    ("Robot::new on line ends without memory", Call::LineEnds),
    ("Error::to_string", Call::Messages),
    ("push_attribute with quotes", Call::Attribute),
    ("write_out of which the flush fails", Call::Flush),
];

/// Makes the call. The result is whether its result is right.
pub(crate) fn answer(alloc: Global, call: &Call) -> Result<bool, Error> {
    match call {
        Call::ParseLines => parses_page(alloc),
        Call::Pattern | Call::Clone | Call::Matches => asks_pattern(alloc, call),
        Call::OneAgent => queries_file(alloc),
        Call::PreparePath => prepares(alloc, "/á", "/%C3%A1"),
        Call::PrepareUrl => prepares(alloc, URL, "/a/b?c=d&e=f#fragment"),
        Call::LineEnds => reads_line_ends(alloc),
        Call::Messages => prints_errors(alloc),
        Call::Attribute => writes_quotes(alloc),
        Call::Flush => reports_flushes(alloc),
        _ => asks_robot(alloc, &Robot::new(alloc, "FerrisCrawler", FILE)?, call),
    }
}

const URL: &str = "http://www.example.com/a/b?c=d&e=f#fragment";

/// Whether this is the match target of the URL.
fn prepares(alloc: Global, url: &str, want: &str) -> Result<bool, Error> {
    Ok(Robot::prepare_url(alloc, url)?.as_str() == want)
}

fn parses_page(alloc: Global) -> Result<bool, Error> {
    Ok(robots_txt_parse(alloc, PAGE)?.as_slice() == PAGE_LINES)
}

const PAGE: &[u8] =
    b"User-Agent: SmerBot\nDisallow: /path\nAllow:    /path/exception   # ONLY THIS IS ALLOWED\n\
    Crawl-delay : 60 # Very slow delay\n\nsitemap: https://example.com/sitemap.xml";

const PAGE_LINES: &[Line<'static>] = &[
    Line::UserAgent(b"SmerBot"),
    Line::Disallow(b"/path"),
    Line::Allow(b"/path/exception"),
    Line::CrawlDelay(Some(60_000_000)),
    Line::Raw(b""),
    Line::Sitemap(b"https://example.com/sitemap.xml"),
];

fn asks_pattern(alloc: Global, call: &Call) -> Result<bool, Error> {
    let pattern = MinRegex::new(alloc, PATTERN)?;
    match call {
        Call::Clone => clones_pattern(alloc, &pattern),
        _ => Ok(is_right_pattern(&pattern)),
    }
}

/// Whether the clone, and the pattern even without a clone, is right.
fn clones_pattern(alloc: Global, pattern: &MinRegex) -> Result<bool, Error> {
    let copy = pattern.clone(alloc);
    if !is_right_pattern(pattern) {
        return Ok(false);
    }
    let copy = copy?;
    Ok(is_right_pattern(&copy) && copy == *pattern)
}

/// A file with a group for one crawler, a group for all others, and a sitemap.
const FILE: &[u8] =
    b"User-Agent: FerrisCrawler\nAllow: /ocean\nDisallow: /rust\nDisallow: /forest*.py\nCrawl-Delay: 10\n\
    User-Agent: *\nDisallow: /\nSitemap: https://www.example.com/site.xml\n";

/// Whether the robot has the right answers for the call.
fn asks_robot(alloc: Global, robot: &Robot, call: &Call) -> Result<bool, Error> {
    match call {
        Call::Allowed => queries_urls(alloc, robot, VERDICTS),
        Call::Verdicts => {
            let decision = robot.decide(alloc, "/rust")?;
            Ok(decision.line == Some(3) && queries_urls(alloc, robot, PLAIN)?)
        }
        Call::RobotAndUrl | Call::VerdictOnUrl => queries_parsed(alloc, robot, call),
        _ => Ok(is_right_robot(robot)),
    }
}

/// Texts, and whether the robot allows them.
const VERDICTS: &[(&str, bool)] = &[
    ("https://WWW.rust-lang.org/ocean", true),
    ("/ocean", true),
    ("/ocean/reef.html", true),
    ("/rust", false),
    ("/forest/tree/snake.py", false),
];

/// The empty text, a path and URLs in which nothing has to be escaped.
const PLAIN: &[(&str, bool)] = &[
    ("", true),
    ("/ocean/reef.html", true),
    ("https://www.rust-lang.org/ocean/reef.html?a#b", true),
    ("https://www.rust-lang.org/rust/.a/b%20c./..d", false),
    ("http://www.rust-lang.org:8080", true),
];

/// Queries each text, even after an allocation failed for an earlier one.
fn queries_urls(alloc: Global, robot: &Robot, texts: &[(&str, bool)]) -> Result<bool, Error> {
    let mut answer = Ok(true);
    for (url, want) in texts {
        match robot.allowed(alloc, url) {
            Ok(is_allowed) if is_allowed == *want => {}
            Err(Error::Memory) => answer = Err(Error::Memory),
            _ => return Ok(false),
        }
        if !is_right_robot(robot) {
            return Ok(false);
        }
    }
    answer
}

/// Parses a URL. For `VerdictOnUrl` the robot has to deny it.
fn queries_parsed(alloc: Global, robot: &Robot, call: &Call) -> Result<bool, Error> {
    match Url::parse(alloc, "https://www.rust-lang.org/rust") {
        Ok(url) => Ok(matches!(call, Call::RobotAndUrl) || !robot.allowed_url(&url)),
        Err(ParseError::OutOfMemory | ParseError::Overflow) => Err(Error::Memory),
        Err(_) => Ok(false),
    }
}

/// A single query of the file. If it fails, it has taken no look.
fn queries_file(alloc: Global) -> Result<bool, Error> {
    let mut view = View::new("/forest/tree/snake.py");
    match allowed_in_file(alloc, "FerrisCrawler", FILE, &mut view) {
        Ok(allowed) => Ok(!allowed && view.seen() > 0),
        Err(error) if view.seen() == 0 => Err(error),
        Err(_) => Ok(false),
    }
}

fn reads_line_ends(alloc: Global) -> Result<bool, Error> {
    let robot = Robot::new(alloc, "BobBot", &[b'\n'; 65_536])?;
    Ok(robot.delay.is_none() && robot.sitemaps.is_empty() && decides(&robot, "/x", true, None))
}

const PATTERN: &str = "/*ab*ba$";

/// Matches texts by the pattern, and compares it with itself.
fn is_right_pattern(pattern: &MinRegex) -> bool {
    pattern.as_str() == PATTERN
        && pattern.is_match("/abba")
        && !pattern.is_match("/aba")
        && !pattern.matches_view(&mut View::new("/aba"))
        && pattern.match_stars(b"/a$", b"/a$b")
        && pattern == pattern
        && pattern.cmp(pattern) == Ordering::Equal
        && pattern.partial_cmp(pattern) == Some(Ordering::Equal)
}

/// Whether each way to query the robot gives this decision.
fn decides(robot: &Robot, text: &str, allowed: bool, line: Option<usize>) -> bool {
    let want = Decision { allowed, line };
    let mut view = View::new(text);
    robot.decision(&mut view) == want
        && robot.decide_prepared(text) == want
        && robot.allowed_view(&mut view) == allowed
        && robot.allowed_prepared(text) == allowed
        && view.len() == text.len()
        && !view.is_robots_file()
}

/// Whether the robot has the delay, the sitemap and the verdicts of `FILE`.
fn is_right_robot(robot: &Robot) -> bool {
    robot.delay == Some(10_000_000)
        && robot.sitemaps.first().map(String::as_str) == Some("https://www.example.com/site.xml")
        && robot.sitemaps.len() == 1
        && decides(robot, "/ocean/reef.html", true, Some(2))
        && decides(robot, "/rust", false, Some(3))
        && decides(robot, "/forest/tree/snake.py", false, Some(4))
}

const MESSAGES: &[(Error, &str)] = &[
    (Error::InvalidRobots, "Failed to parse robots.txt"),
    (Error::InvalidRule, "Rule with $ is too long"),
    (Error::Memory, "Out of memory"),
];

fn prints_errors(alloc: Global) -> Result<bool, Error> {
    let mut right = true;
    for (error, want) in MESSAGES {
        right &= error.to_string(alloc)?.as_str() == *want;
    }
    Ok(right)
}

/// An attribute with quotes, which no page of `robots_audit` has.
fn writes_quotes(alloc: Global) -> Result<bool, Error> {
    let mut out = Vec::new(alloc);
    push_open(&mut out, "p")?;
    push_attribute(&mut out, "title", "\"&\"")?;
    push_close(&mut out)?;
    Ok(out.as_slice() == b"<p title=\"&quot;&amp;&quot;\">".as_slice())
}
