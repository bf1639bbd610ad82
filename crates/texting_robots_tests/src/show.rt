//! Prints what calls return. `tests/test_calls.py` has inputs and outputs.
use crate::example::visit;
use crate::standard::{shows_standard, shows_standard_text};
use robots_rules::compare::compare_sites;
use texting_robots::labels::{is_named, labeled_lines};
use texting_robots::minregex::MinRegex;
use texting_robots::parser::{Line, file_bodies, file_lines, lines, read_delay, robots_txt_parse};
use texting_robots::view::View;
use texting_robots::{Error, Robot, Site, allowed_in_file, get_robots_url, robots_url_of};
use url::Url;

/// What the calls are passed beside a text.
#[derive(Drop)]
pub(crate) struct Given<'a> {
    pub file: &'a [u8],
    pub number: usize,
    pub word: &'a str,
}

/// Prints what the calls of this name return for a text. The result is whether it could be printed.
pub(crate) fn shows(
    rt: &HostRuntime,
    name: &str,
    given: &Given<'_>,
    text: &str,
) -> Result<bool, Error> {
    match name.as_bytes() {
        b"lines" => shows_lines(rt, given.file, given.number, text),
        b"site" => shows_site(rt, given, text),
        b"query" => shows_query(rt, given, text),
        b"robot" => shows_by_robot(rt, given, text),
        b"robot of a site" => shows_by_site(rt, given, text),
        b"pattern" => shows_patterns(rt, text, given.word),
        b"text" => shows_text(rt, text),
        b"standard" => shows_standard(rt, given, text),
        b"standard text" => shows_standard_text(rt, given),
        b"same" => shows_comparison(rt, given, text),
        b"visit" => {
            let plan = visit(rt.alloc(), given.file, text)?;
            Ok(println!(rt; "{plan:?}").is_ok())
        }
        _ => shows_inputs(rt),
    }
}

/// The lines of a file as a vector, and this many items of each iterator over them.
fn shows_lines(rt: &HostRuntime, file: &[u8], count: usize, agent: &str) -> Result<bool, Error> {
    let parsed = robots_txt_parse(rt.alloc(), file)?;
    let mut well = println!(rt; "{} {parsed:?}", is_named(agent, file)).is_ok();
    let (mut split, mut whole) = (lines(file), file_lines(file));
    let (mut bodies, mut labeled) = (file_bodies(file), labeled_lines(agent, file));
    for _ in 0..count {
        let line = split.next();
        let value = match &line {
            Some(line) => line.value(),
            None => None,
        };
        well &= println!(rt;
            "{line:?} {value:?}; {:?}; {:?}; {:?}",
            whole.next(),
            bodies.next(),
            labeled.next()
        )
        .is_ok();
    }
    Ok(well)
}

/// The name of a crawler's group, the numbers of its lines, and its rules.
fn shows_site(rt: &HostRuntime, given: &Given<'_>, agent: &str) -> Result<bool, Error> {
    let site = Site::new(rt.alloc(), given.file)?;
    let mut well = println!(rt; "{:?}", site.group_name(agent)).is_ok();
    for line in site.own_lines(agent) {
        well &= println!(rt; "{}", line.number).is_ok();
    }
    for rule in site.rules(agent) {
        let pattern = rule.pattern(rt.alloc())?;
        let shown = println!(rt;
            "{} {} {pattern} {}",
            rule.line, rule.is_allow, rule.value
        ).is_ok();
        well &= shown;
    }
    Ok(well)
}

/// The verdict of a query of the whole file, with its looks.
fn shows_query(rt: &HostRuntime, given: &Given<'_>, text: &str) -> Result<bool, Error> {
    let mut view = View::new(text);
    let allowed = allowed_in_file(rt.alloc(), given.word, given.file, &mut view)?;
    Ok(println!(rt; "{allowed} {}", view.seen()).is_ok())
}

/// [`shows_robot`], by the first bytes of a file.
fn shows_by_robot(rt: &HostRuntime, given: &Given<'_>, text: &str) -> Result<bool, Error> {
    let robot = Robot::with_limit(rt.alloc(), given.word, given.file, given.number)?;
    shows_robot(rt, &robot, text)
}

/// [`shows_robot`], by a site of the first bytes of a file.
fn shows_by_site(rt: &HostRuntime, given: &Given<'_>, text: &str) -> Result<bool, Error> {
    let site = Site::with_limit(rt.alloc(), given.file, given.number)?;
    match site.robot(rt.alloc(), given.word) {
        Ok(robot) => shows_robot(rt, &robot, text),
        Err(_) => Ok(false),
    }
}

/// The robot's verdicts on a text as a URL, as a match target, and on the match target of the URL.
fn shows_robot(rt: &HostRuntime, robot: &Robot, text: &str) -> Result<bool, Error> {
    let target = Robot::prepare_url(rt.alloc(), text)?;
    let allowed = robot.allowed(rt.alloc(), text)?;
    let parsed = match Url::parse(rt.alloc(), text) {
        Ok(url) => robot.allowed_url(&url),
        Err(_) => allowed,
    };
    let well = println!(rt;
        "{} {robot:?} {allowed} {parsed}",
        robot.bytes().saturating_sub(size_of::<Robot>())
    )
    .is_ok();
    Ok(well && shows_target(rt, robot, text) && shows_target(rt, robot, &target))
}

/// The robot's answers on a match target, and their looks.
fn shows_target(rt: &HostRuntime, robot: &Robot, text: &str) -> bool {
    let (mut view, mut other) = (View::new(text), View::new(text));
    let answers = [robot.allowed_prepared(text), robot.allowed_view(&mut view)];
    let decisions = [robot.decide_prepared(text), robot.decision(&mut other)];
    let looks = [view.seen(), other.seen()];
    println!(rt; "{answers:?} {decisions:?} {looks:?}").is_ok()
}

/// A pattern and its copy, and how it compares with another one.
fn shows_patterns(rt: &HostRuntime, pattern: &str, other: &str) -> Result<bool, Error> {
    let one = MinRegex::new(rt.alloc(), pattern)?;
    let two = MinRegex::new(rt.alloc(), other)?;
    let copy = one.clone(rt.alloc())?;
    let stars = one.match_stars(pattern.as_bytes(), other.as_bytes());
    let orders = [one.cmp(&two), two.cmp(&one)];
    let partial = one.partial_cmp(&two);
    let well = println!(rt;
        "{stars} {orders:?} {partial:?} {} {}",
        one == two,
        one == copy
    )
    .is_ok();
    Ok(well && shows_pattern(rt, &one, other) && shows_pattern(rt, &copy, other))
}

fn shows_pattern(rt: &HostRuntime, pattern: &MinRegex, text: &str) -> bool {
    let mut view = View::new(text);
    let answers = [pattern.is_match(text), pattern.matches_view(&mut view)];
    println!(rt;
        "{} {pattern:?} {answers:?} {}",
        pattern.as_str(),
        view.seen()
    )
    .is_ok()
}

/// The addresses of robots.txt for a URL, its match target, and the delay that it is as a value.
fn shows_text(rt: &HostRuntime, text: &str) -> Result<bool, Error> {
    let alloc = rt.alloc();
    let target = Robot::prepare_url(alloc, text)?;
    let address = get_robots_url(alloc, text);
    let parsed = match Url::parse(alloc, text) {
        Ok(url) => robots_url_of(alloc, &url),
        Err(error) => Err(error),
    };
    let delay = read_delay(text.as_bytes());
    Ok(println!(rt; "{address:?} {parsed:?} {delay:?} {target}").is_ok())
}

/// Whether a file and the given word, as a file, have the same verdicts for a crawler, within a budget.
fn shows_comparison(rt: &HostRuntime, given: &Given<'_>, agent: &str) -> Result<bool, Error> {
    let alloc = rt.alloc();
    let (old, new) = (
        Site::new(alloc, given.file)?,
        Site::new(alloc, given.word.as_bytes())?,
    );
    let mut budget = given.number;
    let comparison = compare_sites(alloc, &old, &new, agent, &mut budget)?;
    Ok(println!(rt; "{comparison:?}").is_ok())
}

/// Whether a robot of these bytes has no rule, delay or sitemap, and they have no line with a field name.
fn is_ignored(rt: &HostRuntime, input: &[u8]) -> Result<bool, Error> {
    let robot = Robot::new(rt.alloc(), "BobBot", input)?;
    let mut ignored = robot.delay.is_none() && robot.sitemaps.is_empty();
    for line in &robots_txt_parse(rt.alloc(), input)? {
        ignored &= matches!(line, Line::Raw(_));
    }
    Ok(ignored && robot.allowed_prepared("/"))
}

/// Every input of at most two bytes.
fn shows_inputs(rt: &HostRuntime) -> Result<bool, Error> {
    let mut ignored = is_ignored(rt, b"")?;
    for first in 0..=255 {
        ignored &= is_ignored(rt, &[first])?;
        for second in 0..=255 {
            ignored &= is_ignored(rt, &[first, second])?;
        }
    }
    Ok(println!(rt; "{ignored}").is_ok())
}
