//! Rules that leave nothing, or nearly nothing, of a site to a crawler.
ghost use Rattle.std.specs.Prelude.{[], ◌≡◌, ◌++◌, ◌||◌, ◌∷◌, All, Any, Bool, Contains, IfOk, IsTrue, List};
ghost use Rattle.std.specs.Prelude.{OnOk, Option, Some, bytes_eq, codes, is_some, length, map, nat_lt};
ghost use Rattle.std.specs.Prelude.{string_bytes, true, ℕ};
ghost use Rattle.std.specs.{HashSet.contains_text, List.filter_map, List.list_any};
ghost use Rattle.texting_robots.specs.Callers.{PlacedRule, file_lines};
ghost use Rattle.robots_warnings.specs.Closed.{closes, first_closing, is_closing, is_elsewhere, is_exempt};
ghost use Rattle.robots_warnings.specs.Closed.{is_literally, is_rival, leaves_closed, line_closing_site};
ghost use Rattle.robots_warnings.specs.Closed.{opened_path};
ghost use Rattle.robots_warnings.specs.Warnings.{HasClosed, IsAbout, IsTold, is_closing_cause};
ghost use Rattle.robots_warnings.specs.Read.{IsRead};
ghost use Rattle.robots_warnings.specs.Internal.Closed.{IsClosed, IsNeeded};
ghost use Rattle.robots_warnings.specs.Internal.Tells.{IsKnown, IsSo, Tells, agents_in};

use crate::crawlers::{meant, other_group};
use crate::known::{Known, keep};
use crate::own_rules::own_rules;
use crate::site_patterns::{
    has_star_or_dollar, is_home, is_whole_site, matches_no_path, opens_little,
};
use crate::table::Cause;
use crate::tokens::token_front;
use crate::warning::{Detail, Found, Warning};
use std::alloc::{AllocError, Global};
use std::collections::HashSet;
use texting_robots::match_target;
use texting_robots::site::{Site, SiteRule};

type Patterns = HashSet<String>;

/// A crawler, and the line that closes the site or its home page to it, if there is one.
type Row<'a> = (Option<usize>, &'a str);

/// The crawlers of large search engines, as their documentation calls them: developers.google.com/crawling,
/// bing.com/webmasters/help, duckduckgo.com/duckduckgo-help-pages, yandex.com/support/webmaster, help.baidu.com
/// and help.yahoo.com. Applebot isn't among them: Apple also trains models with what it fetches
/// (support.apple.com/119829), so lists of crawlers that train have it.
pub(crate) const SEARCH_ENGINES: [&str; 7] = [
    "Googlebot",
    "Bingbot",
    "DuckDuckBot",
    "YandexBot",
    "Yandex",
    "Baiduspider",
    "Slurp",
];

#[tactic(auto, using(crate::proofs::ClosedLemmas::whole_site_escaped))]
fn is_closing(rule: &SiteRule<'_>) -> bool
    ensures { result ≡ is_closing rule.now }
{
    !rule.is_allow && is_whole_site(rule.value.as_bytes())
}

fn leaves_closed(exempt: &Patterns, pattern: &str) -> bool
    ensures { result ≡ leaves_closed (contains_text exempt.now) pattern.now }
{
    exempt.contains(pattern) || opens_little(pattern.as_bytes())
}

fn raise(
    alloc: Global,
    needed: &mut usize,
    exempt: &Patterns,
    rule: &SiteRule<'_>,
) -> Result<(), AllocError>
    ensures { OnOk result ((pattern : List ℕ) → nat_lt (length pattern) needed.new
        ≡ (nat_lt (length pattern) needed.old
        || is_rival (leaves_closed (contains_text exempt.now)) pattern rule.now)) }
{
    if !rule.is_allow {
        return Ok(());
    }
    let pattern = rule.pattern(alloc)?;
    let is_rival = !leaves_closed(exempt, pattern.as_str()) && !matches_no_path(pattern.as_bytes());
    if is_rival && *needed <= pattern.len() {
        *needed = pattern.len() + 1;
    }
    Ok(())
}

/// The length that a Disallow must have at least to have no rival among these rules.
fn needed(alloc: Global, exempt: &Patterns, rules: &[SiteRule<'_>]) -> Result<usize, AllocError>
    ensures { IfOk result (IsNeeded (leaves_closed (contains_text exempt.now)) rules.now) }
{
    let mut needed = 0;
    for rule in rules {
        raise(alloc, &mut needed, exempt, rule)?;
    }
    Ok(needed)
}

fn closes(needed: usize, rule: &SiteRule<'_>) -> bool
    ensures { (is_exempt : List ℕ → Bool) (rules : List PlacedRule) → IsNeeded is_exempt rules needed
        → result ≡ closes is_exempt rules rule.now }
{
    is_closing(rule) && rule.value.len() >= needed
}

fn has_closing(rules: &[SiteRule<'_>]) -> bool
    ensures { result ≡ list_any is_closing rules.now }
{
    rules.iter().any(|rule| is_closing(rule))
}

fn first_closing(
    alloc: Global,
    exempt: &Patterns,
    rules: &[SiteRule<'_>],
) -> Result<Option<usize>, AllocError>
    ensures { IfOk result (λ line. line ≡ first_closing (contains_text exempt.now) rules.now) }
{
    if !has_closing(rules) {
        return Ok(None);
    }
    let needed = needed(alloc, exempt, rules)?;
    for rule in rules {
        if closes(needed, rule) {
            return Ok(Some(rule.line));
        }
    }
    Ok(None)
}

#[tactic(auto, using(crate::proofs::ClosedLemmas::text_added))]
fn add(patterns: &mut Patterns, text: String) -> Result<(), AllocError>
    ensures { OnOk result ((pattern : List ℕ) → contains_text patterns.new pattern
        ≡ (contains_text patterns.old pattern || bytes_eq (string_bytes text) pattern)) }
{
    patterns.insert(text)?;
    Ok(())
}

fn add_both(alloc: Global, patterns: &mut Patterns, path: &str) -> Result<(), AllocError>
    ensures { OnOk result ((pattern : List ℕ) → contains_text patterns.new pattern
        ≡ (contains_text patterns.old pattern
        || (bytes_eq path.now pattern || bytes_eq (path.now ++ codes "$") pattern))) }
{
    let mut ended = String::from_str(alloc, path)?;
    ended.push_str("$")?;
    add(patterns, String::from_str(alloc, path)?)?;
    add(patterns, ended)
}

fn add_path(alloc: Global, patterns: &mut Patterns, path: &str) -> Result<(), AllocError>
    ensures { OnOk result ((pattern : List ℕ) → contains_text patterns.new pattern
        ≡ (contains_text patterns.old pattern || is_literally pattern path.now)) }
{
    if has_star_or_dollar(path.as_bytes()) {
        return Ok(());
    }
    add_both(alloc, patterns, path)
}

fn add_url(alloc: Global, patterns: &mut Patterns, url: &str) -> Result<(), AllocError>
    ensures { OnOk result ((pattern : List ℕ) → contains_text patterns.new pattern
        ≡ (contains_text patterns.old pattern
        || list_any (is_literally pattern) (filter_map opened_path (url.now ∷ [])))) }
{
    let path = match_target(alloc, url)?;
    if path.len() > 1 {
        add_path(alloc, patterns, path.as_str())?;
    }
    Ok(())
}

fn exempt_patterns(alloc: Global, site: &Site) -> Result<Patterns, AllocError>
    ensures { IfOk result (λ patterns. contains_text patterns ≡ is_exempt (file_lines site.now)) }
{
    let mut patterns = HashSet::new(alloc);
    add_path(alloc, &mut patterns, "/robots.txt")?;
    let urls = site.sitemaps(alloc)?;
    for url in &urls {
        add_url(alloc, &mut patterns, url)?;
    }
    Ok(patterns)
}

/// The crawler's vendor applies another group, or a line has its name and another one is meant.
fn is_elsewhere(alloc: Global, site: &Site, agent: &str) -> Result<bool, AllocError>
    ensures { IfOk result (λ is. is ≡ is_elsewhere (file_lines site.now) agent.now) }
{
    if other_group(site, agent).is_some() {
        return Ok(true);
    }
    Ok(site.is_named(agent) && meant(alloc, agent.as_bytes())?.is_some())
}

/// `exempt` are the exempt patterns of the file.
fn line_closing_site(
    alloc: Global,
    exempt: &Patterns,
    site: &Site,
    agent: &str,
) -> Result<Option<usize>, AllocError>
    requires { contains_text exempt.now ≡ is_exempt (file_lines site.now) }
    ensures { IfOk result (λ line. line ≡ line_closing_site (file_lines site.now) agent.now) }
{
    if is_elsewhere(alloc, site, agent)? {
        return Ok(None);
    }
    let rules = own_rules(alloc, site, agent)?;
    first_closing(alloc, exempt, &rules)
}

/// Whether a rule closes the site to the crawler.
pub fn is_closed(alloc: Global, site: &Site, agent: &str) -> Result<bool, AllocError>
    ensures { IfOk result (λ is. is ≡ is_some (line_closing_site (file_lines site.now) agent.now)) }
{
    let exempt = exempt_patterns(alloc, site)?;
    Ok(line_closing_site(alloc, &exempt, site, agent)?.is_some())
}

/// The length that a Disallow of the home page must have at least to have no rival among these rules.
fn needed_for_home(rules: &[SiteRule<'_>]) -> usize {
    let mut needed = 0;
    for rule in rules {
        let value = rule.value.as_bytes();
        let opens = rule.is_allow && is_home(value) && !matches_no_path(value);
        if opens && needed <= value.len() {
            needed = value.len() + 1;
        }
    }
    needed
}

/// The line of the first Disallow of the home page that no Allow of it, at least as long, is a rival of.
fn first_closing_home(rules: &[SiteRule<'_>]) -> Option<usize> {
    let needed = needed_for_home(rules);
    for rule in rules {
        let value = rule.value.as_bytes();
        if !rule.is_allow && is_home(value) && value.len() >= needed {
            return Some(rule.line);
        }
    }
    None
}

/// The line that closes the site to the crawler, or leaves it only what Allows of other pages than the home
/// page match.
fn line_closing_most(
    alloc: Global,
    exempt: &Patterns,
    site: &Site,
    agent: &str,
) -> Result<Option<usize>, AllocError> {
    let rules = own_rules(alloc, site, agent)?;
    if let Some(line) = first_closing(alloc, exempt, &rules)? {
        return Ok(Some(line));
    }
    let needed = needed_for_home(&rules);
    for rule in &rules {
        if is_closing(rule) && rule.value.len() >= needed {
            return Ok(Some(rule.line));
        }
    }
    Ok(None)
}

/// The lines that close all or most of the site to the crawler in the file, and in the text that stands for it
/// in RFC 9309's reading.
pub fn lines_closing_both(
    alloc: Global,
    site: &Site,
    text: &Site,
    agent: &str,
) -> Result<(Option<usize>, Option<usize>), AllocError> {
    if is_elsewhere(alloc, site, agent)? {
        return Ok((None, None));
    }
    let exempt = exempt_patterns(alloc, site)?;
    let here = line_closing_most(alloc, &exempt, site, agent)?;
    let there = line_closing_most(alloc, &exempt, text, agent)?;
    Ok((here, there))
}

/// Closing the site to the crawler is probably a mistake. `let_in`: a group of a large search engine doesn't
/// close all of it.
pub fn is_major(let_in: bool, site: &Site, agent: &str) -> bool {
    let name = token_front(agent.as_bytes());
    SEARCH_ENGINES
        .iter()
        .any(|engine| engine.as_bytes().eq_ignore_ascii_case(name))
        || (!let_in && (agent == "*" || !site.is_named(agent)))
}

/// The line that closes the home page alone to the crawler in this row. Reported only for search engines, `*`,
/// and crawlers that aren't named.
fn line_closing_home(
    alloc: Global,
    site: &Site,
    row: Row<'_>,
) -> Result<Option<usize>, AllocError> {
    let (closing, agent) = row;
    if closing.is_some() || !is_major(false, site, agent) || is_elsewhere(alloc, site, agent)? {
        return Ok(None);
    }
    let rules = own_rules(alloc, site, agent)?;
    Ok(first_closing_home(&rules))
}

/// Whether a group of its own doesn't close the whole site to a large search engine.
fn lets_in(alloc: Global, exempt: &Patterns, site: &Site) -> Result<bool, AllocError>
    requires { contains_text exempt.now ≡ is_exempt (file_lines site.now) }
{
    for name in &SEARCH_ENGINES {
        if site.is_named(name) && line_closing_site(alloc, exempt, site, name)?.is_none() {
            return Ok(true);
        }
    }
    Ok(false)
}

/// The lines that close the site to these crawlers.
fn site_rows<'a>(
    alloc: Global,
    exempt: &Patterns,
    site: &Site,
    agents: &[&'a str],
) -> Result<Vec<Row<'a>>, AllocError>
    requires { contains_text exempt.now ≡ is_exempt (file_lines site.now) }
    ensures { IfOk result (λ rows. rows.items
        ≡ map (λ agent. (line_closing_site (file_lines site.now) agent.now, agent)) agents.now) }
{
    let mut rows = Vec::new(alloc);
    for agent in agents {
        rows.push((line_closing_site(alloc, exempt, site, agent)?, *agent))?;
    }
    Ok(rows)
}

/// The lines that close the home page alone. The rows are those of `site_rows`.
fn home_rows<'a>(alloc: Global, site: &Site, rows: &[Row<'a>]) -> Result<Vec<Row<'a>>, AllocError> {
    let mut homes = Vec::new(alloc);
    for row in rows {
        homes.push((line_closing_home(alloc, site, *row)?, row.1))?;
    }
    Ok(homes)
}

/// How many other crawlers have this line.
fn others(rows: &[Row<'_>], number: usize) -> Option<Detail> {
    match rows.iter().filter(|row| row.0 == Some(number)).count() {
        0 | 1 => None,
        count => Some(Detail::Others(count - 1)),
    }
}

fn is_told_by(warning: &Warning<'_>, number: usize) -> bool
    ensures { result ≡ true → IsAbout is_closing_cause number warning.now }
{
    warning.line == Some(number)
        && matches!(warning.cause, Cause::ClosedSite | Cause::ClosedSiteToOthers)
}

fn is_told(found: &[Warning<'_>], number: usize) -> bool
    ensures { result ≡ true → Any (IsAbout is_closing_cause number) found.now }
{
    for warning in found {
        if is_told_by(warning, number) {
            return true;
        }
    }
    false
}

/// The row is one of these. Nothing is added if there is a warning about its line.
fn warn_of_row<'a>(
    found: &mut Found<'a>,
    cause: Cause,
    rows: &[Row<'a>],
    row: Row<'a>,
) -> Result<(), AllocError>
    requires cause { IsTrue (is_closing_cause cause) }
    requires row { Contains rows.now row }
    requires so { All (IsClosed rows.now) found.now.items }
    ensures so { OnOk result (All (IsClosed rows.now) found.new.items) }
    ensures stays { OnOk result ((line : Option ℕ) → IsTold found.old.items line
        → IsTold found.new.items line) }
    ensures told { OnOk result (IsTold found.new.items row.entry.0) }
{
    let (Some(number), agent) = row else {
        return Ok(());
    };
    if is_told(found, number) {
        return Ok(());
    }
    found.push(Warning {
        line: Some(number),
        cause,
        about: Some(agent),
        detail: others(rows, number),
    })?;
    Ok(())
}

/// Warnings about each line of these rows. The crawler that is named is the first for which that is probably
/// a mistake, or else the first.
fn closing<'a>(
    alloc: Global,
    let_in: bool,
    site: &Site,
    rows: &[Row<'a>],
) -> Result<Found<'a>, AllocError>
    ensures so { IfOk result (λ found. All (IsClosed rows.now) found.items) }
    ensures told { IfOk result (λ found. All (λ row. IsTold found.items row.0) rows.now) }
{
    let mut found = Vec::new(alloc);
    for row in rows {
        if row.0.is_some() && is_major(let_in, site, row.1) {
            warn_of_row(&mut found, Cause::ClosedSite, rows, *row)?;
        }
    }
    for row in rows {
        warn_of_row(&mut found, Cause::ClosedSiteToOthers, rows, *row)?;
    }
    Ok(found)
}

/// A warning about a closed site as one about a closed home page.
fn of_home<'a>(warning: &Warning<'a>) -> Warning<'a> {
    Warning {
        line: warning.line,
        cause: match warning.cause {
            Cause::ClosedSite => Cause::ClosedHomePage,
            _ => Cause::ClosedHomePageToOthers,
        },
        about: warning.about,
        detail: warning.detail,
    }
}

fn of_homes<'a>(alloc: Global, closing: &[Warning<'a>]) -> Result<Found<'a>, AllocError> {
    let mut found = Vec::new(alloc);
    for warning in closing {
        found.push(of_home(warning))?;
    }
    Ok(found)
}

/// Each line that closes the site to some crawlers, and each that closes its home page.
pub(crate) fn warn_of_closed<'a>(
    alloc: Global,
    found: &mut Found<'a>,
    known: &Known<'_, 'a>,
) -> Result<(), AllocError>
    requires read { IsRead known.now.read.now }
    requires known { IsKnown known.now }
    ensures so { OnOk result (Tells (IsSo known.now) found.old.items found.new.items) }
    ensures told { OnOk result (HasClosed (agents_in known.now) (file_lines known.now.read.now.site)
        found.new.items) }
{
    let site = &known.read.site;
    let exempt = exempt_patterns(alloc, site)?;
    let let_in = lets_in(alloc, &exempt, site)?;
    let sites = site_rows(alloc, &exempt, site, known.agents)?;
    let mut closed = closing(alloc, let_in, site, &sites)?;
    found.append(&mut closed)?;
    let homes = home_rows(alloc, site, &sites)?;
    let homes = of_homes(alloc, &closing(alloc, let_in, site, &homes)?)?;
    keep(found, &homes, known)?;
    Ok(())
}
