//! Known crawlers: which group the vendor of each applies to it, and which one a similar name may mean.
ghost use Rattle.std.specs.Prelude.{◌≡◌, ◌||◌, IfOk, map, option_map};
ghost use Rattle.std.specs.List.{before_first, position_from};
ghost use Rattle.texting_robots.specs.Callers.{by_value, file_lines};
ghost use Rattle.robots_warnings.specs.Crawlers.{crawlers, ends_token, first_at_vendor, gets_other};
ghost use Rattle.robots_warnings.specs.Crawlers.{group_at_vendor};
ghost use Rattle.robots_warnings.specs.Crawlers.{ignores_star, is_known, is_meant, is_near, is_row_of, meant};
ghost use Rattle.robots_warnings.specs.Crawlers.{most_edits, name_at_vendor, name_for, other_group};
ghost use Rattle.robots_warnings.specs.Crawlers.{value_at_vendor, wrong_names};
ghost use Rattle.robots_warnings.specs.Internal.{row_value};

use crate::table::Cause;
use crate::tokens::token_front;
use crate::warning::{Detail, Found, Warning};
use safe_output::bytes::{as_text, first};
use std::alloc::{AllocError, Global};
use strsim::generic_damerau_levenshtein;
use texting_robots::labels::LabeledLine;
use texting_robots::parser::{Line, file_lines};
use texting_robots::site::Site;

/// A crawler's name, and that of the group that its vendor applies to it if a file has none of its own: that
/// of `*`, that of another crawler (and if there is none either, that of `*`), or, for an empty name, no
/// group.
pub type Crawler = (&'static str, &'static str);

/// The known crawlers. Above each block is where its vendor, or those of its crawlers, say so; where none says which
/// group it applies, the standard does.
#[rattlefmt::skip]
static CRAWLERS: [(&str, &str); 109] = [
    // RFC 9309, 2.2.1: all that have no group of their own
    ("*", "*"),
    // https://developers.google.com/search/docs/crawling-indexing/google-common-crawlers
    ("Googlebot", "*"), ("Googlebot-Image", "Googlebot"), ("Googlebot-News", "Googlebot"),
    ("Googlebot-Video", "Googlebot"), ("Google-InspectionTool", "Googlebot"),
    ("Storebot-Google", "Googlebot"), ("Google-CloudVertexBot", "Googlebot"), ("Google-Extended", "*"),
    ("GoogleOther", "*"), ("GoogleOther-Image", "GoogleOther"), ("GoogleOther-Video", "GoogleOther"),
    // https://developers.google.com/search/docs/crawling-indexing/google-special-case-crawlers
    ("AdsBot-Google", ""), ("AdsBot-Google-Mobile", ""), ("APIs-Google", ""), ("Mediapartners-Google", ""),
    // https://support.apple.com/en-us/119829
    ("Applebot", "Googlebot"), ("Applebot-Extended", "*"),
    // https://yandex.com/support/webmaster/controlling-robot/robots-txt.html
    // https://yandex.com/support/webmaster/robot-workings/check-yandex-robots.html
    ("Yandex", "*"), ("YandexBot", "Yandex"), ("YandexImages", "Yandex"), ("YandexVideo", "Yandex"),
    ("YandexMedia", "Yandex"), ("YandexBlogs", "Yandex"), ("YandexMarket", "Yandex"),
    ("YandexWebmaster", "Yandex"), ("YandexPagechecker", "Yandex"), ("YandexMobileBot", ""),
    ("YandexMetrika", ""), ("YandexDirect", ""),
    // https://www.bing.com/webmasters/help/which-crawlers-does-bing-use-8c184ec0
    ("Bingbot", "*"), ("AdIdxBot", "*"), ("BingPreview", "*"),
    // https://duckduckgo.com/duckduckgo-help-pages/results/duckduckbot
    ("DuckDuckBot", "*"), ("DuckAssistBot", "*"),
    // https://help.baidu.com/question?prod_id=99&class=476&id=2996
    ("Baiduspider", "*"), ("Baiduspider-image", "*"), ("Baiduspider-video", "*"), ("Baiduspider-news", "*"),
    // https://help.yahoo.com/kb/SLN22600.html, https://www.mojeek.com/bot.html, https://help.qwant.com/bot/,
    // https://o-seznam.cz/napoveda/vyhledavani/en/seznambot-crawler/,
    // https://webmaster.petalsearch.com/site/petalbot
    ("Slurp", "*"), ("SeznamBot", "*"), ("Qwantbot", "*"), ("Qwantify", "*"), ("MojeekBot", "*"),
    ("PetalBot", "*"),
    // RFC 9309, 2.2.1: other search engines
    ("Yeti", "*"), ("360Spider", "*"), ("YisouSpider", "*"), ("coccocbot-web", "*"), ("Exabot", "*"),
    // https://platform.openai.com/docs/bots
    ("GPTBot", "*"), ("ChatGPT-User", "*"), ("OAI-SearchBot", "*"),
    // https://support.anthropic.com/en/articles/8896518
    ("ClaudeBot", "*"), ("Claude-User", "*"), ("Claude-SearchBot", "*"), ("Claude-Web", "*"),
    ("anthropic-ai", "*"),
    // https://docs.perplexity.ai/guides/bots
    ("PerplexityBot", "*"), ("Perplexity-User", "*"),
    // https://developers.facebook.com/docs/sharing/webmasters/web-crawlers
    ("facebookexternalhit", "*"), ("FacebookBot", "*"), ("meta-externalagent", "*"),
    ("meta-externalfetcher", "*"),
    // https://developer.amazon.com/amazonbot, https://adbot.amazon.com, https://commoncrawl.org/ccbot,
    // https://allenai.org/crawler, https://docs.mistral.ai/robots, https://webz.io/bot.html,
    // https://imagesift.com/about
    ("Amazonbot", "*"), ("AmazonAdBot", "*"), ("CCBot", "*"), ("AI2Bot", "*"), ("MistralAI-User", "*"),
    ("omgili", "*"), ("omgilibot", "*"), ("ImagesiftBot", "*"),
    // RFC 9309, 2.2.1: other crawlers for language models
    ("Bytespider", "*"), ("TikTokSpider", "*"), ("cohere-ai", "*"), ("Diffbot", "*"), ("YouBot", "*"),
    ("Timpibot", "*"), ("img2dataset", "*"), ("ICC-Crawler", "*"),
    // https://ahrefs.com/robot, https://www.semrush.com/bot/, https://mj12bot.com,
    // https://moz.com/help/moz-procedures/crawlers, https://babbar.tech/crawler,
    // https://dataforseo.com/dataforseo-bot, https://serpstatbot.com, https://www.seokicks.de/robot.html
    ("AhrefsBot", "*"), ("AhrefsSiteAudit", "*"), ("SemrushBot", "*"), ("SiteAuditBot", "*"),
    ("MJ12bot", "*"), ("DotBot", "*"), ("rogerbot", "*"), ("Barkrowler", "*"), ("DataForSeoBot", "*"),
    ("serpstatbot", "*"), ("SEOkicks", "*"), ("BLEXBot", "*"),
    // https://help.pinterest.com/en/business/article/pinterest-crawler, https://api.slack.com/robots
    ("Pinterest", "*"), ("Pinterestbot", "*"), ("Slackbot", "*"),
    // RFC 9309, 2.2.1: other previews of links
    ("Twitterbot", "*"), ("LinkedInBot", "*"), ("Discordbot", "*"), ("TelegramBot", "*"), ("WhatsApp", "*"),
    ("redditbot", "*"),
    // RFC 9309, 2.2.1: archives, and crawlers for other purposes
    ("ia_archiver", "*"), ("archive.org_bot", "*"), ("heritrix", "*"), ("TurnitinBot", "*"),
    ("proximic", "*"), ("GrapeshotCrawler", "*"), ("Nutch", "*"), ("Scrapy", "*"),
];

/// Names that no crawler has, each with that of the known crawler that is probably meant.
static WRONG_NAMES: [(&str, &str); 25] = [
    ("all", "*"),
    ("any", "*"),
    ("everyone", "*"),
    ("Google", "Googlebot"),
    ("Gemini", "Google-Extended"),
    ("Bing", "Bingbot"),
    ("Yahoo", "Slurp"),
    ("OpenAI", "GPTBot"),
    ("ChatGPT", "ChatGPT-User"),
    ("Chat-GPT", "ChatGPT-User"),
    ("Chat GPT", "ChatGPT-User"),
    ("Claude", "ClaudeBot"),
    ("Anthropic", "ClaudeBot"),
    ("Perplexity", "PerplexityBot"),
    ("Facebook", "facebookexternalhit"),
    ("Meta", "meta-externalagent"),
    ("Amazon", "Amazonbot"),
    ("Apple", "Applebot"),
    ("ByteDance", "Bytespider"),
    ("TikTok", "TikTokSpider"),
    ("Twitter", "Twitterbot"),
    ("LinkedIn", "LinkedInBot"),
    ("Ahrefs", "AhrefsBot"),
    ("Semrush", "SemrushBot"),
    ("CommonCrawl", "CCBot"),
];

/// The known crawlers; the first is `*`. No other function names the long table, since each that does takes
/// long to prove.
#[tactic(auto, unfolding(crate::specs::Crawlers::crawlers))]
pub fn crawlers() -> &'static [Crawler]
    ensures { map row_value result.now ≡ crawlers }
{
    &CRAWLERS
}

fn row_in(rows: &'static [Crawler], number: usize) -> Crawler {
    match rows.get(number) {
        Some(row) => *row,
        None => ("", ""),
    }
}

/// The crawler with this index.
pub fn row_at(number: usize) -> Crawler {
    row_in(crawlers(), number)
}

pub(crate) fn is_given(agents: &[&str], name: &str) -> bool {
    agents.iter().any(|agent| name.eq_ignore_ascii_case(agent))
}

fn value_at_vendor<'a>(agent: &str, value: &'a [u8]) -> Option<&'a str>
    ensures { option_map (λ name. name.now) result ≡ value_at_vendor agent.now value.now }
{
    if token_front(value).eq_ignore_ascii_case(agent.as_bytes()) {
        as_text(value)
    } else {
        None
    }
}

fn name_at_vendor<'a>(agent: &str, line: Line<'a>) -> Option<&'a str>
    ensures { option_map (λ name. name.now) result ≡ name_at_vendor agent.now (by_value line.entry) }
{
    match line {
        Line::UserAgent(value) => value_at_vendor(agent, value),
        _ => None,
    }
}

fn first_at_vendor<'a>(site: &'a Site, agent: &str) -> Option<&'a str>
    ensures { option_map (λ name. name.now) result ≡ first_at_vendor agent.now (file_lines site.now) }
{
    for line in file_lines(site.text()) {
        if let Some(name) = name_at_vendor(agent, line) {
            return Some(name);
        }
    }
    None
}

fn group_at_vendor<'a>(site: &'a Site, group: &str) -> Option<&'a str>
    ensures { option_map (λ name. name.now) result ≡ group_at_vendor (file_lines site.now) group.now }
{
    if group == "*" {
        return None;
    }
    if !group.is_empty() {
        return first_at_vendor(site, group);
    }
    if site.is_named("*") { Some("") } else { None }
}

fn gets_other(site: &Site, agent: &str, group: &str) -> bool
    ensures { result ≡ gets_other (file_lines site.now) agent.now group.now }
{
    first_at_vendor(site, agent).is_none() && group_at_vendor(site, group).is_some()
}

/// Whether the vendor of the crawler in this row applies no group of the file to it, although `*` has one.
pub fn ignores_star(site: &Site, crawler: &Crawler) -> bool
    ensures { result ≡ ignores_star (file_lines site.now) (row_value crawler.now) }
{
    let (name, group) = *crawler;
    group.is_empty() && gets_other(site, name, group)
}

/// The group that the vendor of a known crawler applies to it, or an empty name for no group, if it isn't the
/// one that applies here.
pub fn other_group<'a>(site: &'a Site, agent: &str) -> Option<&'a str>
    ensures { option_map (λ group. group.now) result ≡ other_group (file_lines site.now) agent.now }
{
    if site.is_named(agent) {
        return None;
    }
    let group = name_for(crawlers(), agent.as_bytes())?;
    match first_at_vendor(site, agent) {
        Some(name) => Some(name),
        None => group_at_vendor(site, group),
    }
}

#[tactic(auto, unfolding(crate::specs::Crawlers::wrong_names))]
fn wrong_names() -> &'static [Crawler]
    ensures { map row_value result.now ≡ wrong_names }
{
    &WRONG_NAMES
}

#[tactic(auto, unfolding(crate::specs::Crawlers::is_row_of))]
fn is_row_of(value: &[u8], row: &Crawler) -> bool
    ensures { result ≡ is_row_of value.now (row_value row.now) }
{
    row.0.as_bytes().eq_ignore_ascii_case(value)
}

fn name_for(rows: &'static [Crawler], value: &[u8]) -> Option<&'static str>
    ensures { option_map (λ name. name.now) result ≡ name_for value.now (map row_value rows.now) }
{
    for row in rows {
        if is_row_of(value, row) {
            return Some(row.1);
        }
    }
    None
}

fn most_edits(name: &str) -> usize
    ensures { result ≡ most_edits name.now }
{
    match name.len() {
        0..5 => 0,
        5..9 => 1,
        _ => 2,
    }
}

/// Whether the value has the name's first letter, and is made of the name by few edits.
pub fn is_near(alloc: Global, value: &[u8], name: &str) -> Result<bool, AllocError>
    ensures { IfOk result (λ answer. answer ≡ is_near value.now name.now) }
{
    let (most, name) = (most_edits(name), name.as_bytes());
    let has_start = !value.is_empty() && first(1, value).eq_ignore_ascii_case(first(1, name));
    if !has_start || name.len().abs_diff(value.len()) > most {
        return Ok(false);
    }
    let (value, name) = (
        value.to_ascii_lowercase(alloc)?,
        name.to_ascii_lowercase(alloc)?,
    );
    Ok(generic_damerau_levenshtein(alloc, &value, &name)? <= most)
}

/// Whether the start of the value, if that isn't all of it, is near the name.
#[tactic(auto, using(crate::proofs::ClosedLemmas::near_whole))]
fn is_start_near(alloc: Global, value: &[u8], name: &str) -> Result<bool, AllocError>
    ensures { IfOk result (λ answer. (is_near value.now name.now || answer)
        ≡ (is_near value.now name.now || is_near (before_first ends_token value.now) name.now)) }
{
    let start = token_front(value);
    if start.len() == value.len() {
        return Ok(false);
    }
    is_near(alloc, start, name)
}

#[tactic(auto, unfolding(crate::specs::Crawlers::is_meant))]
fn is_meant(alloc: Global, value: &[u8], other: &str, row: &Crawler) -> Result<bool, AllocError>
    ensures { IfOk result (λ answer. answer ≡ is_meant value.now other.now (row_value row.now)) }
{
    Ok(row.0 == other || is_near(alloc, value, row.0)? || is_start_near(alloc, value, row.0)?)
}

fn is_known(name: &[u8]) -> bool
    ensures { result ≡ is_known name.now }
{
    name_for(crawlers(), name).is_some()
}

fn first_meant(
    alloc: Global,
    rows: &[Crawler],
    value: &[u8],
    other: &str,
) -> Result<Option<usize>, AllocError>
    ensures { IfOk result (λ found. found
        ≡ position_from (is_meant value.now other.now) 0 (map row_value rows.now)) }
{
    for (number, row) in rows.iter().enumerate() {
        if is_meant(alloc, value, other, row)? {
            return Ok(Some(number));
        }
    }
    Ok(None)
}

/// The index of the crawler that is probably meant, if neither the value nor its start is the name of a known
/// one.
pub fn meant(alloc: Global, value: &[u8]) -> Result<Option<usize>, AllocError>
    ensures { IfOk result (λ found. found ≡ meant value.now) }
{
    if is_known(value) || is_known(token_front(value)) {
        return Ok(None);
    }
    let other = name_for(wrong_names(), value).unwrap_or("");
    first_meant(alloc, crawlers(), value, other)
}

/// Whether no crawler has the name, and it is known which one is meant.
pub fn is_wrong(name: &[u8]) -> bool {
    name_for(wrong_names(), name).is_some()
}

fn warn_of_name<'a>(
    alloc: Global,
    found: &mut Found<'a>,
    line: Option<usize>,
    about: Option<&'a str>,
    name: &[u8],
) -> Result<(), AllocError> {
    let Some(crawler) = meant(alloc, name)? else {
        return Ok(());
    };
    found.push(Warning {
        line,
        cause: if is_wrong(name) {
            Cause::WrongName
        } else {
            Cause::MisspelledName
        },
        about,
        detail: Some(Detail::Meant(crawler)),
    })?;
    Ok(())
}

pub(crate) fn warn_of_all_names<'a>(
    alloc: Global,
    found: &mut Found<'a>,
    site: &Site,
    agents: &[&'a str],
    labels: &[LabeledLine<'_>],
) -> Result<(), AllocError> {
    for labeled in labels {
        let Line::UserAgent(name) = labeled.line else {
            continue;
        };
        warn_of_name(alloc, found, Some(labeled.number), None, name)?;
    }
    for agent in agents {
        if site.is_named(agent) {
            continue;
        }
        warn_of_name(alloc, found, None, Some(agent), agent.as_bytes())?;
    }
    Ok(())
}

fn warn_of_vendor(
    found: &mut Found<'_>,
    is_named: bool,
    number: usize,
    crawler: &Crawler,
) -> Result<(), AllocError> {
    let (name, group) = *crawler;
    let (cause, detail) = if group.is_empty() {
        (Cause::StarIgnoringCrawler, None)
    } else {
        (Cause::VendorGroup, Some(Detail::Group(number)))
    };
    found.push(Warning {
        line: None,
        cause,
        about: if is_named { Some(name) } else { None },
        detail,
    })?;
    Ok(())
}

/// About the crawlers among these to which their vendor applies another group; with their names if there may
/// be several.
pub(crate) fn warn_of_vendors(
    found: &mut Found<'_>,
    all_groups: bool,
    site: &Site,
    agents: &[&str],
    rows: &[Crawler],
) -> Result<(), AllocError> {
    for (number, crawler) in rows.iter().enumerate() {
        if !is_given(agents, crawler.0) || !gets_other(site, crawler.0, crawler.1) {
            continue;
        }
        warn_of_vendor(found, all_groups, number, crawler)?;
    }
    Ok(())
}
