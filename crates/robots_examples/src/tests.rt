//! The contracts say what each caller returns if it succeeds. With enough memory it does.
use crate::audit::audit;
use crate::cache::{Cache, CacheError, MAX_ROBOTS};
use crate::crawler::{DelayPolicy, plan_for};
use crate::link_check::{Denied, count_denied};
use crate::single_query::may_fetch;
use std::process::Abort;
use texting_robots::view::View;
use texting_robots::{Error, Robot};
use url::ParseError;

#[test]
fn each_line_has_its_row(rt: HostRuntime) {
    let rows = audit(rt.alloc(), b"User-agent: *\nDisallow: /a\n\nSitemap: s").expect(&rt, "rows");
    assert!(rt; rows.len() == 4);
}

fn store(rt: &(impl Abort + AllocGlobal), cache: &mut Cache, url: &str) {
    let stored = cache.put(rt.alloc(), "Bot", url, b"User-agent: *\nDisallow: /a\n");
    assert!(rt; stored.is_ok(), "{url}");
}

fn check_stored(rt: &(impl Abort + AllocGlobal), cache: &Cache, url: &str, want: bool) {
    let found = cache.find(rt.alloc(), url).expect(rt, url);
    assert!(rt; found.is_some() == want, "{url}");
}

#[test]
fn a_full_cache_forgets_the_oldest_site(rt: HostRuntime) {
    let mut cache = Cache::new(rt.alloc());
    store(&rt, &mut cache, "https://example.com/a/b");
    check_stored(&rt, &cache, "https://example.com/c?d", true);
    for site in 1..=MAX_ROBOTS {
        let url = format!(in rt.alloc(); "https://s{site}.example.com/").expect(&rt, "URL");
        store(&rt, &mut cache, &url);
    }
    check_stored(&rt, &cache, "https://example.com/", false);
    check_stored(&rt, &cache, "https://s1.example.com/", true);
}

/// The errors of a cache, and their messages.
const ERRORS: &[(CacheError, &str)] = &[
    (
        CacheError::Url(ParseError::EmptyHost),
        "No address of a robots.txt file: empty host",
    ),
    (
        CacheError::File(Error::InvalidRule),
        "No robot: Rule with $ is too long",
    ),
    (CacheError::Memory, "Out of memory"),
];

#[test]
fn errors_have_their_messages(rt: HostRuntime) {
    for (error, want) in ERRORS {
        let text = error.to_string(rt.alloc()).expect(&rt, want);
        assert!(rt; text.as_str() == *want, "{text}");
    }
}

#[test]
fn a_crawler_plans_its_visit(rt: HostRuntime) {
    let waits = DelayPolicy {
        usual: 1_000_000,
        longest: 60_000_000,
    };
    let file = b"User-agent: Ferris\nDisallow: /private\nCrawl-delay: 2.5\n";
    let urls = &["https://example.com/", "/private/a", "/b"];
    let plan = plan_for(rt.alloc(), "FERRIS", file, urls, waits).expect(&rt, "plan");
    assert!(rt; plan.wait == 2_500_000);
    assert!(rt; plan.urls.as_slice() == ["https://example.com/", "/b"].as_slice());
}

/// A link that starts with `/abc` takes four looks, one at each of these bytes, and `/bcd` takes two.
#[test]
fn denied_links_and_looks_are_counted(rt: HostRuntime) {
    let robot = Robot::new(rt.alloc(), "Bot", b"Disallow: /abc\n").expect(&rt, "robot");
    let links = &mut [View::new("/abc"), View::new("/bcd"), View::new("/abc/d")];
    let once = Denied {
        count: 2,
        looks: 10,
    };
    assert!(rt; count_denied(&robot, links) == once);
}

#[test]
fn a_file_is_queried(rt: HostRuntime) {
    let file = b"User-agent: FerrisBot\nDisallow: /a\n";
    let url = "https://example.com/a?b";
    let answer = may_fetch(rt.alloc(), "ferrisbot", file, url).expect(&rt, url);
    assert!(rt; !answer);
}
