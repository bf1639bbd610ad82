//! All warnings about a file and a request.
ghost use Rattle.std.specs.Prelude.{All, Contains, IfOk, OnOk, flat_map, map};
ghost use Rattle.std.specs.{BTreeMap.IsOrdered, Ordering.nat_cmp};
ghost use Rattle.texting_robots.specs.Callers.{file_lines, label_by_value};
ghost use Rattle.robots_warnings.specs.{Conflicts.is_empty_at, Means.Means, Read.IsRead};
ghost use Rattle.robots_warnings.specs.Internal.{Adds, Tells.overruling_at};
ghost use Rattle.robots_warnings.specs.Warnings.{HasClosed, HasOverruling, url_warnings};

use crate::candidates::{file_candidates, group_candidates, line_candidates};
use crate::closed::warn_of_closed;
use crate::conflicts::Others;
use crate::known::{keep, known_of};
use crate::read::FileRead;
use crate::table::Cause;
use crate::targets::has_odd_target;
use crate::warning::{Detail, Found, Warning};
use std::alloc::{AllocError, Global};

fn warn_of_urls<'a>(
    alloc: Global,
    found: &mut Found<'a>,
    urls: &[&'a str],
) -> Result<(), AllocError>
    ensures { OnOk result (Adds found.old.items found.new.items
        (flat_map url_warnings (map (λ url. url.now) urls.now))) }
{
    for url in urls {
        if has_odd_target(alloc, url)? {
            found.push(Warning {
                line: None,
                cause: Cause::UrlNotNormal,
                about: Some(*url),
                detail: None,
            })?;
        }
    }
    Ok(())
}

/// Each empty Disallow that overrules a Disallow.
fn warn_of_overruling(found: &mut Found<'_>, overruling: &Others) -> Result<(), AllocError>
    ensures adds { OnOk result (Adds found.old.items found.new.items
        (map overruling_at overruling.now.entries)) }
    ensures ordered { OnOk result (IsOrdered nat_cmp overruling.now) }
{
    for (number, line) in overruling {
        found.push(Warning {
            line: Some(*number),
            cause: Cause::EmptyDisallow,
            about: None,
            detail: Some(Detail::Line(*line)),
        })?;
    }
    Ok(())
}

/// All warnings about a file and a request, in the order of output. `all_groups` is false for a report on a
/// single crawler, and else the rules of all groups are checked. `agents` are the crawlers reported on.
pub fn warnings<'a>(
    alloc: Global,
    all_groups: bool,
    agents: &[&'a str],
    urls: &[&'a str],
    read: &FileRead<'_>,
) -> Result<Vec<Warning<'a>>, AllocError>
    requires { IsRead read.now }
    ensures so { IfOk result (λ found. All (Means (map (λ agent. agent.now) agents.now)
        read.now.bytes.now (map label_by_value read.now.labels.items)) found.items) }
    ensures given { IfOk result (λ found. All (Contains found.items)
        (flat_map url_warnings (map (λ url. url.now) urls.now))) }
    ensures closed { IfOk result (λ found. HasClosed (map (λ agent. agent.now) agents.now)
        (file_lines read.now.site) found.items) }
    ensures overruling { IfOk result (λ found.
        HasOverruling (is_empty_at (map label_by_value read.now.labels.items))
        (map (λ agent. agent.now) agents.now) (file_lines read.now.site) found.items) }
{
    let known = known_of(alloc, all_groups, agents, read)?;
    let mut found = Vec::new(alloc);
    keep(&mut found, &file_candidates(alloc, read)?, &known)?;
    warn_of_closed(alloc, &mut found, &known)?;
    warn_of_urls(alloc, &mut found, urls)?;
    keep(&mut found, &line_candidates(alloc, &known)?, &known)?;
    warn_of_overruling(&mut found, &known.rules.overruling)?;
    keep(&mut found, &group_candidates(alloc, &known)?, &known)?;
    Ok(found)
}
