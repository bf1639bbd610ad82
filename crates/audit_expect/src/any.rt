//! The word `any` in place of a crawler's name: such an expectation is about every crawler.
ghost use Rattle.std.specs.Prelude.{◌≡◌, ◌++◌, IfOk, OnOk, flat_map, map};
ghost use Rattle.texting_robots.specs.Callers.{file_lines, lines_read};
ghost use Rattle.robots_warnings.specs.Read.{IsRead};
ghost use Rattle.audit_expect.specs.Expectations.{about_each, all_crawlers, elsewhere};
ghost use Rattle.audit_expect.specs.Internal.Expectations.{expectation_value};

use crate::expect::{Expectation, is_any};
use audit_core::agents::agents_requested;
use robots_warnings::crawlers::{crawlers, other_group};
use robots_warnings::read::FileRead;
use std::alloc::{AllocError, Global};
use texting_robots::site::Site;

fn push_elsewhere<'a>(
    names: &mut Vec<&'a str>,
    site: &Site,
    name: &'a str,
) -> Result<(), AllocError>
    ensures { OnOk result (map (λ name. name.now) names.new.items
        ≡ map (λ name. name.now) names.old.items ++ elsewhere (file_lines site.now) name.now) }
{
    if other_group(site, name).is_some() {
        names.push(name)?;
    }
    Ok(())
}

fn all_crawlers<'a>(alloc: Global, read: &'a FileRead<'_>) -> Result<Vec<&'a str>, AllocError>
    requires { IsRead read.now }
    ensures { IfOk result (λ names. map (λ name. name.now) names.items
        ≡ all_crawlers (lines_read read.now.bytes.now)) }
{
    let mut names = agents_requested(alloc, &[], &read.labels)?;
    for row in crawlers() {
        push_elsewhere(&mut names, &read.site, row.0)?;
    }
    Ok(names)
}

fn push_about_each<'a>(
    found: &mut Vec<Expectation<'a>>,
    names: &[&'a str],
    expectation: &Expectation<'a>,
) -> Result<(), AllocError>
    ensures { OnOk result (map expectation_value found.new.items ≡ map expectation_value found.old.items
        ++ about_each (map (λ name. name.now) names.now) (expectation_value expectation.now)) }
{
    if !is_any(expectation.agent) {
        return Ok(found.push(*expectation)?);
    }
    for agent in names {
        found.push(Expectation {
            agent,
            ..*expectation
        })?;
    }
    Ok(())
}

/// The expectations, with one about each crawler in place of one about any.
pub(crate) fn about_each<'a>(
    alloc: Global,
    expectations: &[Expectation<'a>],
    read: &'a FileRead<'_>,
) -> Result<Vec<Expectation<'a>>, AllocError>
    requires { IsRead read.now }
    ensures { IfOk result (λ each. map expectation_value each.items
        ≡ flat_map (about_each (all_crawlers (lines_read read.now.bytes.now)))
        (map expectation_value expectations.now)) }
{
    let names = all_crawlers(alloc, read)?;
    let mut found = Vec::new(alloc);
    for expectation in expectations {
        push_about_each(&mut found, &names, expectation)?;
    }
    Ok(found)
}
