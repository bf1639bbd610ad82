//! What becomes of verdicts by the groups that the vendor of a crawler applies to it.
ghost use Rattle.std.specs.Prelude.{◌≡◌, [], IfErr, IfOk};
ghost use Rattle.texting_robots.specs.Callers.{file_lines};
ghost use Rattle.audit_core.specs.Standard.{AreReadings};
ghost use Rattle.audit_compare.specs.EveryUrl.{AreAtVendor, AreInBoth, file_of_group, is_here};
ghost use Rattle.audit_compare.specs.EveryUrl.{is_same_at_vendor, name_at_vendor, rules_in_both};

use crate::every_url::{InBoth, is_same, standard_verdicts, verdicts_for};
use audit_core::audit::Crawler;
use audit_core::error::Error;
use audit_core::readings::FileReadings;
use robots_warnings::crawlers::other_group;
use std::alloc::Global;
use texting_robots::Site;

/// The group that the vendor of a crawler applies to it in each file, and what becomes of the verdicts.
#[derive(Drop)]
pub struct VendorChange {
    /// The name of the group: the crawler's if it is the one that applies here, empty for none.
    pub older: String,
    pub newer: String,
    pub verdicts: InBoth,
}

/// The vendor applies in both files the group that applies here.
fn is_here(older: &Site, newer: &Site, agent: &str) -> bool
    ensures { result ≡ is_here (file_lines older.now) (file_lines newer.now) agent.now }
{
    other_group(older, agent).is_none() && other_group(newer, agent).is_none()
}

fn name_at_vendor<'a>(site: &'a Site, agent: &'a str) -> &'a str
    ensures { result.now ≡ name_at_vendor (file_lines site.entry.now) agent.entry.now }
{
    match other_group(site, agent) {
        Some(name) => name,
        None if site.has_agents() => agent,
        None => "",
    }
}

/// The file, or if the name is empty, the empty one.
fn file_of_group<'f>(
    name: &str,
    file: &'f FileReadings<'f>,
    empty: &'f FileReadings<'f>,
) -> &'f FileReadings<'f>
    requires file { AreReadings file.now.here.bytes.now file.now }
    requires empty { AreReadings [] empty.now }
    ensures file { AreReadings result.now.here.bytes.now result.now }
    ensures bytes { result.now.here.bytes.now ≡ file_of_group file.entry.now.here.bytes.now name.now }
{
    if name.is_empty() { empty } else { file }
}

/// What becomes of the verdicts of one name in the old file if those of the other in the new one apply.
fn verdicts_in_both(
    alloc: Global,
    old_name: &str,
    new_name: &str,
    older: &FileReadings<'_>,
    newer: &FileReadings<'_>,
    budget: usize,
) -> Result<InBoth, Error>
    requires older { AreReadings older.now.here.bytes.now older.now }
    requires newer { AreReadings newer.now.here.bytes.now newer.now }
    ensures ok { IfOk result (AreInBoth (rules_in_both old_name.now older.now.here.bytes.now)
        (rules_in_both new_name.now newer.now.here.bytes.now)) }
    ensures error { IfErr result (λ error. error ≡ Error.Memory) }
{
    let old = Crawler::new(alloc, old_name, &older.here.site)?;
    let new = Crawler::new(alloc, new_name, &newer.here.site)?;
    Ok(InBoth {
        here: verdicts_for(alloc, &old, &new, false, budget)?,
        standard: standard_verdicts(alloc, &old, &new, older, newer, budget)?,
    })
}

/// What changes at the vendor; `None` if it applies the groups that apply here.
pub(crate) fn at_vendor(
    alloc: Global,
    agent: &str,
    older: &FileReadings<'_>,
    newer: &FileReadings<'_>,
    budget: usize,
) -> Result<Option<VendorChange>, Error>
    requires older { AreReadings older.now.here.bytes.now older.now }
    requires newer { AreReadings newer.now.here.bytes.now newer.now }
    ensures ok { IfOk result (AreAtVendor older.now.here.bytes.now newer.now.here.bytes.now agent.now) }
    ensures error { IfErr result (λ error. error ≡ Error.Memory) }
{
    if is_here(&older.here.site, &newer.here.site, agent) {
        return Ok(None);
    }
    let empty = FileReadings::new(alloc, "*", b"")?;
    let old_name = name_at_vendor(&older.here.site, agent);
    let new_name = name_at_vendor(&newer.here.site, agent);
    let old_file = file_of_group(old_name, older, &empty);
    let new_file = file_of_group(new_name, newer, &empty);
    Ok(Some(VendorChange {
        older: String::from_str(alloc, old_name)?,
        newer: String::from_str(alloc, new_name)?,
        verdicts: verdicts_in_both(alloc, old_name, new_name, old_file, new_file, budget)?,
    }))
}

pub(crate) fn is_same_at_vendor(vendor: &Option<VendorChange>) -> bool
    ensures { result ≡ is_same_at_vendor vendor.now }
{
    match vendor {
        Some(vendor) => is_same(&vendor.verdicts),
        None => true,
    }
}
