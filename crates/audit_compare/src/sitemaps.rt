//! The sitemaps that only one of two files lists.
ghost use Rattle.std.specs.Prelude.{IfOk, map};
ghost use Rattle.texting_robots.specs.Callers.{label_by_value, sitemaps_in};
ghost use Rattle.robots_warnings.specs.File.{lines_of};
ghost use Rattle.audit_compare.specs.Compare.{AreOnlyIn};

use audit_core::sitemaps::sitemaps_of;
use std::alloc::{AllocError, Global};
use std::collections::BTreeSet;
use texting_robots::labels::LabeledLine;

/// The texts that aren't among `others`, each once, in order.
fn texts_only_in<'a>(
    alloc: Global,
    texts: &[&'a [u8]],
    others: &[&'a [u8]],
) -> Result<Vec<&'a [u8]>, AllocError>
    ensures { IfOk result (λ found. AreOnlyIn (map (λ text. text.now) texts.now)
        (map (λ text. text.now) others.now) (map (λ text. text.now) found.items)) }
{
    let mut met = BTreeSet::new(alloc);
    for other in others {
        met.insert(*other)?;
    }
    let mut found = Vec::new(alloc);
    for text in texts {
        if met.insert(*text)? {
            found.push(*text)?;
        }
    }
    Ok(found)
}

/// The sitemaps in these lines that the others don't list, each once, in order.
pub(crate) fn sitemaps_only_in<'a>(
    alloc: Global,
    labels: &[LabeledLine<'a>],
    others: &[LabeledLine<'a>],
) -> Result<Vec<&'a [u8]>, AllocError>
    ensures { IfOk result (λ found. AreOnlyIn (sitemaps_in (lines_of (map label_by_value labels.now)))
        (sitemaps_in (lines_of (map label_by_value others.now))) (map (λ text. text.now) found.items)) }
{
    let texts = sitemaps_of(alloc, labels)?;
    let others = sitemaps_of(alloc, others)?;
    texts_only_in(alloc, &texts, &others)
}
