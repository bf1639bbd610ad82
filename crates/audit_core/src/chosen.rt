//! Which warnings are reported, chosen by name.
ghost use Rattle.std.specs.Prelude.{◌≡◌, map};
ghost use Rattle.audit_core.specs.Chosen.{chosen, is_among_names, is_chosen};

use crate::error::{Error, Flaw, argument};
use robots_warnings::warning::Warning;
use std::alloc::Global;

fn is_among_names(names: &[&str], name: &str) -> bool
    ensures { result ≡ is_among_names (map (λ name. name.now) names.now) name.now }
{
    for other in names {
        if *other == name {
            return true;
        }
    }
    false
}

fn is_chosen(only: &[&str], ignored: &[&str], name: &str) -> bool
    ensures { result ≡ is_chosen (map (λ name. name.now) only.now) (map (λ name. name.now) ignored.now)
        name.now }
{
    (only.is_empty() || is_among_names(only, name)) && !is_among_names(ignored, name)
}

/// Fails with the first name in `only` that is in the other list, too.
pub fn are_apart(alloc: Global, only: &[&str], ignored: &[&str]) -> Result<(), Error> {
    for name in only {
        if is_among_names(ignored, name) {
            return Err(argument(alloc, name, Flaw::Both));
        }
    }
    Ok(())
}

pub(crate) fn choose(only: &[&str], ignored: &[&str], warnings: &mut Vec<Warning<'_>>)
    ensures { warnings.new.items
        ≡ chosen (map (λ name. name.now) only.now) (map (λ name. name.now) ignored.now) warnings.old.items }
{
    warnings.retain(|warning| is_chosen(only, ignored, warning.cause.name()));
}
