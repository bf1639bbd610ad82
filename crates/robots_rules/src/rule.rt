//! Rules of a crawler.
ghost use Rattle.std.specs.Prelude.{◌≡◌, IfOk};
ghost use Rattle.texting_robots.specs.Callers.{file_lines, placed_rules};

use crate::item::Item;
use std::alloc::{AllocError, Global};
use std::marker::Model;
use texting_robots::site::{Site, SiteRule};

/// A rule of a crawler, or any other one. The pattern is escaped, as those of a robot are.
#[derive(Drop)]
pub struct Rule {
    pub pattern: String,
    pub is_allow: bool,
    /// The number of the rule's line, which changes no verdict.
    pub line: usize,
}

impl Model for Rule {
    ghost use Rattle.std.specs.Prelude.{string_bytes};
    ghost use Rattle.texting_robots.specs.Rules.{PlacedRule};

    ghost Value = { PlacedRule };

    ghost view = { λ r. record { rule = (string_bytes r.pattern, r.is_allow); line = r.line } };
}

impl Rule {
    pub(crate) fn item(&self) -> Item<'_>
        ensures { result ≡ self.now.rule }
    {
        Item::new(self.pattern.as_bytes(), self.is_allow, 0)
    }
}

fn rule_from(alloc: Global, rule: &SiteRule<'_>) -> Result<Rule, AllocError>
    ensures { IfOk result (λ made. made ≡ rule.now) }
{
    Ok(Rule {
        pattern: rule.pattern(alloc)?,
        is_allow: rule.is_allow,
        line: rule.line,
    })
}

/// The rules of a file that apply to the crawler with the product token `agent`, in file order.
pub fn rules_of(alloc: Global, site: &Site, agent: &str) -> Result<Vec<Rule>, AllocError>
    ensures { IfOk result (λ rules. rules.items ≡ placed_rules agent.now (file_lines site.now)) }
{
    let mut rules = Vec::new(alloc);
    for rule in site.rules(agent) {
        let made = rule_from(alloc, &rule)?;
        rules.push(made)?;
    }
    Ok(rules)
}
