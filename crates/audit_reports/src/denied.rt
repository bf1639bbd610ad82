//! Which URLs a report lists, and how many are allowed and denied. A URL is denied if one of the readings
//! denies it.
use audit_core::audit::{AgentAudit, Audit, Verdict};
use audit_core::texts::other_decision;

/// The numbers for all crawlers together.
#[derive(Clone, Copy)]
pub struct Totals {
    pub allowed: usize,
    pub denied: usize,
}

fn is_denied(verdict: &Verdict<'_>) -> bool {
    !verdict.decision.allowed || other_decision(verdict).is_some()
}

/// The audit, or if `denied_only` is true the audit with the denied URLs alone.
pub fn shown<'a>(denied_only: bool, audit: Audit<'a>) -> Audit<'a> {
    let mut reported = audit;
    if denied_only {
        for agent in reported.agents.iter_mut() {
            agent.verdicts.retain(|verdict| is_denied(verdict));
        }
    }
    reported
}

/// How many URLs are allowed and denied, for all of these crawlers.
pub fn totals_of(agents: &[AgentAudit<'_>]) -> Totals {
    let mut totals = Totals {
        allowed: 0,
        denied: 0,
    };
    for agent in agents {
        for verdict in &agent.verdicts {
            if is_denied(verdict) {
                totals.denied = totals.denied.saturating_add(1);
            } else {
                totals.allowed = totals.allowed.saturating_add(1);
            }
        }
    }
    totals
}
