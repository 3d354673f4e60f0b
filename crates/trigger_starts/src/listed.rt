// The rules of all equations.

ghost use Rattle.std.specs.Prelude.{IfOk};
ghost use Rattle.trigger_starts.specs.inner.Kept.{AreRulesOf};
ghost use Rattle.trigger_starts.specs.inner.Rules.{AreClosed};

use crate::rules::{Rule, rule_of};
use flat_core::flat::Flat;
use std::alloc::Global;
use tsl_value::ids::EqId;
use tsl_value::memory::NoMemory;

/// The rules of all equations, by their numbers.
pub fn rules(alloc: Global, flat: &Flat) -> Result<Vec<Rule>, NoMemory>
    ensures exact { IfOk result (λ r. AreRulesOf r.items flat.now) }
    ensures closed { IfOk result (λ r. AreClosed r.items) }
{
    let mut rules = Vec::new(alloc);
    for number in 0..flat.count() {
        rules.push(rule_of(flat.equation(EqId::new(number)))?)?;
    }
    Ok(rules)
}
