// What starts in a small system, and what never meets.

ghost use Rattle.std.specs.Prelude.{◌≡◌, length, IfOk};

use crate::tests::triggers;
use sample_systems::systems::sample;
use std::alloc::Global;
use std::test::Fail;
use trigger_formulas::triggers::Triggers;
use tsl_value::ids::EqId;
use tsl_value::memory::NoMemory;

/// The triggers of the sample.
fn sample_triggers(alloc: Global) -> Result<Triggers, Fail>
    ensures { IfOk result (λ t. length t ≡ 12) }
{
    let flat = sample(alloc)?;
    triggers(alloc, &flat)
}

/// Whether the start and the update of the sample start as they do, and never meet.
fn are_answered(alloc: Global, triggers: &Triggers) -> Result<bool, NoMemory>
    requires { length triggers.now ≡ 12 }
{
    let unit = EqId::new(1);
    let starts = triggers.starts(alloc, unit)? && !triggers.starts(alloc, EqId::new(3))?;
    Ok(starts && !triggers.together(alloc, unit, EqId::new(8))?)
}

#[test]
fn what_starts_and_what_meets(rt: HostRuntime) -> Result<(), Fail> {
    let triggers = sample_triggers(rt.alloc())?;
    assert!(rt; are_answered(rt.alloc(), &triggers)?);
    Ok(())
}
