// Telling how a run ended.

ghost use Rattle.std.specs.Prelude.{◌≡◌, ◌⊎◌, ◌≤◌};
ghost use Rattle.tsl_world.specs.Runs.{Runs};
ghost use Rattle.tessla_cli.specs.Failures.{NoneFailed, WriteFailed, failures};
ghost use Rattle.tessla_cli.specs.Outcome.{TellsBroken, TellsEnding};

use crate::ended::Ended;
use crate::report::{broken_line, broken_status};
use trace_run::write::write_all;
use tsl_world::{Broken, Channel, World};

/// Tells on the standard error what cut a run short. The answer is the status.
pub fn tell_broken<W: World>(world: &mut W, broken: Broken) -> u8
    ensures calm { (result ≡ 5 → ⊥) → W.faults world.new ≡ W.faults world.old }
    ensures outside { result ≡ 5
        → ((broken ≡ Broken.Outside) × NoneFailed (failures W.faults W.unheard world.old) (failures W.faults W.unheard world.new))
        ⊎ WriteFailed (failures W.faults W.unheard world.old) (failures W.faults W.unheard world.new) }
    ensures failed { broken ≡ Broken.Outside → result ≡ 5 }
    ensures answers { result ≤ 10 }
    ensures calls { Runs W.told W.journal W.standing world.old world.new
        (TellsBroken broken (failures W.faults W.unheard world.old) (failures W.faults W.unheard world.new) result) }
{
    match write_all(world, Channel::Err, broken_line(broken)) {
        Ok(()) => broken_status(broken),
        Err(_) => 5,
    }
}

/// Tells the end of a run on the standard error. The answer is the status.
pub fn tell_ending<W: World>(world: &mut W, ended: &Ended) -> u8
    ensures calm { (result ≡ 5 → ⊥) → W.faults world.new ≡ W.faults world.old }
    ensures outside { result ≡ 5 → WriteFailed (failures W.faults W.unheard world.old) (failures W.faults W.unheard world.new) }
    ensures answers { result ≤ 10 }
    ensures calls { Runs W.told W.journal W.standing world.old world.new
        (TellsEnding ended.now (failures W.faults W.unheard world.old) (failures W.faults W.unheard world.new) result) }
{
    match write_all(world, Channel::Err, ended.text.as_slice()) {
        Ok(()) => ended.ending.status(),
        Err(_) => 5,
    }
}
