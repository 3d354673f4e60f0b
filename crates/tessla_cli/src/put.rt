// Writing of what was made for a command.

ghost use Rattle.std.specs.Prelude.{◌≡◌, IfOk, OnOk, IsErrOf};
ghost use Rattle.tsl_world.specs.Runs.{Grows};
ghost use Rattle.tsl_world.specs.World.{RoseBy};
ghost use Rattle.tessla_cli.specs.inner.RunPhases.{HasPutMade, PutsMade};

use crate::ended::Ended;
use crate::ending::Ending;
use crate::made::Made;
use std::alloc::Global;
use trace_run::write::write_all;
use tsl_world::{Broken, Channel, World};

/// Writes what was made to Out, where there is a text. All that takes memory is done before.
pub fn put_made<W: World>(alloc: Global, world: &mut W, made: Made) -> Result<Ended, Broken>
    ensures ok { OnOk result (W.faults world.new ≡ W.faults world.old) }
    ensures outside { IsErrOf result Broken.Outside → RoseBy 1 (W.faults world.old) (W.faults world.new) }
    ensures memory { IsErrOf result Broken.Memory → W.faults world.new ≡ W.faults world.old }
    ensures heard { W.unheard world.new ≡ W.unheard world.old }
    ensures calls { Grows W.told W.journal world.old world.new (PutsMade made) }
    ensures ending { IfOk result (λ ended. Grows W.told W.journal world.old world.new (HasPutMade made ended)) }
{
    match made {
        Made::Text(text) => {
            let ended = Ended::alone(alloc, Ending::Done)?;
            write_all(world, Channel::Out, text.as_slice())?;
            Ok(ended)
        }
        Made::Stops(ending) => Ok(Ended::alone(alloc, ending)?),
    }
}
