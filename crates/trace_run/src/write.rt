// Writing to the outside.

ghost use Rattle.std.specs.Prelude.{◌≡◌, true, OnOk, OnErr};
ghost use Rattle.tsl_world.specs.Standing.{is_writable};
ghost use Rattle.tsl_world.specs.World.{IsHeard, RoseBy};
ghost use Rattle.tsl_world.specs.Runs.{Runs};
ghost use Rattle.trace_run.specs.Effects.{Gives};

use tsl_world::{Channel, Failed, World};

/// Writes all of the bytes to a channel, in as many writes as it takes.
pub fn write_all<W: World>(world: &mut W, to: Channel, bytes: &[u8]) -> Result<(), Failed>
    requires { is_writable (W.standing world.old) to ≡ true }
    ensures ok { OnOk result (W.faults world.new ≡ W.faults world.old) }
    ensures failed { OnErr result (RoseBy 1 (W.faults world.old) (W.faults world.new)) }
    ensures heard { IsHeard to (W.unheard world.old) (W.unheard world.new) result }
    ensures calls { Runs W.told W.journal W.standing world.old world.new (Gives to bytes.now result) }
{
    let mut rest = bytes;
    while !rest.is_empty() {
        let count = world.write(to, rest)?;
        rest = &rest[count..];
    }
    Ok(())
}
