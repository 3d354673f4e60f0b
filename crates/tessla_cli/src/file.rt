// Reading of a whole file, and making of one.

ghost use Rattle.std.specs.Prelude.{◌≡◌, ◌<◌, ◌≤◌, false, true, length, IfOk, OnErr, OnOk, IsErrOf};
ghost use Rattle.tsl_world.specs.Standing.{is_open, is_writable, with_slot};
ghost use Rattle.tsl_world.specs.World.{RoseBy};
ghost use Rattle.tsl_world.specs.Runs.{Grows, Runs};
ghost use Rattle.tessla_cli.specs.inner.RunPhases.{GivesFile, GivesName, HasPutFile, PutsFile, ReadsFile, ReadsName};
ghost use Rattle.trace_reader.specs.declared.limits.TheConstants.{MOST_PIECE_BYTES};

use std::alloc::Global;
use trace_run::write::write_all;
use tsl_value::bytes::Bytes;
use tsl_world::{Broken, Channel, Failed, Slot, World};

/// Reads an open file to its end, or until it has more bytes than it may.
fn read_whole<W: World>(
    alloc: Global,
    world: &mut W,
    slot: Slot,
    most: usize,
    buf: &mut [u8],
) -> Result<Bytes, Broken>
    requires room { 0 < length buf.old }
    requires short { length buf.old ≤ MOST_PIECE_BYTES }
    requires stands { is_open (W.standing world.old) slot ≡ true }
    ensures ok { OnOk result (W.faults world.new ≡ W.faults world.old) }
    ensures outside { IsErrOf result Broken.Outside → RoseBy 1 (W.faults world.old) (W.faults world.new) }
    ensures memory { IsErrOf result Broken.Memory → W.faults world.new ≡ W.faults world.old }
    ensures heard { W.unheard world.new ≡ W.unheard world.old }
    ensures calls { Runs W.told W.journal W.standing world.old world.new (ReadsFile slot most) }
    ensures bytes { IfOk result (λ bytes. Runs W.told W.journal W.standing world.old world.new (GivesFile slot most bytes)) }
{
    let mut bytes = Bytes::new(alloc);
    while bytes.len() <= most {
        let count = world.read(slot, buf)?;
        if count == 0 {
            return Ok(bytes);
        }
        bytes.append(&buf[..count])?;
    }
    Ok(bytes)
}

/// Opens a file and reads it to its end, or until it has more bytes than it may.
pub fn read_file<W: World>(
    alloc: Global,
    world: &mut W,
    slot: Slot,
    name: &str,
    most: usize,
    buf: &mut [u8],
) -> Result<Bytes, Broken>
    requires room { 0 < length buf.old }
    requires short { length buf.old ≤ MOST_PIECE_BYTES }
    requires stands { is_open (W.standing world.old) slot ≡ false }
    ensures ok { OnOk result (W.faults world.new ≡ W.faults world.old) }
    ensures outside { IsErrOf result Broken.Outside → RoseBy 1 (W.faults world.old) (W.faults world.new) }
    ensures memory { IsErrOf result Broken.Memory → W.faults world.new ≡ W.faults world.old }
    ensures heard { W.unheard world.new ≡ W.unheard world.old }
    ensures standing { OnOk result (W.standing world.new ≡ with_slot (W.standing world.old) slot) }
    ensures calls { Grows W.told W.journal world.old world.new (ReadsName slot most name.now) }
    ensures bytes { IfOk result (λ bytes. Grows W.told W.journal world.old world.new (GivesName slot most name.now bytes)) }
{
    world.open(slot, name)?;
    Ok(read_whole(alloc, world, slot, most, buf)?)
}

/// Makes a file and writes a text into it.
pub fn put_file<W: World>(world: &mut W, to: Channel, name: &str, text: &[u8]) -> Result<(), Failed>
    requires { is_writable (W.standing world.old) to ≡ false }
    ensures ok { OnOk result (W.faults world.new ≡ W.faults world.old) }
    ensures failed { OnErr result (RoseBy 1 (W.faults world.old) (W.faults world.new)) }
    ensures heard { W.unheard world.new ≡ W.unheard world.old }
    ensures calls { Grows W.told W.journal world.old world.new (PutsFile to name.now text.now) }
    ensures whole { OnOk result (Grows W.told W.journal world.old world.new (HasPutFile to name.now text.now)) }
{
    world.create(to, name)?;
    write_all(world, to, text)
}
