// Worlds that make files, with ample memory: no clause says that memory was had.
ghost use Rattle.std.specs.Prelude.{◌≡◌, false};
ghost use Rattle.tsl_world.specs.Standing.{is_open, is_writable};

use std::alloc::Global;
use std::test::Fail;
use tsl_value::bytes::Bytes;
use tsl_value::memory::NoMemory;
use tsl_value::text::Text;
use tsl_world::{CalmWorld, Channel, Failed, Files, NamedFile, RealWorld, Slot, World};

/// Two files of one name, of which the first is meant.
fn two_files(alloc: Global) -> Result<Files, NoMemory> {
    let mut files = Files::new(alloc);
    for text in ["xyz", "later"] {
        files.push(NamedFile {
            name: Text::from_str(alloc, "a")?,
            bytes: Bytes::from_slice(alloc, text.as_bytes())?,
        })?;
    }
    Ok(files)
}

/// Opens a file and reads twice, makes another and writes to it once: the counts, and before the last the first byte of the second piece.
fn visits<W: World>(
    world: &mut W,
    read: &str,
    made: &str,
) -> Result<(usize, usize, u8, usize), Failed>
    requires closed { is_open (W.standing world.old) Slot.Trace ≡ false }
    requires unmade { is_writable (W.standing world.old) Channel.State ≡ false }
{
    let mut buf = [0u8; 8];
    world.open(Slot::Trace, read)?;
    let first = world.read(Slot::Trace, &mut buf)?;
    let second = world.read(Slot::Trace, &mut buf)?;
    world.create(Channel::State, made)?;
    let written = world.write(Channel::State, b"state")?;
    Ok((first, second, buf[0], written))
}

// An absent file is empty for it, whatever other files there are.
#[test]
fn a_calm_world_never_fails(rt: HostRuntime) -> Result<(), Fail> {
    let mut world = CalmWorld::new(rt.alloc(), two_files(rt.alloc())?, 2)?;
    assert!(rt; visits(&mut world, "a", "s") == Ok((2, 1, b'z', 2)));
    assert!(rt; world.write(Channel::Err, b"err\n") == Ok(2));
    assert!(rt; world.is_told() && world.err() == b"er".as_slice());
    let mut other = CalmWorld::new(rt.alloc(), two_files(rt.alloc())?, 2)?;
    assert!(rt; visits(&mut other, "absent", "s") == Ok((0, 0, 0, 2)));
    Ok(())
}

// The trusted edge, over devices that every host has.
#[test]
fn real_devices(rt: HostRuntime) -> Result<(), Fail> {
    for (read, made, answer) in [
        ("/dev/zero", "/dev/null", Ok((8, 8, 0, 5))),
        ("/dev/absent", "/dev/null", Err(Failed)),
        ("/dev/zero", "/dev/full", Err(Failed)),
    ] {
        let mut world = RealWorld::new(rt.clone()?);
        assert!(rt; visits(&mut world, read, made) == answer);
    }
    Ok(())
}
