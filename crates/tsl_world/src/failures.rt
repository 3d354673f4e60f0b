// The count of failed writes to `Err`.
ghost use Rattle.std.specs.Prelude.{◌≡◌, true, false};
ghost use Rattle.tsl_world.specs.Journal.{same_channel};
ghost use Rattle.tsl_world.specs.World.{RoseBy};

use crate::outside::Channel;

/// Counts a failed write by itself where it was one to `Err`.
pub fn count_unheard(channel: Channel, unheard: &mut u64)
    ensures elsewhere { same_channel channel Channel.Err ≡ false → unheard.new ≡ unheard.old }
    ensures heard { same_channel channel Channel.Err ≡ true → RoseBy 1 unheard.old unheard.new }
{
    match channel {
        Channel::Err => *unheard = unheard.saturating_add(1),
        _ => {}
    }
}
