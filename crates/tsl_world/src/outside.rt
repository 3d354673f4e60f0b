// The outside: slots to read, channels to write, and the journal of what was done.
ghost use Rattle.std.specs.Prelude.{◌≡◌, ◌<◌, ◌≤◌, ◌↔◌, ℕ, Bool, true, false, IsTrue, if◌then◌else◌, List, [], ◌∷◌, ◌++◌, length, take};
ghost use Rattle.std.specs.Prelude.{is_ok, IfOk, OnOk, OnErr, MatchResult};
ghost use Rattle.tsl_world.specs.Standing.{Standing, is_open, is_writable, with_slot, with_channel};
ghost use Rattle.tsl_world.specs.World.{HasCause, IsHeard, WhereTold, SameElsewhere};
ghost use Rattle.tsl_world.specs.declared.outside.Did.{Did};
ghost use Rattle.tsl_world.specs.declared.outside.Slot.{Slot};

use tsl_value::bytes::Bytes;
use tsl_value::text::Text;

/// What is read. Each slot is opened by a name, once.
#[derive(Clone, Copy, Debug, PartialEq, Eq)]
pub enum Slot {
    Spec,
    Trace,
    State,
    Code,
}

/// What is written. `Out` and `Err` always stand; a file for one of the others is made first.
#[derive(Clone, Copy, Debug, PartialEq, Eq)]
pub enum Channel {
    Out,
    Err,
    State,
    Code,
}

/// The outside failed.
#[derive(Clone, Copy, Debug, PartialEq, Eq)]
pub struct Failed;

/// One entry of the journal: what a call did, or that it failed.
#[derive(Drop)]
pub enum Did {
    Opened { slot: Slot, name: Text },
    Created { channel: Channel, name: Text },
    Took { slot: Slot, bytes: Bytes },
    Gave { channel: Channel, bytes: Bytes },
    NotOpened { slot: Slot, name: Text },
    NotCreated { channel: Channel, name: Text },
    NotTook { slot: Slot },
    NotGave { channel: Channel },
}

/// All contact with the outside.
///
/// A call answers `Failed` only where the count of faults rose in it by just one, or stands at 2^64 - 1, its last value.
/// Misuse is excluded by the conditions, so it is no failure. What a call says of bytes and of the journal holds
/// where the world is told when the call returns.
pub trait World {
    /// What the calls did, in order. Each call adds one entry, and so does one that fails.
    ghost journal: { Self → List Did };

    /// Whether the journal is told. It never turns from false to true.
    ghost told: { Self → Bool };

    /// What a slot still has, where told.
    ghost left: { Self → Slot → List ℕ };

    /// Which slots are open, and which channels may be written. It is known also where nothing is told.
    ghost standing: { Self → Standing };

    /// How often the outside has failed. It never falls.
    ghost faults: { Self → ℕ };

    /// How often a write to `Err` has failed. Each of these is counted among all failures too.
    ghost unheard: { Self → ℕ };

    /// Opens what the name names for reading.
    fn open(&mut self, slot: Slot, name: &str) -> Result<(), Failed>
        requires { is_open (standing self.old) slot ≡ false }
        ensures standing { standing self.new ≡ (if is_ok result then with_slot (standing self.old) slot else standing self.old) }
        ensures cause { HasCause (faults self.old) (faults self.new) result }
        ensures heard { unheard self.new ≡ unheard self.old }
        ensures told { IsTrue (told self.new) → IsTrue (told self.old) }
        ensures journal { WhereTold (told self.new) (journal self.new ≡ journal self.old
            ++ (if is_ok result then Did.Opened slot name.now else Did.NotOpened slot name.now) ∷ []) }
        ensures left { WhereTold (told self.new) (SameElsewhere slot (left self.old) (left self.new)) }
        ensures failed { WhereTold (told self.new) (OnErr result (left self.new ≡ left self.old)) };

    /// Makes a file to write.
    fn create(&mut self, channel: Channel, name: &str) -> Result<(), Failed>
        requires { is_writable (standing self.old) channel ≡ false }
        ensures standing { standing self.new ≡ (if is_ok result then with_channel (standing self.old) channel else standing self.old) }
        ensures cause { HasCause (faults self.old) (faults self.new) result }
        ensures heard { unheard self.new ≡ unheard self.old }
        ensures told { IsTrue (told self.new) → IsTrue (told self.old) }
        ensures journal { WhereTold (told self.new) (journal self.new ≡ journal self.old
            ++ (if is_ok result then Did.Created channel name.now else Did.NotCreated channel name.now) ∷ []) }
        ensures left { WhereTold (told self.new) (left self.new ≡ left self.old) };

    /// Puts the next bytes of a slot at the front of the buffer, takes them off, and answers how many they are.
    /// The count is 0 exactly at the end of the slot.
    fn read(&mut self, slot: Slot, buf: &mut [u8]) -> Result<usize, Failed>
        requires room { 0 < length buf.old }
        requires stands { is_open (standing self.old) slot ≡ true }
        ensures count { IfOk result (λ n. n ≤ length buf.new) }
        ensures standing { standing self.new ≡ standing self.old }
        ensures cause { HasCause (faults self.old) (faults self.new) result }
        ensures heard { unheard self.new ≡ unheard self.old }
        ensures told { IsTrue (told self.new) → IsTrue (told self.old) }
        ensures journal { WhereTold (told self.new) (MatchResult result
            (λ n. journal self.new ≡ journal self.old ++ Did.Took slot (take n buf.new) ∷ [])
            (λ _. journal self.new ≡ journal self.old ++ Did.NotTook slot ∷ [])) }
        ensures bytes { WhereTold (told self.new) (IfOk result (λ n. left self.old slot ≡ take n buf.new ++ left self.new slot)) }
        ensures end { WhereTold (told self.new) (IfOk result (λ n. n ≡ 0 ↔ (left self.old slot ≡ []))) }
        ensures left { WhereTold (told self.new) (SameElsewhere slot (left self.old) (left self.new)) }
        ensures failed { WhereTold (told self.new) (OnErr result (left self.new ≡ left self.old)) };

    /// Takes the first of the bytes, one at least and all at most, and answers how many it took.
    fn write(&mut self, channel: Channel, bytes: &[u8]) -> Result<usize, Failed>
        requires some { 0 < length bytes.now }
        requires stands { is_writable (standing self.old) channel ≡ true }
        ensures count { IfOk result (λ n. (0 < n) × (n ≤ length bytes.now)) }
        ensures standing { standing self.new ≡ standing self.old }
        ensures cause { HasCause (faults self.old) (faults self.new) result }
        ensures heard { IsHeard channel (unheard self.old) (unheard self.new) result }
        ensures told { IsTrue (told self.new) → IsTrue (told self.old) }
        ensures journal { WhereTold (told self.new) (MatchResult result
            (λ n. journal self.new ≡ journal self.old ++ Did.Gave channel (take n bytes.now) ∷ [])
            (λ _. journal self.new ≡ journal self.old ++ Did.NotGave channel ∷ [])) }
        ensures left { WhereTold (told self.new) (left self.new ≡ left self.old) };
}
