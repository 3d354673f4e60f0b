// A world in memory whose calls never fail.
use crate::desk::Desk;
use crate::files::Files;
use crate::outside::{Channel, Failed, Slot, World};
use crate::sizes::Sizes;
use std::alloc::Global;
use tsl_value::memory::NoMemory;

/// A world in memory, whose journal is told and whose calls never fail. An absent file is an empty one.
/// Where it finds no memory to note a call, it does the call and stops telling.
#[derive(Drop)]
pub struct CalmWorld {
    desk: Desk,
}

impl CalmWorld {
    ghost use Rattle.std.specs.Prelude.{◌≡◌, ◌<◌, true, [], IsTrue, IfOk};
    ghost use Rattle.tsl_world.specs.inner.Calm.{journal_of, told_of, standing_of, files_of, piece_of};
    ghost use Rattle.tsl_world.specs.Journal.{given};
    ghost use Rattle.tsl_world.specs.Standing.{at_first};

    /// A world with these files, of which nothing is open. A read gives at most `piece` bytes, and a write takes at
    /// most `piece`.
    pub fn new(alloc: Global, files: Files, piece: usize) -> Result<CalmWorld, NoMemory>
        requires { 0 < piece }
        ensures told { IfOk result (λ w. told_of w ≡ true) }
        ensures journal { IfOk result (λ w. journal_of w ≡ []) }
        ensures standing { IfOk result (λ w. standing_of w ≡ at_first) }
        ensures made { IfOk result (λ w. (files_of w ≡ files) × (piece_of w ≡ piece)) }
    {
        Ok(CalmWorld {
            desk: Desk::new(alloc, files, Sizes::one(alloc, piece)?),
        })
    }

    /// Whether the journal is told.
    pub fn is_told(&self) -> bool
        ensures { result ≡ told_of self.now }
    {
        self.desk.is_told()
    }

    /// What was written to `Out`, as far as it could be kept; the whole where told.
    pub fn out(&self) -> &[u8]
        ensures { IsTrue (told_of self.now) → result.now ≡ given Channel.Out (journal_of self.now) }
    {
        self.desk.out()
    }

    /// What was written to `Err`, as far as it could be kept; the whole where told.
    pub fn err(&self) -> &[u8]
        ensures { IsTrue (told_of self.now) → result.now ≡ given Channel.Err (journal_of self.now) }
    {
        self.desk.err()
    }
}

impl World for CalmWorld {
    ghost use Rattle.tsl_world.specs.inner.Calm.{journal_of, told_of, left_of, standing_of, files_of, piece_of};
    ghost use Rattle.tsl_world.specs.inner.Files.{bytes_named};
    ghost use Rattle.tsl_world.specs.Standing.{is_open, is_writable, with_slot, with_channel};
    ghost use Rattle.tsl_world.specs.World.{HasCause, IsHeard, WhereTold, SameElsewhere};
    ghost use Rattle.tsl_world.specs.declared.outside.Did.{Did};
    ghost use Rattle.std.specs.Prelude.{◌≡◌, ◌↔◌, ◌<◌, ◌≤◌, ◌++◌, ◌∷◌, [], true, false, IsTrue, if◌then◌else◌, is_ok, length, take, IsOk};
    ghost use Rattle.std.specs.Prelude.{OnErr, IfOk, MatchResult};

    ghost journal = { journal_of };

    ghost told = { told_of };

    ghost left = { left_of };

    ghost standing = { standing_of };

    ghost faults = { λ _. 0 };

    ghost unheard = { λ _. 0 };

    // The clauses of the trait, and after them that no call fails, and what an opening gives.

    fn open(&mut self, slot: Slot, name: &str) -> Result<(), Failed>
        requires { is_open (standing_of self.old) slot ≡ false }
        ensures standing { standing_of self.new ≡ (if is_ok result then with_slot (standing_of self.old) slot else standing_of self.old) }
        ensures cause { HasCause 0 0 result }
        ensures told { IsTrue (told_of self.new) → IsTrue (told_of self.old) }
        ensures journal { WhereTold (told_of self.new) (journal_of self.new ≡ journal_of self.old
            ++ (if is_ok result then Did.Opened slot name.now else Did.NotOpened slot name.now) ∷ []) }
        ensures left { WhereTold (told_of self.new) (SameElsewhere slot (left_of self.old) (left_of self.new)) }
        ensures failed { WhereTold (told_of self.new) (OnErr result (left_of self.new ≡ left_of self.old)) }

        ensures never { IsOk result }
        ensures opened { left_of self.new slot ≡ bytes_named (files_of self.old) name.now }
        ensures made { (files_of self.new ≡ files_of self.old) × (piece_of self.new ≡ piece_of self.old) }
    {
        self.desk.open(slot, name);
        Ok(())
    }

    fn create(&mut self, channel: Channel, name: &str) -> Result<(), Failed>
        requires { is_writable (standing_of self.old) channel ≡ false }
        ensures standing { standing_of self.new
            ≡ (if is_ok result then with_channel (standing_of self.old) channel else standing_of self.old) }
        ensures cause { HasCause 0 0 result }
        ensures told { IsTrue (told_of self.new) → IsTrue (told_of self.old) }
        ensures journal { WhereTold (told_of self.new) (journal_of self.new ≡ journal_of self.old
            ++ (if is_ok result then Did.Created channel name.now else Did.NotCreated channel name.now) ∷ []) }
        ensures left { WhereTold (told_of self.new) (left_of self.new ≡ left_of self.old) }

        ensures never { IsOk result }
        ensures made { (files_of self.new ≡ files_of self.old) × (piece_of self.new ≡ piece_of self.old) }
    {
        self.desk.create(channel, name);
        Ok(())
    }

    fn read(&mut self, slot: Slot, buf: &mut [u8]) -> Result<usize, Failed>
        requires room { 0 < length buf.old }
        requires stands { is_open (standing_of self.old) slot ≡ true }
        ensures count { IfOk result (λ n. n ≤ length buf.new) }
        ensures standing { standing_of self.new ≡ standing_of self.old }
        ensures cause { HasCause 0 0 result }
        ensures told { IsTrue (told_of self.new) → IsTrue (told_of self.old) }
        ensures journal { WhereTold (told_of self.new) (MatchResult result
            (λ n. journal_of self.new ≡ journal_of self.old ++ Did.Took slot (take n buf.new) ∷ [])
            (λ _. journal_of self.new ≡ journal_of self.old ++ Did.NotTook slot ∷ [])) }
        ensures bytes { WhereTold (told_of self.new) (IfOk result (λ n. left_of self.old slot ≡ take n buf.new ++ left_of self.new slot)) }
        ensures end { WhereTold (told_of self.new) (IfOk result (λ n. n ≡ 0 ↔ (left_of self.old slot ≡ []))) }
        ensures left { WhereTold (told_of self.new) (SameElsewhere slot (left_of self.old) (left_of self.new)) }
        ensures failed { WhereTold (told_of self.new) (OnErr result (left_of self.new ≡ left_of self.old)) }

        ensures never { IsOk result }
        ensures piece { IfOk result (λ n. n ≤ piece_of self.old) }
        ensures made { (files_of self.new ≡ files_of self.old) × (piece_of self.new ≡ piece_of self.old) }
    {
        Ok(self.desk.read(0, slot, buf))
    }

    fn write(&mut self, channel: Channel, bytes: &[u8]) -> Result<usize, Failed>
        requires some { 0 < length bytes.now }
        requires stands { is_writable (standing_of self.old) channel ≡ true }
        ensures count { IfOk result (λ n. (0 < n) × (n ≤ length bytes.now)) }
        ensures standing { standing_of self.new ≡ standing_of self.old }
        ensures cause { HasCause 0 0 result }
        ensures heard { IsHeard channel 0 0 result }
        ensures told { IsTrue (told_of self.new) → IsTrue (told_of self.old) }
        ensures journal { WhereTold (told_of self.new) (MatchResult result
            (λ n. journal_of self.new ≡ journal_of self.old ++ Did.Gave channel (take n bytes.now) ∷ [])
            (λ _. journal_of self.new ≡ journal_of self.old ++ Did.NotGave channel ∷ [])) }
        ensures left { WhereTold (told_of self.new) (left_of self.new ≡ left_of self.old) }

        ensures never { IsOk result }
        ensures piece { IfOk result (λ n. n ≤ piece_of self.old) }
        ensures made { (files_of self.new ≡ files_of self.old) × (piece_of self.new ≡ piece_of self.old) }
    {
        Ok(self.desk.write(0, channel, bytes))
    }
}
