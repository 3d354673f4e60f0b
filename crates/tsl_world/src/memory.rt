// A world in memory whose calls fail where that was asked for.
ghost use Rattle.std.specs.Prelude.{◌≡◌, ◌+◌, ◌-◌, ◌^◌, min, ◌↔◌, IsTrue, Contains};

use crate::desk::Desk;
use crate::failures::count_unheard;
use crate::files::{Calls, Files};
use crate::outside::{Channel, Failed, Slot, World};
use crate::sizes::Sizes;
use std::alloc::Global;
use tsl_value::memory::NoMemory;

/// A world in memory, whose journal is told. The calls with listed numbers fail, and so does each opening of an
/// absent file; no other call does. Where it finds no memory to note a call, it does the call and stops telling.
#[derive(Drop)]
pub struct MemoryWorld {
    desk: Desk,
    fails: Calls,
    calls: u64,
    faults: u64,
    unheard: u64,
}

// Counts a call, and tells whether it is to fail.
fn is_next_listed(fails: &Calls, calls: &mut u64) -> bool
    ensures listed { IsTrue result ↔ Contains fails.now calls.old }
    ensures counted { calls.new ≡ min (calls.old + 1) (2 ^ 64 - 1) }
{
    let number = *calls;
    *calls = number.saturating_add(1);
    fails.contains(number)
}

impl MemoryWorld {
    ghost use Rattle.std.specs.Prelude.{◌≡◌, ◌<◌, true, [], ◌∷◌, IsTrue, IfOk};
    ghost use Rattle.tsl_world.specs.Journal.{given};
    ghost use Rattle.tsl_world.specs.inner.Memory.{journal_of, told_of, standing_of, faults_of, unheard_of, files_of, pieces_of, fails_of};
    ghost use Rattle.tsl_world.specs.inner.Memory.{next_of};
    ghost use Rattle.tsl_world.specs.inner.Sizes.{AreSizes};
    ghost use Rattle.tsl_world.specs.Standing.{at_first};

    /// A world with these files, of which nothing is open. A read gives at most `piece` bytes, and a write takes at
    /// most `piece`. The calls with the numbers in `fails` fail.
    pub fn new(
        alloc: Global,
        files: Files,
        piece: usize,
        fails: Calls,
    ) -> Result<MemoryWorld, NoMemory>
        requires { 0 < piece }
        ensures told { IfOk result (λ w. told_of w ≡ true) }
        ensures journal { IfOk result (λ w. journal_of w ≡ []) }
        ensures standing { IfOk result (λ w. standing_of w ≡ at_first) }
        ensures faults { IfOk result (λ w. faults_of w ≡ 0) }
        ensures unheard { IfOk result (λ w. unheard_of w ≡ 0) }
        ensures first { IfOk result (λ w. next_of w ≡ 0) }
        ensures made { IfOk result (λ w. (files_of w ≡ files) × (pieces_of w ≡ piece ∷ []) × (fails_of w ≡ fails)) }
    {
        let pieces = Sizes::one(alloc, piece)?;
        MemoryWorld::with_pieces(alloc, files, pieces, fails)
    }

    /// The same, where the calls read and write at most as many bytes as `pieces` has for them, in turn: the call with
    /// the number k at most its size number k modulo how many there are.
    pub fn with_pieces(
        alloc: Global,
        files: Files,
        pieces: Sizes,
        fails: Calls,
    ) -> Result<MemoryWorld, NoMemory>
        requires { AreSizes pieces }
        ensures told { IfOk result (λ w. told_of w ≡ true) }
        ensures journal { IfOk result (λ w. journal_of w ≡ []) }
        ensures standing { IfOk result (λ w. standing_of w ≡ at_first) }
        ensures faults { IfOk result (λ w. faults_of w ≡ 0) }
        ensures unheard { IfOk result (λ w. unheard_of w ≡ 0) }
        ensures first { IfOk result (λ w. next_of w ≡ 0) }
        ensures made { IfOk result (λ w. (files_of w ≡ files) × (pieces_of w ≡ pieces) × (fails_of w ≡ fails)) }
    {
        Ok(MemoryWorld {
            desk: Desk::new(alloc, files, pieces),
            fails,
            calls: 0,
            faults: 0,
            unheard: 0,
        })
    }

    /// Whether the journal is told.
    pub fn is_told(&self) -> bool
        ensures { result ≡ told_of self.now }
    {
        self.desk.is_told()
    }

    /// How many calls were made, those that failed among them. It stands at 2^64 - 1, its last value, once there.
    pub fn calls(&self) -> u64
        ensures { result ≡ next_of self.now }
    {
        self.calls
    }

    /// What was written to `Out`, as far as it could be kept; the whole where told.
    pub fn out(&self) -> &[u8]
        ensures { IsTrue (told_of self.now) → result.now ≡ given Channel.Out (journal_of self.now) }
    {
        self.desk.out()
    }

    /// What was written to `Err`, as far as it could be kept; the whole where told.
    pub fn err(&self) -> &[u8]
        ensures { IsTrue (told_of self.now) → result.now ≡ given Channel.Err (journal_of self.now) }
    {
        self.desk.err()
    }

    /// What was written to the file of `State`, as far as it could be kept; the whole where told.
    pub fn state(&self) -> &[u8]
        ensures { IsTrue (told_of self.now) → result.now ≡ given Channel.State (journal_of self.now) }
    {
        self.desk.state()
    }

    /// What was written to the file of `Code`, as far as it could be kept; the whole where told.
    pub fn code(&self) -> &[u8]
        ensures { IsTrue (told_of self.now) → result.now ≡ given Channel.Code (journal_of self.now) }
    {
        self.desk.code()
    }
}

impl World for MemoryWorld {
    ghost use Rattle.tsl_world.specs.inner.Files.{bytes_named, IsAbsent};
    ghost use Rattle.tsl_world.specs.inner.Memory.{journal_of, told_of, left_of, standing_of, faults_of, unheard_of, files_of, piece_of};
    ghost use Rattle.tsl_world.specs.inner.Memory.{pieces_of, fails_of, next_of};
    ghost use Rattle.tsl_world.specs.Standing.{is_open, is_writable, with_slot, with_channel};
    ghost use Rattle.tsl_world.specs.World.{HasCause, IsHeard, WhereTold, SameElsewhere};
    ghost use Rattle.tsl_world.specs.declared.outside.Did.{Did};
    ghost use Rattle.std.specs.Prelude.{◌≡◌, ◌⊎◌, ◌↔◌, ◌<◌, ◌≤◌, ◌++◌, ◌∷◌, [], true, false, IsTrue, if◌then◌else◌, is_ok, length, take};
    ghost use Rattle.std.specs.Prelude.{OnOk, OnErr, IfOk, IsErr, MatchResult, Contains};

    ghost journal = { journal_of };

    ghost told = { told_of };

    ghost left = { left_of };

    ghost standing = { standing_of };

    ghost faults = { faults_of };

    ghost unheard = { unheard_of };

    // The clauses of the trait, and after them which calls fail, and what an opening gives.

    fn open(&mut self, slot: Slot, name: &str) -> Result<(), Failed>
        requires { is_open (standing_of self.old) slot ≡ false }
        ensures standing { standing_of self.new ≡ (if is_ok result then with_slot (standing_of self.old) slot else standing_of self.old) }
        ensures cause { HasCause (faults_of self.old) (faults_of self.new) result }
        ensures heard { unheard_of self.new ≡ unheard_of self.old }
        ensures told { IsTrue (told_of self.new) → IsTrue (told_of self.old) }
        ensures journal { WhereTold (told_of self.new) (journal_of self.new ≡ journal_of self.old
            ++ (if is_ok result then Did.Opened slot name.now else Did.NotOpened slot name.now) ∷ []) }
        ensures left { WhereTold (told_of self.new) (SameElsewhere slot (left_of self.old) (left_of self.new)) }
        ensures failed { WhereTold (told_of self.new) (OnErr result (left_of self.new ≡ left_of self.old)) }

        ensures exactly { IsErr result ↔ (Contains (fails_of self.old) (next_of self.old) ⊎ IsAbsent (files_of self.old) name.now) }
        ensures opened { OnOk result (left_of self.new slot ≡ bytes_named (files_of self.old) name.now) }
        ensures counts { next_of self.new ≡ min (next_of self.old + 1) (2 ^ 64 - 1) }
        ensures made { (files_of self.new ≡ files_of self.old) × (fails_of self.new ≡ fails_of self.old)
            × (pieces_of self.new ≡ pieces_of self.old) }
    {
        let is_listed = is_next_listed(&self.fails, &mut self.calls);
        if is_listed || !self.desk.has(name) {
            self.faults = self.faults.saturating_add(1);
            self.desk.fail_open(slot, name);
            return Err(Failed);
        }
        self.desk.open(slot, name);
        Ok(())
    }

    fn create(&mut self, channel: Channel, name: &str) -> Result<(), Failed>
        requires { is_writable (standing_of self.old) channel ≡ false }
        ensures standing { standing_of self.new
            ≡ (if is_ok result then with_channel (standing_of self.old) channel else standing_of self.old) }
        ensures cause { HasCause (faults_of self.old) (faults_of self.new) result }
        ensures heard { unheard_of self.new ≡ unheard_of self.old }
        ensures told { IsTrue (told_of self.new) → IsTrue (told_of self.old) }
        ensures journal { WhereTold (told_of self.new) (journal_of self.new ≡ journal_of self.old
            ++ (if is_ok result then Did.Created channel name.now else Did.NotCreated channel name.now) ∷ []) }
        ensures left { WhereTold (told_of self.new) (left_of self.new ≡ left_of self.old) }

        ensures exactly { IsErr result ↔ Contains (fails_of self.old) (next_of self.old) }
        ensures counts { next_of self.new ≡ min (next_of self.old + 1) (2 ^ 64 - 1) }
        ensures made { (files_of self.new ≡ files_of self.old) × (fails_of self.new ≡ fails_of self.old)
            × (pieces_of self.new ≡ pieces_of self.old) }
    {
        if is_next_listed(&self.fails, &mut self.calls) {
            self.faults = self.faults.saturating_add(1);
            self.desk.fail_create(channel, name);
            return Err(Failed);
        }
        self.desk.create(channel, name);
        Ok(())
    }

    fn read(&mut self, slot: Slot, buf: &mut [u8]) -> Result<usize, Failed>
        requires room { 0 < length buf.old }
        requires stands { is_open (standing_of self.old) slot ≡ true }
        ensures count { IfOk result (λ n. n ≤ length buf.new) }
        ensures standing { standing_of self.new ≡ standing_of self.old }
        ensures cause { HasCause (faults_of self.old) (faults_of self.new) result }
        ensures heard { unheard_of self.new ≡ unheard_of self.old }
        ensures told { IsTrue (told_of self.new) → IsTrue (told_of self.old) }
        ensures journal { WhereTold (told_of self.new) (MatchResult result
            (λ n. journal_of self.new ≡ journal_of self.old ++ Did.Took slot (take n buf.new) ∷ [])
            (λ _. journal_of self.new ≡ journal_of self.old ++ Did.NotTook slot ∷ [])) }
        ensures bytes { WhereTold (told_of self.new) (IfOk result (λ n. left_of self.old slot ≡ take n buf.new ++ left_of self.new slot)) }
        ensures end { WhereTold (told_of self.new) (IfOk result (λ n. n ≡ 0 ↔ (left_of self.old slot ≡ []))) }
        ensures left { WhereTold (told_of self.new) (SameElsewhere slot (left_of self.old) (left_of self.new)) }
        ensures failed { WhereTold (told_of self.new) (OnErr result (left_of self.new ≡ left_of self.old)) }

        ensures exactly { IsErr result ↔ Contains (fails_of self.old) (next_of self.old) }
        ensures buffer { OnErr result (buf.new ≡ buf.old) }
        ensures piece { IfOk result (λ n. n ≤ piece_of self.old) }
        ensures counts { next_of self.new ≡ min (next_of self.old + 1) (2 ^ 64 - 1) }
        ensures made { (files_of self.new ≡ files_of self.old) × (fails_of self.new ≡ fails_of self.old)
            × (pieces_of self.new ≡ pieces_of self.old) }
    {
        let number = self.calls;
        if is_next_listed(&self.fails, &mut self.calls) {
            self.faults = self.faults.saturating_add(1);
            self.desk.fail_read(slot);
            return Err(Failed);
        }
        Ok(self.desk.read(number, slot, buf))
    }

    fn write(&mut self, channel: Channel, bytes: &[u8]) -> Result<usize, Failed>
        requires some { 0 < length bytes.now }
        requires stands { is_writable (standing_of self.old) channel ≡ true }
        ensures count { IfOk result (λ n. (0 < n) × (n ≤ length bytes.now)) }
        ensures standing { standing_of self.new ≡ standing_of self.old }
        ensures cause { HasCause (faults_of self.old) (faults_of self.new) result }
        ensures heard { IsHeard channel (unheard_of self.old) (unheard_of self.new) result }
        ensures told { IsTrue (told_of self.new) → IsTrue (told_of self.old) }
        ensures journal { WhereTold (told_of self.new) (MatchResult result
            (λ n. journal_of self.new ≡ journal_of self.old ++ Did.Gave channel (take n bytes.now) ∷ [])
            (λ _. journal_of self.new ≡ journal_of self.old ++ Did.NotGave channel ∷ [])) }
        ensures left { WhereTold (told_of self.new) (left_of self.new ≡ left_of self.old) }

        ensures exactly { IsErr result ↔ Contains (fails_of self.old) (next_of self.old) }
        ensures piece { IfOk result (λ n. n ≤ piece_of self.old) }
        ensures counts { next_of self.new ≡ min (next_of self.old + 1) (2 ^ 64 - 1) }
        ensures made { (files_of self.new ≡ files_of self.old) × (fails_of self.new ≡ fails_of self.old)
            × (pieces_of self.new ≡ pieces_of self.old) }
    {
        let number = self.calls;
        if is_next_listed(&self.fails, &mut self.calls) {
            self.faults = self.faults.saturating_add(1);
            count_unheard(channel, &mut self.unheard);
            self.desk.fail_write(channel);
            return Err(Failed);
        }
        Ok(self.desk.write(number, channel, bytes))
    }
}
