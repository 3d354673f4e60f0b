// What a world in memory keeps: its files, what is open, its journal, and what was written.
ghost use Rattle.std.specs.Prelude.{◌≡◌, ◌<◌, ◌≤◌, ◌↔◌, ◌+◌, ◌^◌, true, false, IsTrue, List, [], ◌∷◌, ◌++◌, length, take, MatchResult};
ghost use Rattle.std.specs.Prelude.{IfOk};
ghost use Rattle.tsl_world.specs.inner.Sizes.{AreSizes, size_at};
ghost use Rattle.tsl_world.specs.inner.Sources.{rest_of};
ghost use Rattle.tsl_world.specs.World.{WhereTold, SameElsewhere};
ghost use Rattle.tsl_world.specs.Journal.{given};

use crate::files::Files;
use crate::outside::{Channel, Did, Slot};
use crate::sizes::Sizes;
use std::alloc::Global;
use std::marker::Model;
use tsl_value::bytes::Bytes;
use tsl_value::memory::NoMemory;
use tsl_value::text::Text;

// An open file: its place among the files, and how far it was read.
#[derive(Clone, Copy)]
pub struct Source {
    pub is_open: bool,
    pub file: usize,
    pub place: usize,
}

// One for each slot.
#[derive(Clone, Copy)]
pub struct Sources {
    pub spec: Source,
    pub trace: Source,
    pub state: Source,
    pub code: Source,
}

impl Sources {
    ghost use Rattle.tsl_world.specs.inner.Sources.{source_at, with_source};

    pub fn at(&self, slot: Slot) -> Source
        ensures { result ≡ source_at self.now slot }
    {
        match slot {
            Slot::Spec => self.spec,
            Slot::Trace => self.trace,
            Slot::State => self.state,
            Slot::Code => self.code,
        }
    }

    pub fn set(&mut self, slot: Slot, source: Source)
        ensures { self.new ≡ with_source self.old slot source }
    {
        match slot {
            Slot::Spec => self.spec = source,
            Slot::Trace => self.trace = source,
            Slot::State => self.state = source,
            Slot::Code => self.code = source,
        }
    }
}

// What is left of an open file.
fn rest_of<'a>(files: &'a Files, source: &Source) -> &'a [u8]
    ensures rest { result.now ≡ rest_of files.now source.now }
    ensures fits { source.now.place + length result.now < 2 ^ 64 }
{
    let bytes: &[u8] = match files.get(source.file) {
        Some(file) => file.bytes.as_slice(),
        None => &[],
    };
    if source.place < bytes.len() {
        &bytes[source.place..]
    } else {
        &[]
    }
}

// Reads on in an open file: at most a piece, and at most the buffer.
fn read_on(files: &Files, source: &mut Source, piece: usize, buf: &mut [u8]) -> usize
    requires piece { 0 < piece }
    requires room { 0 < length buf.old }
    ensures count { result ≤ length buf.new }
    ensures piece { result ≤ piece }
    ensures bytes { rest_of files.now source.old ≡ take result buf.new ++ rest_of files.now source.new }
    ensures end { result ≡ 0 ↔ (rest_of files.now source.old ≡ []) }
    ensures open { source.new.is_open ≡ source.old.is_open }
{
    let rest = rest_of(files, source);
    let count = buf.len().min(piece).min(rest.len());
    buf[..count].copy_from_slice(&rest[..count]);
    source.place += count;
    count
}

// Adds an entry to a journal, or stops telling it where the entry or the room for it was not had.
fn note(journal: &mut Vec<Did>, is_told: &mut bool, did: Result<Did, NoMemory>)
    ensures told { IsTrue is_told.new → IsTrue is_told.old }
    ensures journal { IsTrue is_told.new → MatchResult did
        (λ entry. journal.new.items ≡ journal.old.items ++ entry ∷ []) (λ _. ⊥) }
{
    match did {
        Ok(did) => {
            if journal.push(did).is_err() {
                *is_told = false;
            }
        }
        Err(_) => *is_told = false,
    }
}

fn took(alloc: Global, slot: Slot, bytes: &[u8]) -> Result<Did, NoMemory>
    ensures { IfOk result (λ did. did ≡ Did.Took slot bytes.now) }
{
    let bytes = Bytes::from_slice(alloc, bytes)?;
    Ok(Did::Took { slot, bytes })
}

fn gave(alloc: Global, channel: Channel, bytes: &[u8]) -> Result<Did, NoMemory>
    ensures { IfOk result (λ did. did ≡ Did.Gave channel bytes.now) }
{
    let bytes = Bytes::from_slice(alloc, bytes)?;
    Ok(Did::Gave { channel, bytes })
}

fn opened(alloc: Global, slot: Slot, name: &str) -> Result<Did, NoMemory>
    ensures { IfOk result (λ did. did ≡ Did.Opened slot name.now) }
{
    let name = Text::from_str(alloc, name)?;
    Ok(Did::Opened { slot, name })
}

fn not_opened(alloc: Global, slot: Slot, name: &str) -> Result<Did, NoMemory>
    ensures { IfOk result (λ did. did ≡ Did.NotOpened slot name.now) }
{
    let name = Text::from_str(alloc, name)?;
    Ok(Did::NotOpened { slot, name })
}

fn created(alloc: Global, channel: Channel, name: &str) -> Result<Did, NoMemory>
    ensures { IfOk result (λ did. did ≡ Did.Created channel name.now) }
{
    let name = Text::from_str(alloc, name)?;
    Ok(Did::Created { channel, name })
}

fn not_created(alloc: Global, channel: Channel, name: &str) -> Result<Did, NoMemory>
    ensures { IfOk result (λ did. did ≡ Did.NotCreated channel name.now) }
{
    let name = Text::from_str(alloc, name)?;
    Ok(Did::NotCreated { channel, name })
}

/// What both worlds in memory stand on: it does each call and notes it, and never fails. Where it finds no memory
/// for the entry, it stops telling.
#[derive(Drop)]
pub struct Desk {
    alloc: Global,
    files: Files,
    pieces: Sizes,
    is_told: bool,
    journal: Vec<Did>,
    sources: Sources,
    writes_state: bool,
    writes_code: bool,
    out: Bytes,
    err: Bytes,
    state: Bytes,
    code: Bytes,
}

impl Model for Desk {
    ghost use Rattle.std.specs.Prelude.{◌≡◌, ◌<◌, IsTrue};
    ghost use Rattle.tsl_world.specs.Journal.{given};
    ghost use Rattle.tsl_world.specs.inner.Desk.{Kept};
    ghost use Rattle.tsl_world.specs.inner.Sizes.{AreSizes};
    ghost use Rattle.tsl_world.specs.declared.outside.Channel.TheVariants.{Out, Err, State, Code};

    ghost Value = { Kept };

    ghost view = { λ d. record {
      told = d.is_told;
      journal = d.journal.items;
      sources = d.sources;
      writes_state = d.writes_state;
      writes_code = d.writes_code;
      files = d.files;
      pieces = d.pieces;
      out = d.out;
      err = d.err;
      state = d.state;
      code = d.code;
    } };

    ghost invariant = { λ d. AreSizes d.pieces
        × (IsTrue d.is_told → d.out ≡ given Out d.journal.items)
        × (IsTrue d.is_told → d.err ≡ given Err d.journal.items)
        × (IsTrue d.is_told → d.state ≡ given State d.journal.items)
        × (IsTrue d.is_told → d.code ≡ given Code d.journal.items) };
}

impl Desk {
    ghost use Rattle.tsl_world.specs.inner.Desk.{standing_in, left_in};
    ghost use Rattle.tsl_world.specs.inner.Files.{bytes_named, IsAbsent};
    ghost use Rattle.tsl_world.specs.Standing.{at_first, is_open, is_writable, with_slot, with_channel};

    /// These files, of which nothing is open.
    pub fn new(alloc: Global, files: Files, pieces: Sizes) -> Desk
        requires { AreSizes pieces }
        ensures told { result.told ≡ true }
        ensures journal { result.journal ≡ [] }
        ensures standing { standing_in result ≡ at_first }
        ensures made { (result.files ≡ files) × (result.pieces ≡ pieces) }
    {
        let shut = Source {
            is_open: false,
            file: 0,
            place: 0,
        };
        Desk {
            alloc,
            files,
            pieces,
            is_told: true,
            journal: Vec::new(alloc),
            sources: Sources {
                spec: shut,
                trace: shut,
                state: shut,
                code: shut,
            },
            writes_state: false,
            writes_code: false,
            out: Bytes::new(alloc),
            err: Bytes::new(alloc),
            state: Bytes::new(alloc),
            code: Bytes::new(alloc),
        }
    }

    /// Whether the journal is told.
    pub fn is_told(&self) -> bool
        ensures { result ≡ self.now.told }
    {
        self.is_told
    }

    /// What was written to Out, as far as it could be kept.
    pub fn out(&self) -> &[u8]
        ensures out { result.now ≡ self.now.out }
        ensures told { IsTrue self.now.told → result.now ≡ given Channel.Out self.now.journal }
    {
        self.out.as_slice()
    }

    /// What was written to Err, as far as it could be kept.
    pub fn err(&self) -> &[u8]
        ensures err { result.now ≡ self.now.err }
        ensures told { IsTrue self.now.told → result.now ≡ given Channel.Err self.now.journal }
    {
        self.err.as_slice()
    }

    /// What was written to State, as far as it could be kept.
    pub fn state(&self) -> &[u8]
        ensures state { result.now ≡ self.now.state }
        ensures told { IsTrue self.now.told → result.now ≡ given Channel.State self.now.journal }
    {
        self.state.as_slice()
    }

    /// What was written to Code, as far as it could be kept.
    pub fn code(&self) -> &[u8]
        ensures code { result.now ≡ self.now.code }
        ensures told { IsTrue self.now.told → result.now ≡ given Channel.Code self.now.journal }
    {
        self.code.as_slice()
    }

    /// Reads on in a slot, as the call of this number.
    #[tactic(auto, using(crate::proofs::SourceLemmas::at_with, crate::proofs::SourceLemmas::at_with_other))]
    pub fn read(&mut self, call: u64, slot: Slot, buf: &mut [u8]) -> usize
        requires room { 0 < length buf.old }
        ensures count { result ≤ length buf.new }
        ensures piece { result ≤ size_at self.old.pieces call }
        ensures standing { standing_in self.new ≡ standing_in self.old }
        ensures told { IsTrue self.new.told → IsTrue self.old.told }
        ensures journal { WhereTold self.new.told (self.new.journal ≡ self.old.journal ++ Did.Took slot (take result buf.new) ∷ []) }
        ensures bytes { left_in self.old slot ≡ take result buf.new ++ left_in self.new slot }
        ensures end { result ≡ 0 ↔ (left_in self.old slot ≡ []) }
        ensures left { SameElsewhere slot (left_in self.old) (left_in self.new) }
        ensures made { (self.new.files ≡ self.old.files) × (self.new.pieces ≡ self.old.pieces) }
    {
        let mut source = self.sources.at(slot);
        let count = read_on(&self.files, &mut source, self.pieces.at(call), buf);
        self.sources.set(slot, source);
        let did = took(self.alloc, slot, &buf[..count]);
        note(&mut self.journal, &mut self.is_told, did);
        count
    }

    /// Takes as many bytes as a piece has, as the call of this number, and keeps them.
    pub fn write(&mut self, call: u64, channel: Channel, bytes: &[u8]) -> usize
        requires { 0 < length bytes.now }
        ensures some { 0 < result }
        ensures count { result ≤ length bytes.now }
        ensures piece { result ≤ size_at self.old.pieces call }
        ensures standing { standing_in self.new ≡ standing_in self.old }
        ensures told { IsTrue self.new.told → IsTrue self.old.told }
        ensures journal { WhereTold self.new.told (self.new.journal ≡ self.old.journal ++ Did.Gave channel (take result bytes.now) ∷ []) }
        ensures sources { self.new.sources ≡ self.old.sources }
        ensures files { self.new.files ≡ self.old.files }
        ensures made { self.new.pieces ≡ self.old.pieces }
    {
        let count = bytes.len().min(self.pieces.at(call));
        let piece = &bytes[..count];
        let kept = match channel {
            Channel::Out => self.out.append(piece).is_ok(),
            Channel::Err => self.err.append(piece).is_ok(),
            Channel::State => self.state.append(piece).is_ok(),
            Channel::Code => self.code.append(piece).is_ok(),
        };
        let did = gave(self.alloc, channel, piece);
        note(&mut self.journal, &mut self.is_told, did);
        if !kept {
            self.is_told = false;
        }
        count
    }

    /// Whether there is a file of this name.
    #[tactic(auto, using(crate::proofs::FileLemmas::has_place))]
    pub fn has(&self, name: &str) -> bool
        ensures { (result ≡ false) ↔ IsAbsent self.now.files name.now }
    {
        self.files.place_of(name).is_some()
    }

    /// Opens the first file of this name; where there is none, an empty one.
    #[tactic(auto, using(crate::proofs::SourceLemmas::at_with, crate::proofs::SourceLemmas::at_with_other, crate::proofs::FileLemmas::bytes_found))]
    pub fn open(&mut self, slot: Slot, name: &str)
        requires { is_open (standing_in self.old) slot ≡ false }
        ensures standing { standing_in self.new ≡ with_slot (standing_in self.old) slot }
        ensures told { IsTrue self.new.told → IsTrue self.old.told }
        ensures journal { WhereTold self.new.told (self.new.journal ≡ self.old.journal ++ Did.Opened slot name.now ∷ []) }
        ensures opened { left_in self.new slot ≡ bytes_named self.old.files name.now }
        ensures left { SameElsewhere slot (left_in self.old) (left_in self.new) }
        ensures files { self.new.files ≡ self.old.files }
        ensures made { self.new.pieces ≡ self.old.pieces }
    {
        let source = Source {
            is_open: true,
            file: self.files.place_of(name).unwrap_or(self.files.len()),
            place: 0,
        };
        self.sources.set(slot, source);
        let did = opened(self.alloc, slot, name);
        note(&mut self.journal, &mut self.is_told, did);
    }

    /// Notes an opening that failed.
    pub fn fail_open(&mut self, slot: Slot, name: &str)
        ensures standing { standing_in self.new ≡ standing_in self.old }
        ensures told { IsTrue self.new.told → IsTrue self.old.told }
        ensures journal { WhereTold self.new.told (self.new.journal ≡ self.old.journal ++ Did.NotOpened slot name.now ∷ []) }
        ensures sources { self.new.sources ≡ self.old.sources }
        ensures files { self.new.files ≡ self.old.files }
        ensures made { self.new.pieces ≡ self.old.pieces }
    {
        let did = not_opened(self.alloc, slot, name);
        note(&mut self.journal, &mut self.is_told, did);
    }

    /// Makes a file.
    pub fn create(&mut self, channel: Channel, name: &str)
        requires { is_writable (standing_in self.old) channel ≡ false }
        ensures standing { standing_in self.new ≡ with_channel (standing_in self.old) channel }
        ensures told { IsTrue self.new.told → IsTrue self.old.told }
        ensures journal { WhereTold self.new.told (self.new.journal ≡ self.old.journal ++ Did.Created channel name.now ∷ []) }
        ensures sources { self.new.sources ≡ self.old.sources }
        ensures files { self.new.files ≡ self.old.files }
        ensures made { self.new.pieces ≡ self.old.pieces }
    {
        match channel {
            Channel::State => self.writes_state = true,
            Channel::Code => self.writes_code = true,
            _ => {}
        }
        let did = created(self.alloc, channel, name);
        note(&mut self.journal, &mut self.is_told, did);
    }

    /// Notes a creation that failed.
    pub fn fail_create(&mut self, channel: Channel, name: &str)
        ensures standing { standing_in self.new ≡ standing_in self.old }
        ensures told { IsTrue self.new.told → IsTrue self.old.told }
        ensures journal { WhereTold self.new.told (self.new.journal ≡ self.old.journal ++ Did.NotCreated channel name.now ∷ []) }
        ensures sources { self.new.sources ≡ self.old.sources }
        ensures files { self.new.files ≡ self.old.files }
        ensures made { self.new.pieces ≡ self.old.pieces }
    {
        let did = not_created(self.alloc, channel, name);
        note(&mut self.journal, &mut self.is_told, did);
    }

    /// Notes a read that failed.
    pub fn fail_read(&mut self, slot: Slot)
        ensures standing { standing_in self.new ≡ standing_in self.old }
        ensures told { IsTrue self.new.told → IsTrue self.old.told }
        ensures journal { WhereTold self.new.told (self.new.journal ≡ self.old.journal ++ Did.NotTook slot ∷ []) }
        ensures sources { self.new.sources ≡ self.old.sources }
        ensures files { self.new.files ≡ self.old.files }
        ensures made { self.new.pieces ≡ self.old.pieces }
    {
        note(
            &mut self.journal,
            &mut self.is_told,
            Ok(Did::NotTook { slot }),
        );
    }

    /// Notes a write that failed.
    pub fn fail_write(&mut self, channel: Channel)
        ensures standing { standing_in self.new ≡ standing_in self.old }
        ensures told { IsTrue self.new.told → IsTrue self.old.told }
        ensures journal { WhereTold self.new.told (self.new.journal ≡ self.old.journal ++ Did.NotGave channel ∷ []) }
        ensures sources { self.new.sources ≡ self.old.sources }
        ensures files { self.new.files ≡ self.old.files }
        ensures made { self.new.pieces ≡ self.old.pieces }
    {
        note(
            &mut self.journal,
            &mut self.is_told,
            Ok(Did::NotGave { channel }),
        );
    }
}
