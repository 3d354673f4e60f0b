// The files of a world in memory, and the numbers of the calls that fail there.
ghost use Rattle.std.specs.Prelude.{◌≡◌, [], ◌∷◌, ◌++◌, length, OnOk, OnErr, slice_get, option_map, IsTrue, ◌↔◌, Contains};
ghost use Rattle.tsl_world.specs.inner.Files.{place_named};

use std::alloc::Global;
use std::marker::Model;
use tsl_value::bytes::Bytes;
use tsl_value::memory::NoMemory;
use tsl_value::text::Text;

/// A file: its name, and its bytes.
#[derive(Drop)]
pub struct NamedFile {
    pub name: Text,
    pub bytes: Bytes,
}

/// Files, in order. Of two with one name the first is meant.
#[derive(Drop)]
pub struct Files {
    items: Vec<NamedFile>,
}

impl Model for Files {
    ghost use Rattle.std.specs.Prelude.{List};
    ghost use Rattle.tsl_world.specs.declared.files.NamedFile.{NamedFile};

    ghost Value = { List NamedFile };

    ghost view = { λ f. f.items.items };
}

impl Files {
    /// No files.
    pub fn new(alloc: Global) -> Self
        ensures { result ≡ [] }
    {
        Files {
            items: Vec::new(alloc),
        }
    }

    /// Appends a file.
    pub fn push(&mut self, item: NamedFile) -> Result<(), NoMemory>
        ensures ok { OnOk result (self.new ≡ self.old ++ item ∷ []) }
        ensures err { OnErr result (self.new ≡ self.old) }
    {
        self.items.push(item)?;
        Ok(())
    }

    /// The number of files.
    pub fn len(&self) -> usize
        ensures { result ≡ length self.now }
    {
        self.items.len()
    }

    /// Lends the file at a place, counted from 0.
    pub fn get(&self, place: usize) -> Option<&NamedFile>
        ensures { option_map (λ file. file.now) result ≡ slice_get self.now place }
    {
        self.items.get(place)
    }

    // The place of the first file of a name.
    pub(crate) fn place_of(&self, name: &str) -> Option<usize>
        ensures { result ≡ place_named self.now name.now }
    {
        self.items
            .iter()
            .position(|file| file.name.as_str() == name)
    }
}

/// The numbers of calls, each counted from 0 over all calls of a world.
#[derive(Drop)]
pub struct Calls {
    items: Vec<u64>,
}

impl Model for Calls {
    ghost use Rattle.std.specs.Prelude.{ℕ, List};

    ghost Value = { List ℕ };

    ghost view = { λ c. c.items.items };
}

impl Calls {
    /// No numbers.
    pub fn new(alloc: Global) -> Self
        ensures { result ≡ [] }
    {
        Calls {
            items: Vec::new(alloc),
        }
    }

    /// Appends a number.
    pub fn push(&mut self, item: u64) -> Result<(), NoMemory>
        ensures ok { OnOk result (self.new ≡ self.old ++ item ∷ []) }
        ensures err { OnErr result (self.new ≡ self.old) }
    {
        self.items.push(item)?;
        Ok(())
    }

    /// How many numbers are listed.
    pub fn len(&self) -> usize
        ensures { result ≡ length self.now }
    {
        self.items.len()
    }

    /// Lends the number at a place, counted from 0.
    pub fn get(&self, place: usize) -> Option<&u64>
        ensures { option_map (λ number. number.now) result ≡ slice_get self.now place }
    {
        self.items.get(place)
    }

    // Whether a number is listed.
    pub(crate) fn contains(&self, number: u64) -> bool
        ensures { IsTrue result ↔ Contains self.now number }
    {
        self.items.contains(&number)
    }
}
