// Lists of scalars and of pairs of them, which contracts see as such lists.

ghost use Rattle.std.specs.Prelude.{◌≡◌, ◌∷◌, [], ◌++◌, length, slice_get, OnErr, OnOk};
ghost use Rattle.std.specs.Option.{option_copied};

use std::alloc::Global;
use std::marker::Model;
use tsl_value::memory::NoMemory;
use tsl_value::scalar::Scalar;

/// A list of scalars.
#[derive(Drop)]
pub struct Scalars {
    list: Vec<Scalar>,
}

impl Model for Scalars {
    ghost use Rattle.std.specs.Prelude.{List};
    ghost use Rattle.tsl_value.specs.declared.scalar.Scalar as declared;

    ghost Value = { List declared.Scalar };

    ghost view = { λ s. s.list.items };
}

impl Scalars {
    /// No scalar.
    pub fn new(alloc: Global) -> Scalars
        ensures { result ≡ [] }
    {
        Scalars {
            list: Vec::new(alloc),
        }
    }

    /// Appends a scalar.
    pub fn push(&mut self, item: Scalar) -> Result<(), NoMemory>
        ensures ok { OnOk result (self.new ≡ self.old ++ item ∷ []) }
        ensures err { OnErr result (self.new ≡ self.old) }
    {
        self.list.push(item)?;
        Ok(())
    }

    /// The number of scalars.
    pub fn len(&self) -> usize
        ensures { result ≡ length self.now }
    {
        self.list.len()
    }

    /// The scalar at a place counted from 0. `None` exactly where the place is not below the length.
    pub fn get(&self, place: usize) -> Option<&Scalar>
        ensures { option_copied result ≡ slice_get self.now place }
    {
        self.list.get(place)
    }

    /// All of them, in order.
    pub fn as_slice(&self) -> &[Scalar]
        ensures { result.now ≡ self.now }
    {
        self.list.as_slice()
    }
}

/// A list of pairs of scalars: the keys of a map, each with its value.
#[derive(Drop)]
pub struct Pairs {
    list: Vec<(Scalar, Scalar)>,
}

impl Model for Pairs {
    ghost use Rattle.std.specs.Prelude.{List};
    ghost use Rattle.tsl_value.specs.declared.scalar.Scalar as declared;

    ghost Value = { List (declared.Scalar × declared.Scalar) };

    ghost view = { λ p. p.list.items };
}

impl Pairs {
    /// No pair.
    pub fn new(alloc: Global) -> Pairs
        ensures { result ≡ [] }
    {
        Pairs {
            list: Vec::new(alloc),
        }
    }

    /// Appends a pair.
    pub fn push(&mut self, item: (Scalar, Scalar)) -> Result<(), NoMemory>
        ensures ok { OnOk result (self.new ≡ self.old ++ item ∷ []) }
        ensures err { OnErr result (self.new ≡ self.old) }
    {
        self.list.push(item)?;
        Ok(())
    }

    /// The number of pairs.
    pub fn len(&self) -> usize
        ensures { result ≡ length self.now }
    {
        self.list.len()
    }

    /// The pair at a place counted from 0. `None` exactly where the place is not below the length.
    pub fn get(&self, place: usize) -> Option<&(Scalar, Scalar)>
        ensures { option_copied result ≡ slice_get self.now place }
    {
        self.list.get(place)
    }

    /// All of them, in order.
    pub fn as_slice(&self) -> &[(Scalar, Scalar)]
        ensures { result.now ≡ self.now }
    {
        self.list.as_slice()
    }
}
