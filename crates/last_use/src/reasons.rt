// Lists of updates that do not happen in place, each with its reason.

ghost use Rattle.std.specs.Prelude.{◌≡◌, ◌∷◌, [], ◌++◌, length, slice_get, is_ok, if◌then◌else◌};
ghost use Rattle.std.specs.Option.{option_copied};

use alias_nears::reason::Reason;
use std::alloc::Global;
use std::marker::Model;
use tsl_value::ids::EqId;
use tsl_value::memory::NoMemory;

/// A list of updates, each with the reason why it does not happen in place. Contracts see the list of pairs.
#[derive(Drop)]
pub struct Reasons {
    pairs: Vec<(EqId, Reason)>,
}

impl Model for Reasons {
    ghost use Rattle.std.specs.Prelude.{List, ℕ};
    ghost use Rattle.alias_nears.specs.declared.reason.Reason as declared;

    ghost Value = { List (ℕ × declared.Reason) };

    ghost view = { λ r. r.pairs.items };
}

impl Reasons {
    /// No update.
    pub fn new(alloc: Global) -> Reasons
        ensures { result ≡ [] }
    {
        Reasons {
            pairs: Vec::new(alloc),
        }
    }

    /// Appends an update with its reason.
    pub fn push(&mut self, pair: (EqId, Reason)) -> Result<(), NoMemory>
        ensures { self.new ≡ (if is_ok result then self.old ++ pair ∷ [] else self.old) }
    {
        self.pairs.push(pair)?;
        Ok(())
    }

    /// The number of updates.
    pub fn len(&self) -> usize
        ensures { result ≡ length self.now }
    {
        self.pairs.len()
    }

    /// The update at a place counted from 0, with its reason, if there is one.
    pub fn get(&self, place: usize) -> Option<&(EqId, Reason)>
        ensures { option_copied result ≡ slice_get self.now place }
    {
        self.pairs.get(place)
    }

    /// All updates in order, with their reasons.
    pub fn as_slice(&self) -> &[(EqId, Reason)]
        ensures { result.now ≡ self.now }
    {
        self.pairs.as_slice()
    }
}
