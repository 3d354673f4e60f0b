// What a monitor keeps, apart from it.

ghost use Rattle.std.specs.Prelude.{◌≡◌, ◌∷◌, [], ◌++◌, length, slice_get, OnErr, OnOk};
ghost use Rattle.std.specs.Option.{option_copied};

use aggregate_store::content::Content;
use std::alloc::Global;
use std::marker::Model;
use tsl_value::ids::EqId;
use tsl_value::memory::NoMemory;
use tsl_value::scalar::Scalar;
use tsl_value::time::Time;

/// An event of the open time.
#[derive(Drop)]
pub struct OpenEvent {
    pub equation: EqId,
    pub value: Scalar,
}

/// The last event of an equation that is kept: none, a scalar, or an aggregate by the number of its cell.
#[derive(Drop)]
pub enum SavedRegister {
    Empty,
    Scalar(Scalar),
    Cell(u64),
}

/// What a monitor keeps where no step is left to run.
#[derive(Drop)]
pub struct MonitorState {
    /// All times below this are closed.
    pub bound: u64,
    /// So many instants have run.
    pub instants: u64,
    /// The events at the bound, by equation.
    pub open_events: OpenEvents,
    /// How many elements each running update has copied, by equation.
    pub ledger: Numbers,
    /// The last event of each first argument of a running `last`, by equation.
    pub registers: SavedRegisters,
    /// The aggregates, numbered in the order in which the registers name them first.
    pub cells: Cells,
    /// When each running delay is due, by equation.
    pub pending: PendingTimes,
}

/// A list of open events.
#[derive(Drop)]
pub struct OpenEvents {
    list: Vec<OpenEvent>,
}

impl Model for OpenEvents {
    ghost use Rattle.std.specs.Prelude.{List};
    ghost use Rattle.monitor_state.specs.declared.state.OpenEvent as declared;

    ghost Value = { List declared.OpenEvent };

    ghost view = { λ e. e.list.items };
}

impl OpenEvents {
    /// No event.
    pub fn new(alloc: Global) -> OpenEvents
        ensures { result ≡ [] }
    {
        OpenEvents {
            list: Vec::new(alloc),
        }
    }

    /// Appends an event.
    pub fn push(&mut self, item: OpenEvent) -> Result<(), NoMemory>
        ensures ok { OnOk result (self.new ≡ self.old ++ item ∷ []) }
        ensures err { OnErr result (self.new ≡ self.old) }
    {
        self.list.push(item)?;
        Ok(())
    }

    /// The number of events.
    pub fn len(&self) -> usize
        ensures { result ≡ length self.now }
    {
        self.list.len()
    }

    /// The event at a place counted from 0. `None` exactly where the place is not below the length.
    pub fn get(&self, place: usize) -> Option<&OpenEvent>
        ensures { option_copied result ≡ slice_get self.now place }
    {
        self.list.get(place)
    }

    /// All of them, in order.
    pub fn as_slice(&self) -> &[OpenEvent]
        ensures { result.now ≡ self.now }
    {
        self.list.as_slice()
    }
}

/// A list of last events.
#[derive(Drop)]
pub struct SavedRegisters {
    list: Vec<SavedRegister>,
}

impl Model for SavedRegisters {
    ghost use Rattle.std.specs.Prelude.{List};
    ghost use Rattle.monitor_state.specs.declared.state.SavedRegister as declared;

    ghost Value = { List declared.SavedRegister };

    ghost view = { λ r. r.list.items };
}

impl SavedRegisters {
    /// No register.
    pub fn new(alloc: Global) -> SavedRegisters
        ensures { result ≡ [] }
    {
        SavedRegisters {
            list: Vec::new(alloc),
        }
    }

    /// Appends a register.
    pub fn push(&mut self, item: SavedRegister) -> Result<(), NoMemory>
        ensures ok { OnOk result (self.new ≡ self.old ++ item ∷ []) }
        ensures err { OnErr result (self.new ≡ self.old) }
    {
        self.list.push(item)?;
        Ok(())
    }

    /// The number of registers.
    pub fn len(&self) -> usize
        ensures { result ≡ length self.now }
    {
        self.list.len()
    }

    /// The register at a place counted from 0. `None` exactly where the place is not below the length.
    pub fn get(&self, place: usize) -> Option<&SavedRegister>
        ensures { option_copied result ≡ slice_get self.now place }
    {
        self.list.get(place)
    }

    /// All of them, in order.
    pub fn as_slice(&self) -> &[SavedRegister]
        ensures { result.now ≡ self.now }
    {
        self.list.as_slice()
    }
}

/// A list of aggregates.
#[derive(Drop)]
pub struct Cells {
    list: Vec<Content>,
}

impl Model for Cells {
    ghost use Rattle.std.specs.Prelude.{List};
    ghost use Rattle.aggregate_store.specs.declared.content.Content as declared;

    ghost Value = { List declared.Content };

    ghost view = { λ c. c.list.items };
}

impl Cells {
    /// No aggregate.
    pub fn new(alloc: Global) -> Cells
        ensures { result ≡ [] }
    {
        Cells {
            list: Vec::new(alloc),
        }
    }

    /// Appends an aggregate.
    pub fn push(&mut self, item: Content) -> Result<(), NoMemory>
        ensures ok { OnOk result (self.new ≡ self.old ++ item ∷ []) }
        ensures err { OnErr result (self.new ≡ self.old) }
    {
        self.list.push(item)?;
        Ok(())
    }

    /// The number of aggregates.
    pub fn len(&self) -> usize
        ensures { result ≡ length self.now }
    {
        self.list.len()
    }

    /// The aggregate at a place counted from 0. `None` exactly where the place is not below the length.
    pub fn get(&self, place: usize) -> Option<&Content>
        ensures { option_copied result ≡ slice_get self.now place }
    {
        self.list.get(place)
    }

    /// All of them, in order.
    pub fn as_slice(&self) -> &[Content]
        ensures { result.now ≡ self.now }
    {
        self.list.as_slice()
    }
}

/// A list of times at which delays are due, if they are pending.
#[derive(Drop)]
pub struct PendingTimes {
    list: Vec<Option<Time>>,
}

impl Model for PendingTimes {
    ghost use Rattle.std.specs.Prelude.{List, Option, ℕ};

    ghost Value = { List (Option ℕ) };

    ghost view = { λ p. p.list.items };
}

impl PendingTimes {
    /// No delay.
    pub fn new(alloc: Global) -> PendingTimes
        ensures { result ≡ [] }
    {
        PendingTimes {
            list: Vec::new(alloc),
        }
    }

    /// Appends a delay.
    pub fn push(&mut self, item: Option<Time>) -> Result<(), NoMemory>
        ensures ok { OnOk result (self.new ≡ self.old ++ item ∷ []) }
        ensures err { OnErr result (self.new ≡ self.old) }
    {
        self.list.push(item)?;
        Ok(())
    }

    /// The number of delays.
    pub fn len(&self) -> usize
        ensures { result ≡ length self.now }
    {
        self.list.len()
    }

    /// The delay at a place counted from 0. `None` exactly where the place is not below the length.
    pub fn get(&self, place: usize) -> Option<&Option<Time>>
        ensures { option_copied result ≡ slice_get self.now place }
    {
        self.list.get(place)
    }

    /// All of them, in order.
    pub fn as_slice(&self) -> &[Option<Time>]
        ensures { result.now ≡ self.now }
    {
        self.list.as_slice()
    }
}

/// A list of counts.
#[derive(Drop)]
pub struct Numbers {
    list: Vec<u64>,
}

impl Model for Numbers {
    ghost use Rattle.std.specs.Prelude.{List, ℕ};

    ghost Value = { List ℕ };

    ghost view = { λ n. n.list.items };
}

impl Numbers {
    /// No number.
    pub fn new(alloc: Global) -> Numbers
        ensures { result ≡ [] }
    {
        Numbers {
            list: Vec::new(alloc),
        }
    }

    /// Appends a number.
    pub fn push(&mut self, item: u64) -> Result<(), NoMemory>
        ensures ok { OnOk result (self.new ≡ self.old ++ item ∷ []) }
        ensures err { OnErr result (self.new ≡ self.old) }
    {
        self.list.push(item)?;
        Ok(())
    }

    /// The number of numbers.
    pub fn len(&self) -> usize
        ensures { result ≡ length self.now }
    {
        self.list.len()
    }

    /// The number at a place counted from 0. `None` exactly where the place is not below the length.
    pub fn get(&self, place: usize) -> Option<u64>
        ensures { result ≡ slice_get self.now place }
    {
        self.list.get(place).copied()
    }

    /// All of them, in order.
    pub fn as_slice(&self) -> &[u64]
        ensures { result.now ≡ self.now }
    {
        self.list.as_slice()
    }
}
