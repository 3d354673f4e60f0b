// Making equations within their limits.

ghost use Rattle.std.specs.Prelude.{◌≡◌, ◌+◌, ◌-◌, ◌<◌, ◌≤◌, ◌^◌, List, [], ◌∷◌, ◌++◌, None, length, is_ok, if◌then◌else◌, IfOk, OnOk};
ghost use Rattle.std.specs.Prelude.{IfErr, OnErr};
ghost use Rattle.stream_constructs.specs.Limits.{refusal, IsRefusal};
ghost use Rattle.stream_constructs.specs.Made.{with_equations, stream_of};
ghost use Rattle.stream_constructs.specs.Equations as equations;

use crate::construct::Stream;
use crate::limits::MOST_UPDATES;
use flat_core::builder::FlatBuilder;
use flat_core::equation::{Equation, Op, Output};
use flat_core::flat::Flat;
use flat_core::limits::MOST_EQUATIONS;
use flat_core::lists::Args;
use std::alloc::{AllocError, AllocFailed, Global};
use std::marker::Model;
use tsl_value::ids::EqId;
use tsl_value::memory::NoMemory;
use tsl_value::place::Place;
use tsl_value::scalar::ValueType;
use tsl_value::text::Text;

/// Why no further equation is made.
#[derive(Clone, Copy, PartialEq, Eq, Debug)]
pub enum MakeFault {
    /// The equation here would be number 4,096.
    TooManyEquations { place: Place },
    /// The update here would be the 257th.
    TooManyUpdates { place: Place },
    Memory,
}

impl From<NoMemory> for MakeFault {
    ghost use Rattle.std.specs.Prelude.{◌≡◌};
    ghost use Rattle.stream_constructs.specs.declared.maker.MakeFault.TheVariants as fault;

    ghost from_gives = { λ _ f. f ≡ fault.Memory };

    fn from(_error: NoMemory) -> MakeFault {
        MakeFault::Memory
    }
}

impl From<AllocError> for MakeFault {
    ghost use Rattle.std.specs.Prelude.{◌≡◌};
    ghost use Rattle.stream_constructs.specs.declared.maker.MakeFault.TheVariants as fault;

    ghost from_gives = { λ _ f. f ≡ fault.Memory };

    fn from(_error: AllocError) -> MakeFault {
        MakeFault::Memory
    }
}

impl<T: Drop> From<AllocFailed<T>> for MakeFault {
    ghost use Rattle.std.specs.Prelude.{◌≡◌};
    ghost use Rattle.stream_constructs.specs.declared.maker.MakeFault.TheVariants as fault;

    ghost from_gives = { λ _ f. f ≡ fault.Memory };

    fn from(_error: AllocFailed<T>) -> MakeFault {
        MakeFault::Memory
    }
}

/// Makes the equations of constructs, one after the other. Contracts see it as the system that is made.
/// Where a construct of several equations is refused, the first of them may stand, and nothing else has changed.
#[derive(Drop)]
pub struct Maker {
    pub(crate) alloc: Global,
    builder: FlatBuilder,
    updates: u32,
}

impl Model for Maker {
    ghost use Rattle.std.specs.Prelude.{◌≡◌, None};
    ghost use Rattle.std.specs.Coded.{codes};
    ghost use Rattle.lift_func.specs.contracts.body.Body as body;
    ghost use Rattle.flat_core.specs.System.{System};
    ghost use Rattle.stream_constructs.specs.Limits.{refusal, update_count};

    ghost Value = { System };

    ghost coded = { Prim.hlevel (codes, body.the_row.coded) };

    ghost view = { λ m. m.builder };

    ghost invariant = { λ m. (refusal m.builder.equations ≡ None) × (m.updates ≡ update_count m.builder.equations) };
}

impl Maker {
    ghost use Rattle.flat_core.specs.System.{with_name};
    ghost use Rattle.flat_core.specs.Complete.{IsComplete, IsFlat};
    ghost use Rattle.flat_core.specs.Needed.{RunsNeeded};

    /// No equation and no output.
    pub fn new(alloc: Global) -> Maker
        ensures equations { result.equations ≡ [] }
        ensures outputs { result.outputs ≡ [] }
        ensures running { result.running ≡ [] }
    {
        Maker {
            alloc,
            builder: FlatBuilder::new(alloc),
            updates: 0,
        }
    }

    /// The number of equations.
    pub fn count(&self) -> u32
        ensures count { result ≡ length self.now.equations }
        ensures few { result ≤ MOST_EQUATIONS }
        ensures within { refusal self.now.equations ≡ None }
    {
        self.builder.count()
    }

    /// Adds an equation after the others and gives its number, the next one.
    pub fn add(&mut self, equation: Equation) -> Result<EqId, MakeFault>
        ensures id { IfOk result (λ id. id ≡ length self.old.equations) }
        ensures made { OnOk result (self.new ≡ with_equations self.old (equation ∷ [])) }
        ensures refused { IfErr result (IsRefusal (self.old.equations ++ equation ∷ [])) }
        ensures unchanged { OnErr result (self.new ≡ self.old) }
    {
        let place = equation.place;
        if self.builder.count() == MOST_EQUATIONS {
            return Err(MakeFault::TooManyEquations { place });
        }
        if !equation.op.is_update() {
            return Ok(self.builder.add(equation)?);
        }
        if self.updates == MOST_UPDATES {
            return Err(MakeFault::TooManyUpdates { place });
        }
        let id = self.builder.add(equation)?;
        self.updates += 1;
        Ok(id)
    }

    /// Adds an equation without a name.
    pub(crate) fn make(
        &mut self,
        place: Place,
        op: Op,
        args: Args,
        of: ValueType,
    ) -> Result<Stream, MakeFault>
        ensures id { IfOk result (λ s. s.id ≡ length self.old.equations) }
        ensures stream { IfOk result (λ s. s ≡ stream_of self.old (equations.equation place op args of ∷ []) of) }
        ensures made { OnOk result (self.new ≡ with_equations self.old (equations.equation place op args of ∷ [])) }
        ensures refused { IfErr result (IsRefusal (self.old.equations ++ equations.equation place op args of ∷ [])) }
        ensures err { OnErr result (self.new ≡ self.old) }
    {
        let id = self.add(Equation {
            op,
            args,
            of,
            place,
            name: None,
        })?;
        Ok(Stream { id, of })
    }

    /// Names the last equation, if there is one.
    pub fn name_last(&mut self, name: Text)
        ensures { self.new ≡ with_name self.old (length self.old.equations - 1) name }
    {
        let count = self.builder.count();
        if count > 0 {
            self.builder.set_name(EqId::new(count - 1), name);
        }
    }

    /// Adds an output after the others.
    pub fn add_output(&mut self, output: Output) -> Result<(), NoMemory>
        requires { length self.old.outputs < 2 ^ 31 }
        ensures { self.new ≡ (if is_ok result then record self.old { outputs = self.old.outputs ++ output ∷ [] } else self.old) }
    {
        self.builder.add_output(output)
    }

    /// The system, in which those equations run that the outputs need. After `NoMemory` the maker is gone.
    pub fn finish(self) -> Result<Flat, NoMemory>
        requires { IsComplete self }
        ensures equations { IfOk result (λ f. f.equations ≡ self.equations) }
        ensures outputs { IfOk result (λ f. f.outputs ≡ self.outputs) }
        ensures is_flat { IfOk result (λ f. IsFlat f) }
        ensures needed { IfOk result (λ f. RunsNeeded f) }
    {
        self.builder.finish()
    }
}
