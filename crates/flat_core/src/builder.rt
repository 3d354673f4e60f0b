// Making a flat system.

ghost use Rattle.std.specs.Prelude.{◌≡◌, ◌<◌, ◌≤◌, ◌^◌, [], ◌∷◌, ◌++◌, length, is_ok, if◌then◌else◌, IfOk};
ghost use Rattle.flat_core.specs.declared.limits.TheConstants.{MOST_EQUATIONS};

use crate::equation::{Equation, Output};
use crate::flat::Flat;
use crate::lists::Args;
use crate::reach::needed;
use std::alloc::Global;
use std::marker::Model;
use tsl_value::ids::EqId;
use tsl_value::memory::NoMemory;
use tsl_value::text::Text;

/// A flat system that is being made. Contracts see it as a system of which nothing runs yet.
#[derive(Drop)]
pub struct FlatBuilder {
    alloc: Global,
    equations: Vec<Equation>,
    outputs: Vec<Output>,
}

impl Model for FlatBuilder {
    ghost use Rattle.std.specs.Prelude.{[], length, ◌≤◌, ◌^◌};
    ghost use Rattle.flat_core.specs.System.{System};
    ghost use Rattle.flat_core.specs.declared.limits.TheConstants.{MOST_EQUATIONS};
    ghost use Rattle.lift_func.specs.contracts.body.Body as body;
    ghost use Rattle.std.specs.Coded.{codes};

    ghost Value = { System };

    ghost coded = { Prim.hlevel (codes, body.the_row.coded) };

    ghost view = { λ b. record { equations = b.equations.items; outputs = b.outputs.items; running = [] } };

    ghost invariant = { λ b. (length b.equations.items ≤ MOST_EQUATIONS) × (length b.outputs.items ≤ 2 ^ 31) };
}

impl FlatBuilder {
    ghost use Rattle.flat_core.specs.System.{with_args, with_name};
    ghost use Rattle.flat_core.specs.Complete.{IsComplete, IsFlat};
    ghost use Rattle.flat_core.specs.Needed.{RunsNeeded};

    /// No equation and no output.
    pub fn new(alloc: Global) -> FlatBuilder
        ensures equations { result.equations ≡ [] }
        ensures outputs { result.outputs ≡ [] }
        ensures running { result.running ≡ [] }
    {
        FlatBuilder {
            alloc,
            equations: Vec::new(alloc),
            outputs: Vec::new(alloc),
        }
    }

    /// The number of equations.
    pub fn count(&self) -> u32
        ensures count { result ≡ length self.now.equations }
        ensures few { result ≤ MOST_EQUATIONS }
    {
        self.equations.len() as u32
    }

    /// Adds an equation and gives its number, the next one. Its arguments may be numbers that are not made yet.
    pub fn add(&mut self, equation: Equation) -> Result<EqId, NoMemory>
        requires { length self.old.equations < MOST_EQUATIONS }
        ensures id { IfOk result (λ id. id ≡ length self.old.equations) }
        ensures after { self.new
            ≡ (if is_ok result then record self.old { equations = self.old.equations ++ equation ∷ [] } else self.old) }
    {
        let id = EqId::new(self.equations.len() as u32);
        self.equations.push(equation)?;
        Ok(id)
    }

    /// Replaces the arguments of an equation.
    pub fn set_args(&mut self, id: EqId, args: Args)
        requires { id < length self.old.equations }
        ensures { self.new ≡ with_args self.old id args }
    {
        self.equations[id.get() as usize].args = args;
    }

    /// Names an equation.
    pub fn set_name(&mut self, id: EqId, name: Text)
        requires { id < length self.old.equations }
        ensures { self.new ≡ with_name self.old id name }
    {
        self.equations[id.get() as usize].name = Some(name);
    }

    /// Adds an output after the others.
    pub fn add_output(&mut self, output: Output) -> Result<(), NoMemory>
        requires { length self.old.outputs < 2 ^ 31 }
        ensures { self.new ≡ (if is_ok result then record self.old { outputs = self.old.outputs ++ output ∷ [] } else self.old) }
    {
        self.outputs.push(output)?;
        Ok(())
    }

    /// The system, in which those equations run that the outputs need. After `NoMemory` the builder is gone.
    ///
    /// `Flat::count` tells what else the system has, by `IsFlat`.
    pub fn finish(self) -> Result<Flat, NoMemory>
        requires { IsComplete self }
        ensures equations { IfOk result (λ f. f.equations ≡ self.equations) }
        ensures outputs { IfOk result (λ f. f.outputs ≡ self.outputs) }
        ensures is_flat { IfOk result (λ f. IsFlat f) }
        ensures needed { IfOk result (λ f. RunsNeeded f) }
    {
        let FlatBuilder {
            alloc,
            equations,
            outputs,
        } = self;
        let running = needed(alloc, &equations, &outputs)?;
        Ok(Flat {
            equations,
            outputs,
            running,
        })
    }
}
