// The flat system.

ghost use Rattle.std.specs.Prelude.{◌≡◌, length, map};
ghost use Rattle.flat_core.specs.Renumbered.{with_new_args, with_new_equation};

use crate::equation::{Equation, Output};
use crate::lists::EqSet;
use crate::reach::reached;
use crate::replacements::Replacements;
use std::alloc::Global;
use std::marker::Model;
use tsl_value::ids::EqId;
use tsl_value::memory::NoMemory;

/// Numbered equations, the outputs, and which equations run. `FlatBuilder::finish` makes it.
///
/// The equations of the outputs run, and with each equation its arguments.
#[derive(Drop)]
pub struct Flat {
    pub(crate) equations: Vec<Equation>,
    pub(crate) outputs: Vec<Output>,
    pub(crate) running: EqSet,
}

impl Model for Flat {
    ghost use Rattle.flat_core.specs.System.{System};
    ghost use Rattle.lift_func.specs.contracts.body.Body as body;
    ghost use Rattle.std.specs.Coded.{codes};

    ghost Value = { System };

    ghost coded = { Prim.hlevel (codes, body.the_row.coded) };

    ghost view = { λ f. record { equations = f.equations.items; outputs = f.outputs.items; running = f.running } };

    ghost use Rattle.flat_core.specs.Complete.{IsFlat};

    ghost invariant = { λ f. IsFlat (record { equations = f.equations.items; outputs = f.outputs.items; running = f.running }) };
}

fn replace_args(equations: &mut [Equation], replaced: &Replacements)
    ensures { equations.new ≡ map (with_new_args replaced.now) equations.old }
{
    for equation in equations.iter_mut() {
        equation.args.replace(replaced);
    }
}

fn replace_outputs(outputs: &mut [Output], replaced: &Replacements)
    ensures { outputs.new ≡ map (with_new_equation replaced.now) outputs.old }
{
    for output in outputs.iter_mut() {
        output.equation = replaced.new_number(output.equation);
    }
}

impl Flat {
    ghost use Rattle.std.specs.Prelude.{◌<◌, ◌≤◌, ◌↔◌, ℕ, All, IfOk, IsTrue};
    ghost use Rattle.std.specs.List.Sorted.{IsStrictlyIncreasing};
    ghost use Rattle.flat_core.specs.Members.{is_in};
    ghost use Rattle.flat_core.specs.Needed.{IsReachedFrom};
    ghost use Rattle.flat_core.specs.System.{equation, runs, OutputsRun, IsProper};
    ghost use Rattle.flat_core.specs.Updates.{is_running_update};
    ghost use Rattle.flat_core.specs.Complete.{IsFlat};
    ghost use Rattle.flat_core.specs.Renumbered.{renumbered, AreReplacements};
    ghost use Rattle.flat_core.specs.declared.limits.TheConstants.{MOST_EQUATIONS};

    /// The number of equations, at most 4,096.
    ///
    /// Its second clause gives callers what every system has.
    pub fn count(&self) -> u32
        ensures count { result ≡ length self.now.equations }
        ensures is_flat { IsFlat self.now }
    {
        self.equations.len() as u32
    }

    /// Asserts that the system is whole, as each is: it is typed, with few equations, and arguments and outputs are there.
    ///
    /// Nothing is done. A caller whose proof needs this of a system says so here.
    pub fn assert_whole(&self)
        ensures few { length self.now.equations ≤ MOST_EQUATIONS }
        ensures is_flat { IsFlat self.now }
    {
        // The invariant is known where a field is used.
        let _ = &self.equations;
    }

    /// The equation of a number.
    pub fn equation(&self, id: EqId) -> &Equation
        requires { id < length self.now.equations }
        ensures { equation self.now id ≡ Some result.now }
    {
        &self.equations[id.get() as usize]
    }

    /// Whether the equation runs.
    pub fn runs(&self, id: EqId) -> bool
        ensures { result ≡ runs self.now id }
    {
        self.running.contains(id)
    }

    /// Whether the equation is an update that runs.
    pub fn is_running_update(&self, id: EqId) -> bool
        requires { id < length self.now.equations }
        ensures { result ≡ is_running_update self.now id }
    {
        self.runs(id) && self.equation(id).op.is_update()
    }

    /// The outputs in the order in which they were added.
    pub fn outputs(&self) -> &[Output]
        ensures { result.now ≡ self.now.outputs }
    {
        &self.outputs
    }

    /// The equations to which arguments lead from these, with other numbers in place of arguments.
    pub fn reached(
        &self,
        alloc: Global,
        replaced: &Replacements,
        starts: &[EqId],
    ) -> Result<EqSet, NoMemory>
        requires replaced { AreReplacements self.now replaced.now }
        requires starts { All (λ i. i < length self.now.equations) starts.now }
        ensures ascending { IfOk result (λ s. IsStrictlyIncreasing s) }
        ensures members { IfOk result (λ s. (i : ℕ)
            → IsTrue (is_in s i) ↔ IsReachedFrom (map (with_new_args replaced.now) self.now.equations) starts.now i) }
    {
        reached(alloc, &self.equations, replaced, starts)
    }

    /// The equations to which arguments lead from these, and these themselves.
    pub fn leading_to(&self, alloc: Global, starts: &[EqId]) -> Result<EqSet, NoMemory>
        requires { All (λ i. i < length self.now.equations) starts.now }
        ensures ascending { IfOk result (λ s. IsStrictlyIncreasing s) }
        ensures members { IfOk result (λ s. (i : ℕ) → IsTrue (is_in s i) ↔ IsReachedFrom self.now.equations starts.now i) }
    {
        let unchanged = Replacements::new(alloc);
        reached(alloc, &self.equations, &unchanged, starts)
    }

    /// The system with other numbers as arguments and at outputs, in which these equations run. All else stays, and no memory is taken.
    ///
    /// An equation's number gives way to that of an equation of the same type.
    pub fn simplified(self, replaced: Replacements, running: EqSet) -> Flat
        requires replaced { AreReplacements self replaced }
        requires outputs_run { OutputsRun (renumbered self replaced running) }
        requires proper { IsProper (renumbered self replaced running) }
        ensures { result ≡ renumbered self replaced running }
    {
        let Flat {
            mut equations,
            mut outputs,
            running: _,
        } = self;
        running.assert_ascending();
        replace_args(&mut equations, &replaced);
        replace_outputs(&mut outputs, &replaced);
        Flat {
            equations,
            outputs,
            running,
        }
    }
}
