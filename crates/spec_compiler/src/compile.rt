// The compiler.

ghost use Rattle.std.specs.Prelude.{IfOk, IfErr};
ghost use Rattle.alias_rules.specs.Fine.{IsTakenPlan};
ghost use Rattle.last_use.specs.Reasons.{AreReasons};
ghost use Rattle.source_rules.specs.Source.{IsRefused};
ghost use Rattle.compiled_meaning.specs.Compiled.{CompilesSomething};
ghost use Rattle.compiled_meaning.specs.inner.Ready.{IsReady};

use flat_compiler::compile::{Compiled, compile_flat};
use source_rules::fault::SpecFault;
use spec_reader::read::{Specification, read_spec};
use std::alloc::Global;

/// Compiles the bytes of a specification: its flat system is simplified, and the code is made by the plan that is taken, in which each
/// update of the listed set happens in place. They are refused exactly where they are none that can be run, unless memory runs out.
pub fn compile(alloc: Global, source: &[u8]) -> Result<Compiled, SpecFault>
    ensures system { IfOk result (λ c. CompilesSomething source.now c.code.system) }
    ensures taken { IfOk result (λ c. IsTakenPlan c.code.system c.code.in_place c.code.order) }
    ensures reasons { IfOk result (λ c. AreReasons c.code.system c.code.in_place c.reasons) }
    ensures ready { IfOk result (λ c. IsReady c.code.system) }
    ensures fault { IfErr result (IsRefused source.now) }
{
    let Specification { flat, order } = read_spec(alloc, source)?;
    let compiled = compile_flat(alloc, flat, &order)?;
    Ok(compiled)
}
