// What runs.

ghost use Rattle.std.specs.Prelude.{ℕ, List, IfOk};
ghost use Rattle.tessla_cli.specs.inner.RunPhases.{IsLoadedAs};

use crate::ending::{Ending, no_code, refused};
use code_check::read::read_code;
use command_words::command::Origin;
use flat_compiler::compile::Compiled;
use register_code::code::Code;
use spec_compiler::compile::compile;
use std::alloc::Global;
use tsl_value::memory::NoMemory;

/// What comes of a file that is to run.
#[derive(Drop)]
pub enum Loaded {
    /// This code runs.
    Runs(Code),
    /// Nothing does, and the program ends so.
    Stops(Ending),
}

/// What comes of the bytes of a specification.
fn compiled(alloc: Global, source: &[u8]) -> Result<Loaded, NoMemory>
    ensures { IfOk result (λ loaded. (name : List ℕ) → IsLoadedAs (Origin.Spec name) source.now loaded) }
{
    match compile(alloc, source) {
        Ok(compiled) => {
            let Compiled { code, reasons: _ } = compiled;
            Ok(Loaded::Runs(code))
        }
        Err(fault) => Ok(Loaded::Stops(refused(fault)?)),
    }
}

/// What comes of the bytes of a code file, whoever wrote it.
fn read(alloc: Global, bytes: &[u8]) -> Result<Loaded, NoMemory>
    ensures { IfOk result (λ loaded. (name : List ℕ) → IsLoadedAs (Origin.Code name) bytes.now loaded) }
{
    match read_code(alloc, bytes) {
        Ok(code) => Ok(Loaded::Runs(code)),
        Err(fault) => Ok(Loaded::Stops(no_code(fault)?)),
    }
}

/// What comes of the bytes of a file that is to run.
pub fn load(alloc: Global, from: &Origin, bytes: &[u8]) -> Result<Loaded, NoMemory>
    ensures { IfOk result (IsLoadedAs from.now bytes.now) }
{
    match from {
        Origin::Spec(_) => compiled(alloc, bytes),
        Origin::Code(_) => read(alloc, bytes),
    }
}
