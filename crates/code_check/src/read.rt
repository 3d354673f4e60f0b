// Code, read from bytes.

ghost use Rattle.std.specs.Prelude.{IfErr, IfOk};
ghost use Rattle.code_check.specs.Checked.{IsChecked};
ghost use Rattle.code_check.specs.Read.{IsReadFault, SpellCode};

use crate::check::checked;
use code_file::fault::CodeFault;
use code_reader::read::read_form;
use register_code::code::Code;
use std::alloc::Global;

/// Reads the code that bytes spell, whoever wrote them.
///
/// They are refused exactly where one of these holds, with the first: they are too long; they spell no code; an equation breaks arity or
/// types, or runs while an argument of it does not, with the least such equation; its system is not well-formed; its plan is not fine.
pub fn read_code(alloc: Global, bytes: &[u8]) -> Result<Code, CodeFault>
    ensures spelled { IfOk result (SpellCode bytes.now) }
    ensures checked { IfOk result IsChecked }
    ensures fault { IfErr result (IsReadFault bytes.now) }
{
    let parts = read_form(alloc, bytes)?;
    checked(alloc, parts)
}
