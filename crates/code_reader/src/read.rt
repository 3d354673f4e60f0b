// Code files, read by their form.

ghost use Rattle.std.specs.Prelude.{◌≡◌, ◌≢◌, ◌≤◌, ◌++◌, ℕ, List, length, IfErr, IfOk, MatchOption};
ghost use Rattle.code_file.specs.declared.limits.TheConstants.{MOST_CODE_BYTES};
ghost use Rattle.code_file.specs.Form.{IsForm, bare};
ghost use Rattle.code_file.specs.Spelling.{mark, spelling};
ghost use Rattle.code_reader.specs.Fault.{IsFormFault};
ghost use Rattle.code_reader.specs.Parts.{code_in};
ghost use Rattle.code_reader.specs.inner.Whole.{AnswersForm, HasSpelled};

use crate::joined::are_joined;
use crate::parts::{Parts, read_parts};
use code_file::fault::CodeFault;
use code_file::limits::MOST_CODE_BYTES;
use code_file::write::MARK;
use std::alloc::Global;

/// The bytes after the mark of a code file.
fn after_mark(bytes: &[u8]) -> Option<&[u8]>
    ensures { MatchOption result ((rest : List ℕ) → bytes.now ≢ mark ++ rest) (λ rest. bytes.now ≡ mark ++ rest.now) }
{
    bytes.strip_prefix(MARK)
}

/// The parts that stand after the mark, and nothing after them.
fn read_whole(alloc: Global, bytes: &[u8]) -> Result<Parts, CodeFault>
    ensures ok { IfOk result (λ p. HasSpelled bytes.now (code_in p)) }
    ensures fault { IfErr result (AnswersForm bytes.now) }
{
    let (parts, rest) = read_parts(alloc, bytes)?;
    if !rest.is_empty() {
        return Err(CodeFault::WrongForm);
    }
    if are_joined(alloc, &parts)? {
        Ok(parts)
    } else {
        Err(CodeFault::WrongForm)
    }
}

/// The parts of the code that bytes spell.
///
/// `TooLong` comes exactly where there are more than 2^30 bytes, and else `WrongForm` exactly where no code of the form of code files has
/// these bytes as its spelling.
pub fn read_form(alloc: Global, bytes: &[u8]) -> Result<Parts, CodeFault>
    ensures form { IfOk result (λ p. IsForm (code_in p)) }
    ensures bare { IfOk result (λ p. bare (code_in p) ≡ code_in p) }
    ensures spelled { IfOk result (λ p. bytes.now ≡ spelling (code_in p)) }
    ensures short { IfOk result (λ p. length bytes.now ≤ MOST_CODE_BYTES) }
    ensures fault { IfErr result (IsFormFault bytes.now) }
{
    if bytes.len() > MOST_CODE_BYTES {
        return Err(CodeFault::TooLong);
    }
    match after_mark(bytes) {
        Some(rest) => read_whole(alloc, rest),
        None => Err(CodeFault::WrongForm),
    }
}
