// Registers.

ghost use Rattle.std.specs.Prelude.{◌≡◌, IfOk, OnErr, is_some, not};
ghost use Rattle.cell_reader.specs.inner.Cells.{Cells};
ghost use Rattle.body_eval.specs.inner.Registers.{held};
ghost use Rattle.body_eval.specs.inner.Textless.{IsText};

use tsl_value::ids::Handle;
use tsl_value::memory::NoMemory;
use tsl_value::scalar::Scalar;

/// What stands at an equation in an instant: nothing, a scalar, or an aggregate in its cell.
#[derive(Drop)]
pub enum Register {
    Empty,
    Scalar(Scalar),
    Aggregate(Handle),
}

impl Register {
    /// It holds nothing.
    pub fn is_empty(&self) -> bool
        ensures { (cells : Cells) → is_some (held cells self.now) ≡ not result }
    {
        match self {
            Register::Empty => true,
            Register::Scalar(_) => false,
            Register::Aggregate(_) => false,
        }
    }

    /// An equal register. The copy of an aggregate's names the same cell. Only a text takes memory.
    pub fn copy(&self) -> Result<Register, NoMemory>
        ensures equal { IfOk result (λ r. r ≡ self.now) }
        ensures text { OnErr result ((cells : Cells) → IsText (held cells self.now)) }
    {
        match self {
            Register::Empty => Ok(Register::Empty),
            Register::Scalar(value) => Ok(Register::Scalar(value.copy()?)),
            Register::Aggregate(cell) => Ok(Register::Aggregate(*cell)),
        }
    }
}
