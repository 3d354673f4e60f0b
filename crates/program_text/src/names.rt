// The names of operations.

ghost use Rattle.std.specs.Prelude.{◌≡◌};
ghost use Rattle.program_text.specs.Text.{op_name as op_text_name};

use flat_core::equation::Op;

pub(crate) fn op_name(operation: &Op) -> &'static [u8]
    ensures { result.now ≡ op_text_name operation.now }
{
    match operation {
        Op::Input => b"Input",
        Op::Nil => b"Nil",
        Op::Unit => b"Unit",
        Op::Lift {
            body: _,
            strict: true,
        } => b"Lift",
        Op::Lift {
            body: _,
            strict: false,
        } => b"OptLift",
        Op::Any => b"Any",
        Op::Time => b"Time",
        Op::Last => b"Last",
        Op::Delay => b"Delay",
        Op::Merge => b"Merge",
        Op::Filter => b"Filter",
        Op::Pick => b"Pick",
        Op::Empty => b"Empty",
        Op::MapAdd => b"MapAdd",
        Op::MapRemove => b"MapRemove",
        Op::SetAdd => b"SetAdd",
        Op::SetRemove => b"SetRemove",
        Op::QueueAdd => b"QueueAdd",
        Op::QueueTake => b"QueueTake",
    }
}
