// Merges of two arguments.

ghost use Rattle.std.specs.Prelude.{◌≡◌, ◌↔◌, IsTrue};
ghost use Rattle.flat_core.specs.declared.equation.Op.TheVariants as op;
ghost use Rattle.alias_nears.specs.inner.Contents.{IsOtherOfMerge};

use flat_core::equation::{Equation, Op};
use tsl_value::ids::EqId;

/// Whether an operation is a merge.
pub fn is_merge(operation: &Op) -> bool
    ensures { IsTrue result ↔ (operation.now ≡ op.Merge) }
{
    match operation {
        Op::Merge => true,
        _ => false,
    }
}

/// The first of two arguments of a merge of which this is the second, if they differ.
pub fn other_of_merge(equation: &Equation, second: EqId) -> Option<EqId>
    ensures { IsOtherOfMerge equation.now second result }
{
    let arguments = equation.args.ids();
    if !is_merge(&equation.op) || arguments.len() != 2 {
        return None;
    }
    if arguments[1] != second || arguments[0] == second {
        return None;
    }
    Some(arguments[0])
}
