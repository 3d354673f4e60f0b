// Kinds as they are printed.

ghost use Rattle.std.specs.Prelude.{◌≡◌, ◌++◌, length, map, take, OnOk, OnErr};
ghost use Rattle.tsl_value.specs.Print.{listed, type_text};
ghost use Rattle.type_check.specs.Kind.{types_of};
ghost use Rattle.type_check.specs.Text.{kind_text};

use crate::fault::Kind;
use tsl_value::bytes::Bytes;
use tsl_value::memory::NoMemory;
use tsl_value::print::print_type;
use type_rules::rule::Family;
use vocabulary::kind::Kind as AggregateKind;

/// All types of a family, with a comma and a blank between them.
fn family_types(family: Family) -> &'static [u8]
    ensures { result.now ≡ listed (map type_text (types_of family)) }
{
    match family {
        Family::Any => b"Unit, Int, Bool, String, Set[Int], Map[Int, Int], Queue[Int]",
        Family::Scalars => b"Unit, Int, Bool, String",
        Family::Of(AggregateKind::Set) => b"Set[Int]",
        Family::Of(AggregateKind::Map) => b"Map[Int, Int]",
        Family::Of(AggregateKind::Queue) => b"Queue[Int]",
    }
}

/// Appends a kind. After out of memory some of it may stand there.
fn put_kind(kind: &Kind, out: &mut Bytes) -> Result<(), NoMemory>
    ensures ok { OnOk result (out.new ≡ out.old ++ kind_text kind.now) }
    ensures err { OnErr result (take (length out.old) out.new ≡ out.old) }
{
    match kind {
        Kind::Stream(of) => {
            out.append(b"Events[")?;
            print_type(*of, out)?;
            out.append(b"]")
        }
        Kind::Value(of) => print_type(*of, out),
        Kind::Optional(of) => {
            out.append(b"Option[")?;
            print_type(*of, out)?;
            out.append(b"]")
        }
        Kind::Function => out.append(b"function"),
        Kind::Literal => out.append(b"literal"),
        Kind::OneOf(family) => {
            out.append(b"one of ")?;
            out.append(family_types(*family))
        }
    }
}

/// Appends a kind as a message has it, or leaves `out` as it was: `Events[Int]` for a stream, `Option[Int]` for an option, `Int` for a
/// value, `function`, `literal`, or `one of` and the types of a family.
pub fn print_kind(kind: &Kind, out: &mut Bytes) -> Result<(), NoMemory>
    ensures ok { OnOk result (out.new ≡ out.old ++ kind_text kind.now) }
    ensures err { OnErr result (out.new ≡ out.old) }
{
    let before = out.len();
    match put_kind(kind, out) {
        Ok(()) => Ok(()),
        Err(none) => {
            out.truncate(before);
            Err(none)
        }
    }
}
