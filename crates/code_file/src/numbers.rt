// Numbers and names, written.

ghost use Rattle.std.specs.Prelude.{◌≡◌, ◌<◌, ◌^◌, ◌++◌, length, slice_index, take, IfSome, OnErr, OnOk};
ghost use Rattle.std.specs.List.{flat_map};
ghost use Rattle.code_file.specs.Spelling.{list_bytes, name_bytes, number, optional_name};

use flat_core::lists::EqSet;
use tsl_value::bytes::Bytes;
use tsl_value::ids::EqId;
use tsl_value::memory::NoMemory;
use tsl_value::text::Text;

pub(crate) fn put_number(value: u32, out: &mut Bytes) -> Result<(), NoMemory>
    ensures ok { OnOk result (out.new ≡ out.old ++ number value) }
    ensures err { OnErr result (out.new ≡ out.old) }
{
    out.append(&value.to_be_bytes())
}

/// Appends how many there are.
pub(crate) fn put_count(count: usize, out: &mut Bytes) -> Result<(), NoMemory>
    requires { count < 2 ^ 32 }
    ensures ok { OnOk result (out.new ≡ out.old ++ number count) }
    ensures err { OnErr result (out.new ≡ out.old) }
{
    put_number(count as u32, out)
}

pub(crate) fn put_name(name: &Text, out: &mut Bytes) -> Result<(), NoMemory>
    requires { length name.now < 2 ^ 32 }
    ensures ok { OnOk result (out.new ≡ out.old ++ name_bytes name.now) }
    ensures err { OnErr result (take (length out.old) out.new ≡ out.old) }
{
    put_count(name.len(), out)?;
    out.append(name.as_str().as_bytes())
}

/// Appends a name, or length 0 for none.
pub(crate) fn put_optional_name(name: &Option<Text>, out: &mut Bytes) -> Result<(), NoMemory>
    requires { IfSome name.now (λ name. length name < 2 ^ 32) }
    ensures ok { OnOk result (out.new ≡ out.old ++ optional_name name.now) }
    ensures err { OnErr result (take (length out.old) out.new ≡ out.old) }
{
    match name {
        Some(name) => put_name(name, out),
        None => put_number(0, out),
    }
}

fn put_ids(ids: &[EqId], out: &mut Bytes) -> Result<(), NoMemory>
    ensures ok { OnOk result (out.new ≡ out.old ++ flat_map number ids.now) }
    ensures err { OnErr result (take (length out.old) out.new ≡ out.old) }
{
    for id in ids {
        put_number(id.get(), out)?;
    }
    Ok(())
}

fn put_numbers(numbers: &[u32], out: &mut Bytes) -> Result<(), NoMemory>
    ensures ok { OnOk result (out.new ≡ out.old ++ flat_map number numbers.now) }
    ensures err { OnErr result (take (length out.old) out.new ≡ out.old) }
{
    for value in numbers {
        put_number(*value, out)?;
    }
    Ok(())
}

/// The equation at a place of a set.
fn member_at(set: &EqSet, place: usize) -> EqId
    requires { place < length set.now }
    ensures { result ≡ slice_index set.now place }
{
    match set.get(place) {
        Some(id) => *id,
        None => unreachable!(),
    }
}

fn put_members(set: &EqSet, out: &mut Bytes) -> Result<(), NoMemory>
    ensures ok { OnOk result (out.new ≡ out.old ++ flat_map number set.now) }
    ensures err { OnErr result (take (length out.old) out.new ≡ out.old) }
{
    for place in 0..set.len() {
        put_number(member_at(set, place).get(), out)?;
    }
    Ok(())
}

/// Appends how many arguments there are, and each.
pub(crate) fn put_args(args: &[EqId], out: &mut Bytes) -> Result<(), NoMemory>
    requires { length args.now < 2 ^ 32 }
    ensures ok { OnOk result (out.new ≡ out.old ++ list_bytes args.now) }
    ensures err { OnErr result (take (length out.old) out.new ≡ out.old) }
{
    put_count(args.len(), out)?;
    put_ids(args, out)
}

/// Appends how many members there are, and each.
pub(crate) fn put_set(set: &EqSet, out: &mut Bytes) -> Result<(), NoMemory>
    requires { length set.now < 2 ^ 32 }
    ensures ok { OnOk result (out.new ≡ out.old ++ list_bytes set.now) }
    ensures err { OnErr result (take (length out.old) out.new ≡ out.old) }
{
    put_count(set.len(), out)?;
    put_members(set, out)
}

/// Appends how many steps there are, and each.
pub(crate) fn put_steps(steps: &[u32], out: &mut Bytes) -> Result<(), NoMemory>
    requires { length steps.now < 2 ^ 32 }
    ensures ok { OnOk result (out.new ≡ out.old ++ list_bytes steps.now) }
    ensures err { OnErr result (take (length out.old) out.new ≡ out.old) }
{
    put_count(steps.len(), out)?;
    put_numbers(steps, out)
}
