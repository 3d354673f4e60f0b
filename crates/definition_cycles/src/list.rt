// Lists that grow.

ghost use Rattle.std.specs.Prelude.{◌≡◌, ◌++◌, OnOk, OnErr};
ghost use Rattle.std.specs.Option.{option_to_list};

use tsl_value::memory::NoMemory;

/// Appends an item, if there is one.
pub(crate) fn push_some<T: Drop>(list: &mut Vec<T>, item: Option<T>) -> Result<(), NoMemory>
    ensures added { OnOk result (list.new.items ≡ list.old.items ++ option_to_list item) }
    ensures err { OnErr result (list.new.items ≡ list.old.items) }
{
    if let Some(value) = item {
        list.push(value)?;
    }
    Ok(())
}
