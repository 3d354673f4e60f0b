// Lists of pairs that grow.

ghost use Rattle.std.specs.Prelude.{◌≡◌, ◌++◌, map, IfOk, OnOk};
ghost use Rattle.alias_paths.specs.inner.Pairs.{Adds, IsWanted, AreTurned};

use std::alloc::Global;
use translation_order::steps::Edges;
use tsl_value::memory::NoMemory;

/// Appends a pair if it is wanted.
pub fn push_if(pairs: &mut Edges, pair: (u32, u32), wanted: bool) -> Result<(), NoMemory>
    ensures { OnOk result (Adds pairs.old (IsWanted wanted pair.0 pair.1) pairs.new) }
{
    if wanted {
        pairs.push(pair)?;
    }
    Ok(())
}

/// Appends all of these pairs.
pub fn push_all(pairs: &mut Edges, more: &[(u32, u32)]) -> Result<(), NoMemory>
    ensures { OnOk result (pairs.new ≡ pairs.old ++ more.now) }
{
    for pair in more {
        pairs.push(*pair)?;
    }
    Ok(())
}

/// The pairs with first and second in each other's place.
pub fn turned(alloc: Global, pairs: &[(u32, u32)]) -> Result<Edges, NoMemory>
    ensures { IfOk result (λ t. AreTurned pairs.now t) }
{
    let mut turned = Edges::new(alloc);
    for (first, second) in pairs {
        turned.push((*second, *first))?;
    }
    Ok(turned)
}
