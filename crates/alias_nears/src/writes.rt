// The writes that a set of updates has beside those of a smaller one.

ghost use Rattle.std.specs.Prelude.{◌≡◌, ◌&&◌, not, IfOk, OnOk};
ghost use Rattle.flat_core.specs.Members.{is_in};
ghost use Rattle.alias_paths.specs.inner.Kept.{AreUses};
ghost use Rattle.alias_paths.specs.inner.Pairs.{Adds, ArePairs};
ghost use Rattle.alias_nears.specs.inner.Nears.{IsAdded, IsAddedPair};

use alias_paths::pairs::push_if;
use alias_paths::uses::Uses;
use flat_core::flat::Flat;
use flat_core::lists::EqSet;
use std::alloc::Global;
use translation_order::steps::Edges;
use tsl_value::ids::EqId;
use tsl_value::memory::NoMemory;

/// Whether an equation is in a set, but not in a smaller one.
fn is_added(set: &EqSet, smaller: &EqSet, id: EqId) -> bool
    ensures { result ≡ (is_in set.now id && not (is_in smaller.now id)) }
{
    set.contains(id) && !smaller.contains(id)
}

/// Appends the pairs whose second is in the set, but not in a smaller one.
fn push_added(
    pairs: &mut Edges,
    more: &[(u32, u32)],
    set: &EqSet,
    smaller: &EqSet,
) -> Result<(), NoMemory>
    ensures { OnOk result (Adds pairs.old (IsAddedPair more.now set.now smaller.now) pairs.new) }
{
    for (first, second) in more {
        let wanted = is_added(set, smaller, EqId::new(*second));
        push_if(pairs, (*first, *second), wanted)?;
    }
    Ok(())
}

/// The writes by updates of the set that are not in a smaller one.
pub fn added(
    alloc: Global,
    flat: &Flat,
    uses: &Uses,
    set: &EqSet,
    smaller: &EqSet,
) -> Result<Edges, NoMemory>
    requires { AreUses flat.now uses.now }
    ensures { IfOk result (λ a. ArePairs (IsAdded flat.now set.now smaller.now) a) }
{
    let mut added = Edges::new(alloc);
    push_added(&mut added, uses.written.as_slice(), set, smaller)?;
    Ok(added)
}
