// What is reached around an update from what was found for a smaller set, without going there again.

ghost use Rattle.std.specs.Prelude.{◌≡◌, ◌<◌, ℕ, List, length, IfOk};
ghost use Rattle.alias_rules.specs.Roots.{Carries};
ghost use Rattle.alias_paths.specs.inner.Pairs.{ArePairs};
ghost use Rattle.alias_nears.specs.inner.Contents.{IsPairAround, AreClosedOn, AreReachedOn};

use crate::answers::Answers;
use crate::around::spread_around;
use alias_nears::search::{mark_each, search_of};
use alias_paths::links::Links;
use alias_paths::numbers::Numbers;
use flat_core::flat::Flat;
use std::alloc::Global;
use tsl_value::ids::EqId;
use tsl_value::memory::NoMemory;

/// What is reached along carrier edges around the update from what was found before and from these.
pub fn reached_on(
    alloc: Global,
    flat: &Flat,
    answers: &Answers,
    carriers: &Links,
    found: &Numbers,
    begins: &Numbers,
    update: EqId,
) -> Result<Numbers, NoMemory>
    requires answers { answers.now ≡ flat.now }
    requires update { update < length flat.now.equations }
    requires carriers { (set : List ℕ) × ArePairs (Carries flat.now set) carriers.now }
    requires one_each { length found.now ≡ length flat.now.equations }
    requires begins { length begins.now ≡ length flat.now.equations }
    requires closed { AreClosedOn (IsPairAround flat.now update carriers.now) found.now begins.now }
    ensures one_each { IfOk result (λ r. length r ≡ length flat.now.equations) }
    ensures exact { IfOk result (AreReachedOn (IsPairAround flat.now update carriers.now) found.now begins.now) }
{
    let mut search = search_of(alloc, found)?;
    mark_each(&mut search, begins)?;
    spread_around(&mut search, alloc, flat, answers, carriers, update)?;
    Ok(Numbers::of(search.marked, search.listed))
}
