// What is reached along carrier edges around an update.

ghost use Rattle.std.specs.Prelude.{◌≡◌, ◌↔◌, ◌<◌, ℕ, List, length, IfOk, OnOk, IsTrue};
ghost use Rattle.flat_core.specs.inner.Marks.{Spread, Spreading};
ghost use Rattle.translation_order.specs.Order.{AreOfSteps};
ghost use Rattle.alias_rules.specs.Roots.{Carries};
ghost use Rattle.alias_rules.specs.Bypass.{PassesOver};
ghost use Rattle.alias_paths.specs.inner.Pairs.{ArePairs};
ghost use Rattle.alias_paths.specs.inner.Search.{marks_of, AreListed, MarkedAll};
ghost use Rattle.alias_nears.specs.inner.Contents.{AreReachedAround, LeadsAround, IsSecondAround, IsPairAround};

use crate::answers::Answers;
use alias_nears::merges::other_of_merge;
use alias_paths::links::Links;
use alias_paths::numbers::Numbers;
use alias_paths::reach::Search;
use flat_core::flat::Flat;
use std::alloc::Global;
use tsl_value::ids::EqId;
use tsl_value::memory::NoMemory;

/// Whether an equation merges this one after another that has an event wherever the update has one.
pub fn passes_over(
    alloc: Global,
    flat: &Flat,
    answers: &Answers,
    update: EqId,
    equation: EqId,
    second: EqId,
) -> Result<bool, NoMemory>
    requires answers { answers.now ≡ flat.now }
    requires update { update < length flat.now.equations }
    requires equation { equation < length flat.now.equations }
    ensures { IfOk result (λ r. IsTrue r ↔ PassesOver flat.now update equation second) }
{
    flat.assert_whole();
    match other_of_merge(flat.equation(equation), second) {
        Some(other) => {
            let implied = answers.implies(alloc, update, other)?;
            Ok(implied)
        }
        None => Ok(false),
    }
}

/// Whether a carrier edge goes around the update.
fn goes_around(
    alloc: Global,
    flat: &Flat,
    answers: &Answers,
    update: EqId,
    edge: (u32, u32),
) -> Result<bool, NoMemory>
    requires answers { answers.now ≡ flat.now }
    requires update { update < length flat.now.equations }
    requires there { edge.1 < length flat.now.equations }
    ensures { IfOk result (λ r. IsTrue r ↔ LeadsAround flat.now update edge.0 edge.1) }
{
    let (first, second) = edge;
    if second == update.get() {
        return Ok(false);
    }
    let over = passes_over(
        alloc,
        flat,
        answers,
        update,
        EqId::new(second),
        EqId::new(first),
    )?;
    Ok(!over)
}

/// Marks the second of a pair that leads around the update.
fn mark_if_around(
    search: &mut Search,
    alloc: Global,
    flat: &Flat,
    answers: &Answers,
    update: EqId,
    edge: (u32, u32),
) -> Result<(), NoMemory>
    requires answers { answers.now ≡ flat.now }
    requires update { update < length flat.now.equations }
    requires one_each { length search.old.marked.items ≡ length flat.now.equations }
    requires there { edge.1 < length flat.now.equations }
    ensures marked { OnOk result (MarkedAll (IsSecondAround flat.now update edge.0 edge.1) (marks_of search.old) (marks_of search.new)) }
    ensures listed { OnOk result (AreListed search.old → AreListed search.new) }
{
    if !goes_around(alloc, flat, answers, update, edge)? {
        return Ok(());
    }
    search.mark(edge.1)?;
    Ok(())
}

/// Marks the second of each pair with this first that leads around the update.
fn mark_around(
    search: &mut Search,
    alloc: Global,
    flat: &Flat,
    answers: &Answers,
    carriers: &Links,
    update: EqId,
    number: u32,
) -> Result<(), NoMemory>
    requires answers { answers.now ≡ flat.now }
    requires update { update < length flat.now.equations }
    requires one_each { length search.old.marked.items ≡ length flat.now.equations }
    requires there { AreOfSteps (length flat.now.equations) carriers.now }
    ensures marked { OnOk result (MarkedAll (IsPairAround flat.now update carriers.now number)
        (marks_of search.old) (marks_of search.new)) }
    ensures listed { OnOk result (AreListed search.old → AreListed search.new) }
{
    let mut next = carriers.after_last(number);
    while next > 0 {
        let place = next - 1;
        let edge = (number, carriers.second(place));
        mark_if_around(search, alloc, flat, answers, update, edge)?;
        next = carriers.after_earlier(place);
    }
    Ok(())
}

/// Follows pairs around the update from all that waits, again until nothing does. What follows on all others has to be marked.
pub(crate) fn spread_around(
    search: &mut Search,
    alloc: Global,
    flat: &Flat,
    answers: &Answers,
    carriers: &Links,
    update: EqId,
) -> Result<(), NoMemory>
    requires answers { answers.now ≡ flat.now }
    requires update { update < length flat.now.equations }
    requires one_each { length search.old.marked.items ≡ length flat.now.equations }
    requires there { AreOfSteps (length flat.now.equations) carriers.now }
    requires goes_on { Spreading (IsPairAround flat.now update carriers.now) (marks_of search.old) (marks_of search.old) }
    ensures spread { OnOk result (Spread (IsPairAround flat.now update carriers.now) (marks_of search.old) (marks_of search.new)) }
    ensures listed { OnOk result (AreListed search.old → AreListed search.new) }
{
    while let Some(number) = search.waiting.pop() {
        mark_around(search, alloc, flat, answers, carriers, update, number)?;
    }
    Ok(())
}

/// What is reached along carrier edges around the update.
pub fn reached_around(
    alloc: Global,
    flat: &Flat,
    answers: &Answers,
    carriers: &Links,
    begins: &Numbers,
    update: EqId,
) -> Result<Numbers, NoMemory>
    requires answers { answers.now ≡ flat.now }
    requires update { update < length flat.now.equations }
    requires carriers { (set : List ℕ) × ArePairs (Carries flat.now set) carriers.now }
    requires one_each { length begins.now ≡ length flat.now.equations }
    ensures one_each { IfOk result (λ r. length r ≡ length begins.now) }
    ensures exact { IfOk result (AreReachedAround flat.now update carriers.now begins.now) }
{
    let mut search = Search::from(alloc, begins)?;
    spread_around(&mut search, alloc, flat, answers, carriers, update)?;
    Ok(Numbers::of(search.marked, search.listed))
}
