// Sets of numbers below a count.

ghost use Rattle.std.specs.Prelude.{◌≡◌, ◌<◌, ◌≤◌, ℕ, length, replicate, false, IfOk, OnOk, IsTrue};
ghost use Rattle.std.specs.List.Sorted.{IsStrictlyIncreasing};
ghost use Rattle.flat_core.specs.inner.Marks.{has_mark};
ghost use Rattle.flat_core.specs.Members.{is_in};
ghost use Rattle.flat_core.specs.declared.limits.TheConstants.{MOST_EQUATIONS};
ghost use Rattle.translation_order.specs.Order.{AreOfSteps};
ghost use Rattle.alias_paths.specs.inner.Marking.{AreJust, AddsMarks, IsChosen, HasMarkedSecond, HasMarkedFirst};
ghost use Rattle.alias_paths.specs.inner.Search.{AreMarkedIn};

use flat_core::lists::EqSet;
use std::alloc::Global;
use std::marker::Model;
use tsl_value::ids::EqId;
use tsl_value::memory::NoMemory;

/// A mark for each number below a count, and a list of the marked ones, so that few of many are gone through fast. Contracts see the
/// marks.
#[derive(Drop)]
pub struct Numbers {
    marks: Vec<bool>,
    listed: Vec<u32>,
}

impl Model for Numbers {
    ghost use Rattle.std.specs.Prelude.{Bool, List};

    ghost Value = { List Bool };

    ghost view = { λ n. n.marks.items };

    ghost use Rattle.alias_paths.specs.inner.Search.{AreMarkedIn};

    ghost invariant = { λ n. AreMarkedIn n.marks.items n.listed.items };
}

impl Numbers {
    /// None of so many numbers.
    pub fn none(alloc: Global, count: usize) -> Result<Numbers, NoMemory>
        ensures { IfOk result (λ n. n ≡ replicate count false) }
    {
        Ok(Numbers {
            marks: vec![in alloc; false; count]?,
            listed: Vec::new(alloc),
        })
    }

    /// The marked numbers, as they are listed.
    pub fn of(marks: Vec<bool>, listed: Vec<u32>) -> Numbers
        requires { AreMarkedIn marks.items listed.items }
        ensures { result ≡ marks.items }
    {
        Numbers { marks, listed }
    }

    /// The count below which they are.
    pub fn count(&self) -> usize
        ensures { result ≡ length self.now }
    {
        self.marks.len()
    }

    /// The mark of each number.
    pub fn marks(&self) -> &[bool]
        ensures { result.now ≡ self.now }
    {
        &self.marks
    }

    /// The marked numbers, in any order.
    pub fn listed(&self) -> &[u32]
        ensures { AreMarkedIn self.now result.now }
    {
        &self.listed
    }

    /// Whether a number is marked.
    pub fn has(&self, number: u32) -> bool
        requires { number < length self.now }
        ensures { result ≡ has_mark self.now number }
    {
        self.marks[number as usize]
    }

    /// Marks a number if it is wanted.
    pub fn mark_if(&mut self, number: u32, wanted: bool) -> Result<(), NoMemory>
        requires { number < length self.old }
        ensures { OnOk result (AddsMarks self.old (IsChosen wanted number) self.new) }
    {
        let index = number as usize;
        if wanted && !self.marks[index] {
            self.listed.push(number)?;
            self.marks[index] = true;
        }
        Ok(())
    }
}

/// So many numbers of which this is marked, if it is wanted.
pub fn one_of(alloc: Global, count: usize, number: u32, wanted: bool) -> Result<Numbers, NoMemory>
    requires { number < count }
    ensures { IfOk result (AreJust count (IsChosen wanted number)) }
{
    let mut one = Numbers::none(alloc, count)?;
    one.mark_if(number, wanted)?;
    Ok(one)
}

/// The firsts of all pairs whose second is marked.
pub fn firsts(alloc: Global, pairs: &[(u32, u32)], seconds: &Numbers) -> Result<Numbers, NoMemory>
    requires { AreOfSteps (length seconds.now) pairs.now }
    ensures { IfOk result (AreJust (length seconds.now) (HasMarkedSecond pairs.now seconds.now)) }
{
    let mut firsts = Numbers::none(alloc, seconds.count())?;
    for (first, second) in pairs {
        firsts.mark_if(*first, seconds.has(*second))?;
    }
    Ok(firsts)
}

/// Marks the second of each pair whose first is marked.
pub fn mark_seconds(
    marked: &mut Numbers,
    pairs: &[(u32, u32)],
    firsts: &Numbers,
) -> Result<(), NoMemory>
    requires pairs { AreOfSteps (length marked.old) pairs.now }
    requires one_each { length firsts.now ≡ length marked.old }
    ensures { OnOk result (AddsMarks marked.old (HasMarkedFirst pairs.now firsts.now) marked.new) }
{
    for (first, second) in pairs {
        marked.mark_if(*second, firsts.has(*first))?;
    }
    Ok(())
}

/// The marked numbers as a set of equations.
pub fn set_of(alloc: Global, marked: &Numbers) -> Result<EqSet, NoMemory>
    requires { length marked.now ≤ MOST_EQUATIONS }
    ensures ascending { IfOk result (λ s. IsStrictlyIncreasing s) }
    ensures members { IfOk result (λ s. (i : ℕ) → is_in s i ≡ has_mark marked.now i) }
{
    let mut set = EqSet::new(alloc);
    let marks = marked.marks();
    for index in 0..marks.len() {
        if marks[index] {
            set.push(EqId::new(index as u32))?;
        }
    }
    Ok(set)
}
