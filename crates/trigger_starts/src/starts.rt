// Which equations start.

ghost use Rattle.std.specs.Prelude.{◌≡◌, ℕ, ◌<◌, ◌↔◌, [], length, IfOk, IsTrue};
ghost use Rattle.std.specs.List.{All, list_all, list_any};
ghost use Rattle.trigger_starts.specs.inner.Kept.{AreFiring, AreStarts, IsOrder, StartsBy};
ghost use Rattle.trigger_starts.specs.inner.Rules.{AreClosed, AreReady, ArgumentsBelow, is_marked};
ghost use Rattle.trigger_starts.specs.inner.Truth.{assignment_of, value_by};

use crate::atoms::Atoms;
use crate::gather::gather;
use crate::rules::Rule;
use std::alloc::Global;
use tsl_value::ids::EqId;
use tsl_value::memory::NoMemory;

/// Whether all of some equations are marked.
fn all(marks: &[bool], args: &[EqId]) -> bool
    requires { All (λ a. a < length marks.now) args.now }
    ensures { result ≡ list_all (is_marked marks.now) args.now }
{
    for arg in args {
        if !marks[arg.get() as usize] {
            return false;
        }
    }
    true
}

/// Whether any of them is.
fn any(marks: &[bool], args: &[EqId]) -> bool
    requires { All (λ a. a < length marks.now) args.now }
    ensures { result ≡ list_any (is_marked marks.now) args.now }
{
    for arg in args {
        if marks[arg.get() as usize] {
            return true;
        }
    }
    false
}

/// An assignment in which the same is said of all atoms but the start.
#[derive(Clone, Copy)]
pub struct Given {
    pub start: bool,
    pub others: bool,
}

/// Whether an equation's formula is true in an assignment, by its marked arguments, whose formulas are.
fn fires(rule: &Rule, given: &Given, starts: &[bool], marks: &[bool]) -> bool
    requires one_each { length starts.now ≡ length marks.now }
    requires below { ArgumentsBelow (length marks.now) rule.now }
    ensures { (x : ℕ) → result ≡ value_by rule.now x starts.now (is_marked marks.now) (assignment_of given.now) }
{
    match rule {
        Rule::Never => false,
        Rule::Start => given.start,
        Rule::Own => given.others,
        Rule::All { args } => all(marks, args.ids()),
        Rule::Any { args } => any(marks, args.ids()),
        Rule::AnyAndOwn { args } => given.others && any(marks, args.ids()),
        Rule::Filter { events, condition } => {
            marks[events.get() as usize] && marks[condition.get() as usize] && given.others
        }
        Rule::Last { values, trigger } => {
            let is_there = starts[values.get() as usize] || given.others;
            !given.start && marks[trigger.get() as usize] && is_there
        }
        Rule::Delay => !given.start && given.others,
    }
}

/// The equations whose formulas are true in an assignment, where some equations start.
pub fn firing(
    alloc: Global,
    rules: &[Rule],
    starts: &[bool],
    order: &[u32],
    given: Given,
) -> Result<Vec<bool>, NoMemory>
    requires one_each { length starts.now ≡ length rules.now }
    requires closed { AreClosed rules.now }
    requires ready { AreReady rules.now [] order.now }
    ensures one_each { IfOk result (λ marks. length marks.items ≡ length rules.now) }
    ensures exact { IfOk result (λ marks. AreFiring rules.now starts.now order.now (assignment_of given) marks.items) }
{
    let mut marks = vec![in alloc; false; rules.len()]?;
    for step in order {
        let index = *step as usize;
        marks[index] = fires(&rules[index], &given, starts, &marks);
    }
    Ok(marks)
}

/// Whether an equation starts, by the atoms of its formula at 0 and whether that is true where nothing but the start is.
fn is_starting(atoms: &Atoms, fires: bool) -> bool
    ensures { IsTrue result ↔ StartsBy atoms.now fires }
{
    atoms.are_few() && fires
}

/// Which equations start. Their formulas at 0 need no last value, and the more is true the more of them are: so it is enough to look
/// where nothing but the start is true.
pub fn starts(alloc: Global, rules: &[Rule], order: &[u32]) -> Result<Vec<bool>, NoMemory>
    requires closed { AreClosed rules.now }
    requires ordered { IsOrder rules.now order.now }
    ensures one_each { IfOk result (λ starts. length starts.items ≡ length rules.now) }
    ensures exact { IfOk result (λ starts. AreStarts rules.now starts.items) }
{
    let none = vec![in alloc; false; rules.len()]?;
    let atoms = gather(alloc, rules, &none, order, true)?;
    let given = Given {
        start: true,
        others: false,
    };
    let firing = firing(alloc, rules, &none, order, given)?;
    let mut starts = Vec::new(alloc);
    for index in 0..rules.len() {
        starts.push(is_starting(&atoms[index], firing[index]))?;
    }
    Ok(starts)
}
