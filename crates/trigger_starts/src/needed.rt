// The equations whose formulas a question needs.

ghost use Rattle.std.specs.Prelude.{◌≡◌, ℕ, ◌<◌, [], length, IfOk, IsTrue};
ghost use Rattle.std.specs.List.{All, Contains};
ghost use Rattle.trigger_starts.specs.inner.Rules.{AreClosed, AreReady, ArgumentsBelow, Marks, UsedMarked, is_marked, used_by};

use crate::rules::Rule;
use std::alloc::Global;
use translation_order::steps::Steps;
use tsl_value::ids::EqId;
use tsl_value::memory::NoMemory;

fn mark(marks: &mut [bool], args: &[EqId])
    requires { All (λ a. a < length marks.old) args.now }
    ensures { Marks (Contains args.now) marks.old marks.new }
{
    for arg in args {
        marks[arg.get() as usize] = true;
    }
}

/// Marks the arguments whose formulas a rule needs.
fn mark_used(marks: &mut [bool], rule: &Rule)
    requires { ArgumentsBelow (length marks.old) rule.now }
    ensures { Marks (Contains (used_by rule.now)) marks.old marks.new }
{
    match rule {
        Rule::Never => {}
        Rule::Start => {}
        Rule::Own => {}
        Rule::All { args } => mark(marks, args.ids()),
        Rule::Any { args } => mark(marks, args.ids()),
        Rule::AnyAndOwn { args } => mark(marks, args.ids()),
        Rule::Filter { events, condition } => mark(marks, &[*events, *condition]),
        Rule::Last { values: _, trigger } => mark(marks, &[*trigger]),
        Rule::Delay => {}
    }
}

/// Marks an equation and all whose formulas it needs.
fn marked(alloc: Global, rules: &[Rule], order: &[u32], a: EqId) -> Result<Vec<bool>, NoMemory>
    requires closed { AreClosed rules.now }
    requires ready { AreReady rules.now [] order.now }
    requires below { a < length rules.now }
    ensures one_each { IfOk result (λ marks. length marks.items ≡ length rules.now) }
    ensures own { IfOk result (λ marks. IsTrue (is_marked marks.items a)) }
    ensures closed { IfOk result (λ marks. (x : ℕ) → Contains order.now x → UsedMarked rules.now marks.items x) }
{
    let mut marks = vec![in alloc; false; rules.len()]?;
    mark(&mut marks, &[a]);
    for index in (0..order.len()).rev() {
        let step = order[index] as usize;
        if marks[step] {
            mark_used(&mut marks, &rules[step]);
        }
    }
    Ok(marks)
}

/// The equations whose formulas an equation needs, and itself, in their order.
pub fn needed(alloc: Global, rules: &[Rule], order: &[u32], a: EqId) -> Result<Steps, NoMemory>
    requires closed { AreClosed rules.now }
    requires ready { AreReady rules.now [] order.now }
    requires there { Contains order.now a }
    ensures ready { IfOk result (λ steps. AreReady rules.now [] steps) }
    ensures there { IfOk result (λ steps. Contains steps a) }
{
    let marks = marked(alloc, rules, order, a)?;
    let mut steps = Steps::new(alloc);
    for step in order {
        if marks[*step as usize] {
            steps.push(*step)?;
        }
    }
    Ok(steps)
}
