// The nodes of formulas.

ghost use Rattle.std.specs.Prelude.{◌≡◌, ◌<◌, not, ◌&&◌, ◌||◌, length, IfOk};
ghost use Rattle.std.specs.List.{All, list_all, list_any};
ghost use Rattle.trigger_rules.specs.declared.atom.Atom.TheVariants.{Start, Happens, Holds};
ghost use Rattle.trigger_starts.specs.inner.Rules.{ArgumentsBelow};
ghost use Rattle.trigger_starts.specs.inner.Truth.{value_by};
ghost use Rattle.decision_diagrams.specs.inner.Arena.{Grows, IsNode};
ghost use Rattle.trigger_diagram.specs.inner.Made.{node_at, value_at, AreThere};
ghost use Rattle.trigger_diagram.specs.inner.Truth.{truth, variable_of, Tells};

use decision_diagrams::arena::Arena;
use decision_diagrams::join::{Connective, Pair};
use std::alloc::Global;
use trigger_rules::atom::Atom;
use trigger_starts::rules::Rule;
use tsl_value::ids::EqId;
use tsl_value::memory::NoMemory;

/// The variable of an atom. The start comes first, then the atoms of each equation by its number: that it has an event, and then that
/// this is true.
fn variable_of(atom: Atom) -> u64
    ensures { result ≡ variable_of atom }
{
    match atom {
        Atom::Start => 0,
        Atom::Happens(equation) => 2 * equation.get() as u64 + 1,
        Atom::Holds(equation) => 2 * equation.get() as u64 + 2,
    }
}

/// The node of an equation, and false where none is made.
pub(crate) fn node_at(nodes: &[Option<u64>], equation: EqId) -> u64
    requires { equation < length nodes.now }
    ensures { result ≡ node_at nodes.now equation }
{
    nodes[equation.get() as usize].unwrap_or(0)
}

/// The node of an atom.
fn atom(arena: &mut Arena, atom: Atom) -> Result<u64, NoMemory>
    ensures grows { Grows arena.old arena.new }
    ensures exact { IfOk result (λ n. Tells arena.new n (λ h. h atom)) }
{
    arena.variable(variable_of(atom))
}

/// The node that is true after the start.
fn later(arena: &mut Arena) -> Result<u64, NoMemory>
    ensures grows { Grows arena.old arena.new }
    ensures exact { IfOk result (λ n. Tells arena.new n (λ h. not (h Start))) }
{
    arena.denied(variable_of(Atom::Start))
}

fn both(arena: &mut Arena, alloc: Global, first: u64, second: u64) -> Result<u64, NoMemory>
    requires first { IsNode arena.old first }
    requires second { IsNode arena.old second }
    ensures grows { Grows arena.old arena.new }
    ensures exact { IfOk result (λ n. Tells arena.new n (λ h. truth arena.old first h && truth arena.old second h)) }
{
    arena.join(alloc, Connective::And, Pair { first, second })
}

fn either(arena: &mut Arena, alloc: Global, first: u64, second: u64) -> Result<u64, NoMemory>
    requires first { IsNode arena.old first }
    requires second { IsNode arena.old second }
    ensures grows { Grows arena.old arena.new }
    ensures exact { IfOk result (λ n. Tells arena.new n (λ h. truth arena.old first h || truth arena.old second h)) }
{
    arena.join(alloc, Connective::Or, Pair { first, second })
}

/// The node that is true where those of all of some equations are.
fn all(
    arena: &mut Arena,
    alloc: Global,
    nodes: &[Option<u64>],
    args: &[EqId],
) -> Result<u64, NoMemory>
    requires below { All (λ a. a < length nodes.now) args.now }
    requires there { AreThere arena.old nodes.now }
    ensures grows { Grows arena.old arena.new }
    ensures exact { IfOk result (λ n. Tells arena.new n (λ h. list_all (value_at arena.old nodes.now h) args.now)) }
{
    let mut node = 1;
    for arg in args {
        node = both(arena, alloc, node, node_at(nodes, *arg))?;
    }
    Ok(node)
}

/// The node that is true where that of any of them is.
fn any(
    arena: &mut Arena,
    alloc: Global,
    nodes: &[Option<u64>],
    args: &[EqId],
) -> Result<u64, NoMemory>
    requires below { All (λ a. a < length nodes.now) args.now }
    requires there { AreThere arena.old nodes.now }
    ensures grows { Grows arena.old arena.new }
    ensures exact { IfOk result (λ n. Tells arena.new n (λ h. list_any (value_at arena.old nodes.now h) args.now)) }
{
    let mut node = 0;
    for arg in args {
        node = either(arena, alloc, node, node_at(nodes, *arg))?;
    }
    Ok(node)
}

fn any_and_own(
    arena: &mut Arena,
    alloc: Global,
    nodes: &[Option<u64>],
    args: &[EqId],
    own: EqId,
) -> Result<u64, NoMemory>
    requires below { All (λ a. a < length nodes.now) args.now }
    requires there { AreThere arena.old nodes.now }
    ensures grows { Grows arena.old arena.new }
    ensures exact { IfOk result (λ n. Tells arena.new n (λ h. h (Happens own) && list_any (value_at arena.old nodes.now h) args.now)) }
{
    let any = any(arena, alloc, nodes, args)?;
    let own = atom(arena, Atom::Happens(own))?;
    both(arena, alloc, own, any)
}

fn filter(
    arena: &mut Arena,
    alloc: Global,
    events: u64,
    condition: u64,
    holds: Atom,
) -> Result<u64, NoMemory>
    requires events { IsNode arena.old events }
    requires condition { IsNode arena.old condition }
    ensures grows { Grows arena.old arena.new }
    ensures exact { IfOk result (λ n. Tells arena.new n (λ h. truth arena.old events h && (truth arena.old condition h && h holds))) }
{
    let holds = atom(arena, holds)?;
    let meets = both(arena, alloc, condition, holds)?;
    both(arena, alloc, events, meets)
}

/// The node that is true everywhere, or else that of an atom.
fn unless(arena: &mut Arena, started: bool, own: Atom) -> Result<u64, NoMemory>
    ensures grows { Grows arena.old arena.new }
    ensures exact { IfOk result (λ n. Tells arena.new n (λ h. started || h own)) }
{
    if started { Ok(1) } else { atom(arena, own) }
}

fn last(
    arena: &mut Arena,
    alloc: Global,
    trigger: u64,
    started: bool,
    own: Atom,
) -> Result<u64, NoMemory>
    requires { IsNode arena.old trigger }
    ensures grows { Grows arena.old arena.new }
    ensures exact { IfOk result (λ n. Tells arena.new n (λ h. not (h Start) && (truth arena.old trigger h && (started || h own)))) }
{
    let there = unless(arena, started, own)?;
    let asked = both(arena, alloc, trigger, there)?;
    let later = later(arena)?;
    both(arena, alloc, later, asked)
}

fn delay(arena: &mut Arena, alloc: Global, own: Atom) -> Result<u64, NoMemory>
    ensures grows { Grows arena.old arena.new }
    ensures exact { IfOk result (λ n. Tells arena.new n (λ h. not (h Start) && h own)) }
{
    let own = atom(arena, own)?;
    let later = later(arena)?;
    both(arena, alloc, later, own)
}

/// The node of an equation's formula, by the nodes of those that it needs.
pub(crate) fn formula(
    arena: &mut Arena,
    alloc: Global,
    rule: &Rule,
    own: EqId,
    starts: &[bool],
    nodes: &[Option<u64>],
) -> Result<u64, NoMemory>
    requires one_each { length starts.now ≡ length nodes.now }
    requires below { ArgumentsBelow (length nodes.now) rule.now }
    requires there { AreThere arena.old nodes.now }
    ensures grows { Grows arena.old arena.new }
    ensures exact { IfOk result (λ n. Tells arena.new n (λ h. value_by rule.now own starts.now (value_at arena.old nodes.now h) h)) }
{
    match rule {
        Rule::Never => Ok(0),
        Rule::Start => atom(arena, Atom::Start),
        Rule::Own => atom(arena, Atom::Happens(own)),
        Rule::All { args } => all(arena, alloc, nodes, args.ids()),
        Rule::Any { args } => any(arena, alloc, nodes, args.ids()),
        Rule::AnyAndOwn { args } => any_and_own(arena, alloc, nodes, args.ids(), own),
        Rule::Filter { events, condition } => {
            let holds = Atom::Holds(*condition);
            filter(
                arena,
                alloc,
                node_at(nodes, *events),
                node_at(nodes, *condition),
                holds,
            )
        }
        Rule::Last { values, trigger } => {
            let started = starts[values.get() as usize];
            last(
                arena,
                alloc,
                node_at(nodes, *trigger),
                started,
                Atom::Happens(own),
            )
        }
        Rule::Delay => delay(arena, alloc, Atom::Happens(own)),
    }
}
