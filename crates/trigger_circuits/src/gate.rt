// The gates of one formula.

ghost use Rattle.std.specs.Prelude.{◌≡◌, ◌+◌, ◌*◌, ◌<◌, ◌⊎◌, map, length, IfOk, IsFalse, IsTrue};
ghost use Rattle.std.specs.List.{All, AllByRecursion};
ghost use Rattle.gate_circuits.specs.Circuit.{IsOn};
ghost use Rattle.trigger_starts.specs.inner.Rules.{ArgumentsBelow, HasSome};
ghost use Rattle.trigger_circuits.specs.inner.Circuits.{AddsGate, AreThere, IsBegun, TrueOn, gate_at};

use gate_circuits::circuit::{Circuit, Gate, Inputs};
use std::alloc::Global;
use trigger_starts::rules::Rule;
use tsl_value::ids::EqId;
use tsl_value::memory::NoMemory;

/// The leaf that says whether an equation has an event.
fn happens(x: EqId) -> usize
    ensures { result ≡ 2 * x }
{
    2 * x.get() as usize
}

/// The leaf that says whether it has the event true.
fn holds(x: EqId) -> usize
    ensures { result ≡ 2 * x + 1 }
{
    2 * x.get() as usize + 1
}

/// The gates of some equations.
fn inputs(alloc: Global, gates: &[usize], args: &[EqId]) -> Result<Inputs, NoMemory>
    requires { All (λ a. a < length gates.now) args.now }
    ensures { IfOk result (λ i. i ≡ map (gate_at gates.now) args.now) }
{
    let mut inputs = Inputs::new(alloc);
    for arg in args {
        inputs.push(gates[arg.get() as usize])?;
    }
    Ok(inputs)
}

/// Adds a gate that is never on.
fn add_never(alloc: Global, circuit: &mut Circuit, count: usize) -> Result<usize, NoMemory>
    requires { IsBegun count circuit.old }
    ensures { IfOk result (λ n. AddsGate count circuit.old circuit.new n (λ leaves. ⊥)) }
{
    let inputs = Inputs::new(alloc);
    circuit.push(Gate::Any { inputs })
}

/// Adds a gate that is always on.
fn add_always(alloc: Global, circuit: &mut Circuit, count: usize) -> Result<usize, NoMemory>
    requires { IsBegun count circuit.old }
    ensures { IfOk result (λ n. AddsGate count circuit.old circuit.new n (λ leaves. Unit {0})) }
{
    let inputs = Inputs::new(alloc);
    circuit.push(Gate::All { inputs })
}

/// Adds a gate that is on where the gates of all of some equations are.
fn add_all(
    alloc: Global,
    circuit: &mut Circuit,
    gates: &[usize],
    args: &[EqId],
) -> Result<usize, NoMemory>
    requires begun { IsBegun (length gates.now) circuit.old }
    requires there { AreThere gates.now circuit.old }
    requires below { All (λ a. a < length gates.now) args.now }
    ensures { IfOk result (λ n. AddsGate (length gates.now) circuit.old circuit.new n (λ leaves.
        AllByRecursion (λ a. IsOn circuit.old leaves (gate_at gates.now a)) args.now)) }
{
    let inputs = inputs(alloc, gates, args)?;
    circuit.push(Gate::All { inputs })
}

/// Adds a gate that is on where the gate of any of some equations is.
fn add_any(
    alloc: Global,
    circuit: &mut Circuit,
    gates: &[usize],
    args: &[EqId],
) -> Result<usize, NoMemory>
    requires begun { IsBegun (length gates.now) circuit.old }
    requires there { AreThere gates.now circuit.old }
    requires below { All (λ a. a < length gates.now) args.now }
    ensures { IfOk result (λ n. AddsGate (length gates.now) circuit.old circuit.new n (λ leaves.
        HasSome (λ a. IsOn circuit.old leaves (gate_at gates.now a)) args.now)) }
{
    let inputs = inputs(alloc, gates, args)?;
    circuit.push(Gate::Any { inputs })
}

/// Adds a gate that is on where a leaf and the gates of all of some equations are.
fn add_with_leaf(
    alloc: Global,
    circuit: &mut Circuit,
    gates: &[usize],
    args: &[EqId],
    leaf: usize,
) -> Result<usize, NoMemory>
    requires begun { IsBegun (length gates.now) circuit.old }
    requires there { AreThere gates.now circuit.old }
    requires below { All (λ a. a < length gates.now) args.now }
    requires leaf { leaf < 2 * length gates.now }
    ensures { IfOk result (λ n. AddsGate (length gates.now) circuit.old circuit.new n (λ leaves.
        AllByRecursion (λ a. IsOn circuit.old leaves (gate_at gates.now a)) args.now × IsTrue (leaves leaf))) }
{
    let mut inputs = inputs(alloc, gates, args)?;
    inputs.push(leaf)?;
    circuit.push(Gate::All { inputs })
}

/// Adds a gate that is on where a leaf and the gate of any of some equations are.
fn add_any_with_leaf(
    alloc: Global,
    circuit: &mut Circuit,
    gates: &[usize],
    args: &[EqId],
    leaf: usize,
) -> Result<usize, NoMemory>
    requires begun { IsBegun (length gates.now) circuit.old }
    requires there { AreThere gates.now circuit.old }
    requires below { All (λ a. a < length gates.now) args.now }
    requires leaf { leaf < 2 * length gates.now }
    ensures { IfOk result (λ n. AddsGate (length gates.now) circuit.old circuit.new n (λ leaves.
        IsTrue (leaves leaf) × HasSome (λ a. IsOn circuit.old leaves (gate_at gates.now a)) args.now)) }
{
    let any = add_any(alloc, circuit, gates, args)?;
    let mut inputs = Inputs::new(alloc);
    inputs.push(leaf)?;
    inputs.push(any)?;
    circuit.push(Gate::All { inputs })
}

/// Adds the gate of a last value: at 0 there is none.
fn add_last(
    alloc: Global,
    circuit: &mut Circuit,
    gates: &[usize],
    own: EqId,
    started: bool,
    trigger: EqId,
    at_zero: bool,
) -> Result<usize, NoMemory>
    requires begun { IsBegun (length gates.now) circuit.old }
    requires there { AreThere gates.now circuit.old }
    requires own { own < length gates.now }
    requires trigger { trigger < length gates.now }
    ensures { IfOk result (λ n. AddsGate (length gates.now) circuit.old circuit.new n (λ leaves.
        IsFalse at_zero × IsOn circuit.old leaves (gate_at gates.now trigger) × (IsTrue started ⊎ IsTrue (leaves (2 * own))))) }
{
    if at_zero {
        add_never(alloc, circuit, gates.len())
    } else if started {
        Ok(gates[trigger.get() as usize])
    } else {
        add_with_leaf(alloc, circuit, gates, &[trigger], happens(own))
    }
}

/// Adds the gate of an equation's formula, at 0 or after it, by those of its arguments.
pub(crate) fn add(
    alloc: Global,
    circuit: &mut Circuit,
    gates: &[usize],
    starts: &[bool],
    rule: &Rule,
    own: EqId,
    at_zero: bool,
) -> Result<usize, NoMemory>
    requires begun { IsBegun (length gates.now) circuit.old }
    requires there { AreThere gates.now circuit.old }
    requires one_each { length starts.now ≡ length gates.now }
    requires own { own < length gates.now }
    requires below { ArgumentsBelow (length gates.now) rule.now }
    ensures { IfOk result (λ n. AddsGate (length gates.now) circuit.old circuit.new n (λ leaves.
        TrueOn at_zero rule.now own starts.now circuit.old gates.now leaves)) }
{
    match rule {
        Rule::Never => add_never(alloc, circuit, gates.len()),
        Rule::Start => {
            if at_zero {
                add_always(alloc, circuit, gates.len())
            } else {
                add_never(alloc, circuit, gates.len())
            }
        }
        Rule::Own => Ok(happens(own)),
        Rule::All { args } => add_all(alloc, circuit, gates, args.ids()),
        Rule::Any { args } => add_any(alloc, circuit, gates, args.ids()),
        Rule::AnyAndOwn { args } => add_any_with_leaf(
            alloc,
            circuit,
            gates,
            args.ids(),
            happens(own),
        ),
        Rule::Filter { events, condition } => {
            add_with_leaf(
                alloc,
                circuit,
                gates,
                &[*events, *condition],
                holds(*condition),
            )
        }
        Rule::Last { values, trigger } => {
            let started = starts[values.get() as usize];
            add_last(alloc, circuit, gates, own, started, *trigger, at_zero)
        }
        Rule::Delay => {
            if at_zero {
                add_never(alloc, circuit, gates.len())
            } else {
                Ok(happens(own))
            }
        }
    }
}
