// The steps of an instant, in order.

ghost use Rattle.std.specs.Prelude.{◌≡◌, ◌≢◌, ◌<◌, ◌≤◌, ◌++◌, ◌∷◌, ◌&&◌, ◌||◌, ℕ, [], Bool, All, IfOk, OnOk, IsFalse, IsTrue, MatchOption, None, Option, Some};
ghost use Rattle.std.specs.Prelude.{false, true, if◌then◌else◌, is_some, length, slice_get, slice_index_or, slice_set, take};
ghost use Rattle.std.specs.List.{list_any};
ghost use Rattle.agenda.specs.inner.Marks.{has_mark};
ghost use Rattle.alias_rules.specs.Fine.{IsFinePlan};
ghost use Rattle.tsl_value.specs.declared.scalar.ValueType.{ValueType};
ghost use Rattle.lift_func.specs.declared.fault.FaultKind.{FaultKind};
ghost use Rattle.body_eval.specs.inner.Registers.{HoldsLive};
ghost use Rattle.flat_core.specs.Complete.{IsFlat};
ghost use Rattle.flat_core.specs.Text.{event_line};
ghost use Rattle.flat_core.specs.inner.Arity.{HasArity};
ghost use Rattle.flat_core.specs.Members.{is_in};
ghost use Rattle.register_machine.specs.Content.{print_of};
ghost use Rattle.step_uses.specs.Uses.{row};
ghost use Rattle.monitor_run.specs.inner.Here.{TakesTyped, hands_on, is_blocked_here, is_given_op, is_marked};
ghost use Rattle.monitor_run.specs.inner.Instant.{IsBarred, HasPrinted, HasRunAll, HasRunOne, IsLeastRoot, SameBeside, name_of};
ghost use Rattle.flat_core.specs.declared.equation.Equation.{Equation};
ghost use Rattle.flat_core.specs.System.{equation};
ghost use Rattle.monitor_run.specs.inner.Actions.{AreActions, IsActionAt};
ghost use Rattle.monitor_run.specs.inner.Machine.{AreFresh, AreUnmarked, CanPrint, HasRoom, front_of, printed_to};
ghost use Rattle.monitor_run.specs.inner.Registers.{AreHeld, register_at, value_at};
ghost use Rattle.monitor_run.specs.inner.Shown.{plan_in};
ghost use Rattle.monitor_run.specs.inner.Visits.{AreFilled, AreMarked, AreSkipped, AreUnprinted, AreUses, AreWithin, HasPlaces, IsNextPlace};
ghost use Rattle.monitor_run.specs.inner.Visits.{has_come, is_empty};

use crate::action::Action;
use crate::case::put_own;
use crate::event::{add_line, print_output};
use crate::hand::hand_by;
use crate::machine::{Machine, empty};
use crate::visits::Visits;
use agenda::marks::Agenda;
use aggregate_store::store::Store;
use body_eval::eval::EvalFault;
use body_eval::register::Register;
use flat_core::equation::{Equation, Op};
use flat_core::flat::Flat;
use flat_core::lists::EqSet;
use lift_func::fault::FaultKind;
use register_code::plan::Plan;
use std::alloc::Global;
use step_uses::rows::Rows;
use tsl_value::bytes::Bytes;
use tsl_value::ids::EqId;
use tsl_value::memory::NoMemory;
use tsl_value::time::Time;

/// A root fault: an equation that faults, while no argument that it uses at the same time does.
#[derive(Clone, Copy, PartialEq, Eq, Debug)]
pub(crate) struct Root {
    pub equation: EqId,
    pub kind: FaultKind,
}

/// The one of the lower equation.
pub(crate) fn least_root(a: Option<Root>, b: Option<Root>) -> Option<Root>
    ensures first { result ≡ None → a ≡ None }
    ensures none { result ≡ None → b ≡ None }
    ensures least { (among besides : ℕ → Bool) (at : ℕ → Option FaultKind)
        → IsLeastRoot among at a
        → IsLeastRoot besides at b
        → IsLeastRoot (λ i. among i || besides i) at result }
{
    match (a, b) {
        // Most equations answer none, and this arm asks nothing of the first one.
        (_, None) => a,
        (None, Some(_)) => b,
        (Some(x), Some(y)) => {
            if y.equation.get() < x.equation.get() {
                b
            } else {
                a
            }
        }
    }
}

/// Some of these equations are faults.
fn some_fault(ids: &[EqId], faulted: &[bool]) -> bool
    requires { All (λ a. a < length faulted.now) ids.now }
    ensures { result ≡ list_any (is_marked faulted.now) ids.now }
{
    for id in ids {
        if faulted[id.get() as usize] {
            return true;
        }
    }
    false
}

/// An argument that is used at the same time is a fault.
fn is_blocked(e: &Equation, faulted: &[bool]) -> bool
    requires shape { HasArity e.now.op e.now.args }
    requires known { All (λ a. a < length faulted.now) e.now.args }
    ensures { result ≡ is_blocked_here faulted.now e.now.op e.now.args }
{
    match &e.op {
        Op::Last => faulted[e.args.ids()[1].get() as usize],
        Op::Delay => false,
        _ => some_fault(e.args.ids(), faulted),
    }
}

/// Runs an equation that makes a value of its own. It stands apart since what is made ready at its beginning is not needed by those that
/// only hand on an event, which are most.
fn run_own(
    alloc: Global,
    e: &Equation,
    id: EqId,
    in_place: &EqSet,
    time: Time,
    machine: &mut Machine,
) -> Result<Option<Root>, NoMemory>
    requires shape { HasArity e.now.op e.now.args }
    requires registers_known { All (λ a. a < length machine.old.registers.items) e.now.args }
    requires register_there { id < length machine.old.registers.items }
    requires mark_there { id < length machine.old.faulted.items }
    requires number_there { id < length machine.old.store.ledger }
    requires typed { TakesTyped machine.old.store.cells machine.old.registers.items e.now }
    requires other { is_given_op e.now.op ≡ false }
    requires own { hands_on e.now.op ≡ false }
    requires unblocked { is_blocked_here machine.old.faulted.items e.now.op e.now.args ≡ false }
    ensures same { SameBeside machine.old machine.new }
    ensures texts { machine.new.texts ≡ machine.old.texts }
    ensures ran { IfOk result (λ root. HasRunOne (is_in in_place.now id) time id e.now machine.old machine.new root) }
{
    let place = id.get() as usize;
    match put_own(
        alloc,
        e,
        id,
        in_place,
        time,
        &mut machine.registers,
        &mut machine.store,
    ) {
        Ok(()) => Ok(None),
        Err(EvalFault::Fault(kind)) => {
            empty(place, &mut machine.registers);
            machine.faulted[place] = true;
            Ok(Some(Root { equation: id, kind }))
        }
        Err(EvalFault::Memory) => Err(NoMemory),
    }
}

/// Passes on a fault: where an argument that is used at the same time is one, the equation becomes one, and its register is emptied.
#[inline(never)]
fn pass_fault(e: &Equation, id: EqId, machine: &mut Machine) -> bool
    requires shape { HasArity e.now.op e.now.args }
    requires known { All (λ a. a < length machine.old.faulted.items) e.now.args }
    requires register_there { id < length machine.old.registers.items }
    requires mark_there { id < length machine.old.faulted.items }
    ensures blocked { result ≡ is_blocked_here machine.old.faulted.items e.now.op e.now.args }
    ensures same { SameBeside machine.old machine.new }
    ensures texts { machine.new.texts ≡ machine.old.texts }
    ensures barred { IsTrue result → IsBarred id machine.old machine.new }
    ensures unbarred { IsFalse result → machine.new ≡ machine.old }
{
    if !is_blocked(e, &machine.faulted) {
        return false;
    }
    let place = id.get() as usize;
    empty(place, &mut machine.registers);
    machine.faulted[place] = true;
    true
}

/// Passes on a fault. `is_sound` may be set where no equation is a fault yet: then no argument has to be looked at.
#[inline(always)]
fn bar(flat: &Flat, id: EqId, is_sound: bool, machine: &mut Machine) -> bool
    requires whole { IsFlat flat.now }
    requires room { HasRoom flat.now machine.old }
    requires there { id < length flat.now.equations }
    requires sound { IsTrue is_sound
        → (e : Equation)
        → equation flat.now id ≡ Some e
        → is_blocked_here machine.old.faulted.items e.op e.args ≡ false }
    ensures blocked { (e : Equation)
        → equation flat.now id ≡ Some e
        → result ≡ is_blocked_here machine.old.faulted.items e.op e.args }
    ensures same { SameBeside machine.old machine.new }
    ensures texts { machine.new.texts ≡ machine.old.texts }
    ensures barred { IsTrue result → IsBarred id machine.old machine.new }
    ensures unbarred { IsFalse result → machine.new ≡ machine.old }
{
    if is_sound {
        return false;
    }
    pass_fault(flat.equation(id), id, machine)
}

/// Runs an equation by its action: its register gets the event of its case, or it becomes a fault. A root fault is answered. `is_sound`
/// may be set where no equation is a fault yet: then no argument has to be looked at for that.
#[inline(always)]
fn run_action(
    alloc: Global,
    flat: &Flat,
    id: EqId,
    action: Action,
    in_place: &EqSet,
    time: Time,
    is_sound: bool,
    machine: &mut Machine,
) -> Result<Option<Root>, NoMemory>
    requires whole { IsFlat flat.now }
    requires room { HasRoom flat.now machine.old }
    requires there { id < length flat.now.equations }
    requires action { IsActionAt flat.now id action }
    requires typed { (e : Equation)
        → equation flat.now id ≡ Some e
        → is_given_op e.op ≡ false
        → hands_on e.op ≡ false
        → TakesTyped machine.old.store.cells machine.old.registers.items e }
    requires sound { IsTrue is_sound
        → (e : Equation)
        → equation flat.now id ≡ Some e
        → is_blocked_here machine.old.faulted.items e.op e.args ≡ false }
    ensures same { SameBeside machine.old machine.new }
    ensures texts { machine.new.texts ≡ machine.old.texts }
    ensures ran { IfOk result (λ root. (e : Equation)
        → equation flat.now id ≡ Some e
        → HasRunOne (is_in in_place.now id) time id e machine.old machine.new root) }
{
    if bar(flat, id, is_sound, machine) {
        return Ok(None);
    }
    match action {
        Action::Given => Ok(None),
        Action::Own => run_own(alloc, flat.equation(id), id, in_place, time, machine),
        _ => {
            hand_by(
                action,
                id.get() as usize,
                &mut machine.registers,
                &machine.last,
            )?;
            Ok(None)
        }
    }
}

/// An output has no event, and no text either.
fn is_blank(flat: &Flat, place: usize, machine: &Machine) -> bool
    requires whole { IsFlat flat.now }
    requires there { place < length flat.now.outputs }
    requires registers { length machine.now.registers.items ≡ length flat.now.equations }
    requires texts { length machine.now.texts.items ≡ length flat.now.outputs }
    ensures empty { IsTrue result → register_at machine.now.registers.items (print_of flat.now place) ≡ Register.Empty }
    ensures unprinted { IsTrue result → slice_index_or machine.now.texts.items place [] ≡ [] }
{
    let output = &flat.outputs()[place];
    if !machine.registers[output.equation.get() as usize].is_empty() {
        return false;
    }
    machine.texts[place].len() == 0
}

/// Prints an output into its text.
fn print_later(
    flat: &Flat,
    place: usize,
    time: Time,
    marked: &mut Agenda,
    machine: &mut Machine,
) -> Result<(), NoMemory>
    requires whole { IsFlat flat.now }
    requires there { place < length flat.now.outputs }
    requires marks { length marked.old ≡ length flat.now.outputs }
    requires registers { length machine.old.registers.items ≡ length flat.now.equations }
    requires texts { length machine.old.texts.items ≡ length flat.now.outputs }
    requires live { HoldsLive machine.old.store.cells (register_at machine.old.registers.items (print_of flat.now place)) }
    ensures same { SameBeside machine.old machine.new }
    ensures printed { OnOk result (HasPrinted flat.now time place machine.old machine.new) }
    ensures marked { marked.new ≡ slice_set marked.old place true }
{
    marked.mark(place);
    print_output(
        &flat.outputs()[place],
        place,
        time,
        &machine.registers,
        &machine.store,
        &mut machine.texts,
    )
}

/// Prints an output into its text, if it has an event. Nothing is marked else.
fn print_if_any(
    flat: &Flat,
    place: usize,
    time: Time,
    marked: &mut Agenda,
    machine: &mut Machine,
) -> Result<(), NoMemory>
    requires whole { IsFlat flat.now }
    requires there { place < length flat.now.outputs }
    requires marks { length marked.old ≡ length flat.now.outputs }
    requires registers { length machine.old.registers.items ≡ length flat.now.equations }
    requires texts { length machine.old.texts.items ≡ length flat.now.outputs }
    requires unprinted { AreUnprinted marked.old machine.old.texts.items }
    requires live { HoldsLive machine.old.store.cells (register_at machine.old.registers.items (print_of flat.now place)) }
    ensures same { SameBeside machine.old machine.new }
    ensures printed { OnOk result (HasPrinted flat.now time place machine.old machine.new) }
    ensures marks { length marked.new ≡ length marked.old }
    ensures unprinted { OnOk result (AreUnprinted marked.new machine.new.texts.items) }
{
    if is_blank(flat, place, machine) {
        return Ok(());
    }
    print_later(flat, place, time, marked, machine)
}

/// Prints the one output at once.
fn print_at_once(
    flat: &Flat,
    place: usize,
    time: Time,
    start: usize,
    registers: &[Register],
    store: &Store,
    out: &mut Bytes,
) -> Result<(), NoMemory>
    requires whole { IsFlat flat.now }
    requires there { place < length flat.now.outputs }
    requires registers { length registers.now ≡ length flat.now.equations }
    requires live { HoldsLive store.now.cells (register_at registers.now (print_of flat.now place)) }
    requires start { start ≤ length out.old }
    ensures printed { OnOk result (out.new ≡ take start out.old
        ++ event_line time (name_of (slice_get flat.now.outputs place))
        (value_at store.now.cells registers.now (print_of flat.now place))) }
    ensures front { take start out.new ≡ take start out.old }
    ensures long { start ≤ length out.new }
{
    out.truncate(start);
    add_line(&flat.outputs()[place], time, registers, store, out)
}

/// Prints an output.
fn print_step(
    flat: &Flat,
    place: usize,
    time: Time,
    at_once: Option<usize>,
    marked: &mut Agenda,
    machine: &mut Machine,
    out: &mut Bytes,
) -> Result<(), NoMemory>
    requires whole { IsFlat flat.now }
    requires there { place < length flat.now.outputs }
    requires marks { length marked.old ≡ length flat.now.outputs }
    requires registers { length machine.old.registers.items ≡ length flat.now.equations }
    requires texts { length machine.old.texts.items ≡ length flat.now.outputs }
    requires unprinted { AreUnprinted marked.old machine.old.texts.items }
    requires live { HoldsLive machine.old.store.cells (register_at machine.old.registers.items (print_of flat.now place)) }
    requires can { CanPrint at_once out.old machine.old.texts.items }
    ensures same { SameBeside machine.old machine.new }
    ensures printed { OnOk result (HasPrinted flat.now time place
        (printed_to at_once out.old machine.old) (printed_to at_once out.new machine.new)) }
    ensures can { CanPrint at_once out.new machine.new.texts.items }
    ensures front { front_of at_once out.new ≡ front_of at_once out.old }
    ensures marks { length marked.new ≡ length marked.old }
    ensures unprinted { OnOk result (AreUnprinted marked.new machine.new.texts.items) }
    ensures blank { IsTrue (is_some at_once) → machine.new.texts ≡ machine.old.texts }
{
    match at_once {
        Some(start) => print_at_once(
            flat,
            place,
            time,
            start,
            &machine.registers,
            &machine.store,
            out,
        ),
        None => print_if_any(flat, place, time, marked, machine),
    }
}

/// The place of the step that comes next: the least from `next` on, or the least that is marked.
fn next_place(all: bool, next: usize, count: usize, steps: &mut Agenda) -> Option<usize>
    requires count { count ≡ length steps.old }
    requires ahead { IsFalse all → (p : ℕ) → IsTrue (has_mark steps.old p) → next ≤ p }
    ensures size { length steps.new ≡ length steps.old }
    ensures next { MatchOption result (AreSkipped all steps.old next count) (IsNextPlace all steps.old steps.new next count) }
{
    if !all {
        return steps.take_least();
    }
    if next < count { Some(next) } else { None }
}

/// Notes what an equation has come to where not all steps run: if it has an event it is filled, and if it has one or is a fault, the steps
/// that use it are marked.
fn note(
    id: EqId,
    all: bool,
    uses: &Rows,
    registers: &[Register],
    faulted: &[bool],
    steps: &mut Agenda,
    filled: &mut Vec<EqId>,
) -> Result<(), NoMemory>
    requires there { id < length registers.now }
    requires mark { id < length faulted.now }
    requires within { AreWithin uses.now (length steps.old) }
    ensures size { length steps.new ≡ length steps.old }
    ensures marked { OnOk result (IsFalse all → (p : ℕ)
        → has_mark steps.new p ≡ (has_mark steps.old p || (has_come registers.now faulted.now id && is_in (row uses.now id) p))) }
    ensures filled { OnOk result (IsFalse all → filled.new.items
        ≡ (if is_empty (register_at registers.now id) then filled.old.items else filled.old.items ++ id ∷ [])) }
{
    if all {
        return Ok(());
    }
    let place = id.get() as usize;
    if !registers[place].is_empty() {
        filled.push(id)?;
    } else if !faulted[place] {
        return Ok(());
    }
    steps.mark_each(uses.of(id));
    Ok(())
}

/// Runs all steps of a plan in its order, or the marked ones and those that use what they fill. The least root fault of an equation that is
/// no delay is answered.
pub(crate) fn run_steps(
    alloc: Global,
    flat: &Flat,
    plan: &Plan,
    uses: &Rows,
    actions: &[Action],
    time: Time,
    all: bool,
    at_once: Option<usize>,
    visits: &mut Visits,
    machine: &mut Machine,
    out: &mut Bytes,
) -> Result<Option<Root>, NoMemory>
    requires whole { IsFlat flat.now }
    requires fine { IsFinePlan flat.now plan.now.in_place plan.now.order }
    requires uses { AreUses flat.now plan.now.order uses.now }
    requires within { AreWithin uses.now (length plan.now.order) }
    requires actions { AreActions flat.now plan.now.order actions.now }
    requires places { HasPlaces flat.now plan.now.order visits.old }
    requires room { HasRoom flat.now machine.old }
    requires held { (types : ℕ → ValueType)
        × AreHeld flat.now types machine.old.store.cells machine.old.registers.items
        × AreHeld flat.now types machine.old.store.cells machine.old.last.items }
    requires fresh { AreFresh flat.now machine.old }
    requires late { IsFalse all → time ≢ 0 }
    requires filled { IsFalse all → AreFilled visits.old.filled.items machine.old.registers.items }
    requires marked { IsFalse all → AreMarked uses.now visits.old.filled.items visits.old.steps }
    requires texts { (k : ℕ) → slice_index_or machine.old.texts.items k [] ≡ [] }
    requires can { CanPrint at_once out.old machine.old.texts.items }
    requires front { front_of at_once out.old ≡ out.old }
    ensures same { SameBeside machine.old machine.new }
    ensures places { HasPlaces flat.now plan.now.order visits.new }
    ensures front { front_of at_once out.new ≡ front_of at_once out.old }
    ensures can { CanPrint at_once out.new machine.new.texts.items }
    ensures ran { IfOk result (λ root. HasRunAll flat.now (plan_in plan.now) time
        machine.old (printed_to at_once out.new machine.new) root) }
    ensures unmarked { IfOk result (λ root. root ≡ None → AreUnmarked flat.now machine.new) }
    ensures filled { OnOk result (IsFalse all → AreFilled visits.new.filled.items machine.new.registers.items) }
    ensures unprinted { OnOk result (AreUnprinted visits.new.texts machine.new.texts.items) }
    ensures blank { IsTrue (is_some at_once) → machine.new.texts ≡ machine.old.texts }
{
    let steps = plan.order.as_slice();
    let mut root = None;
    // All steps before this place have run, or nothing can come of them.
    let mut next = 0;
    while let Some(place) = next_place(all, next, steps.len(), &mut visits.steps) {
        next = place + 1;
        let step = steps[place];
        if step < flat.count() {
            let id = EqId::new(step);
            let action = actions[place];
            let is_sound = root.is_none();
            let found = run_action(
                alloc,
                flat,
                id,
                action,
                &plan.in_place,
                time,
                is_sound,
                machine,
            )?;
            root = least_root(root, found);
            note(
                id,
                all,
                uses,
                &machine.registers,
                &machine.faulted,
                &mut visits.steps,
                &mut visits.filled,
            )?;
        } else {
            print_step(
                flat,
                (step - flat.count()) as usize,
                time,
                at_once,
                &mut visits.texts,
                machine,
                out,
            )?;
        }
    }
    Ok(root)
}
