// One instant.

ghost use Rattle.std.specs.Prelude.{◌≡◌, ◌≢◌, ◌==◌, ℕ, List, [], None, if◌then◌else◌, is_some, length, IfOk, IsFalse, IsTrue, OnErr, OnOk};
ghost use Rattle.std.specs.List.{flat_map};
ghost use Rattle.flat_core.specs.Complete.{IsFlat};
ghost use Rattle.flat_core.specs.Kept.{keeps_of, timers_of};
ghost use Rattle.alias_rules.specs.Fine.{IsFinePlan};
ghost use Rattle.step_uses.specs.Uses.{row};
ghost use Rattle.monitor_run.specs.inner.Given.{AreAt, AreEventLines};
ghost use Rattle.monitor_run.specs.inner.Instant.{AreBare, AreListed, Begins, HasEnded, HasRunRegisters, IsInstant, IsInstantBegun};
ghost use Rattle.monitor_run.specs.inner.Instant.{IsSound};
ghost use Rattle.monitor_run.specs.inner.Machine.{AreUnmarked, CanPrint, HasRoom, front_of, printed_to};
ghost use Rattle.tsl_value.specs.declared.scalar.ValueType.{ValueType};
ghost use Rattle.monitor_run.specs.inner.Registers.{AreHeld, register_at};
ghost use Rattle.monitor_run.specs.inner.Shown.{plan_in};
ghost use Rattle.monitor_run.specs.inner.Visits.{AreFilled, AreMarked, AreTables, AreUnprinted, AreWithin, HasPlaces, IsAtRest};

use crate::begin::{expire, give, mark_users};
use crate::delay::{first_refused, set_timers};
use crate::end::{drop_others, keep_filled};
use crate::event::{append_rest, start_of, take_back};
use crate::machine::Machine;
use crate::run::{Root, least_root, run_steps};
use crate::tables::Tables;
use crate::visits::Visits;
use body_eval::register::Register;
use flat_core::flat::Flat;
use flat_core::line::TraceLine;
use register_code::code::Code;
use register_code::plan::Plan;
use std::alloc::Global;
use step_uses::rows::Rows;
use tsl_value::bytes::Bytes;
use tsl_value::ids::EqId;
use tsl_value::memory::NoMemory;
use tsl_value::time::Time;

/// Begins an instant: inputs and delays have their events, and where not all steps run, those that use them are marked.
fn begin(
    flat: &Flat,
    uses: &Rows,
    time: Time,
    all: bool,
    given: &mut Vec<TraceLine>,
    visits: &mut Visits,
    machine: &mut Machine,
) -> Result<(), NoMemory>
    requires whole { IsFlat flat.now }
    requires uses { AreWithin uses.now (length visits.old.steps) }
    requires room { HasRoom flat.now machine.old }
    requires unmarked { AreUnmarked flat.now machine.old }
    requires rest { IsAtRest machine.old }
    requires one { (at : ℕ) × AreAt at given.old.items }
    requires events { AreEventLines flat.now given.old.items }
    requires sound { IsSound flat.now time machine.old }
    ensures begins { OnOk result (Begins flat.now time given.old.items machine.old machine.new) }
    ensures room { HasRoom flat.now machine.new }
    ensures given { OnOk result ((at : ℕ) → AreAt at given.old.items → given.new.items ≡ (if at == time then [] else given.old.items)) }
    ensures texts { machine.new.texts ≡ machine.old.texts }
    ensures filled { OnOk result (IsFalse all → AreFilled visits.new.filled.items machine.new.registers.items) }
    ensures steps { length visits.new.steps ≡ length visits.old.steps }
    ensures marked { OnOk result (IsFalse all → AreMarked uses.now visits.new.filled.items visits.new.steps) }
    ensures places { visits.new.texts ≡ visits.old.texts }
{
    let filled = &mut visits.filled;
    filled.clear();
    expire(
        time,
        all,
        &mut machine.timers,
        &mut machine.registers,
        filled,
    )?;
    give(time, all, given, &mut machine.registers, filled)?;
    if !all {
        mark_users(filled, uses, &mut visits.steps);
    }
    Ok(())
}

/// Runs the steps at a time. The least root fault is answered.
fn run_registers(
    alloc: Global,
    flat: &Flat,
    plan: &Plan,
    tables: &Tables,
    timers: &[EqId],
    time: Time,
    all: bool,
    all_delays: bool,
    given: &mut Vec<TraceLine>,
    at_once: Option<usize>,
    visits: &mut Visits,
    machine: &mut Machine,
    out: &mut Bytes,
) -> Result<Option<Root>, NoMemory>
    requires whole { IsFlat flat.now }
    requires fine { IsFinePlan flat.now plan.now.in_place plan.now.order }
    requires tables { AreTables flat.now plan.now.order tables.now }
    requires timers { timers.now ≡ timers_of flat.now }
    requires late { IsFalse all → time ≢ 0 }
    requires fewer { IsFalse all_delays → IsFalse all }
    requires places { HasPlaces flat.now plan.now.order visits.old }
    requires room { HasRoom flat.now machine.old }
    requires unmarked { AreUnmarked flat.now machine.old }
    requires rest { IsAtRest machine.old }
    requires one { (at : ℕ) × AreAt at given.old.items }
    requires events { AreEventLines flat.now given.old.items }
    requires sound { IsSound flat.now time machine.old }
    requires can { CanPrint at_once out.old machine.old.texts.items }
    requires front { front_of at_once out.old ≡ out.old }
    ensures front { front_of at_once out.new ≡ front_of at_once out.old }
    ensures can { CanPrint at_once out.new machine.new.texts.items }
    ensures room { HasRoom flat.now machine.new }
    ensures unmarked { IfOk result (λ root. root ≡ None → AreUnmarked flat.now machine.new) }
    ensures given { OnOk result ((at : ℕ) → AreAt at given.old.items → given.new.items ≡ (if at == time then [] else given.old.items)) }
    ensures ran { IfOk result (λ root. HasRunRegisters flat.now (plan_in plan.now) time given.old.items
        machine.old (printed_to at_once out.new machine.new) root) }
    ensures places { HasPlaces flat.now plan.now.order visits.new }
    ensures filled { OnOk result (IsFalse all → AreFilled visits.new.filled.items machine.new.registers.items) }
    ensures delays { OnOk result (IsFalse all_delays → visits.new.delays.items ≡ flat_map (row tables.now.delays) visits.new.filled.items) }
    ensures unprinted { OnOk result (AreUnprinted visits.new.texts machine.new.texts.items) }
    ensures blank { IsTrue (is_some at_once) → machine.new.texts ≡ machine.old.texts }
{
    begin(flat, &tables.uses, time, all, given, visits, machine)?;
    let found = run_steps(
        alloc,
        flat,
        plan,
        &tables.uses,
        &tables.actions,
        time,
        all,
        at_once,
        visits,
        machine,
        out,
    )?;
    if !all_delays {
        tables.delays.gather(&visits.filled, &mut visits.delays)?;
    }
    let refused = first_refused(flat, visits.delays(all_delays, timers), &machine.registers);
    Ok(least_root(found, refused))
}

/// Ends an instant without a fault: what is to be read later is kept, and all else is dropped.
fn end(
    flat: &Flat,
    keeps: &[EqId],
    tables: &Tables,
    timers: &[EqId],
    time: Time,
    all: bool,
    all_delays: bool,
    visits: &Visits,
    machine: &mut Machine,
) -> Result<(), NoMemory>
    requires whole { IsFlat flat.now }
    requires keeps { keeps.now ≡ keeps_of flat.now }
    requires tables { (order : List ℕ) × AreTables flat.now order tables.now }
    requires timers { timers.now ≡ timers_of flat.now }
    requires fewer { IsFalse all_delays → IsFalse all }
    requires delays { IsFalse all_delays → visits.now.delays.items ≡ flat_map (row tables.now.delays) visits.now.filled.items }
    requires filled { IsFalse all → AreFilled visits.now.filled.items machine.old.registers.items }
    requires room { HasRoom flat.now machine.old }
    requires held { (types : ℕ → ValueType)
        × AreHeld flat.now types machine.old.store.cells machine.old.registers.items
        × AreHeld flat.now types machine.old.store.cells machine.old.last.items }
    requires listed { AreBare machine.old.registers.items → AreListed flat.now machine.old }
    ensures room { HasRoom flat.now machine.new }
    ensures faulted { machine.new.faulted ≡ machine.old.faulted }
    ensures texts { machine.new.texts ≡ machine.old.texts }
    ensures registers { (i : ℕ) → register_at machine.new.registers.items i ≡ Register.Empty }
    ensures ended { OnOk result (HasEnded flat.now time machine.old machine.new) }
{
    set_timers(
        flat,
        visits.delays(all_delays, timers),
        time,
        &machine.registers,
        &mut machine.timers,
    );
    let touched = keep_filled(
        all,
        &tables.kept,
        keeps,
        &visits.filled,
        &mut machine.registers,
        &mut machine.last,
    );
    drop_others(
        touched,
        keeps,
        &machine.last,
        &mut machine.kept,
        &mut machine.store,
    )
}

/// Runs an instant. Where it has a root fault, that is answered and nothing is kept or appended.
pub(crate) fn run_instant(
    alloc: Global,
    code: &Code,
    tables: &Tables,
    time: Time,
    given: &mut Vec<TraceLine>,
    visits: &mut Visits,
    machine: &mut Machine,
    out: &mut Bytes,
) -> Result<Option<Root>, NoMemory>
    requires whole { IsFlat code.now.system }
    requires fine { IsFinePlan code.now.system code.now.in_place code.now.order }
    requires tables { AreTables code.now.system code.now.order tables.now }
    requires places { HasPlaces code.now.system code.now.order visits.old }
    requires room { HasRoom code.now.system machine.old }
    requires unmarked { AreUnmarked code.now.system machine.old }
    requires rest { IsAtRest machine.old }
    requires one { (at : ℕ) × AreAt at given.old.items }
    requires events { AreEventLines code.now.system given.old.items }
    requires sound { IsSound code.now.system time machine.old }
    ensures room { HasRoom code.now.system machine.new }
    ensures unmarked { IfOk result (λ root. root ≡ None → AreUnmarked code.now.system machine.new) }
    ensures rest { IfOk result (λ root. root ≡ None → IsAtRest machine.new) }
    ensures places { HasPlaces code.now.system code.now.order visits.new }
    ensures given { OnOk result ((at : ℕ) → AreAt at given.old.items → given.new.items ≡ (if at == time then [] else given.old.items)) }
    ensures ran { IfOk result (λ root. IsInstant code.now.system (record { in_place = code.now.in_place; order = code.now.order })
        time given.old.items machine.old machine.new out.old out.new root) }
    ensures err { OnErr result (IsInstantBegun code.now.system (record { in_place = code.now.in_place; order = code.now.order })
        time given.old.items machine.old out.old out.new) }
{
    let at_once = start_of(&machine.texts, out);
    let all = tables.is_short || time.get() == 0;
    let all_delays = all || tables.has_few_delays;
    let root = match run_registers(
        alloc,
        code.flat(),
        code.plan(),
        tables,
        code.timers(),
        time,
        all,
        all_delays,
        given,
        at_once,
        visits,
        machine,
        out,
    ) {
        Ok(root) => root,
        Err(none) => {
            take_back(at_once, out);
            return Err(none);
        }
    };
    if root.is_none() {
        append_rest(at_once, &mut visits.texts, &mut machine.texts, out)?;
        end(
            code.flat(),
            code.keeps(),
            tables,
            code.timers(),
            time,
            all,
            all_delays,
            visits,
            machine,
        )?;
    } else {
        take_back(at_once, out);
    }
    Ok(root)
}
