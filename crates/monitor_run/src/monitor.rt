// The monitor.

ghost use Rattle.std.specs.Prelude.{◌≡◌, ◌≤◌, ◌^◌, [], ◌∷◌, ◌++◌, None, Some, max, is_ok, is_some, slice_index, IfErr, IfOk, OnOk, IsTrue};
ghost use Rattle.std.specs.Prelude.{List, ℕ, Ok, OnErr};
ghost use Rattle.std.specs.FinMap as map;
ghost use Rattle.flat_core.specs.Line.{Line};
ghost use Rattle.flat_core.specs.Updates.{is_running_update};
ghost use Rattle.monitor_run.specs.inner.AnyMonitor.{HasSteppedAny};
ghost use Rattle.monitor_state.specs.Fits.{FitsMonitor};
ghost use Rattle.monitor_run.specs.inner.Given.{line_of};
ghost use Rattle.monitor_run.specs.inner.Next.{IsIdle};
ghost use Rattle.monitor_run.specs.inner.Resumed.{IsSavedAs, IsStateAfter};
ghost use Rattle.monitor_run.specs.inner.Saved.{CanSave, HasState};
ghost use Rattle.monitor_run.specs.inner.Stands.{Stands};
ghost use Rattle.monitor_run.specs.inner.State.{IsReady, bound_of, plan_of};
ghost use Rattle.monitor_run.specs.inner.Stored.{stored_count};
ghost use Rattle.monitor_run.specs.inner.Steps.{AreAsSet, CanTake, HasStepped, IsStoppedAgain, stopped};

use crate::instant::run_instant;
use crate::machine::Machine;
use crate::next::next_below;
use crate::restored::{given_at, restored};
use crate::run::Root;
use crate::saved::{
    assert_in_time, contents, held_cells, ledger_of, open_events, pending_times, saved_registers,
};
use crate::tables::Tables;
use crate::visits::Visits;
use flat_core::line::TraceLine;
use lift_func::fault::FaultKind;
use monitor_state::state::MonitorState;
use register_code::code::Code;
use std::alloc::Global;
use std::marker::Model;
use tsl_value::bytes::Bytes;
use tsl_value::ids::EqId;
use tsl_value::memory::NoMemory;
use tsl_value::scalar::Scalar;
use tsl_value::time::Time;

/// Which times are closed: those below a time, or up to it. No further event comes at a closed time.
#[derive(Clone, Copy, PartialEq, Eq, Debug)]
pub enum Closed {
    Below(Time),
    Through(Time),
}

/// Whether a step ran an instant, or none was left.
#[derive(Clone, Copy, PartialEq, Eq, Debug)]
pub enum Step {
    Ran,
    Idle,
}

/// Why a monitor runs no further.
#[derive(Clone, Copy, PartialEq, Eq, Debug)]
pub enum Stop {
    /// The instant at `time` has a root fault, and `equation` is the least one with a root fault there.
    Fault {
        time: Time,
        equation: EqId,
        kind: FaultKind,
    },
    /// `count` instants have run, as many as may, and another comes at `time`.
    Limit {
        count: u64,
        time: Time,
    },
    /// Out of memory.
    Memory,
}

/// Runs a system instant by instant.
///
/// Events are given in order of time, and times are closed. Each step then runs one instant at a closed time. After a stop, each
/// call that can answer one answers it again, and changes nothing.
#[derive(Drop)]
pub struct Monitor<'c> {
    alloc: Global,
    code: &'c Code,
    limit: u64,
    ran: u64,
    // All instants before `next` have run, and all times before `bound` are closed.
    next: u64,
    bound: u64,
    // The events of the open time.
    given: Vec<TraceLine>,
    tables: Tables,
    visits: Visits,
    machine: Machine,
    stop: Option<Stop>,
}

impl<'c> Model for Monitor<'c> {
    ghost use Rattle.std.specs.Coded.{codes};
    ghost use Rattle.std.specs.Prelude.{◌≡◌, None};
    ghost use Rattle.lift_func.specs.contracts.body.Body as body;
    ghost use Rattle.monitor_run.specs.inner.Code.{cells_code, times_code};
    ghost use Rattle.monitor_run.specs.inner.Machine.{AreUnmarked, HasRoom};
    ghost use Rattle.monitor_run.specs.inner.Visits.{AreTables, HasPlaces, IsAtRest};
    ghost use Rattle.monitor_run.specs.inner.State.{State, IsReady};

    ghost Value = { State };

    ghost coded = { Prim.hlevel (codes, body.the_row.coded, cells_code, times_code) };

    ghost view = { λ m. record {
      system = m.code.now.system;
      in_place = m.code.now.in_place;
      order = m.code.now.order;
      limit = m.limit;
      ran = m.ran;
      next = m.next;
      bound = m.bound;
      given = m.given.items;
      cells = m.machine.store.cells;
      ledger = m.machine.store.ledger;
      last = m.machine.last.items;
      timers = m.machine.timers.times;
      stop = m.stop;
    } };

    ghost invariant = { λ m. HasRoom m.code.now.system m.machine
        × (m.stop ≡ None → IsReady (record {
          system = m.code.now.system;
          in_place = m.code.now.in_place;
          order = m.code.now.order;
          limit = m.limit;
          ran = m.ran;
          next = m.next;
          bound = m.bound;
          given = m.given.items;
          cells = m.machine.store.cells;
          ledger = m.machine.store.ledger;
          last = m.machine.last.items;
          timers = m.machine.timers.times;
          stop = m.stop;
        }))
        × AreTables m.code.now.system m.code.now.order m.tables
        × HasPlaces m.code.now.system m.code.now.order m.visits
        × (m.stop ≡ None → AreUnmarked m.code.now.system m.machine × IsAtRest m.machine) };
}

/// Keeps a stop.
fn stop_with(slot: &mut Option<Stop>, stop: Stop) -> Stop
    ensures kept { slot.new ≡ Some stop }
    ensures same { result ≡ stop }
{
    let kept = stop;
    *slot = Some(kept);
    stop
}

/// The number of times that are closed.
fn closed_below(upto: Closed) -> u64
    ensures bound { result ≡ bound_of upto }
    ensures in_time { result ≤ 2 ^ 63 }
{
    match upto {
        Closed::Below(time) => time.get(),
        Closed::Through(time) => time.get() + 1,
    }
}

impl<'c> Monitor<'c> {
    /// A monitor of a system, which was given no event. No time is closed, and at most `limit` instants may run.
    pub fn new(alloc: Global, code: &'c Code, limit: u64) -> Result<Monitor<'c>, NoMemory>
        requires limit { 1 ≤ limit }
        ensures stands { IfOk result (λ m. Stands m []) }
        ensures system { IfOk result (λ m. m.system ≡ code.now.system) }
        ensures in_place { IfOk result (λ m. m.in_place ≡ code.now.in_place) }
        ensures order { IfOk result (λ m. m.order ≡ code.now.order) }
        ensures limit { IfOk result (λ m. m.limit ≡ limit) }
        ensures unclosed { IfOk result (λ m. m.bound ≡ 0) }
    {
        Ok(Monitor {
            alloc,
            code,
            limit,
            ran: 0,
            next: 0,
            bound: 0,
            given: Vec::new(alloc),
            tables: Tables::new(alloc, code)?,
            visits: Visits::new(alloc, code.plan().order.len(), code.flat().outputs().len())?,
            machine: Machine::new(alloc, code.flat().count(), code.flat().outputs().len())?,
            stop: None,
        })
    }

    /// A monitor that goes on from a state, which has to fit the code and the limit. The state is gone after `NoMemory`.
    ///
    /// It has that state, so it stands for all events that the state comes after. It counts all times below the bound as run.
    pub fn from_state(
        alloc: Global,
        code: &'c Code,
        limit: u64,
        state: MonitorState,
    ) -> Result<Monitor<'c>, NoMemory>
        requires limit { 1 ≤ limit }
        requires fits { FitsMonitor code.now.system limit state }
        ensures saved { IfOk result (λ m. IsSavedAs m state) }
        ensures level { IfOk result (λ m. m.next ≡ m.bound) }
        ensures stands { IfOk result (λ m. (lines : List Line)
            → IsStateAfter m.system (plan_of m) lines state
            → Stands m lines) }
        ensures system { IfOk result (λ m. m.system ≡ code.now.system) }
        ensures in_place { IfOk result (λ m. m.in_place ≡ code.now.in_place) }
        ensures order { IfOk result (λ m. m.order ≡ code.now.order) }
        ensures limit { IfOk result (λ m. m.limit ≡ limit) }
    {
        Ok(Monitor {
            alloc,
            code,
            limit,
            ran: state.instants,
            next: state.bound,
            bound: state.bound,
            given: given_at(alloc, state.bound, state.open_events.as_slice())?,
            tables: Tables::new(alloc, code)?,
            visits: Visits::new(alloc, code.plan().order.len(), code.flat().outputs().len())?,
            machine: restored(alloc, code, &state)?,
            stop: None,
        })
    }

    /// What the monitor keeps, as a state, which fits the code and the limit. It is asked for where no step is left to run and the open
    /// events stand at the bound.
    pub fn state(&self, alloc: Global) -> Result<MonitorState, NoMemory>
        requires { CanSave self.now }
        ensures state { IfOk result (HasState self.now) }
        ensures fits { IfOk result (FitsMonitor self.now.system self.now.limit) }
        ensures after { IfOk result (λ st. (lines : List Line)
            → Stands self.now lines
            → IsStateAfter self.now.system (plan_of self.now) lines st) }
    {
        let flat = self.code.flat();
        let keeps = self.code.keeps();
        let cells = held_cells(alloc, keeps, &self.machine.last)?;
        assert_in_time(&self.given);
        Ok(MonitorState {
            bound: self.bound,
            instants: self.instants(),
            open_events: open_events(alloc, flat.count(), &self.given)?,
            ledger: ledger_of(alloc, flat, &self.machine.store)?,
            registers: saved_registers(alloc, keeps, &self.machine.last, &cells)?,
            cells: contents(alloc, &cells, &self.machine.store)?,
            pending: pending_times(alloc, self.code.timers(), &self.machine.timers)?,
        })
    }

    /// Gives the event of an input at a time that is not closed. The instants of earlier events have run.
    pub fn event(&mut self, time: Time, input: EqId, value: Scalar) -> Result<(), Stop>
        requires { self.old.stop ≡ None → CanTake self.old time input value }
        ensures given { OnOk result (self.new ≡ record self.old { given = self.old.given ++ line_of time input value ∷ [] }) }
        ensures stands { OnOk result ((lines : List Line)
            → Stands self.old lines
            → Stands self.new (lines ++ line_of time input value ∷ [])) }
        ensures again { IsStoppedAgain self.old self.new result }
        ensures stop { IfErr result (λ stop. self.old.stop ≡ None
            → (stop ≡ Stop.Memory) × (self.new ≡ stopped self.old Stop.Memory)) }
    {
        if let Some(stop) = self.stop {
            return Err(stop);
        }
        let line = TraceLine {
            time,
            event: Some((input, value)),
        };
        match self.given.push(line) {
            Ok(()) => Ok(()),
            Err(_) => {
                self.stop = Some(Stop::Memory);
                Err(Stop::Memory)
            }
        }
    }

    /// Closes times. It runs nothing. Where they are closed already it changes nothing.
    pub fn close(&mut self, upto: Closed) -> Result<(), Stop>
        ensures closed { OnOk result (self.new ≡ record self.old { bound = max self.old.bound (bound_of upto) }) }
        ensures stands { OnOk result ((lines : List Line) → Stands self.old lines → Stands self.new lines) }
        ensures again { IsStoppedAgain self.old self.new result }
        ensures ok { self.old.stop ≡ None → IsTrue (is_ok result) }
    {
        if let Some(stop) = self.stop {
            return Err(stop);
        }
        self.bound = self.bound.max(closed_below(upto));
        Ok(())
    }

    /// Runs the first instant at a closed time that has not run, and appends the lines of its events. `Idle` is answered where none
    /// is left.
    pub fn step(&mut self, out: &mut Bytes) -> Result<Step, Stop>
        ensures steps { self.old.stop ≡ None
            → (lines : List Line)
            → Stands self.old lines
            → HasStepped self.old self.new lines out.old out.new result }
        ensures any { self.old.stop ≡ None → HasSteppedAny self.old self.new out.old out.new result }
        ensures again { IsStoppedAgain self.old self.new result }
        ensures unwritten { IsTrue (is_some self.old.stop) → out.new ≡ out.old }
        ensures kept { IfErr result (λ stop. self.new.stop ≡ Some stop) }
        ensures ran { OnErr result ((self.new.ran ≡ self.old.ran) × (self.new.next ≡ self.old.next)) }
        ensures going { OnOk result (self.new.stop ≡ None) }
        ensures as_set { AreAsSet self.old self.new }
        ensures idle { result ≡ Ok Step.Idle → IsIdle self.new }
    {
        if let Some(stop) = self.stop {
            return Err(stop);
        }
        let time = match next_below(self.next, self.bound, &self.given, &self.machine.timers) {
            Some(time) => time,
            None => return Ok(Step::Idle),
        };
        if self.ran == self.limit {
            let stop = Stop::Limit {
                count: self.limit,
                time,
            };
            return Err(stop_with(&mut self.stop, stop));
        }
        match run_instant(
            self.alloc,
            self.code,
            &self.tables,
            time,
            &mut self.given,
            &mut self.visits,
            &mut self.machine,
            out,
        ) {
            Ok(None) => {
                self.ran += 1;
                self.next = time.get() + 1;
                Ok(Step::Ran)
            }
            Ok(Some(Root { equation, kind })) => {
                let stop = Stop::Fault {
                    time,
                    equation,
                    kind,
                };
                Err(stop_with(&mut self.stop, stop))
            }
            Err(NoMemory) => Err(stop_with(&mut self.stop, Stop::Memory)),
        }
    }

    /// How many elements a running update has copied, or 2^64 - 1 where there were more.
    pub fn copied(&self, update: EqId) -> u64
        requires { IsTrue (is_running_update self.now.system update) }
        ensures { result ≡ slice_index self.now.ledger update }
    {
        self.machine.store.ledger(update.get())
    }

    /// The number of instants that have run.
    ///
    /// Its second clause gives callers what every monitor has where no stop is kept.
    pub fn instants(&self) -> u64
        ensures ran { result ≡ self.now.ran }
        ensures ready { self.now.stop ≡ None → IsReady self.now }
    {
        self.ran
    }

    /// The number of cells, each of which has an aggregate. It is no more than the aggregates that last registers can hold.
    pub fn cells(&self) -> u64
        ensures cells { result ≡ map.len self.now.cells }
        ensures few { self.now.stop ≡ None → result ≤ stored_count self.now.system }
    {
        self.machine.store.count()
    }
}
