// Delays: which amounts are refused, and when delays are due.

ghost use Rattle.std.specs.Prelude.{◌≡◌, ◌≢◌, ◌<◌, ◌||◌, ℕ, All, None, Some, if◌then◌else◌, is_some, length, IsTrue};
ghost use Rattle.std.specs.FinMap as map;
ghost use Rattle.std.specs.Option.{option_map};
ghost use Rattle.tsl_value.specs.declared.scalar.ValueType.{ValueType};
ghost use Rattle.cell_reader.specs.inner.Cells.{Cells};
ghost use Rattle.body_eval.specs.inner.Registers.{HoldsLive, held};
ghost use Rattle.flat_core.specs.Events.{refused};
ghost use Rattle.flat_core.specs.Complete.{IsFlat};
ghost use Rattle.flat_core.specs.Members.{is_in};
ghost use Rattle.flat_core.specs.Pending.{reached};
ghost use Rattle.flat_core.specs.System.{equation};
ghost use Rattle.flat_core.specs.Kept.{is_timer};
ghost use Rattle.register_machine.specs.Stands.{in_time};
ghost use Rattle.flat_core.specs.inner.Arity.{HasArity};
ghost use Rattle.monitor_run.specs.inner.Instant.{IsLeastRoot, refusal_of, set_at};
ghost use Rattle.monitor_run.specs.inner.Registers.{AreHeld, register_at};

use crate::case::argument;
use crate::run::{Root, least_root};
use body_eval::register::Register;
use delay_timers::timers::Timers;
use flat_core::equation::{Equation, Op};
use flat_core::flat::Flat;
use lift_func::fault::FaultKind;
use tsl_value::ids::EqId;
use tsl_value::scalar::Scalar;
use tsl_value::time::Time;

/// The amount is not positive.
fn is_refused(amount: &Register) -> bool
    ensures { (cells : Cells) → HoldsLive cells amount.now
        → refused (held cells amount.now) ≡ (if result then Some FaultKind.DelayNotPositive else None) }
{
    match amount {
        Register::Scalar(Scalar::Int(n)) => *n <= 0,
        _ => false,
    }
}

/// The root fault of a delay with this amount.
fn refusal(delay: EqId, amount: &Register) -> Option<Root>
    ensures { (cells : Cells) → HoldsLive cells amount.now
        → result ≡ option_map (λ kind. record { equation = delay; kind = kind }) (refused (held cells amount.now)) }
{
    if is_refused(amount) {
        Some(Root {
            equation: delay,
            kind: FaultKind::DelayNotPositive,
        })
    } else {
        None
    }
}

/// The least of some delays whose amount is not positive.
pub(crate) fn first_refused(flat: &Flat, delays: &[EqId], registers: &[Register]) -> Option<Root>
    requires whole { IsFlat flat.now }
    requires running { All (λ i. IsTrue (is_timer flat.now i)) delays.now }
    requires one_each { length registers.now ≡ length flat.now.equations }
    ensures { (types : ℕ → ValueType) (cells : Cells) → AreHeld flat.now types cells registers.now
        → IsLeastRoot (is_in delays.now) (λ i. refusal_of (equation flat.now i) cells registers.now) result }
{
    let mut root = None;
    for delay in delays {
        let e = flat.equation(*delay);
        root = least_root(root, refusal(*delay, argument(registers, &e.args, 0)));
    }
    root
}

/// The time to which an amount leads, if there is such a time.
fn reached(time: Time, amount: &Register) -> Option<Time>
    ensures { (cells : Cells) → HoldsLive cells amount.now → result ≡ in_time (reached time (held cells amount.now)) }
{
    match amount {
        Register::Scalar(Scalar::Int(n)) => { if *n >= 0 { time.plus(*n as u64) } else { None } }
        _ => None,
    }
}

/// A delay may be set: its second argument or the delay itself has an event.
fn is_set(reset: &Register, delay: &Register) -> bool
    ensures { (cells : Cells) → result ≡ (is_some (held cells reset.now) || is_some (held cells delay.now)) }
{
    !reset.is_empty() || !delay.is_empty()
}

/// Sets a delay by its amount where it may be set, and cancels it there where it has no amount.
fn set_one(e: &Equation, delay: EqId, time: Time, registers: &[Register], timers: &mut Timers)
    requires shape { HasArity Op.Delay e.now.args }
    requires known { All (λ a. a < length registers.now) e.now.args }
    requires there { delay < length registers.now }
    requires timer { delay < timers.old.capacity }
    ensures capacity { timers.new.capacity ≡ timers.old.capacity }
    ensures set { (cells : Cells) → All (λ a. HoldsLive cells (register_at registers.now a)) e.now.args
        → map.get timers.new.times delay ≡ set_at (Some e.now) cells registers.now time delay (map.get timers.old.times delay) }
    ensures others { (i : ℕ) → i ≢ delay → map.get timers.new.times i ≡ map.get timers.old.times i }
{
    let reset = argument(registers, &e.args, 1);
    let own = &registers[delay.get() as usize];
    if is_set(reset, own) {
        let amount = argument(registers, &e.args, 0);
        match reached(time, amount) {
            Some(at) => timers.set(delay.get(), at),
            None => timers.cancel(delay.get()),
        }
    }
}

/// Sets and cancels delays by what happened at a time.
pub(crate) fn set_timers(
    flat: &Flat,
    delays: &[EqId],
    time: Time,
    registers: &[Register],
    timers: &mut Timers,
)
    requires whole { IsFlat flat.now }
    requires running { All (λ i. IsTrue (is_timer flat.now i)) delays.now }
    requires one_each { length registers.now ≡ length flat.now.equations }
    requires capacity { timers.old.capacity ≡ length flat.now.equations }
    ensures capacity { timers.new.capacity ≡ timers.old.capacity }
    ensures set { (types : ℕ → ValueType) (cells : Cells) → AreHeld flat.now types cells registers.now → (i : ℕ)
        → map.get timers.new.times i
        ≡ (if is_in delays.now i then set_at (equation flat.now i) cells registers.now time i (map.get timers.old.times i)
        else map.get timers.old.times i) }
{
    for delay in delays {
        set_one(flat.equation(*delay), *delay, time, registers, timers);
    }
}
