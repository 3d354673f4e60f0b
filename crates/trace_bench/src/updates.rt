// What the updates of a system copied.

ghost use Rattle.std.specs.Prelude.{◌≡◌, slice_index};
ghost use Rattle.trace_bench.specs.Ran.{up_to_most, updates_sum};

use flat_core::flat::Flat;
use trace_monitor::monitor::TraceMonitor;
use tsl_value::ids::EqId;

/// How many elements the running updates of a monitor's system have copied together, or 2^64 - 1 where there were more.
pub fn copied_together(flat: &Flat, monitor: &TraceMonitor<'_>) -> u64
    requires { monitor.now.engine.system ≡ flat.now }
    ensures { result ≡ up_to_most (updates_sum flat.now (λ u. slice_index monitor.now.engine.ledger u)) }
{
    let mut sum: u64 = 0;
    for number in 0..flat.count() {
        let update = EqId::new(number);
        if flat.is_running_update(update) {
            sum = sum.saturating_add(monitor.copied(update));
        }
    }
    sum
}
