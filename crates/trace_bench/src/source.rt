// The specifications of the bench.

ghost use Rattle.std.specs.Prelude.{◌≡◌};
ghost use Rattle.trace_bench.specs.Bench.{source_of};

use command_words::command::Workload;
use sample_trace::spec::{copy_source, seen_source};

/// The specification of a kind.
pub fn source_of(kind: Workload) -> &'static [u8]
    ensures { result.now ≡ source_of kind }
{
    match kind {
        Workload::Seen => seen_source(),
        Workload::Copy => copy_source(),
    }
}
