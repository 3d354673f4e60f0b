// The lines of a trace.

use tsl_value::ids::EqId;
use tsl_value::scalar::Scalar;
use tsl_value::time::Time;

/// A line of a trace: its time, and perhaps an input's event.
#[derive(Drop)]
pub struct TraceLine {
    pub time: Time,
    pub event: Option<(EqId, Scalar)>,
}
