// What is known of an output at a time.

use crate::fact::Why;
use lift_func::fault::FaultKind;
use tsl_value::ids::EqId;
use tsl_value::time::Time;

/// What is known of an output at a time.
#[derive(Drop)]
pub enum Explained {
    /// It has an event then, by this derivation, which `check_why` accepts.
    Why(Why),
    /// It has no event then.
    NoEvent,
    /// Something on which it can depend has a fault up to then. This is the first, and of those at its time the one of the least number.
    Fault {
        time: Time,
        equation: EqId,
        kind: FaultKind,
    },
}
