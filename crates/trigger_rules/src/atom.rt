// What trigger formulas speak of.

use tsl_value::ids::EqId;

/// Something that is or is not so at a time.
#[derive(Clone, Copy, PartialEq, Eq, Debug)]
pub enum Atom {
    /// The time is 0.
    Start,
    /// The equation has an event.
    Happens(EqId),
    /// The equation has the event true.
    Holds(EqId),
}
