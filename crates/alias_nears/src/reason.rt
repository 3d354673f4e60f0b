// Why an update does not happen in place.

use translation_order::steps::Steps;
use tsl_value::ids::EqId;

/// Why the updates of a set cannot all happen in place.
#[derive(Drop)]
pub enum Reason {
    /// A variable that is stored for later times may have the content that the update changes.
    Kept { update: EqId, by: EqId },
    /// A stored variable may still have the old last value after the update changed its content.
    NotOverwritten { update: EqId, last: EqId },
    /// Each of these steps has to stand before the next, and the last before the first.
    Cycle { steps: Steps },
}
