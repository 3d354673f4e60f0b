// Plans: which updates happen in place, and the order of the steps.

use flat_core::lists::EqSet;
use translation_order::steps::Steps;

/// How a flat system is to be run.
///
/// A step is the number of an equation, or for the print of an output the count of equations plus the output's number.
#[derive(Drop)]
pub struct Plan {
    /// The updates that change their aggregate where it lies. All other updates copy it.
    pub in_place: EqSet,
    /// The running equations and the prints of all outputs, each once.
    pub order: Steps,
}
