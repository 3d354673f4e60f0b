// What derivations are about.

use flat_core::flat::Flat;
use flat_core::line::TraceLine;
use flat_core::lists::EqSet;

/// A system, the slice of one of its outputs, and the lines of its inputs' events.
#[derive(Drop)]
pub(crate) struct Grounds<'a> {
    pub(crate) flat: &'a Flat,
    pub(crate) slice: &'a EqSet,
    pub(crate) lines: &'a [TraceLine],
}
