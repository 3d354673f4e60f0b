// How content goes on where a set of updates happens in place.

ghost use Rattle.std.specs.Prelude.{◌≡◌, length, IfOk};
ghost use Rattle.alias_paths.specs.inner.Kept.{AreUses, ArePaths};

use crate::links::Links;
use crate::numbers::Numbers;
use crate::pairs::turned;
use crate::roots::carriers;
use crate::sharing::{flows, stored};
use crate::uses::Uses;
use flat_core::flat::Flat;
use flat_core::lists::EqSet;
use std::alloc::Global;
use tsl_value::memory::NoMemory;

/// The carrier edges of a set of updates and these edges turned, how content goes on through variables and stores, forth and back, and
/// the stored variables. They are made once for a set, and then asked for each of its updates.
#[derive(Drop)]
pub struct Paths {
    pub carriers: Links,
    pub back: Links,
    pub flows: Links,
    pub flows_back: Links,
    pub stored: Numbers,
}

impl Paths {
    /// The paths of content for a set.
    pub fn of(alloc: Global, flat: &Flat, uses: &Uses, set: &EqSet) -> Result<Paths, NoMemory>
        requires { AreUses flat.now uses.now }
        ensures { IfOk result (ArePaths flat.now set.now) }
    {
        let count = flat.count() as usize;
        let carriers = carriers(alloc, flat, uses, set)?;
        let back = turned(alloc, carriers.as_slice())?;
        let flows = flows(alloc, flat, uses, carriers.as_slice())?;
        let flows_back = turned(alloc, flows.as_slice())?;
        Ok(Paths {
            carriers: Links::of(alloc, count, carriers)?,
            back: Links::of(alloc, count, back)?,
            flows: Links::of(alloc, count + count, flows)?,
            flows_back: Links::of(alloc, count + count, flows_back)?,
            stored: stored(alloc, flat, uses)?,
        })
    }
}
