// What updates in place would do to content, for one set of updates after the other.

ghost use Rattle.std.specs.Prelude.{◌≡◌, ◌↔◌, ◌<◌, ℕ, IfOk, IsTrue};
ghost use Rattle.std.specs.List.Sorted.{IsStrictlyIncreasing};
ghost use Rattle.flat_core.specs.Members.{is_in};
ghost use Rattle.flat_core.specs.WellFormed.{IsWellFormed};
ghost use Rattle.trigger_formulas.specs.inner.Kept.{AreTriggersOf};
ghost use Rattle.alias_rules.specs.Uses.{IsVariable, AreUpdates};
ghost use Rattle.alias_rules.specs.Roots.{IsRoot};
ghost use Rattle.alias_rules.specs.Sharing.{Shares};
ghost use Rattle.alias_rules.specs.Bypass.{Bypasses};
ghost use Rattle.alias_rules.specs.Conflict.{StandsBefore};
ghost use Rattle.translation_order.specs.Order.{Before, AreOfSteps};
ghost use Rattle.alias_rules.specs.Steps.{step_count};
ghost use Rattle.alias_nears.specs.inner.Answer.{IsFirstConflict};
ghost use Rattle.alias_nears.specs.inner.Beginning.{NoneIsNil};
ghost use Rattle.alias_nears.specs.inner.Nears.{AreNears};

use crate::answers::Answers;
use crate::bypass::near_update;
use crate::conflict::first_conflict;
use crate::constraints::constraints;
use crate::nears::{near_all, near_more};
use alias_nears::near::Nears;
use alias_nears::reason::Reason;
use alias_paths::numbers::set_of;
use alias_paths::paths::Paths;
use alias_paths::roots::roots_of_one;
use alias_paths::sharing::sharing;
use alias_paths::uses::{Uses, uses_of};
use flat_core::flat::Flat;
use flat_core::lists::EqSet;
use std::alloc::Global;
use std::marker::Model;
use translation_order::steps::Edges;
use trigger_formulas::triggers::Triggers;
use tsl_value::ids::EqId;
use tsl_value::memory::NoMemory;

/// Which equations of a flat system take content, with the system's trigger formulas. Contracts see the system.
///
/// Each question is about a set of running updates that would happen in place.
#[derive(Drop)]
pub struct Graph<'a> {
    flat: &'a Flat,
    answers: Answers<'a>,
    uses: Uses,
}

impl<'a> Model for Graph<'a> {
    ghost use Rattle.flat_core.specs.System.{System};
    ghost use Rattle.lift_func.specs.contracts.body.Body as body;
    ghost use Rattle.std.specs.Coded.{codes};

    ghost Value = { System };

    ghost coded = { Prim.hlevel (codes, body.the_row.coded) };

    ghost view = { λ g. g.flat.now };

    ghost use Rattle.alias_analysis.specs.inner.Kept.{IsGraph};

    ghost invariant = { λ g. IsGraph g.flat.now g.answers g.uses };
}

impl<'a> Graph<'a> {
    /// Keeps the uses of content in a system, and what the triggers answer about its updates.
    pub fn of(alloc: Global, flat: &'a Flat, triggers: &'a Triggers) -> Result<Graph<'a>, NoMemory>
        requires { AreTriggersOf triggers.now flat.now }
        ensures { IfOk result (λ g. g ≡ flat.now) }
    {
        let uses = uses_of(alloc, flat)?;
        let answers = Answers::of(alloc, flat, triggers, &uses)?;
        Ok(Graph {
            flat,
            answers,
            uses,
        })
    }

    /// The equations at which the content of a variable may begin.
    pub fn roots(&self, alloc: Global, set: &EqSet, x: EqId) -> Result<EqSet, NoMemory>
        requires variable { IsVariable self.now x }
        ensures ascending { IfOk result (λ r. IsStrictlyIncreasing r) }
        ensures members { IfOk result (λ r. (i : ℕ) → IsTrue (is_in r i) ↔ IsRoot self.now set.now i x) }
    {
        self.flat.assert_whole();
        let paths = Paths::of(alloc, self.flat, &self.uses, set)?;
        let roots = roots_of_one(alloc, self.flat, set, &paths, x)?;
        set_of(alloc, &roots)
    }

    /// All pairs of stored variables that may keep one content from an earlier time.
    pub fn share(&self, alloc: Global, set: &EqSet) -> Result<Edges, NoMemory>
        ensures { IfOk result (λ e. (v w : ℕ) → Before e v w ↔ Shares self.now set.now v w) }
    {
        let paths = Paths::of(alloc, self.flat, &self.uses, set)?;
        sharing(alloc, self.flat, set, &paths)
    }

    /// The variables that may have, beside an update of the set, the content that it changes.
    pub fn bypass(&self, alloc: Global, set: &EqSet, update: EqId) -> Result<EqSet, NoMemory>
        requires updates { AreUpdates self.now set.now }
        requires inside { IsTrue (is_in set.now update) }
        ensures ascending { IfOk result (λ r. IsStrictlyIncreasing r) }
        ensures members { IfOk result (λ r. (x : ℕ) → IsTrue (is_in r x) ↔ Bypasses self.now set.now update x) }
    {
        self.flat.assert_whole();
        let paths = Paths::of(alloc, self.flat, &self.uses, set)?;
        let uses = &self.uses;
        let answers = &self.answers;
        let near = near_update(alloc, self.flat, answers, uses, set, &paths, update, &[])?;
        set_of(alloc, &near.bypassed)
    }

    /// The first update of the set that is kept, or else the first that is not overwritten. `None` comes exactly where there is none.
    pub fn conflict(&self, alloc: Global, set: &EqSet) -> Result<Option<Reason>, NoMemory>
        requires { AreUpdates self.now set.now }
        ensures { IfOk result (λ r. IsFirstConflict self.now set.now r) }
    {
        let nears = self.near_all(alloc, set)?;
        self.conflict_of(alloc, set, &nears)
    }

    /// The pairs of steps of which the first has to stand before the second where the updates of the set happen in place.
    pub fn constraints(&self, alloc: Global, set: &EqSet) -> Result<Edges, NoMemory>
        requires { AreUpdates self.now set.now }
        ensures exact { IfOk result (λ e. (a b : ℕ) → Before e a b ↔ StandsBefore self.now set.now a b) }
        ensures of_steps { IfOk result (λ e. AreOfSteps (step_count self.now) e) }
    {
        let nears = self.near_all(alloc, set)?;
        self.constraints_of(alloc, set, &nears)
    }

    /// What is near the updates of the set.
    pub fn near_all(&self, alloc: Global, set: &EqSet) -> Result<Nears, NoMemory>
        requires { AreUpdates self.now set.now }
        ensures { IfOk result (AreNears self.now set.now) }
    {
        near_all(alloc, self.flat, &self.answers, &self.uses, set)
    }

    /// What is near the updates of the set, by what is near those of a smaller one. It takes less time, and answers the same.
    pub fn near_more(
        &self,
        alloc: Global,
        set: &EqSet,
        smaller: &EqSet,
        earlier: &Nears,
    ) -> Result<Nears, NoMemory>
        requires well_formed { IsWellFormed self.now }
        requires none_is_nil { NoneIsNil self.now }
        requires updates { AreUpdates self.now set.now }
        requires wider { (x : ℕ) → IsTrue (is_in smaller.now x) → IsTrue (is_in set.now x) }
        requires earlier { AreNears self.now smaller.now earlier.now }
        ensures { IfOk result (AreNears self.now set.now) }
    {
        near_more(
            alloc,
            self.flat,
            &self.answers,
            &self.uses,
            set,
            smaller,
            earlier,
        )
    }

    /// The first update of the set that is kept, or else the first that is not overwritten, by what is near its updates.
    pub fn conflict_of(
        &self,
        alloc: Global,
        set: &EqSet,
        nears: &Nears,
    ) -> Result<Option<Reason>, NoMemory>
        requires updates { AreUpdates self.now set.now }
        requires nears { AreNears self.now set.now nears.now }
        ensures { IfOk result (λ r. IsFirstConflict self.now set.now r) }
    {
        first_conflict(alloc, self.flat, &self.answers, set, nears)
    }

    /// The pairs of steps of which the first has to stand before the second, by what is near the updates of the set.
    pub fn constraints_of(
        &self,
        alloc: Global,
        set: &EqSet,
        nears: &Nears,
    ) -> Result<Edges, NoMemory>
        requires updates { AreUpdates self.now set.now }
        requires nears { AreNears self.now set.now nears.now }
        ensures exact { IfOk result (λ e. (a b : ℕ) → Before e a b ↔ StandsBefore self.now set.now a b) }
        ensures of_steps { IfOk result (λ e. AreOfSteps (step_count self.now) e) }
    {
        constraints(alloc, self.flat, &self.answers, &self.uses, set, nears)
    }
}
