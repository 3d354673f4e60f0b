// Operands that are lifted: each gets its current value where one of them has an event.

ghost use Rattle.std.specs.Prelude.{◌≡◌, ◌+◌, ◌≤◌, [], ◌∷◌, ◌++◌, length, IfOk, OnOk, IfErr, OnErr};
ghost use Rattle.stream_constructs.specs.Limits.{IsRefusal};
ghost use Rattle.stream_constructs.specs.Made.{HasFirst, with_equations};
ghost use Rattle.stream_constructs.specs.Equations.{held, held_each, merges, lifting, lifted_streams};

use crate::arguments;
use crate::construct::Stream;
use crate::maker::{MakeFault, Maker};
use crate::sources::UNIT;
use flat_core::equation::Op;
use tsl_value::ids::EqId;
use tsl_value::place::Place;

impl Maker {
    /// The latest event of a part where the trigger has one, and the merge of the part with that.
    pub(crate) fn hold(
        &mut self,
        place: Place,
        trigger: EqId,
        part: &Stream,
    ) -> Result<Stream, MakeFault>
        ensures made { OnOk result (self.new ≡ with_equations self.old (held place (length self.old.equations) trigger part.now)) }
        ensures stream { IfOk result (λ s. s ≡ record { id = length self.old.equations + 1; of = part.now.of }) }
        ensures refused { IfErr result (IsRefusal (self.old.equations ++ held place (length self.old.equations) trigger part.now)) }
        ensures partly { OnErr result (HasFirst self.old (held place (length self.old.equations) trigger part.now) self.new) }
    {
        let args = arguments::two(self.alloc, part.id, trigger)?;
        let last = self.make(place, Op::Last, args, part.of)?;
        let args = arguments::two(self.alloc, part.id, last.id)?;
        self.make(place, Op::Merge, args, part.of)
    }

    fn hold_each(
        &mut self,
        place: Place,
        trigger: EqId,
        parts: &[Stream],
    ) -> Result<Vec<Stream>, MakeFault>
        ensures made { OnOk result (self.new ≡ with_equations self.old (held_each place (length self.old.equations) trigger parts.now)) }
        ensures streams { IfOk result (λ v. v.items ≡ merges (length self.old.equations) parts.now) }
        ensures refused { IfErr result (IsRefusal (self.old.equations ++ held_each place (length self.old.equations) trigger parts.now)) }
        ensures partly { OnErr result (HasFirst self.old (held_each place (length self.old.equations) trigger parts.now) self.new) }
    {
        let mut lifted_streams = Vec::new(self.alloc);
        for part in parts {
            let stream = self.hold(place, trigger, part)?;
            lifted_streams.push(stream)?;
        }
        Ok(lifted_streams)
    }

    /// Two parts, which are each other's triggers.
    fn hold_both(&mut self, place: Place, a: &Stream, b: &Stream) -> Result<Vec<Stream>, MakeFault>
        ensures made { OnOk result (self.new ≡ with_equations self.old (lifting place (length self.old.equations) (a.now ∷ b.now ∷ []))) }
        ensures streams { IfOk result (λ v. v.items ≡ lifted_streams (length self.old.equations) (a.now ∷ b.now ∷ [])) }
        ensures refused { IfErr result (IsRefusal (self.old.equations ++ lifting place (length self.old.equations) (a.now ∷ b.now ∷ []))) }
        ensures partly { OnErr result (HasFirst self.old (lifting place (length self.old.equations) (a.now ∷ b.now ∷ [])) self.new) }
    {
        let first = self.hold(place, b.id, a)?;
        let second = self.hold(place, a.id, b)?;
        let mut lifted_streams = Vec::new(self.alloc);
        lifted_streams.push(first)?;
        lifted_streams.push(second)?;
        Ok(lifted_streams)
    }

    /// The lifted parts: one needs nothing, two are each other's triggers, and the trigger of more is an event of any.
    pub(crate) fn lift_parts(
        &mut self,
        place: Place,
        parts: &[Stream],
    ) -> Result<Vec<Stream>, MakeFault>
        ensures made { OnOk result (self.new ≡ with_equations self.old (lifting place (length self.old.equations) parts.now)) }
        ensures streams { IfOk result (λ v. v.items ≡ lifted_streams (length self.old.equations) parts.now) }
        ensures refused { IfErr result (IsRefusal (self.old.equations ++ lifting place (length self.old.equations) parts.now)) }
        ensures partly { OnErr result (HasFirst self.old (lifting place (length self.old.equations) parts.now) self.new) }
    {
        if parts.len() < 2 {
            return Ok(Vec::from_slice(self.alloc, parts)?);
        }
        if parts.len() == 2 {
            return self.hold_both(place, &parts[0], &parts[1]);
        }
        let args = arguments::all(self.alloc, parts)?;
        let any = self.make(place, Op::Any, args, UNIT)?;
        self.hold_each(place, any.id, parts)
    }
}
