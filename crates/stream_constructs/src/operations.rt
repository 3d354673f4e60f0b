// The constructs of one operation or two.

ghost use Rattle.std.specs.Prelude.{◌≡◌, ◌+◌, ◌≤◌, [], ◌∷◌, ◌++◌, length, IfOk, OnOk, IfErr, OnErr};
ghost use Rattle.stream_constructs.specs.Limits.{IsRefusal};
ghost use Rattle.stream_constructs.specs.Made.{HasFirst, with_equations, equations_for, stream_of};
ghost use Rattle.tsl_value.specs.View.{type_of};
ghost use Rattle.flat_core.specs.Typed.{int_type, unit_type};
ghost use Rattle.stream_constructs.specs.Construct as construct;
ghost use Rattle.stream_constructs.specs.Equations.{alias_equation};

use crate::arguments;
use crate::construct::Stream;
use crate::maker::{MakeFault, Maker};
use crate::sources::{INT, UNIT};
use flat_core::equation::Op;
use lift_func::body::Body;
use tsl_value::place::Place;
use tsl_value::scalar::{Scalar, ValueType};

impl Maker {
    /// The time of each event of a stream.
    pub fn time(&mut self, place: Place, a: Stream) -> Result<Stream, MakeFault>
        ensures made { OnOk result (self.new ≡ with_equations self.old (equations_for self.old place int_type construct.Time (a ∷ []))) }
        ensures stream { IfOk result (λ s. s ≡ stream_of self.old
            (equations_for self.old place int_type construct.Time (a ∷ [])) int_type) }
        ensures refused { IfErr result (IsRefusal (self.old.equations ++ equations_for self.old place int_type construct.Time (a ∷ []))) }
        ensures err { OnErr result (self.new ≡ self.old) }
    {
        let args = arguments::one(self.alloc, a.id)?;
        self.make(place, Op::Time, args, INT)
    }

    /// The latest event of `v` before each event of `r`.
    pub fn last(&mut self, place: Place, v: Stream, r: Stream) -> Result<Stream, MakeFault>
        ensures made { OnOk result (self.new ≡ with_equations self.old (equations_for self.old place v.of construct.Last (v ∷ r ∷ []))) }
        ensures stream { IfOk result (λ s. s ≡ stream_of self.old (equations_for self.old place v.of construct.Last (v ∷ r ∷ [])) v.of) }
        ensures refused { IfErr result (IsRefusal (self.old.equations ++ equations_for self.old place v.of construct.Last (v ∷ r ∷ []))) }
        ensures err { OnErr result (self.new ≡ self.old) }
    {
        let args = arguments::two(self.alloc, v.id, r.id)?;
        self.make(place, Op::Last, args, v.of)
    }

    /// A unit when an amount of `d` has passed without an event of `r`.
    pub fn delay(&mut self, place: Place, d: Stream, r: Stream) -> Result<Stream, MakeFault>
        ensures made { OnOk result (self.new ≡ with_equations self.old (equations_for self.old place unit_type construct.Delay
            (d ∷ r ∷ record { id = length self.old.equations; of = unit_type } ∷ []))) }
        ensures stream { IfOk result (λ s. s ≡ stream_of self.old (equations_for self.old place unit_type construct.Delay
            (d ∷ r ∷ record { id = length self.old.equations; of = unit_type } ∷ [])) unit_type) }
        ensures refused { IfErr result (IsRefusal (self.old.equations ++ equations_for self.old place unit_type construct.Delay
            (d ∷ r ∷ record { id = length self.old.equations; of = unit_type } ∷ []))) }
        ensures err { OnErr result (self.new ≡ self.old) }
    {
        let args = arguments::two(self.alloc, d.id, r.id)?;
        self.make(place, Op::Delay, args, UNIT)
    }

    /// The events of `a`, and those of `b` where `a` has none.
    pub fn merge(&mut self, place: Place, a: Stream, b: Stream) -> Result<Stream, MakeFault>
        ensures made { OnOk result (self.new ≡ with_equations self.old (equations_for self.old place a.of construct.Merge (a ∷ b ∷ []))) }
        ensures stream { IfOk result (λ s. s ≡ stream_of self.old (equations_for self.old place a.of construct.Merge (a ∷ b ∷ [])) a.of) }
        ensures refused { IfErr result (IsRefusal (self.old.equations ++ equations_for self.old place a.of construct.Merge (a ∷ b ∷ []))) }
        ensures err { OnErr result (self.new ≡ self.old) }
    {
        let args = arguments::two(self.alloc, a.id, b.id)?;
        self.make(place, Op::Merge, args, a.of)
    }

    /// A literal at each event of a stream.
    pub fn constant(&mut self, place: Place, s: Scalar, e: Stream) -> Result<Stream, MakeFault>
        ensures made { OnOk result (self.new ≡ with_equations self.old
            (equations_for self.old place (ValueType.Scalar (type_of s)) (construct.Const s) (e ∷ []))) }
        ensures stream { IfOk result (λ t. t ≡ stream_of self.old
            (equations_for self.old place (ValueType.Scalar (type_of s)) (construct.Const s) (e ∷ [])) (ValueType.Scalar (type_of s))) }
        ensures refused { IfErr result (IsRefusal (self.old.equations
            ++ equations_for self.old place (ValueType.Scalar (type_of s)) (construct.Const s) (e ∷ []))) }
        ensures err { OnErr result (self.new ≡ self.old) }
    {
        self.literal_over(place, s, e.id)
    }

    /// The events of `e` at which the current value of `c` is true.
    pub fn filter(&mut self, place: Place, e: Stream, c: Stream) -> Result<Stream, MakeFault>
        ensures made { OnOk result (self.new ≡ with_equations self.old (equations_for self.old place e.of construct.Filter (e ∷ c ∷ []))) }
        ensures stream { IfOk result (λ s. s ≡ stream_of self.old (equations_for self.old place e.of construct.Filter (e ∷ c ∷ [])) e.of) }
        ensures refused { IfErr result (IsRefusal (self.old.equations ++ equations_for self.old place e.of construct.Filter (e ∷ c ∷ []))) }
        ensures partly { OnErr result (HasFirst self.old (equations_for self.old place e.of construct.Filter (e ∷ c ∷ [])) self.new) }
    {
        let held = self.hold(place, e.id, &c)?;
        let args = arguments::two(self.alloc, e.id, held.id)?;
        self.make(place, Op::Filter, args, e.of)
    }

    /// A filter by a literal.
    pub fn filter_by(&mut self, place: Place, e: Stream, holds: bool) -> Result<Stream, MakeFault>
        ensures made { OnOk result (self.new ≡ with_equations self.old
            (equations_for self.old place e.of (construct.FilterBy holds) (e ∷ []))) }
        ensures stream { IfOk result (λ s. s ≡ stream_of self.old
            (equations_for self.old place e.of (construct.FilterBy holds) (e ∷ [])) e.of) }
        ensures refused { IfErr result (IsRefusal (self.old.equations
            ++ equations_for self.old place e.of (construct.FilterBy holds) (e ∷ []))) }
        ensures partly { OnErr result (HasFirst self.old (equations_for self.old place e.of (construct.FilterBy holds) (e ∷ [])) self.new) }
    {
        let condition = self.literal_over(place, Scalar::Bool(holds), e.id)?;
        let args = arguments::two(self.alloc, e.id, condition.id)?;
        self.make(place, Op::Filter, args, e.of)
    }

    /// A function of the options of events.
    pub fn lift(
        &mut self,
        place: Place,
        body: Body,
        parts: &[Stream],
        of: ValueType,
    ) -> Result<Stream, MakeFault>
        ensures made { OnOk result (self.new ≡ with_equations self.old (equations_for self.old place of (construct.Lift body) parts.now)) }
        ensures stream { IfOk result (λ s. s ≡ stream_of self.old (equations_for self.old place of (construct.Lift body) parts.now) of) }
        ensures refused { IfErr result (IsRefusal (self.old.equations ++ equations_for self.old place of (construct.Lift body) parts.now)) }
        ensures err { OnErr result (self.new ≡ self.old) }
    {
        let args = arguments::all(self.alloc, parts)?;
        let op = Op::Lift {
            body,
            strict: false,
        };
        self.make(place, op, args, of)
    }

    /// A definition that is only a name: the merge of its stream with itself.
    pub fn alias(&mut self, place: Place, a: Stream) -> Result<Stream, MakeFault>
        ensures made { OnOk result (self.new ≡ with_equations self.old (alias_equation place a ∷ [])) }
        ensures stream { IfOk result (λ s. s ≡ stream_of self.old (alias_equation place a ∷ []) a.of) }
        ensures refused { IfErr result (IsRefusal (self.old.equations ++ alias_equation place a ∷ [])) }
        ensures err { OnErr result (self.new ≡ self.old) }
    {
        let args = arguments::two(self.alloc, a.id, a.id)?;
        self.make(place, Op::Merge, args, a.of)
    }
}
