// The constructs without parts.

ghost use Rattle.std.specs.Prelude.{◌≡◌, ◌+◌, ◌≤◌, [], ◌∷◌, ◌++◌, length, IfOk, OnOk, IfErr, OnErr};
ghost use Rattle.stream_constructs.specs.Limits.{IsRefusal};
ghost use Rattle.stream_constructs.specs.Made.{HasFirst, with_equations, equations_for, stream_of};
ghost use Rattle.tsl_value.specs.View.{type_of};
ghost use Rattle.flat_core.specs.Typed.{unit_type};
ghost use Rattle.stream_constructs.specs.Construct as construct;
ghost use Rattle.stream_constructs.specs.Equations.{literal_over};
ghost use Rattle.stream_constructs.specs.Made.{input_equation};

use crate::arguments;
use crate::construct::Stream;
use crate::maker::{MakeFault, Maker};
use flat_core::equation::{Equation, Op};
use flat_core::lists::Args;
use lift_func::body::Body;
use tsl_value::ids::EqId;
use tsl_value::place::Place;
use tsl_value::scalar::{Scalar, ScalarType, ValueType};
use tsl_value::text::Text;

pub(crate) const INT: ValueType = ValueType::Scalar(ScalarType::Int);

pub(crate) const UNIT: ValueType = ValueType::Scalar(ScalarType::Unit);

fn scalar_type(s: &Scalar) -> ValueType
    ensures { result ≡ ValueType.Scalar (type_of s.now) }
{
    ValueType::Scalar(match s {
        Scalar::Unit => ScalarType::Unit,
        Scalar::Int(_) => ScalarType::Int,
        Scalar::Bool(_) => ScalarType::Bool,
        Scalar::Text(_) => ScalarType::Text,
    })
}

impl Maker {
    /// An input of a name.
    pub fn input(&mut self, place: Place, name: Text, of: ValueType) -> Result<Stream, MakeFault>
        ensures made { OnOk result (self.new ≡ with_equations self.old (input_equation place name of ∷ [])) }
        ensures stream { IfOk result (λ s. s ≡ stream_of self.old (input_equation place name of ∷ []) of) }
        ensures refused { IfErr result (IsRefusal (self.old.equations ++ input_equation place name of ∷ [])) }
        ensures err { OnErr result (self.new ≡ self.old) }
    {
        let id = self.add(Equation {
            op: Op::Input,
            args: Args::new(self.alloc),
            of,
            place,
            name: Some(name),
        })?;
        Ok(Stream { id, of })
    }

    /// The stream without events.
    pub fn nil(&mut self, place: Place, of: ValueType) -> Result<Stream, MakeFault>
        ensures made { OnOk result (self.new ≡ with_equations self.old (equations_for self.old place of construct.Nil [])) }
        ensures stream { IfOk result (λ s. s ≡ stream_of self.old (equations_for self.old place of construct.Nil []) of) }
        ensures refused { IfErr result (IsRefusal (self.old.equations ++ equations_for self.old place of construct.Nil [])) }
        ensures err { OnErr result (self.new ≡ self.old) }
    {
        self.make(place, Op::Nil, Args::new(self.alloc), of)
    }

    /// A unit at time 0.
    pub fn unit(&mut self, place: Place) -> Result<Stream, MakeFault>
        ensures made { OnOk result (self.new ≡ with_equations self.old (equations_for self.old place unit_type construct.Unit [])) }
        ensures stream { IfOk result (λ s. s ≡ stream_of self.old (equations_for self.old place unit_type construct.Unit []) unit_type) }
        ensures refused { IfErr result (IsRefusal (self.old.equations ++ equations_for self.old place unit_type construct.Unit [])) }
        ensures err { OnErr result (self.new ≡ self.old) }
    {
        self.make(place, Op::Unit, Args::new(self.alloc), UNIT)
    }

    /// A literal wherever an equation has an event.
    pub(crate) fn literal_over(
        &mut self,
        place: Place,
        s: Scalar,
        over: EqId,
    ) -> Result<Stream, MakeFault>
        ensures id { IfOk result (λ t. t.id ≡ length self.old.equations) }
        ensures made { OnOk result (self.new ≡ with_equations self.old (literal_over place s over ∷ [])) }
        ensures stream { IfOk result (λ t. t ≡ stream_of self.old (literal_over place s over ∷ []) (ValueType.Scalar (type_of s))) }
        ensures refused { IfErr result (IsRefusal (self.old.equations ++ literal_over place s over ∷ [])) }
        ensures err { OnErr result (self.new ≡ self.old) }
    {
        let of = scalar_type(&s);
        let op = Op::Lift {
            body: Body::literal(s),
            strict: true,
        };
        let args = arguments::one(self.alloc, over)?;
        self.make(place, op, args, of)
    }

    /// A literal at time 0.
    pub fn literal(&mut self, place: Place, s: Scalar) -> Result<Stream, MakeFault>
        ensures made { OnOk result (self.new ≡ with_equations self.old
            (equations_for self.old place (ValueType.Scalar (type_of s)) (construct.Literal s) [])) }
        ensures stream { IfOk result (λ t. t ≡ stream_of self.old
            (equations_for self.old place (ValueType.Scalar (type_of s)) (construct.Literal s) []) (ValueType.Scalar (type_of s))) }
        ensures refused { IfErr result (IsRefusal (self.old.equations
            ++ equations_for self.old place (ValueType.Scalar (type_of s)) (construct.Literal s) [])) }
        ensures partly { OnErr result (HasFirst self.old
            (equations_for self.old place (ValueType.Scalar (type_of s)) (construct.Literal s) []) self.new) }
    {
        let start = self.unit(place)?;
        self.literal_over(place, s, start.id)
    }

    /// A set or a map without elements at time 0.
    pub fn empty(&mut self, place: Place, of: ValueType) -> Result<Stream, MakeFault>
        ensures made { OnOk result (self.new ≡ with_equations self.old (equations_for self.old place of (construct.Empty of) [])) }
        ensures stream { IfOk result (λ s. s ≡ stream_of self.old (equations_for self.old place of (construct.Empty of) []) of) }
        ensures refused { IfErr result (IsRefusal (self.old.equations ++ equations_for self.old place of (construct.Empty of) [])) }
        ensures err { OnErr result (self.new ≡ self.old) }
    {
        self.make(place, Op::Empty, Args::new(self.alloc), of)
    }
}
