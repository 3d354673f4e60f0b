// Operations on current values, of which some operands may be literals.

ghost use Rattle.std.specs.Prelude.{◌≡◌, ◌+◌, ◌≤◌, [], ◌∷◌, ◌++◌, length, IfOk, OnOk, IfErr, OnErr};
ghost use Rattle.stream_constructs.specs.Limits.{IsRefusal};
ghost use Rattle.stream_constructs.specs.Construct as construct;
ghost use Rattle.stream_constructs.specs.Equations.{equation, numbers, first_number, literal_equations, operand_numbers, with_literals};
ghost use Rattle.stream_constructs.specs.Equations.{choice_equations};
ghost use Rattle.stream_constructs.specs.Made.{HasFirst, with_equations, equations_for, stream_of, operands_of, varying_of, varying_count};
ghost use Rattle.flat_core.specs.Typed.{unit_type};

use crate::arguments;
use crate::construct::{Operand, Stream};
use crate::maker::{MakeFault, Maker};
use flat_core::equation::Op;
use flat_core::lists::Args;
use lift_func::body::Body;
use std::alloc::{AllocError, Global};
use tsl_value::ids::EqId;
use tsl_value::operation::Update;
use tsl_value::place::Place;
use tsl_value::scalar::ValueType;

fn varying(alloc: Global, operands: &[Operand]) -> Result<Vec<Stream>, AllocError>
    ensures { IfOk result (λ v. v.items ≡ varying_of operands.now) }
{
    let mut streams = Vec::new(alloc);
    for operand in operands {
        if let Operand::Varying(stream) = operand {
            streams.push(*stream)?;
        }
    }
    Ok(streams)
}

fn first_id(streams: &[Stream]) -> EqId
    ensures { result ≡ first_number streams.now }
{
    match streams.first() {
        Some(stream) => stream.id,
        None => EqId::new(0),
    }
}

impl Maker {
    /// An operation on the unit at time 0.
    fn once(&mut self, place: Place, op: Op, of: ValueType) -> Result<Stream, MakeFault>
        ensures made { OnOk result (self.new ≡ with_equations self.old
            (equation place Op.Unit [] unit_type ∷ equation place op (length self.old.equations ∷ []) of ∷ [])) }
        ensures stream { IfOk result (λ s. s ≡ stream_of self.old
            (equation place Op.Unit [] unit_type ∷ equation place op (length self.old.equations ∷ []) of ∷ []) of) }
        ensures refused { IfErr result (IsRefusal (self.old.equations
            ++ equation place Op.Unit [] unit_type ∷ equation place op (length self.old.equations ∷ []) of ∷ [])) }
        ensures partly { OnErr result (HasFirst self.old
            (equation place Op.Unit [] unit_type ∷ equation place op (length self.old.equations ∷ []) of ∷ []) self.new) }
    {
        let start = self.unit(place)?;
        let args = arguments::one(self.alloc, start.id)?;
        self.make(place, op, args, of)
    }

    /// A function of the current values of streams.
    pub fn signal(
        &mut self,
        place: Place,
        body: Body,
        parts: &[Stream],
        of: ValueType,
    ) -> Result<Stream, MakeFault>
        ensures made { OnOk result (self.new ≡ with_equations self.old
            (equations_for self.old place of (construct.Signal body) parts.now)) }
        ensures stream { IfOk result (λ s. s ≡ stream_of self.old (equations_for self.old place of (construct.Signal body) parts.now) of) }
        ensures refused { IfErr result (IsRefusal (self.old.equations
            ++ equations_for self.old place of (construct.Signal body) parts.now)) }
        ensures partly { OnErr result (HasFirst self.old (equations_for self.old place of (construct.Signal body) parts.now) self.new) }
    {
        let op = Op::Lift { body, strict: true };
        if parts.is_empty() {
            return self.once(place, op, of);
        }
        let lifted_streams = self.lift_parts(place, parts)?;
        let args = arguments::all(self.alloc, &lifted_streams)?;
        self.make(place, op, args, of)
    }

    /// An equation for each literal among operands, and the numbers of all operands.
    fn operand_args(
        &mut self,
        place: Place,
        first: EqId,
        operands: &[Operand],
        lifted_streams: &[Stream],
    ) -> Result<Args, MakeFault>
        requires { varying_count (operands_of operands.now) ≡ length lifted_streams.now }
        ensures made { OnOk result (self.new ≡ with_equations self.old (literal_equations place first (operands_of operands.now))) }
        ensures args { IfOk result (λ args. args ≡ operand_numbers (length self.old.equations)
            (operands_of operands.now) (numbers lifted_streams.now)) }
        ensures refused { IfErr result (IsRefusal (self.old.equations ++ literal_equations place first (operands_of operands.now))) }
        ensures partly { OnErr result (HasFirst self.old (literal_equations place first (operands_of operands.now)) self.new) }
    {
        let mut args = Args::new(self.alloc);
        let mut next = 0;
        for operand in operands {
            match operand {
                Operand::Fixed(s) => {
                    let literal = self.literal_over(place, s.copy()?, first)?;
                    args.push(literal.id)?;
                }
                Operand::Varying(_) => {
                    args.push(lifted_streams[next].id)?;
                    next += 1;
                }
            }
        }
        Ok(args)
    }

    /// An operation on operands where each has a value.
    fn over_operands(
        &mut self,
        place: Place,
        op: Op,
        operands: &[Operand],
        of: ValueType,
    ) -> Result<Stream, MakeFault>
        ensures made { OnOk result (self.new ≡ with_equations self.old
            (with_literals place op of (length self.old.equations) (operands_of operands.now) (varying_of operands.now))) }
        ensures stream { IfOk result (λ s. s ≡ stream_of self.old
            (with_literals place op of (length self.old.equations) (operands_of operands.now) (varying_of operands.now)) of) }
        ensures refused { IfErr result (IsRefusal (self.old.equations
            ++ with_literals place op of (length self.old.equations) (operands_of operands.now) (varying_of operands.now))) }
        ensures partly { OnErr result (HasFirst self.old
            (with_literals place op of (length self.old.equations) (operands_of operands.now) (varying_of operands.now)) self.new) }
    {
        let parts = varying(self.alloc, operands)?;
        let lifted_streams = self.lift_parts(place, &parts)?;
        let args = self.operand_args(place, first_id(&lifted_streams), operands, &lifted_streams)?;
        self.make(place, op, args, of)
    }

    /// An update of an aggregate.
    pub fn update(
        &mut self,
        place: Place,
        op: Update,
        operands: &[Operand],
        of: ValueType,
    ) -> Result<Stream, MakeFault>
        ensures made { OnOk result (self.new ≡ with_equations self.old
            (equations_for self.old place of (construct.Update op (operands_of operands.now)) (varying_of operands.now))) }
        ensures stream { IfOk result (λ s. s ≡ stream_of self.old
            (equations_for self.old place of (construct.Update op (operands_of operands.now)) (varying_of operands.now)) of) }
        ensures refused { IfErr result (IsRefusal (self.old.equations
            ++ equations_for self.old place of (construct.Update op (operands_of operands.now)) (varying_of operands.now))) }
        ensures partly { OnErr result (HasFirst self.old
            (equations_for self.old place of (construct.Update op (operands_of operands.now)) (varying_of operands.now)) self.new) }
    {
        self.over_operands(place, Op::of_update(op), operands, of)
    }

    /// A choice between two sets or two maps, by a condition before them.
    pub fn choice(
        &mut self,
        place: Place,
        operands: &[Operand],
        of: ValueType,
    ) -> Result<Stream, MakeFault>
        ensures made { OnOk result (self.new ≡ with_equations self.old
            (choice_equations place of (length self.old.equations) (operands_of operands.now) (varying_of operands.now))) }
        ensures stream { IfOk result (λ s. s ≡ stream_of self.old
            (choice_equations place of (length self.old.equations) (operands_of operands.now) (varying_of operands.now)) of) }
        ensures refused { IfErr result (IsRefusal (self.old.equations
            ++ choice_equations place of (length self.old.equations) (operands_of operands.now) (varying_of operands.now))) }
        ensures partly { OnErr result (HasFirst self.old
            (choice_equations place of (length self.old.equations) (operands_of operands.now) (varying_of operands.now)) self.new) }
    {
        self.over_operands(place, Op::Pick, operands, of)
    }
}
