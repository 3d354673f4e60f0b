// Equations and outputs.

ghost use Rattle.std.specs.Prelude.{◌≡◌, drop, IfOk};
ghost use Rattle.flat_core.specs.Updates.{is_update, operation_of, update_in};
ghost use Rattle.flat_core.specs.WellFormed.{unguarded_of};

use crate::lists::Args;
use lift_func::body::Body;
use tsl_value::ids::EqId;
use tsl_value::memory::NoMemory;
use tsl_value::operation::Update;
use tsl_value::place::Place;
use tsl_value::scalar::ValueType;
use tsl_value::text::Text;

/// The operation of an equation.
#[derive(Drop)]
pub enum Op {
    Input,
    Nil,
    Unit,
    Lift { body: Body, strict: bool },
    Any,
    Time,
    Last,
    Delay,
    Merge,
    Filter,
    Pick,
    Empty,
    MapAdd,
    MapRemove,
    SetAdd,
    SetRemove,
    QueueAdd,
    QueueTake,
}

/// One stream: an operation on the streams of other equations.
///
/// `of` is the type of its events, `place` its place in the source, and `name` the name that it has there, if any.
#[derive(Drop)]
pub struct Equation {
    pub op: Op,
    pub args: Args,
    pub of: ValueType,
    pub place: Place,
    pub name: Option<Text>,
}

/// The events of an equation are printed under a name.
#[derive(Drop)]
pub struct Output {
    pub name: Text,
    pub equation: EqId,
}

impl Op {
    /// The operation of an update.
    pub fn of_update(update: Update) -> Op
        ensures { result ≡ operation_of update }
    {
        match update {
            Update::SetAdd => Op::SetAdd,
            Update::SetRemove => Op::SetRemove,
            Update::MapAdd => Op::MapAdd,
            Update::MapRemove => Op::MapRemove,
            Update::QueueAdd => Op::QueueAdd,
            Update::QueueTake => Op::QueueTake,
        }
    }

    /// The update that it is, if it is one.
    pub fn update(&self) -> Option<Update>
        ensures { result ≡ update_in self.now }
    {
        match self {
            Op::SetAdd => Some(Update::SetAdd),
            Op::SetRemove => Some(Update::SetRemove),
            Op::MapAdd => Some(Update::MapAdd),
            Op::MapRemove => Some(Update::MapRemove),
            Op::QueueAdd => Some(Update::QueueAdd),
            Op::QueueTake => Some(Update::QueueTake),
            _ => None,
        }
    }

    /// Whether it is an update.
    pub fn is_update(&self) -> bool
        ensures { result ≡ is_update self.now }
    {
        self.update().is_some()
    }

    fn copy(&self) -> Result<Op, NoMemory>
        ensures { IfOk result (λ o. o ≡ self.now) }
    {
        Ok(match self {
            Op::Lift { body, strict } => Op::Lift {
                body: body.copy()?,
                strict: *strict,
            },
            Op::Input => Op::Input,
            Op::Nil => Op::Nil,
            Op::Unit => Op::Unit,
            Op::Any => Op::Any,
            Op::Time => Op::Time,
            Op::Last => Op::Last,
            Op::Delay => Op::Delay,
            Op::Merge => Op::Merge,
            Op::Filter => Op::Filter,
            Op::Pick => Op::Pick,
            Op::Empty => Op::Empty,
            Op::MapAdd => Op::MapAdd,
            Op::MapRemove => Op::MapRemove,
            Op::SetAdd => Op::SetAdd,
            Op::SetRemove => Op::SetRemove,
            Op::QueueAdd => Op::QueueAdd,
            Op::QueueTake => Op::QueueTake,
        })
    }
}

fn copied_name(name: &Option<Text>) -> Result<Option<Text>, NoMemory>
    ensures { IfOk result (λ n. n ≡ name.now) }
{
    match name {
        Some(name) => Ok(Some(name.copy()?)),
        None => Ok(None),
    }
}

impl Equation {
    /// The arguments after the first.
    pub fn other_args(&self) -> &[EqId]
        ensures { result.now ≡ drop 1 self.now.args }
    {
        let arguments = self.args.ids();
        match arguments.split_first() {
            Some((_, rest)) => rest,
            None => arguments,
        }
    }

    /// The arguments that an event may need at its own time: all, but of a last and of a delay all but the first.
    pub fn unguarded(&self) -> &[EqId]
        ensures { result.now ≡ unguarded_of self.now.op self.now.args }
    {
        match &self.op {
            Op::Last | Op::Delay => self.other_args(),
            _ => self.args.ids(),
        }
    }

    /// An equal equation.
    pub fn copy(&self) -> Result<Equation, NoMemory>
        ensures { IfOk result (λ e. e ≡ self.now) }
    {
        Ok(Equation {
            op: self.op.copy()?,
            args: self.args.copy()?,
            of: self.of,
            place: self.place,
            name: copied_name(&self.name)?,
        })
    }
}
