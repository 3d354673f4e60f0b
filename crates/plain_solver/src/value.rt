// Values: scalars, and aggregates.

ghost use Rattle.std.specs.Prelude.{◌≡◌, ◌↔◌, Some, IfOk, IsTrue};
ghost use Rattle.std.specs.Option.{option_copied, option_map};
ghost use Rattle.tsl_value.specs.View.{Plain};
ghost use Rattle.aggregate_store.specs.inner.CellView as cell_view;
ghost use Rattle.plain_solver.specs.inner.Lent.{aggregate_in};
ghost use Rattle.plain_solver.specs.inner.ValueView.{view_of};

use aggregate_store::cell::Cell;
use aggregate_store::same::is_same_cell;
use std::alloc::Global;
use std::marker::Model;
use std::rc::Rc;
use tsl_value::memory::NoMemory;
use tsl_value::scalar::Scalar;

/// A scalar, or a set, a map or a queue, which contracts see as its view. Copies of an aggregate share its cell.
#[derive(Drop)]
pub struct Value {
    held: Held,
}

/// What a value is.
#[derive(Drop)]
pub enum Held {
    Scalar(Scalar),
    Aggregate(Rc<Cell>),
}

impl Model for Value {
    ghost use Rattle.tsl_value.specs.View.{View};
    ghost use Rattle.tsl_value.specs.inner.ViewCode.{view_code};
    ghost use Rattle.plain_solver.specs.inner.ValueView.{view_of};

    ghost Value = { View };

    ghost coded = { view_code };

    ghost view = { λ v. view_of v.held };
}

impl Value {
    /// The value of a scalar.
    pub fn of_scalar(scalar: Scalar) -> Value
        ensures { result ≡ Plain scalar }
    {
        Value {
            held: Held::Scalar(scalar),
        }
    }

    /// The aggregate of a cell.
    pub fn of_cell(alloc: Global, cell: Cell) -> Result<Value, NoMemory>
        ensures { IfOk result (λ v. v ≡ cell_view.view_of cell) }
    {
        Ok(Value {
            held: Held::Aggregate(Rc::new(alloc, cell)?),
        })
    }

    /// What it is.
    pub fn held(&self) -> &Held
        ensures { view_of result.now ≡ self.now }
    {
        &self.held
    }

    /// The cell of an aggregate.
    pub(crate) fn cell(&self) -> Option<&Cell>
        ensures { option_map cell_view.view_of (option_copied result) ≡ aggregate_in (Some self.now) }
    {
        match &self.held {
            Held::Scalar(_) => None,
            Held::Aggregate(cell) => Some(cell),
        }
    }

    /// Whether it is this scalar.
    pub fn is_scalar(&self, scalar: &Scalar) -> bool
        ensures { IsTrue result ↔ self.now ≡ Plain scalar.now }
    {
        is_held_scalar(self.held(), scalar)
    }

    /// Whether contracts see both as one value.
    pub fn is_same(&self, other: &Value) -> bool
        ensures { IsTrue result ↔ self.now ≡ other.now }
    {
        are_same(self.held(), other.held())
    }

    /// An equal value.
    pub fn copy(&self) -> Result<Value, NoMemory>
        ensures { IfOk result (λ v. v ≡ self.now) }
    {
        match &self.held {
            Held::Scalar(scalar) => Ok(Value::of_scalar(scalar.copy()?)),
            Held::Aggregate(cell) => Ok(Value {
                held: Held::Aggregate(cell.clone()?),
            }),
        }
    }
}

/// What is held is this scalar.
fn is_held_scalar(held: &Held, scalar: &Scalar) -> bool
    ensures { IsTrue result ↔ view_of held.now ≡ Plain scalar.now }
{
    match held {
        Held::Scalar(own) => own == scalar,
        Held::Aggregate(_) => false,
    }
}

/// What is held is an aggregate with the view of a cell.
fn is_held_cell(held: &Held, cell: &Cell) -> bool
    ensures { IsTrue result ↔ view_of held.now ≡ cell_view.view_of cell.now }
{
    match held {
        Held::Scalar(_) => false,
        Held::Aggregate(own) => is_same_cell(own, cell),
    }
}

/// Both are seen as one value.
fn are_same(a: &Held, b: &Held) -> bool
    ensures { IsTrue result ↔ view_of a.now ≡ view_of b.now }
{
    match b {
        Held::Scalar(scalar) => is_held_scalar(a, scalar),
        Held::Aggregate(cell) => is_held_cell(a, cell),
    }
}

/// An equal value, if there is one.
pub fn copied(value: Option<&Value>) -> Result<Option<Value>, NoMemory>
    ensures { IfOk result (λ v. v ≡ option_copied value.entry) }
{
    match value {
        Some(v) => Ok(Some(v.copy()?)),
        None => Ok(None),
    }
}
