// Where an expression of a value function stands, and what stands alone there.

ghost use Rattle.std.specs.Prelude.{◌≡◌, IfOk, List, map, slice_index_or};
ghost use Rattle.lift_func.specs.BodyTree.{BodyTree, One};
ghost use Rattle.lift_func.specs.inner.Placed.{within};
ghost use Rattle.name_check.specs.Scope.{meaning, seen};
ghost use Rattle.spec_meaning.specs.Function.{no_tree, named_tree, absent};
ghost use Rattle.type_rules.specs.Written.{value_of};
ghost use Rattle.syntax_tree.specs.inner.OneLevel.{params_in};
ghost use Rattle.function_bodies.specs.inner.Around.{args_at, call_of};

use lift_func::body::Body;
use name_check::declaration::Declaration;
use name_check::scope::Scope;
use std::alloc::Global;
use syntax_tree::tree::{Param, TypeName};
use tsl_value::memory::NoMemory;
use tsl_value::scalar::Scalar;
use type_rules::written::value_of;

/// What an expression of a value function stands in: the bodies of items that are made so far, the names that are seen, and the
/// parameters. A body that is missing has too many nodes.
#[derive(Drop)]
pub(crate) struct Around<'a> {
    pub(crate) functions: &'a [Option<Body>],
    pub(crate) scope: &'a Scope<'a>,
    pub(crate) params: &'a [Param],
}

/// What stands for an expression that no value function has.
pub(crate) fn unit() -> Option<Body>
    ensures { result ≡ within no_tree }
{
    Some(Body::literal(Scalar::Unit))
}

/// The absent value of the option of a written type.
pub(crate) fn absent(of: &TypeName) -> Option<Body>
    ensures { result ≡ within (absent (value_of of.now)) }
{
    match value_of(of) {
        Some(of) => Some(Body::none(of)),
        None => unit(),
    }
}

impl Around<'_> {
    /// The parameter of this number.
    fn parameter(&self, number: usize) -> Option<Body>
        ensures { result ≡ within (slice_index_or (args_at self.now) number no_tree) }
    {
        if number >= self.params.len() {
            unit()
        } else {
            Some(Body::argument(number))
        }
    }

    /// What a name stands for that is not called.
    pub(crate) fn named(&self, name: &str) -> Option<Body>
        ensures { result ≡ within (named_tree (seen self.now.scope.now) (args_at self.now) (call_of self.now.functions.now)
            (meaning (seen self.now.scope.now) name.now)) }
    {
        match self.scope.find(name) {
            Some(Declaration::Parameter(number)) => self.parameter(number),
            Some(Declaration::Input(_)) | Some(Declaration::Stream(_)) => unit(),
            Some(Declaration::Macro(_)) | Some(Declaration::Function(_)) => unit(),
            Some(Declaration::Mixed(_)) | Some(Declaration::Local(_)) => unit(),
            None => unit(),
        }
    }
}

/// The value function of an item at operands, from bodies of which those that are too large are missing.
pub(crate) fn call_body(
    alloc: Global,
    functions: &[Option<Body>],
    number: usize,
    operands: &[Option<Body>],
) -> Result<Option<Body>, NoMemory>
    ensures { IfOk result (λ b. (ts : List BodyTree) → operands.now ≡ map within ts → b ≡ within (call_of functions.now number ts)) }
{
    match functions.get(number) {
        Some(Some(body)) => body.placed(alloc, operands),
        Some(None) => Ok(None),
        None => Ok(None),
    }
}
