// Where an expression stands.

ghost use Rattle.std.specs.Prelude.{◌≡◌, IfOk, map, slice_get};
ghost use Rattle.std.specs.Option.{option_map};
ghost use Rattle.syntax_tree.specs.inner.OneLevel.{item_of, params_in};
ghost use Rattle.name_check.specs.Scope.{seen};
ghost use Rattle.expr_types.specs.Around.{declared_type, callee_at, callee_of, param_types};
ghost use Rattle.syntax_tree.specs.Tree.{params_of};
ghost use Rattle.expr_types.specs.Judge.{function_at, function_of};
ghost use Rattle.expr_types.specs.inner.Shown.{around_of, callee_in};
ghost use Rattle.expr_types.specs.inner.Answers.{types_in};

use crate::kinds::KindTable;
use name_check::declaration::Declaration;
use name_check::scope::Scope;
use std::alloc::Global;
use syntax_tree::tree::{Expr, Item, Node, Param};
use tsl_value::memory::NoMemory;
use type_rules::rule::{ExprType, Setting};
use type_rules::written::as_written;

/// Where an expression stands, and what the declared names are there.
#[derive(Drop)]
pub struct Around<'a> {
    pub items: &'a [Item],
    pub kinds: &'a KindTable,
    pub scope: &'a Scope<'a>,
    pub setting: Setting,
    /// The number of the item around.
    pub number: usize,
    /// The parameters of the definition around.
    pub params: &'a [Param],
}

/// What a macro or a value function takes, and what a call of it gives.
#[derive(Drop)]
pub struct Callee {
    pub params: Vec<ExprType>,
    pub of: ExprType,
}

/// What parameters are, if each is something.
fn param_types(alloc: Global, params: &[Param]) -> Result<Option<Vec<ExprType>>, NoMemory>
    ensures { IfOk result (λ types. types_in types ≡ param_types (params_in params.now)) }
{
    let mut types = Vec::new(alloc);
    for param in params {
        match as_written(&param.of) {
            Some(of) => types.push(of)?,
            None => return Ok(None),
        }
    }
    Ok(Some(types))
}

/// What the parameters of an item are, if each is something.
fn types_at(alloc: Global, items: &[Item], number: usize) -> Result<Option<Vec<ExprType>>, NoMemory>
    ensures { IfOk result (λ types. types_in types ≡ param_types (params_of (slice_get (map item_of items.now) number))) }
{
    match items.get(number) {
        Some(Item::Defined(_, definition)) => param_types(alloc, &definition.parts().params),
        Some(Item::Input(_, _, _, _)) => Ok(Some(Vec::new(alloc))),
        Some(Item::Output(_, _, _)) => Ok(Some(Vec::new(alloc))),
        Some(Item::OutputAs(_, _, _, _)) => Ok(Some(Vec::new(alloc))),
        None => Ok(Some(Vec::new(alloc))),
    }
}

fn known_callee(params: Option<Vec<ExprType>>, of: Option<ExprType>) -> Option<Callee>
    ensures { option_map callee_in result ≡ callee_of (types_in params) of }
{
    match (params, of) {
        (Some(params), Some(of)) => Some(Callee { params, of }),
        (Some(_), None) => None,
        (None, _) => None,
    }
}

impl<'a> Around<'a> {
    /// The same where other names are seen.
    pub fn within(&self, scope: &'a Scope<'a>) -> Around<'a>
        ensures { around_of result ≡ record (around_of self.now) { scope = seen scope.now } }
    {
        Around {
            items: self.items,
            kinds: self.kinds,
            scope,
            setting: self.setting,
            number: self.number,
            params: self.params,
        }
    }

    /// What a name is that is mentioned. One that takes arguments is nothing.
    pub fn declared_type(&self, declaration: Declaration) -> Option<ExprType>
        ensures { result ≡ declared_type (around_of self.now) declaration }
    {
        match declaration {
            Declaration::Input(number) => self.kinds.item(number),
            Declaration::Stream(number) => self.kinds.item(number),
            Declaration::Parameter(number) => match self.params.get(number) {
                Some(param) => as_written(&param.of),
                None => None,
            },
            Declaration::Local(number) => self.kinds.local(self.number, number),
            Declaration::Macro(_) => None,
            Declaration::Function(_) => None,
            Declaration::Mixed(_) => None,
        }
    }

    /// What the macro or value function of an item takes and gives, if that is known.
    pub fn callee_at(&self, alloc: Global, number: usize) -> Result<Option<Callee>, NoMemory>
        ensures { IfOk result (λ found. option_map callee_in found ≡ callee_at (around_of self.now) number) }
    {
        let params = types_at(alloc, self.items, number)?;
        Ok(known_callee(params, self.kinds.item(number)))
    }

    fn function_at(
        &self,
        alloc: Global,
        declaration: Option<Declaration>,
    ) -> Result<Option<Callee>, NoMemory>
        ensures { IfOk result (λ found. option_map callee_in found ≡ function_at (around_of self.now) declaration) }
    {
        match declaration {
            Some(Declaration::Function(number)) => self.callee_at(alloc, number),
            Some(Declaration::Input(_)) => Ok(None),
            Some(Declaration::Stream(_)) => Ok(None),
            Some(Declaration::Parameter(_)) => Ok(None),
            Some(Declaration::Local(_)) => Ok(None),
            Some(Declaration::Macro(_)) => Ok(None),
            Some(Declaration::Mixed(_)) => Ok(None),
            None => Ok(None),
        }
    }

    /// The value function that the last argument of a `lift` names, if that is known.
    pub fn function_of(&self, alloc: Global, named: &Expr) -> Result<Option<Callee>, NoMemory>
        ensures { IfOk result (λ found. option_map callee_in found ≡ function_of (around_of self.now) named.now) }
    {
        match named.node() {
            Node::Name(name) => self.function_at(alloc, self.scope.find(name.as_str())),
            _ => Ok(None),
        }
    }
}
