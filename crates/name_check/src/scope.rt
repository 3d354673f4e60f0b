// What is seen where.

ghost use Rattle.std.specs.Prelude.{◌≡◌, ◌+◌, ◌^◌, ◌<◌, [], ◌∷◌, if◌then◌else◌, IfOk};
ghost use Rattle.std.specs.List.{list_all, list_any};
ghost use Rattle.syntax_tree.specs.inner.OneLevel.{params_in, definitions_of};
ghost use Rattle.syntax_tree.specs.Counts.{counts};
ghost use Rattle.name_check.specs.Scope.{meaning, seen, functions_of, is_events, are_values, parameters_from, locals_from, Agree};

use crate::count::number_after;
use crate::declaration::Declaration;
use crate::names::Names;
use std::alloc::Global;
use std::marker::Model;
use syntax_tree::tree::{Definition, Param, TypeName, TypeShape};
use tsl_value::memory::NoMemory;

/// What is seen at a place: the names around it, where inner names hide outer ones. Contracts see the levels, the innermost of
/// which is the first.
#[cycle(scope)]
#[derive(Drop)]
pub struct Scope<'a> {
    seen: Seen<'a>,
}

#[cycle(scope)]
#[derive(Drop)]
enum Seen<'a> {
    All(&'a Names),
    Functions(&'a Names),
    Inner(Names, &'a Scope<'a>),
    Within(&'a Names, &'a Scope<'a>),
}

impl<'a> Model for Scope<'a> {
    ghost use Rattle.std.specs.Prelude.{List, length};
    ghost use Rattle.name_check.specs.Scope.{Scope as Entries};

    ghost Value = { List Entries };

    ghost use Rattle.name_check.specs.inner.Levels.{levels_of};

    ghost view = { λ s. levels_of s.seen };

    ghost size = { length };

    ghost use Rattle.std.proofs.Common.{arith};

    ghost size_decreases = { λ a h. Prim.grind arith };
}

impl<'a> Scope<'a> {
    /// All of the names.
    pub fn all(names: &'a Names) -> Scope<'a>
        ensures { result ≡ names.now ∷ [] }
    {
        Scope {
            seen: Seen::All(names),
        }
    }

    /// The value functions among the names.
    pub fn functions(names: &'a Names) -> Scope<'a>
        ensures { result ≡ functions_of names.now ∷ [] }
    {
        Scope {
            seen: Seen::Functions(names),
        }
    }

    /// What is seen around a definition with these parameters: the names, of which a value function sees the value functions
    /// alone.
    pub fn around(names: &'a Names, params: &[Param]) -> Scope<'a>
        ensures { result ≡ (if are_values (params_in params.now) then functions_of names.now else names.now) ∷ [] }
    {
        if are_values(params) {
            Scope::functions(names)
        } else {
            Scope::all(names)
        }
    }

    /// One more level inside.
    pub fn inner(level: Names, outer: &'a Scope<'a>) -> Scope<'a>
        ensures { result ≡ level ∷ outer.now }
    {
        Scope {
            seen: Seen::Inner(level, outer),
        }
    }

    /// One more level inside, which is lent: it is made once for several scopes.
    pub fn within(level: &'a Names, outer: &'a Scope<'a>) -> Scope<'a>
        ensures { result ≡ level.now ∷ outer.now }
    {
        Scope {
            seen: Seen::Within(level, outer),
        }
    }

    /// What a name stands for, if it is seen.
    pub fn find(&self, name: &str) -> Option<Declaration>
        ensures { result ≡ meaning (seen self.now) name.now }
    {
        match &self.seen {
            Seen::All(names) => names.find(name),
            Seen::Functions(names) => names.find_function(name),
            Seen::Inner(level, outer) => match level.find(name) {
                Some(declaration) => Some(declaration),
                None => outer.find(name),
            },
            Seen::Within(level, outer) => match level.find(name) {
                Some(declaration) => Some(declaration),
                None => outer.find(name),
            },
        }
    }
}

/// The type of a stream.
pub fn is_events(of: &TypeName) -> bool
    ensures { result ≡ is_events of.now }
{
    match of.shape() {
        TypeShape::Events(_) => true,
        _ => false,
    }
}

pub(crate) fn all_are_streams(params: &[Param]) -> bool
    ensures { result ≡ list_all (λ q. is_events q.of) params.now }
{
    params.iter().all(|param| is_events(&param.of))
}

/// Some of the parameters are streams.
pub fn some_are_streams(params: &[Param]) -> bool
    ensures { result ≡ list_any (λ q. is_events q.of) params.now }
{
    params.iter().any(|param| is_events(&param.of))
}

/// The parameters of a value function: there are some, and none is a stream.
pub fn are_values(params: &[Param]) -> bool
    ensures { result ≡ are_values (params_in params.now) }
{
    !params.is_empty() && !some_are_streams(params)
}

/// The names of parameters. The first of two equal names counts.
pub fn parameters(alloc: Global, params: &[Param]) -> Result<Names, NoMemory>
    ensures { IfOk result (λ names. Agree names (parameters_from 0 (params_in params.now))) }
{
    let mut names = Names::new(alloc);
    for (number, param) in params.iter().enumerate() {
        let _new = names.declare(param.name.as_str(), Declaration::Parameter(number))?;
    }
    Ok(names)
}

/// The names of a block's definitions, the first of which has this number. The first of two equal names counts.
pub fn locals(alloc: Global, first: usize, definitions: &[Definition]) -> Result<Names, NoMemory>
    requires { first + counts (definitions_of definitions.now) < 2 ^ 64 }
    ensures { IfOk result (λ names. Agree names (locals_from first (definitions_of definitions.now))) }
{
    let mut names = Names::new(alloc);
    let mut number = first;
    for definition in definitions {
        let parts = definition.parts();
        let _new = names.declare(parts.name.as_str(), Declaration::Local(number))?;
        number = number_after(number, &parts.body);
    }
    Ok(names)
}
