// The bodies of the value functions of a specification.

ghost use Rattle.std.specs.Prelude.{◌≡◌, List, None, Some, length, map, IfOk, OnOk, slice_get, slice_index_or};
ghost use Rattle.std.specs.Option.{option_copied};
ghost use Rattle.lift_func.specs.inner.Placed.{within};
ghost use Rattle.syntax_tree.specs.Tree as tree;
ghost use Rattle.syntax_tree.specs.inner.OneLevel.{item_of};
ghost use Rattle.name_check.specs.Scope.{top};
ghost use Rattle.name_check.specs.Faults.{first};
ghost use Rattle.spec_meaning.specs.Function.{function_at};
ghost use Rattle.function_bodies.specs.inner.Calls.{ArePlain, IsCallOrder, IsFunction};
ghost use Rattle.function_bodies.specs.Bodies.{AreBodies, too_large_bodies, too_large_in};
ghost use Rattle.function_bodies.specs.inner.Made.{IsStep};

use crate::around::call_body;
use crate::definition::{item_body, item_place};
use lift_func::body::Body;
use name_check::names::Names;
use std::alloc::Global;
use std::marker::Model;
use syntax_tree::tree::Item;
use translation_order::steps::Steps;
use tsl_value::memory::NoMemory;
use tsl_value::place::Place;

/// The bodies of the value functions of a specification, each at the number of its item. Missing are those of over 1,024 nodes,
/// and those of other items.
#[derive(Drop)]
pub struct Functions {
    bodies: Vec<Option<Body>>,
}

impl Model for Functions {
    ghost use Rattle.std.specs.Prelude.{List, Option};
    ghost use Rattle.lift_func.specs.BodyTree.{BodyTree};

    ghost Value = { List (Option BodyTree) };

    ghost use Rattle.std.specs.Coded.{codes};
    ghost use Rattle.lift_func.specs.BodyTree.{tree_code};

    ghost coded = { Prim.hlevel (codes, tree_code) };

    ghost view = { λ f. f.bodies.items };
}

/// So many bodies, all of which are missing.
fn missing(alloc: Global, count: usize) -> Result<Vec<Option<Body>>, NoMemory>
    ensures { IfOk result (λ bodies. length bodies.items ≡ count) }
{
    let mut bodies = Vec::new(alloc);
    for _ in 0..count {
        bodies.push(None)?;
    }
    Ok(bodies)
}

/// Makes the body of the item of this number. The bodies of those that it calls are made.
fn make(
    alloc: Global,
    items: &[Item],
    names: &Names,
    number: usize,
    bodies: &mut Vec<Option<Body>>,
) -> Result<(), NoMemory>
    requires { length bodies.old.items ≡ length items.now }
    ensures { OnOk result (IsStep (map item_of items.now) names.now number bodies.old.items bodies.new.items) }
{
    match items.get(number) {
        Some(item) => {
            let body = item_body(alloc, item, names, bodies.as_slice())?;
            bodies[number] = body;
            Ok(())
        }
        None => Ok(()),
    }
}

/// Copies of bodies, none of which is missing.
fn copies(alloc: Global, bodies: &[Body]) -> Result<Vec<Option<Body>>, NoMemory>
    ensures { IfOk result (λ copies. copies.items ≡ map within bodies.now) }
{
    let mut copies = Vec::new(alloc);
    for body in bodies {
        copies.push(Some(body.copy()?))?;
    }
    Ok(copies)
}

impl Functions {
    /// The bodies of the value functions among items. Each is made once, after those that it calls.
    pub fn of(
        alloc: Global,
        items: &[Item],
        names: &Names,
        order: &Steps,
    ) -> Result<Functions, NoMemory>
        requires names { names.now ≡ top (map item_of items.now) }
        requires order { IsCallOrder (map item_of items.now) order.now }
        requires plain { ArePlain (map item_of items.now) }
        ensures { IfOk result (AreBodies (map item_of items.now)) }
    {
        let mut bodies = missing(alloc, items.len())?;
        for number in order.as_slice() {
            make(alloc, items, names, *number as usize, &mut bodies)?;
        }
        Ok(Functions { bodies })
    }

    /// The body of the item of this number, if it is a value function whose body has not too many nodes.
    pub fn body(&self, number: usize) -> Option<&Body>
        ensures { option_copied result ≡ slice_index_or self.now number None }
    {
        match self.bodies.get(number) {
            Some(Some(body)) => Some(body),
            Some(None) => None,
            None => None,
        }
    }

    /// A value function at operands, if that has not too many nodes.
    pub fn at(
        &self,
        alloc: Global,
        number: usize,
        operands: &[Body],
    ) -> Result<Option<Body>, NoMemory>
        ensures { IfOk result (λ b. (items : List tree.Item)
            → AreBodies items self.now
            → IsFunction items number
            → b ≡ within (function_at items number operands.now)) }
    {
        let operands = copies(alloc, operands)?;
        call_body(alloc, self.bodies.as_slice(), number, &operands)
    }

    /// Where the name of an item stands, if it is a value function whose body has too many nodes.
    fn too_large_place(&self, number: usize, item: &Item) -> Option<Place>
        ensures { (items : List tree.Item)
            → AreBodies items self.now
            → slice_get items number ≡ Some (item_of item.now)
            → result ≡ first (too_large_in items number (item_of item.now)) }
    {
        if self.body(number).is_some() {
            return None;
        }
        item_place(item)
    }

    /// Where the name of the first value function stands whose body has too many nodes.
    pub fn find_too_large(&self, items: &[Item]) -> Option<Place>
        ensures { AreBodies (map item_of items.now) self.now → result ≡ first (too_large_bodies (map item_of items.now)) }
    {
        for (number, item) in items.iter().enumerate() {
            if let Some(place) = self.too_large_place(number, item) {
                return Some(place);
            }
        }
        None
    }
}
