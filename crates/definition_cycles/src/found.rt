// The nodes of a specification, one after the other.

ghost use Rattle.std.specs.Prelude.{◌≡◌, ◌+◌, ◌^◌, ◌<◌, ◌∷◌, [], ◌++◌, true, OnOk, Some};
ghost use Rattle.syntax_tree.specs.inner.OneLevel.{body_of, definition_of, definitions_of, item_of};
ghost use Rattle.syntax_tree.specs.Counts.{HasFewInside, count_in, counts};
ghost use Rattle.name_check.specs.Scope.{Scope as Entries, seen, inside};
ghost use Rattle.definition_cycles.specs.Nodes.{definition_nodes, block_nodes, item_nodes, parameters_of};
ghost use Rattle.definition_cycles.specs.inner.Seen.{IsTop};
ghost use Rattle.definition_cycles.specs.inner.Walk.{with_node, with_nodes, nothing_kept};

use crate::mention::{Mention, add_mentions};
use crate::top::Top;
use name_check::count::number_after;
use name_check::scope::{Scope, locals, parameters};
use std::alloc::Global;
use std::marker::Model;
use syntax_tree::tree::{Body, Definition, DefinitionParts, Expr, Item};
use tsl_value::memory::NoMemory;
use tsl_value::place::Place;

/// The place of a node's name, and whether a type is written.
#[derive(Clone, Copy)]
pub struct Head {
    pub place: Place,
    pub is_written: bool,
}

/// The heads of nodes, and the mentions in their expressions.
#[derive(Drop)]
pub struct Found {
    heads: Vec<Head>,
    mentions: Vec<Mention>,
}

impl Model for Found {
    ghost use Rattle.definition_cycles.specs.inner.Walk.{Kept};

    ghost Value = { Kept };

    ghost view = { λ f. record { heads = f.heads.items; mentions = f.mentions.items } };
}

impl Found {
    /// No node.
    pub fn new(alloc: Global) -> Found
        ensures { result ≡ nothing_kept }
    {
        Found {
            heads: Vec::new(alloc),
            mentions: Vec::new(alloc),
        }
    }

    /// The heads of all nodes, in order.
    pub fn heads(&self) -> &[Head]
        ensures { result.now ≡ self.now.heads }
    {
        self.heads.as_slice()
    }

    /// All mentions, those of a node after those of the nodes before it.
    pub fn mentions(&self) -> &[Mention]
        ensures { result.now ≡ self.now.mentions }
    {
        self.mentions.as_slice()
    }

    /// Adds a node without an expression. It counts as written.
    fn add_written(&mut self, place: Place) -> Result<(), NoMemory>
        ensures { OnOk result (self.new
            ≡ record { heads = self.old.heads ++ record { place = place; is_written = true } ∷ []; mentions = self.old.mentions }) }
    {
        self.heads.push(Head {
            place,
            is_written: true,
        })?;
        Ok(())
    }

    /// Adds a node of an item.
    fn add_node(
        &mut self,
        alloc: Global,
        item: usize,
        head: Head,
        expression: &Expr,
        scope: &Scope<'_>,
    ) -> Result<(), NoMemory>
        ensures { OnOk result (self.new ≡ with_node self.old (record {
          item = item;
          place = head.place;
          is_written = head.is_written;
          body = Some (record { scope = seen scope.now; expr = expression.now });
        })) }
    {
        let node = self.heads.len();
        add_mentions(&mut self.mentions, alloc, item, node, expression, scope)?;
        self.heads.push(head)?;
        Ok(())
    }

    /// Adds a definition of an item, and those in its blocks, the first of which has this number.
    #[cycle(found)]
    fn add_definition(
        &mut self,
        alloc: Global,
        item: usize,
        number: usize,
        parts: &DefinitionParts,
        scope: &Scope<'_>,
    ) -> Result<(), NoMemory>
        requires { number + count_in (body_of parts.now.body) < 2 ^ 64 }
        ensures { OnOk result (self.new ≡ with_nodes self.old (definition_nodes item number (seen scope.now) (definition_of parts.now))) }
    {
        let head = Head {
            place: parts.place,
            is_written: parts.written.is_some(),
        };
        match &parts.body {
            Body::Plain(expression) => self.add_node(alloc, item, head, expression, scope),
            Body::Block(definitions, last) => {
                let inner = Scope::inner(locals(alloc, number, definitions)?, scope);
                self.add_node(alloc, item, head, last, &inner)?;
                self.add_block(alloc, item, number, definitions, &inner)
            }
        }
    }

    /// Adds the definitions of a block, the first of which has this number.
    #[cycle(found)]
    fn add_block(
        &mut self,
        alloc: Global,
        item: usize,
        first: usize,
        definitions: &[Definition],
        scope: &Scope<'_>,
    ) -> Result<(), NoMemory>
        requires { first + counts (definitions_of definitions.now) < 2 ^ 64 }
        ensures { OnOk result (self.new ≡ with_nodes self.old (block_nodes item first (seen scope.now) (definitions_of definitions.now))) }
    {
        let mut number = first;
        for definition in definitions {
            let parts = definition.parts();
            let after = number_after(number, &parts.body);
            self.add_definition(alloc, item, number + 1, parts, scope)?;
            number = after;
        }
        Ok(())
    }

    /// Adds the definition of an item.
    fn add_top(
        &mut self,
        alloc: Global,
        top: &Top,
        item: usize,
        parts: &DefinitionParts,
    ) -> Result<(), NoMemory>
        requires { HasFewInside (body_of parts.now.body) }
        ensures { OnOk result ((names : Entries)
            → IsTop names top.now
            → self.new ≡ with_nodes self.old
            (definition_nodes item 0 (inside names (parameters_of (definition_of parts.now))) (definition_of parts.now))) }
    {
        let outer = top.around(&parts.params);
        let scope = Scope::inner(parameters(alloc, &parts.params)?, &outer);
        self.add_definition(alloc, item, 0, parts, &scope)
    }

    /// Adds the nodes of an item.
    pub(crate) fn add_item(
        &mut self,
        alloc: Global,
        top: &Top,
        number: usize,
        item: &Item,
    ) -> Result<(), NoMemory>
        ensures { OnOk result ((names : Entries)
            → IsTop names top.now
            → self.new ≡ with_nodes self.old (item_nodes number names (item_of item.now))) }
    {
        match item {
            Item::Input(_, place, _, _) => self.add_written(*place),
            Item::Defined(_, definition) => self.add_top(alloc, top, number, definition.parts()),
            Item::Output(_, place, _) => self.add_written(*place),
            Item::OutputAs(_, _, place, _) => self.add_written(*place),
        }
    }
}
