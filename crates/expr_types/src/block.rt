// The blocks of macros.

ghost use Rattle.std.specs.Prelude.{◌≡◌, ◌++◌, None, map, replicate, IfOk, OnOk};
ghost use Rattle.std.specs.Option.{option_map};
ghost use Rattle.syntax_tree.specs.Counts.{AreFew, HasFewInside};
ghost use Rattle.syntax_tree.specs.inner.OneLevel.{body_of, definition_of, definitions_of, item_of, params_in};
ghost use Rattle.expr_types.specs.inner.Blocks.{AreBlocks, IsBlock, IsBlockAt, IsBlockIn, IsBlockOf, block_at};
ghost use Rattle.expr_types.specs.inner.Blocks.{definition_at, definition_in, definitions_in, numbered};

use crate::body::may_have_braces;
use name_check::count::count_in;
use name_check::names::Names;
use name_check::scope::{locals, parameters};
use std::alloc::Global;
use syntax_tree::tree::{Body, Definition, DefinitionParts, Item, Param};
use tsl_value::memory::NoMemory;

/// The block of a macro, and what is seen in it.
#[derive(Drop)]
pub(crate) struct Block<'a> {
    pub(crate) params: &'a [Param],
    /// The names of the parameters.
    pub(crate) around: Names,
    /// The names of the definitions.
    pub(crate) inside: Names,
    /// The definitions by their numbers. None stands at the number of one in the body of another.
    definitions: Vec<Option<&'a Definition>>,
}

/// The blocks of macros, by the numbers of their items. What is seen in a block is made once for all of its definitions.
#[derive(Drop)]
pub struct Blocks<'a> {
    blocks: Vec<Option<Box<Block<'a>>>>,
}

impl<'a> Block<'a> {
    /// The block of a macro of these parameters.
    fn new(
        alloc: Global,
        params: &'a [Param],
        definitions: &'a [Definition],
    ) -> Result<Block<'a>, NoMemory>
        requires { AreFew (definitions_of definitions.now) }
        ensures { IfOk result (λ block. IsBlock block (params_in params.now) (definitions_of definitions.now)) }
    {
        Ok(Block {
            params,
            around: parameters(alloc, params)?,
            inside: locals(alloc, 0, definitions)?,
            definitions: numbered(alloc, definitions)?,
        })
    }

    /// The definition of a number.
    pub(crate) fn definition(&self, number: usize) -> Option<&'a Definition>
        ensures { definition_in result ≡ definition_at self.now.definitions.items number }
    {
        match self.definitions.get(number) {
            Some(definition) => *definition,
            None => None,
        }
    }
}

impl<'a> Blocks<'a> {
    /// Those of these items.
    pub fn of_items(alloc: Global, items: &'a [Item]) -> Result<Blocks<'a>, NoMemory>
        ensures { IfOk result (λ blocks. AreBlocks blocks (map item_of items.now)) }
    {
        let mut blocks = Vec::new(alloc);
        for item in items {
            blocks.push(block_of_item(alloc, item)?)?;
        }
        Ok(Blocks { blocks })
    }

    /// The block of an item, if it is a macro that has one.
    pub(crate) fn at(&self, number: usize) -> Option<&Block<'a>>
        ensures { option_map (λ block. block.now) result ≡ block_at self.now.blocks.items number }
    {
        match self.blocks.get(number) {
            Some(Some(block)) => Some(block),
            Some(None) => None,
            None => None,
        }
    }
}

/// Leaves out so many numbers.
fn leave_out(all: &mut Vec<Option<&Definition>>, count: usize) -> Result<(), NoMemory>
    ensures { OnOk result (definitions_in all.new.items ≡ definitions_in all.old.items ++ replicate count None) }
{
    for _ in 0..count {
        all.push(None)?;
    }
    Ok(())
}

/// The definitions of a block by their numbers.
fn numbered<'a>(
    alloc: Global,
    definitions: &'a [Definition],
) -> Result<Vec<Option<&'a Definition>>, NoMemory>
    ensures { IfOk result (λ all. definitions_in all.items ≡ numbered (definitions_of definitions.now)) }
{
    let mut all = Vec::new(alloc);
    for definition in definitions {
        all.push(Some(definition))?;
        leave_out(&mut all, count_in(&definition.parts().body))?;
    }
    Ok(all)
}

/// The block that these definitions are, if braces may stand at these parameters.
fn block_of<'a>(
    alloc: Global,
    params: &'a [Param],
    definitions: &'a [Definition],
) -> Result<Option<Box<Block<'a>>>, NoMemory>
    requires { AreFew (definitions_of definitions.now) }
    ensures { IfOk result (λ found. IsBlockOf found (params_in params.now) (definitions_of definitions.now)) }
{
    if may_have_braces(params) {
        let block = Block::new(alloc, params, definitions)?;
        Ok(Some(Box::new(alloc, block)?))
    } else {
        Ok(None)
    }
}

fn block_of_definition<'a>(
    alloc: Global,
    parts: &'a DefinitionParts,
) -> Result<Option<Box<Block<'a>>>, NoMemory>
    requires { HasFewInside (body_of parts.now.body) }
    ensures { IfOk result (λ found. IsBlockIn found (definition_of parts.now)) }
{
    match &parts.body {
        Body::Plain(_) => Ok(None),
        Body::Block(definitions, _) => block_of(alloc, &parts.params, definitions),
    }
}

fn block_of_item<'a>(alloc: Global, item: &'a Item) -> Result<Option<Box<Block<'a>>>, NoMemory>
    ensures { IfOk result (λ found. IsBlockAt found (item_of item.now)) }
{
    match item {
        Item::Defined(_, definition) => block_of_definition(alloc, definition.parts()),
        Item::Input(_, _, _, _) => Ok(None),
        Item::Output(_, _, _) => Ok(None),
        Item::OutputAs(_, _, _, _) => Ok(None),
    }
}
