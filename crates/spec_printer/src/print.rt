// The source of a tree.

ghost use Rattle.std.specs.Prelude.{◌≡◌, ◌++◌, length, map, take, OnOk, OnErr};
ghost use Rattle.syntax_tree.specs.Tree as tree;
ghost use Rattle.syntax_tree.specs.inner.OneLevel.{item_of, items_of};
ghost use Rattle.spec_printer.specs.inner.Same.{nowhere};
ghost use Rattle.spec_printer.specs.inner.Marks.{text_of};
ghost use Rattle.spec_printer.specs.inner.Print.{item_marks, line_marks, source_of};

use crate::definition::put_definition;
use crate::expression::put_expression;
use crate::mark::{end_line, put_name, put_symbol, put_word};
use crate::type_name::put_type;
use spec_lexer::token::{Symbol, Word};
use syntax_tree::tree::{Expr, Item, Tree, TypeName};
use tsl_value::bytes::Bytes;
use tsl_value::memory::NoMemory;
use tsl_value::text::Text;

fn put_input(name: &Text, of: &TypeName, out: &mut Bytes) -> Result<(), NoMemory>
    ensures ok { OnOk result (out.new ≡ out.old ++ text_of (item_marks (tree.Input nowhere nowhere name.now of.now))) }
    ensures err { OnErr result (take (length out.old) out.new ≡ out.old) }
{
    put_word(Word::In, out)?;
    put_name(name.as_str(), out)?;
    put_symbol(Symbol::Colon, out)?;
    put_type(of, out)
}

fn put_output(name: &Text, out: &mut Bytes) -> Result<(), NoMemory>
    ensures ok { OnOk result (out.new ≡ out.old ++ text_of (item_marks (tree.Output nowhere nowhere name.now))) }
    ensures err { OnErr result (take (length out.old) out.new ≡ out.old) }
{
    put_word(Word::Out, out)?;
    put_name(name.as_str(), out)
}

fn put_output_as(expression: &Expr, name: &Text, out: &mut Bytes) -> Result<(), NoMemory>
    ensures ok { OnOk result (out.new ≡ out.old ++ text_of (item_marks (tree.OutputAs nowhere expression.now nowhere name.now))) }
    ensures err { OnErr result (take (length out.old) out.new ≡ out.old) }
{
    put_word(Word::Out, out)?;
    put_expression(expression, out)?;
    put_word(Word::As, out)?;
    put_name(name.as_str(), out)
}

fn put_item(item: &Item, out: &mut Bytes) -> Result<(), NoMemory>
    ensures ok { OnOk result (out.new ≡ out.old ++ text_of (item_marks (item_of item.now))) }
    ensures err { OnErr result (take (length out.old) out.new ≡ out.old) }
{
    match item {
        Item::Input(_, _, name, of) => put_input(name, of, out),
        Item::Defined(_, definition) => put_definition(definition, out),
        Item::Output(_, _, name) => put_output(name, out),
        Item::OutputAs(_, expression, _, name) => put_output_as(expression, name, out),
    }
}

fn put_line(item: &Item, out: &mut Bytes) -> Result<(), NoMemory>
    ensures ok { OnOk result (out.new ≡ out.old ++ text_of (line_marks (item_of item.now))) }
    ensures err { OnErr result (take (length out.old) out.new ≡ out.old) }
{
    put_item(item, out)?;
    end_line(out)
}

fn put_items(items: &[Item], out: &mut Bytes) -> Result<(), NoMemory>
    ensures ok { OnOk result (out.new ≡ out.old ++ source_of (map item_of items.now)) }
    ensures err { OnErr result (take (length out.old) out.new ≡ out.old) }
{
    for item in items {
        put_line(item, out)?;
    }
    Ok(())
}

/// Appends the source of a tree, or leaves `out` as it was. A tree that some source's tokens spell comes back from the
/// source that is printed, places aside, unless that is longer than a source may be.
pub fn print_spec(tree: &Tree, out: &mut Bytes) -> Result<(), NoMemory>
    ensures ok { OnOk result (out.new ≡ out.old ++ source_of (items_of tree.now)) }
    ensures err { OnErr result (out.new ≡ out.old) }
{
    let before = out.len();
    match put_items(tree.items(), out) {
        Ok(()) => Ok(()),
        Err(none) => {
            out.truncate(before);
            Err(none)
        }
    }
}
