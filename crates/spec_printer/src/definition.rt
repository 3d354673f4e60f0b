// Definitions.

ghost use Rattle.std.specs.Prelude.{◌≡◌, ◌++◌, length, take, OnOk, OnErr};
ghost use Rattle.syntax_tree.specs.Tree as tree;
ghost use Rattle.syntax_tree.specs.inner.OneLevel.{body_of, param_of, params_in, definition_of, definitions_of};
ghost use Rattle.spec_printer.specs.inner.Marks.{text_of};
ghost use Rattle.spec_printer.specs.inner.Print.{param_marks, params_marks, written_marks, head_marks, body_marks, definition_marks};
ghost use Rattle.spec_printer.specs.inner.Print.{definitions_marks};

use crate::expression::put_expression;
use crate::mark::{end_line, put_name, put_symbol, put_word};
use crate::type_name::put_type;
use spec_lexer::token::{Symbol, Word};
use syntax_tree::tree::{Body, Definition, DefinitionParts, Expr, Param, TypeName};
use tsl_value::bytes::Bytes;
use tsl_value::memory::NoMemory;

fn put_param(param: &Param, out: &mut Bytes) -> Result<(), NoMemory>
    ensures ok { OnOk result (out.new ≡ out.old ++ text_of (param_marks (param_of param.now))) }
    ensures err { OnErr result (take (length out.old) out.new ≡ out.old) }
{
    put_name(param.name.as_str(), out)?;
    put_symbol(Symbol::Colon, out)?;
    put_type(&param.of, out)
}

#[tactic(auto, using(crate::proofs::Turns::no_params, crate::proofs::Turns::some_params))]
fn put_params(params: &[Param], out: &mut Bytes) -> Result<(), NoMemory>
    ensures ok { OnOk result (out.new ≡ out.old ++ text_of (params_marks (params_in params.now))) }
    ensures err { OnErr result (take (length out.old) out.new ≡ out.old) }
{
    if params.is_empty() {
        return Ok(());
    }
    let mut before = Symbol::Open;
    for param in params {
        put_symbol(before, out)?;
        put_param(param, out)?;
        before = Symbol::Comma;
    }
    put_symbol(Symbol::Close, out)
}

fn put_written(written: &Option<TypeName>, out: &mut Bytes) -> Result<(), NoMemory>
    ensures ok { OnOk result (out.new ≡ out.old ++ text_of (written_marks written.now)) }
    ensures err { OnErr result (take (length out.old) out.new ≡ out.old) }
{
    match written {
        None => Ok(()),
        Some(of) => {
            put_symbol(Symbol::Colon, out)?;
            put_type(of, out)
        }
    }
}

/// What stands before the body.
fn put_head(parts: &DefinitionParts, out: &mut Bytes) -> Result<(), NoMemory>
    ensures ok { OnOk result (out.new
        ≡ out.old ++ text_of (head_marks parts.now.name (params_in parts.now.params.items) parts.now.written)) }
    ensures err { OnErr result (take (length out.old) out.new ≡ out.old) }
{
    put_word(Word::Def, out)?;
    put_name(parts.name.as_str(), out)?;
    put_params(&parts.params, out)?;
    put_written(&parts.written, out)?;
    put_symbol(Symbol::Define, out)
}

#[cycle(definitions)]
pub(crate) fn put_definition(definition: &Definition, out: &mut Bytes) -> Result<(), NoMemory>
    ensures ok { OnOk result (out.new ≡ out.old ++ text_of (definition_marks definition.now)) }
    ensures err { OnErr result (take (length out.old) out.new ≡ out.old) }
{
    put_parts(definition.parts(), out)
}

#[cycle(definitions)]
fn put_parts(parts: &DefinitionParts, out: &mut Bytes) -> Result<(), NoMemory>
    ensures ok { OnOk result (out.new ≡ out.old ++ text_of (definition_marks (definition_of parts.now))) }
    ensures err { OnErr result (take (length out.old) out.new ≡ out.old) }
{
    put_head(parts, out)?;
    put_body(&parts.body, out)
}

#[cycle(definitions)]
fn put_body(body: &Body, out: &mut Bytes) -> Result<(), NoMemory>
    ensures ok { OnOk result (out.new ≡ out.old ++ text_of (body_marks (body_of body.now))) }
    ensures err { OnErr result (take (length out.old) out.new ≡ out.old) }
{
    match body {
        Body::Plain(expression) => put_expression(expression, out),
        Body::Block(definitions, result) => put_block(definitions, result, out),
    }
}

#[cycle(definitions)]
fn put_block(definitions: &[Definition], last: &Expr, out: &mut Bytes) -> Result<(), NoMemory>
    ensures ok { OnOk result (out.new ≡ out.old ++ text_of (body_marks (tree.Block (definitions_of definitions.now) last.now))) }
    ensures err { OnErr result (take (length out.old) out.new ≡ out.old) }
{
    put_symbol(Symbol::OpenBrace, out)?;
    end_line(out)?;
    put_definitions(definitions, out)?;
    put_expression(last, out)?;
    put_symbol(Symbol::CloseBrace, out)
}

/// Each definition, on a line of its own.
#[cycle(definitions)]
fn put_definitions(definitions: &[Definition], out: &mut Bytes) -> Result<(), NoMemory>
    ensures ok { OnOk result (out.new ≡ out.old ++ text_of (definitions_marks (definitions_of definitions.now))) }
    ensures err { OnErr result (take (length out.old) out.new ≡ out.old) }
{
    for definition in definitions {
        put_definition(definition, out)?;
        end_line(out)?;
    }
    Ok(())
}
