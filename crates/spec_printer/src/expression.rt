// Expressions.

ghost use Rattle.std.specs.Prelude.{◌≡◌, [], ◌∷◌, ◌++◌, length, take, OnOk, OnErr};
ghost use Rattle.spec_lexer.specs.declared.token.Word.TheVariants as word;
ghost use Rattle.spec_lexer.specs.declared.token.Symbol.TheVariants as symbol;
ghost use Rattle.spec_lexer.specs.declared.token.TokenKind.TheVariants as kind;
ghost use Rattle.syntax_tree.specs.Tree as tree;
ghost use Rattle.syntax_tree.specs.inner.OneLevel.{aggregate_in, exprs_of, links_in};
ghost use Rattle.vocabulary.specs.Table.{family_name, family_in, member_name};
ghost use Rattle.spec_printer.specs.inner.Same.{nowhere};
ghost use Rattle.spec_printer.specs.inner.Marks.{token, symbol as a_symbol, named, text_of};
ghost use Rattle.spec_printer.specs.inner.Print.{operator_symbol, comparison_symbol, level_strength, strength, least_negated, expr_marks};
ghost use Rattle.spec_printer.specs.inner.Print.{node_marks, operand_marks, link_marks, argument_marks};

use crate::mark::{put_name, put_number, put_symbol, put_text, put_word};
use crate::type_name::{put_aggregate, put_one};
use spec_lexer::natural::Natural;
use spec_lexer::token::{Symbol, Word};
use syntax_tree::tree::{Aggregate, Comparison, Expr, Level, Link, Node, Operator};
use tsl_value::bytes::Bytes;
use tsl_value::memory::NoMemory;
use vocabulary::dotted::Dotted;

fn symbol_of_operator(operator: Operator) -> Symbol
    ensures { result ≡ operator_symbol operator }
{
    match operator {
        Operator::Or => Symbol::Or,
        Operator::And => Symbol::And,
        Operator::Add => Symbol::Plus,
        Operator::Subtract => Symbol::Minus,
        Operator::Multiply => Symbol::Times,
        Operator::Divide => Symbol::Divide,
        Operator::Remainder => Symbol::Remainder,
    }
}

fn symbol_of_comparison(comparison: Comparison) -> Symbol
    ensures { result ≡ comparison_symbol comparison }
{
    match comparison {
        Comparison::Same => Symbol::Same,
        Comparison::Differs => Symbol::Differs,
        Comparison::AtMost => Symbol::AtMost,
        Comparison::AtLeast => Symbol::AtLeast,
        Comparison::Below => Symbol::Below,
        Comparison::Above => Symbol::Above,
    }
}

fn strength_of_level(level: Level) -> u32
    ensures { result ≡ level_strength level }
{
    match level {
        Level::Disjunction => 1,
        Level::Conjunction => 2,
        Level::Sum => 4,
        Level::Product => 5,
    }
}

/// How strongly an expression holds together: 0 for a choice, 1 to 5 for chains, with 3 for comparisons, 6 for prefix
/// operators and negative numbers, and 7 for what stands alone.
fn strength(expression: &Expr) -> u32
    ensures { result ≡ strength expression.now }
{
    match expression.node() {
        Node::If(_, _, _) => 0,
        Node::Chain(level, _, _) => strength_of_level(*level),
        Node::Compare(_, _, _) => 3,
        Node::Negate(_) => 6,
        Node::Not(_) => 6,
        Node::Negative(_) => 6,
        _ => 7,
    }
}

/// The least strength of what stands after a prefix minus: a number there would make one literal with it.
fn least_negated(operand: &Expr) -> u32
    ensures { result ≡ least_negated operand.now }
{
    match operand.node() {
        Node::Number(_) => 8,
        _ => 6,
    }
}

#[cycle(printer)]
#[tactic(auto, using(crate::proofs::Anywhere::marks_of_node, crate::proofs::Anywhere::size_of_node))]
pub(crate) fn put_expression(expression: &Expr, out: &mut Bytes) -> Result<(), NoMemory>
    ensures ok { OnOk result (out.new ≡ out.old ++ text_of (expr_marks expression.now)) }
    ensures err { OnErr result (take (length out.old) out.new ≡ out.old) }
{
    put_node(expression.node(), out)
}

/// The expression, in parentheses where it holds less strongly together.
#[cycle(printer)]
fn put_operand(expression: &Expr, least: u32, out: &mut Bytes) -> Result<(), NoMemory>
    ensures ok { OnOk result (out.new ≡ out.old ++ text_of (operand_marks least expression.now)) }
    ensures err { OnErr result (take (length out.old) out.new ≡ out.old) }
{
    if least <= strength(expression) {
        return put_expression(expression, out);
    }
    put_symbol(Symbol::Open, out)?;
    put_expression(expression, out)?;
    put_symbol(Symbol::Close, out)
}

#[cycle(printer)]
fn put_node(node: &Node, out: &mut Bytes) -> Result<(), NoMemory>
    ensures ok { OnOk result (out.new ≡ out.old ++ text_of (node_marks node.now)) }
    ensures err { OnErr result (take (length out.old) out.new ≡ out.old) }
{
    match node {
        Node::If(condition, yes, no) => put_choice(condition, yes, no, out),
        Node::Chain(level, first, links) => put_chain(*level, first, links, out),
        Node::Compare(comparison, left, right) => put_compared(*comparison, left, right, out),
        Node::Negate(operand) => {
            put_prefixed(Symbol::Minus, operand, least_negated(operand), out)
        }
        Node::Not(operand) => put_prefixed(Symbol::Not, operand, 6, out),
        Node::Number(number) => put_number(*number, out),
        Node::Negative(number) => put_negative(*number, out),
        Node::Text(text) => put_text(text, out),
        Node::Boolean(true) => put_word(Word::True, out),
        Node::Boolean(false) => put_word(Word::False, out),
        Node::Unit => put_unit(out),
        Node::Name(name) => put_name(name.as_str(), out),
        Node::Call(name, arguments) => {
            put_name(name.as_str(), out)?;
            put_arguments(arguments, out)
        }
        Node::CallDotted(function, arguments) => {
            put_dotted(*function, out)?;
            put_arguments(arguments, out)
        }
        Node::Nil(of) => put_one("nil", of, out),
        Node::None(of) => put_one("None", of, out),
        Node::Empty(of) => put_empty(of, out),
    }
}

#[cycle(printer)]
fn put_choice(condition: &Expr, yes: &Expr, no: &Expr, out: &mut Bytes) -> Result<(), NoMemory>
    ensures ok { OnOk result (out.new ≡ out.old ++ text_of (expr_marks (tree.If nowhere condition.now yes.now no.now))) }
    ensures err { OnErr result (take (length out.old) out.new ≡ out.old) }
{
    put_word(Word::If, out)?;
    put_expression(condition, out)?;
    put_word(Word::Then, out)?;
    put_expression(yes, out)?;
    put_word(Word::Else, out)?;
    put_expression(no, out)
}

#[cycle(printer)]
fn put_chain(level: Level, first: &Expr, links: &[Link], out: &mut Bytes) -> Result<(), NoMemory>
    ensures ok { OnOk result (out.new ≡ out.old ++ text_of (expr_marks (tree.Chain nowhere level first.now (links_in links.now)))) }
    ensures err { OnErr result (take (length out.old) out.new ≡ out.old) }
{
    let least = strength_of_level(level) + 1;
    put_operand(first, least, out)?;
    put_links(links, least, out)
}

/// Each operator and the operand after it.
#[cycle(printer)]
fn put_links(links: &[Link], least: u32, out: &mut Bytes) -> Result<(), NoMemory>
    ensures ok { OnOk result (out.new ≡ out.old ++ text_of (link_marks least (links_in links.now))) }
    ensures err { OnErr result (take (length out.old) out.new ≡ out.old) }
{
    for link in links {
        put_symbol(symbol_of_operator(link.operator), out)?;
        put_operand(&link.operand, least, out)?;
    }
    Ok(())
}

#[cycle(printer)]
fn put_compared(
    comparison: Comparison,
    left: &Expr,
    right: &Expr,
    out: &mut Bytes,
) -> Result<(), NoMemory>
    ensures ok { OnOk result (out.new ≡ out.old ++ text_of (expr_marks (tree.Compare nowhere comparison left.now right.now))) }
    ensures err { OnErr result (take (length out.old) out.new ≡ out.old) }
{
    put_operand(left, 4, out)?;
    put_symbol(symbol_of_comparison(comparison), out)?;
    put_operand(right, 4, out)
}

/// A prefix operator and its operand.
#[cycle(printer)]
fn put_prefixed(symbol: Symbol, operand: &Expr, least: u32, out: &mut Bytes) -> Result<(), NoMemory>
    ensures ok { OnOk result (out.new ≡ out.old ++ text_of (a_symbol symbol ∷ operand_marks least operand.now)) }
    ensures err { OnErr result (take (length out.old) out.new ≡ out.old) }
{
    put_symbol(symbol, out)?;
    put_operand(operand, least, out)
}

/// All arguments, in parentheses.
#[cycle(printer)]
fn put_arguments(arguments: &[Expr], out: &mut Bytes) -> Result<(), NoMemory>
    ensures ok { OnOk result (out.new ≡ out.old ++ text_of (argument_marks (exprs_of arguments.now))) }
    ensures err { OnErr result (take (length out.old) out.new ≡ out.old) }
{
    let mut before = Symbol::Open;
    for argument in arguments {
        put_symbol(before, out)?;
        put_expression(argument, out)?;
        before = Symbol::Comma;
    }
    put_symbol(Symbol::Close, out)
}

fn put_negative(number: Natural, out: &mut Bytes) -> Result<(), NoMemory>
    ensures ok { OnOk result (out.new ≡ out.old ++ text_of (a_symbol symbol.Minus ∷ (token (kind.Number number) ∷ []))) }
    ensures err { OnErr result (take (length out.old) out.new ≡ out.old) }
{
    put_symbol(Symbol::Minus, out)?;
    put_number(number, out)
}

fn put_unit(out: &mut Bytes) -> Result<(), NoMemory>
    ensures ok { OnOk result (out.new ≡ out.old ++ text_of (a_symbol symbol.Open ∷ (a_symbol symbol.Close ∷ []))) }
    ensures err { OnErr result (take (length out.old) out.new ≡ out.old) }
{
    put_symbol(Symbol::Open, out)?;
    put_symbol(Symbol::Close, out)
}

fn put_empty(of: &Aggregate, out: &mut Bytes) -> Result<(), NoMemory>
    ensures ok { OnOk result (out.new ≡ out.old ++ text_of (expr_marks (tree.Empty nowhere (aggregate_in of.now)))) }
    ensures err { OnErr result (take (length out.old) out.new ≡ out.old) }
{
    put_name(of.kind().name(), out)?;
    put_symbol(Symbol::Dot, out)?;
    put_name("empty", out)?;
    put_aggregate(of, out)
}

fn put_dotted(function: Dotted, out: &mut Bytes) -> Result<(), NoMemory>
    ensures ok { OnOk result (out.new
        ≡ out.old ++ text_of (named (family_name (family_in function)) ∷ (a_symbol symbol.Dot ∷ (named (member_name function) ∷ [])))) }
    ensures err { OnErr result (take (length out.old) out.new ≡ out.old) }
{
    put_name(function.family().name(), out)?;
    put_symbol(Symbol::Dot, out)?;
    put_name(function.member(), out)
}
