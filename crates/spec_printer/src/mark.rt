// Tokens, each with a blank after it, and ends of lines.

ghost use Rattle.std.specs.Prelude.{◌≡◌, [], ◌∷◌, ◌++◌, length, take, OnOk, OnErr};
ghost use Rattle.spec_lexer.specs.declared.token.TokenKind.TheVariants as kind;
ghost use Rattle.spec_lexer.specs.Spelling.{word_spelling, symbol_spelling};
ghost use Rattle.spec_printer.specs.inner.Marks.{token, line_end, word as a_word, symbol as a_symbol, named, text_of};

use spec_lexer::natural::Natural;
use spec_lexer::token::{Symbol, Word};
use tsl_value::bytes::Bytes;
use tsl_value::memory::NoMemory;
use tsl_value::print::{print_number, print_scalar};
use tsl_value::scalar::Scalar;
use tsl_value::text::Text;

fn spelled_word(word: Word) -> &'static str
    ensures { result.now ≡ word_spelling word }
{
    match word {
        Word::In => "in",
        Word::Def => "def",
        Word::Out => "out",
        Word::As => "as",
        Word::If => "if",
        Word::Then => "then",
        Word::Else => "else",
        Word::True => "true",
        Word::False => "false",
    }
}

fn spelled_symbol(symbol: Symbol) -> &'static str
    ensures { result.now ≡ symbol_spelling symbol }
{
    match symbol {
        Symbol::Define => ":=",
        Symbol::Equals => "=",
        Symbol::Colon => ":",
        Symbol::Comma => ",",
        Symbol::Dot => ".",
        Symbol::Open => "(",
        Symbol::Close => ")",
        Symbol::OpenBracket => "[",
        Symbol::CloseBracket => "]",
        Symbol::OpenBrace => "{",
        Symbol::CloseBrace => "}",
        Symbol::Or => "||",
        Symbol::And => "&&",
        Symbol::Same => "==",
        Symbol::Differs => "!=",
        Symbol::AtMost => "<=",
        Symbol::AtLeast => ">=",
        Symbol::Below => "<",
        Symbol::Above => ">",
        Symbol::Plus => "+",
        Symbol::Minus => "-",
        Symbol::Times => "*",
        Symbol::Divide => "/",
        Symbol::Remainder => "%",
        Symbol::Not => "!",
    }
}

pub(crate) fn put_name(name: &str, out: &mut Bytes) -> Result<(), NoMemory>
    ensures ok { OnOk result (out.new ≡ out.old ++ text_of (named name.now ∷ [])) }
    ensures err { OnErr result (take (length out.old) out.new ≡ out.old) }
{
    out.append(name.as_bytes())?;
    out.push(b' ')
}

pub(crate) fn put_word(word: Word, out: &mut Bytes) -> Result<(), NoMemory>
    ensures ok { OnOk result (out.new ≡ out.old ++ text_of (a_word word ∷ [])) }
    ensures err { OnErr result (take (length out.old) out.new ≡ out.old) }
{
    put_name(spelled_word(word), out)
}

pub(crate) fn put_symbol(symbol: Symbol, out: &mut Bytes) -> Result<(), NoMemory>
    ensures ok { OnOk result (out.new ≡ out.old ++ text_of (a_symbol symbol ∷ [])) }
    ensures err { OnErr result (take (length out.old) out.new ≡ out.old) }
{
    put_name(spelled_symbol(symbol), out)
}

pub(crate) fn put_number(number: Natural, out: &mut Bytes) -> Result<(), NoMemory>
    ensures ok { OnOk result (out.new ≡ out.old ++ text_of (token (kind.Number number) ∷ [])) }
    ensures err { OnErr result (take (length out.old) out.new ≡ out.old) }
{
    print_number(number.get(), out)?;
    out.push(b' ')
}

pub(crate) fn put_text(text: &Text, out: &mut Bytes) -> Result<(), NoMemory>
    ensures ok { OnOk result (out.new ≡ out.old ++ text_of (token (kind.Text text.now) ∷ [])) }
    ensures err { OnErr result (take (length out.old) out.new ≡ out.old) }
{
    let scalar = Scalar::Text(text.copy()?);
    print_scalar(&scalar, out)?;
    out.push(b' ')
}

pub(crate) fn end_line(out: &mut Bytes) -> Result<(), NoMemory>
    ensures ok { OnOk result (out.new ≡ out.old ++ text_of (line_end ∷ [])) }
    ensures err { OnErr result (take (length out.old) out.new ≡ out.old) }
{
    out.push(b'\n')
}
