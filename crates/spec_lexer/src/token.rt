// Tokens.

use crate::natural::Natural;
use tsl_value::place::Place;
use tsl_value::text::Text;

/// A word of the language, which is no name.
#[derive(Clone, Copy, PartialEq, Eq, Debug)]
pub enum Word {
    In,
    Def,
    Out,
    As,
    If,
    Then,
    Else,
    True,
    False,
}

/// A symbol. The comments show how each is written.
#[derive(Clone, Copy, PartialEq, Eq, Debug)]
pub enum Symbol {
    /// `:=`
    Define,
    /// `=`
    Equals,
    /// `:`
    Colon,
    /// `,`
    Comma,
    /// `.`
    Dot,
    /// `(`
    Open,
    /// `)`
    Close,
    /// `[`
    OpenBracket,
    /// `]`
    CloseBracket,
    /// `{`
    OpenBrace,
    /// `}`
    CloseBrace,
    /// `||`
    Or,
    /// `&&`
    And,
    /// `==`
    Same,
    /// `!=`
    Differs,
    /// `<=`
    AtMost,
    /// `>=`
    AtLeast,
    /// `<`
    Below,
    /// `>`
    Above,
    /// `+`
    Plus,
    /// `-`
    Minus,
    /// `*`
    Times,
    /// `/`
    Divide,
    /// `%`
    Remainder,
    /// `!`
    Not,
}

/// What a token is.
#[derive(Drop)]
pub enum TokenKind {
    /// A name as it is written, of at most 255 bytes.
    Name(Text),
    /// The number that the digits spell, at most 9,223,372,036,854,775,807.
    Number(Natural),
    /// What a text means once its escapes are read, without its quotes: at most 65,536 bytes.
    Text(Text),
    Word(Word),
    Symbol(Symbol),
}

/// A token, where it begins, and whether it is the first of its line.
#[derive(Drop)]
pub struct Token {
    pub kind: TokenKind,
    pub place: Place,
    pub first: bool,
}
