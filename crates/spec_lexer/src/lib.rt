//! The lexer: the tokens of a specification's source, or its first fault.
//!
//! - A source is UTF-8 of at most 1,048,576 bytes. Lines and columns count from 1, and columns
//!   count characters.
//! - Space, tab, CR and LF are blanks, and LF ends a line. A comment runs from `--` or `#` to the
//!   end of its line.
//! - A name begins with a character of Unicode's XID_Start or `_`, goes on with XID_Continue, and
//!   has at most 255 bytes. The words `in def out as if then else true false` are no names.
//! - A number is ASCII digits, up to 9,223,372,036,854,775,807.
//! - A text stands between quotes on one line, has the escapes `\"`, `\\`, `\n`, `\t` and `\r`, and
//!   has at most 65,536 bytes once they are read.
//! - Of the symbols the longest that fits is taken.
#![tactic(auto)]

mod characters;
pub mod fault;
pub mod laws;
pub mod lex;
pub mod limits;
mod name;
pub mod natural;
mod number;
mod piece;
mod quoted;
mod symbol;
pub mod token;
pub mod tokens;
