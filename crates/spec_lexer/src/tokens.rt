// All tokens of a source.

ghost use Rattle.std.specs.Prelude.{◌≡◌, [], ◌∷◌, ◌++◌, length, OnOk, OnErr, slice_get, option_map};
ghost use Rattle.spec_lexer.specs.Tokens.{Spelled};

use crate::token::Token;
use std::alloc::Global;
use std::marker::Model;
use tsl_value::memory::NoMemory;
use tsl_value::place::Place;

/// The tokens of a source in order, and the place after its last character.
#[derive(Drop)]
pub struct Tokens {
    items: Vec<Token>,
    end: Place,
}

impl Model for Tokens {
    ghost use Rattle.spec_lexer.specs.Tokens.{Spelled, spelled_code};

    ghost Value = { Spelled };

    ghost coded = { spelled_code };

    ghost view = { λ t. record { tokens = t.items.items; end = t.end } };
}

impl Tokens {
    /// No tokens, of a source that ends where it begins.
    pub fn new(alloc: Global) -> Tokens
        ensures tokens { result.tokens ≡ [] }
        ensures end { result.end ≡ record { line = 1; column = 1 } }
    {
        Tokens {
            items: Vec::new(alloc),
            end: Place { line: 1, column: 1 },
        }
    }

    /// Appends a token. Out of memory, nothing changes.
    pub fn push(&mut self, item: Token) -> Result<(), NoMemory>
        ensures ok { OnOk result (self.new.tokens ≡ self.old.tokens ++ item ∷ []) }
        ensures err { OnErr result (self.new.tokens ≡ self.old.tokens) }
        ensures end { self.new.end ≡ self.old.end }
    {
        self.items.push(item)?;
        Ok(())
    }

    /// Sets the place after the last character of the source.
    pub fn set_end(&mut self, end: Place)
        ensures tokens { self.new.tokens ≡ self.old.tokens }
        ensures end { self.new.end ≡ end }
    {
        self.end = end;
    }

    /// The number of tokens.
    pub fn len(&self) -> usize
        ensures { result ≡ length self.now.tokens }
    {
        self.items.len()
    }

    /// The token at a place counted from 0. `None` exactly where the place is not below the number.
    pub fn get(&self, place: usize) -> Option<&Token>
        ensures { option_map (λ x. x.now) result ≡ slice_get self.now.tokens place }
    {
        self.items.get(place)
    }

    /// All tokens.
    pub fn as_slice(&self) -> &[Token]
        ensures { result.now ≡ self.now.tokens }
    {
        self.items.as_slice()
    }

    /// The place after the last character of the source.
    pub fn end(&self) -> Place
        ensures { result ≡ self.now.end }
    {
        self.end
    }
}
