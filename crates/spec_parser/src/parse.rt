// The tree of some tokens, or where they are refused.

ghost use Rattle.std.specs.Prelude.{◌≡◌, List, ◌-◌, ◌<◌, ◌≤◌, length, IfOk, IfErr, slice_index_or};
ghost use Rattle.spec_lexer.specs.declared.token.Token.{Token as Spot};
ghost use Rattle.syntax_tree.specs.Tree.{Item};
ghost use Rattle.spec_parser.specs.Grammar.{Spells};
ghost use Rattle.syntax_tree.specs.inner.OneLevel.{items_of};
ghost use Rattle.spec_parser.specs.Refusals.{IsUnexpected, IsTooDeep};
ghost use Rattle.spec_parser.specs.Answers.{place_at, IsFaultOf, IsTreeUnlessMemory, IsUnexpectedUnlessMemory, IsTooDeepUnlessMemory};

use crate::item::items;
use crate::limits::MOST_LEVELS;
use crate::stop::Stop;
use spec_lexer::token::Token;
use spec_lexer::tokens::Tokens;
use std::alloc::Global;
use syntax_tree::tree::Tree;
use tsl_value::place::Place;

/// Why tokens have no tree.
#[derive(Clone, Copy, PartialEq, Eq, Debug)]
pub enum ParseFault {
    /// No tree begins with the tokens up to the one at the place, or no tree has all of them, where
    /// the place is the end of the source.
    Unexpected { place: Place },
    /// The token at the place opens the 65th level.
    TooDeep { place: Place },
    /// Out of memory.
    Memory,
}

fn place_of(rest: &[Token], end: Place) -> Place
    ensures { result ≡ place_at rest.now end }
{
    match rest.split_first() {
        Some((token, _)) => token.place,
        None => end,
    }
}

fn place_before(tokens: &[Token], left: usize) -> Place
    requires { left < length tokens.now }
    ensures { (t : Spot) → result ≡ (slice_index_or tokens.now (length tokens.now - left - 1) t).place }
{
    tokens[tokens.len() - left - 1].place
}

/// The tree that the tokens spell, of at most `MOST_LEVELS` levels, or the first token where they spell none.
pub fn parse(alloc: Global, tokens: &Tokens) -> Result<Tree, ParseFault>
    ensures tree { IfOk result (λ t. Spells MOST_LEVELS tokens.now.tokens (items_of t)) }
    ensures end { IfOk result (λ t. t.end ≡ tokens.now.end) }
    ensures size { IfOk result (λ t. length (items_of t) ≤ length tokens.now.tokens) }
    ensures fault { IfErr result (λ e. IsFaultOf e tokens.now.tokens tokens.now.end) }

    // Unless out of memory, the tree comes wherever the tokens spell one, and so does each
    // fault.
    ensures tree_exactly { (items : List Item) → Spells MOST_LEVELS tokens.now.tokens items → IsTreeUnlessMemory result items }
    ensures unexpected_exactly { (front rest : List Spot)
        → IsUnexpected MOST_LEVELS tokens.now.tokens front rest
        → IsUnexpectedUnlessMemory result (place_at rest tokens.now.end) }
    ensures too_deep_exactly { (front : List Spot) (t : Spot) (rest : List Spot)
        → IsTooDeep MOST_LEVELS tokens.now.tokens front t rest
        → IsTooDeepUnlessMemory result t.place }
{
    let all = tokens.as_slice();
    match items(alloc, MOST_LEVELS, all) {
        Ok(items) => Ok(Tree::new(items, tokens.end())),
        Err(Stop::Unexpected(rest)) => {
            let place = place_of(rest, tokens.end());
            Err(ParseFault::Unexpected { place })
        }
        Err(Stop::TooDeep(rest)) => {
            let place = place_before(all, rest.len());
            Err(ParseFault::TooDeep { place })
        }
        Err(Stop::Memory) => Err(ParseFault::Memory),
    }
}
