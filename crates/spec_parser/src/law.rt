// What holds of all tokens.

ghost use Rattle.std.specs.Prelude.{◌≡◌, ◌∷◌, ℕ, List};
ghost use Rattle.spec_lexer.specs.declared.token.Token.{Token};
ghost use Rattle.syntax_tree.specs.Tree as tree;
ghost use Rattle.spec_parser.specs.Grammar.{Spells};
ghost use Rattle.spec_parser.specs.Refusals.{HasAnswer, IsTooDeep, IsUnexpected};

/// No tokens spell two trees.
#[tactic(auto, using(crate::proofs::Items::one_tree))]
pub fn one_tree()
    ensures { (room : ℕ) (tokens : List Token) (a b : List tree.Item) → Spells room tokens a → Spells room tokens b → a ≡ b }
{}

/// All tokens spell a tree, or they are refused at one of them or at the end.
pub fn has_answer()
    ensures { (room : ℕ) (tokens : List Token) → HasAnswer room tokens }
{}

/// Tokens that spell a tree are refused nowhere.
pub fn one_answer()
    ensures unexpected { (room : ℕ) (tokens : List Token) (items : List tree.Item) (front rest : List Token)
        → Spells room tokens items
        → IsUnexpected room tokens front rest
        → ⊥ }
    ensures too_deep { (room : ℕ) (tokens : List Token) (items : List tree.Item) (front : List Token) (t : Token) (rest : List Token)
        → Spells room tokens items
        → IsTooDeep room tokens front t rest
        → ⊥ }
{}

/// Tokens are refused at one place alone, and for one reason.
pub fn one_refusal()
    ensures both { (room : ℕ) (tokens front rest before left : List Token) (t : Token)
        → IsUnexpected room tokens front rest
        → IsTooDeep room tokens before t left
        → ⊥ }
    ensures unexpected { (room : ℕ) (tokens front rest other_front other_rest : List Token)
        → IsUnexpected room tokens front rest
        → IsUnexpected room tokens other_front other_rest
        → rest ≡ other_rest }
    ensures too_deep { (room : ℕ) (tokens front left other_front other_left : List Token) (t other : Token)
        → IsTooDeep room tokens front t left
        → IsTooDeep room tokens other_front other other_left
        → t ∷ left ≡ other ∷ other_left }
{}
