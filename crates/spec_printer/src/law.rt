// What holds of all trees.

ghost use Rattle.spec_printer.specs.inner.Back.{EachComesBack, EachIsLexedAgain, EachIsReadAgain};

/// Where the tokens of some source spell a tree, what is printed of it has just the tokens that were to be printed, each of
/// them the first of its line where a line was to begin there.
#[tactic(auto, using(crate::proofs::LexedAgain::each_is_lexed_again))]
pub fn each_is_lexed_again()
    ensures { EachIsLexedAgain }
{}

/// Where the tokens of some source spell a tree, the tokens of what is printed of it spell the same tree, places aside. This
/// puts the limit on the length of a source aside.
#[tactic(auto, using(crate::proofs::ComesBack::each_comes_back))]
pub fn each_comes_back()
    ensures { EachComesBack }
{}

/// Within that limit, what is printed is a source that has tokens, and they spell the same tree, places aside.
#[tactic(auto, using(crate::proofs::ComesBack::each_is_read_again))]
pub fn each_is_read_again()
    ensures { EachIsReadAgain }
{}
