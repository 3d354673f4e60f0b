// Why a source is no specification that can be run.

ghost use Rattle.std.specs.Prelude.{◌≡◌};

use spec_lexer::fault::LexFault;
use spec_parser::parse::ParseFault;
use std::fmt::{self, Debug, Display, Formatter, Write};
use stream_constructs::maker::MakeFault;
use thiserror::Error;
use tsl_value::memory::NoMemory;
use tsl_value::place::Place;
use tsl_value::text::Text;
use type_check::fault::TypeFault;

/// Why a specification that is well typed has no flat system. An earlier kind is answered before a later one; of the two limits, the
/// one that is passed first.
#[derive(Clone, Copy, PartialEq, Eq, Debug)]
pub enum FlatFault {
    /// The macro of this name, the first in the source that does, lies on a cycle of calls of macros.
    MacroCycle { place: Place },
    /// Calls nest deeper than 64 in this definition or output, the first in the source; macros and value functions are counted
    /// apart. The place is a definition's name, or the word `out`.
    CallsTooDeep { place: Place },
    /// The body of the value function of this name, the first in the source, has more than 1,024 nodes once calls are put in
    /// place.
    BodyTooLarge { place: Place },
    /// A system has at most 4,096 equations, and the expression here would make one more.
    TooManyEquations { place: Place },
    /// A system has at most 256 updates of sets and maps, and this would be one more.
    TooManyUpdates { place: Place },
}

/// Why a source is no specification that can be run. As text it is one word for its kind; what is told of it stands in the message
/// of the program.
#[derive(Drop, Error)]
pub enum SpecFault {
    /// The source has no tokens. The fault is not `LexFault::Memory`, by `refusals_are_no_memory` of `laws.rt`.
    #[error("tokens")]
    Lex(LexFault),
    /// The source's tokens have no tree. The fault is not `ParseFault::Memory`, by the same law.
    #[error("grammar")]
    Parse(ParseFault),
    /// The check of names and types refuses the tree. The fault is not `TypeFault::Memory`, by the same law.
    #[error("types")]
    Types(TypeFault),
    /// No flat system is made of the tree.
    #[error("limits")]
    Flat(FlatFault),
    /// Equations wait for each other at the same time: a cycle of arguments that passes through no first argument of a `last` or
    /// a `delay`. The members are named in the order in which each waits for the one before it, from the least on; an equation without a
    /// name is called by its number, as `%7`. The place is that of the first.
    #[error("cycle")]
    Cycle { place: Place, names: Vec<Text> },
    /// Out of memory.
    #[error("memory")]
    Memory,
}

/// The same word as the text has.
impl Debug for SpecFault {
    fn fmt<W: Write>(&self, f: &mut Formatter<W>) -> Result<(), fmt::Error> {
        Display::fmt(self, f)
    }
}

impl From<LexFault> for SpecFault {
    ghost use Rattle.source_rules.specs.Source.{of_lex};

    ghost from_gives = { λ d e. e ≡ of_lex d };

    fn from(fault: LexFault) -> SpecFault {
        match fault {
            LexFault::Memory => SpecFault::Memory,
            other => SpecFault::Lex(other),
        }
    }
}

impl From<ParseFault> for SpecFault {
    ghost use Rattle.source_rules.specs.Source.{of_parse};

    ghost from_gives = { λ d e. e ≡ of_parse d };

    fn from(fault: ParseFault) -> SpecFault {
        match fault {
            ParseFault::Memory => SpecFault::Memory,
            other => SpecFault::Parse(other),
        }
    }
}

impl From<TypeFault> for SpecFault {
    ghost use Rattle.source_rules.specs.Source.{of_type};

    ghost from_gives = { λ d e. e ≡ of_type d };

    fn from(fault: TypeFault) -> SpecFault {
        match fault {
            TypeFault::Memory => SpecFault::Memory,
            other => SpecFault::Types(other),
        }
    }
}

impl From<MakeFault> for SpecFault {
    ghost use Rattle.source_rules.specs.Source.{of_make};

    ghost from_gives = { λ d e. e ≡ of_make d };

    fn from(fault: MakeFault) -> SpecFault {
        match fault {
            MakeFault::TooManyEquations { place } => {
                SpecFault::Flat(FlatFault::TooManyEquations { place })
            }
            MakeFault::TooManyUpdates { place } => {
                SpecFault::Flat(FlatFault::TooManyUpdates { place })
            }
            MakeFault::Memory => SpecFault::Memory,
        }
    }
}

impl From<NoMemory> for SpecFault {
    ghost use Rattle.std.specs.Prelude.{◌≡◌};
    ghost use Rattle.source_rules.specs.declared.fault.SpecFault.TheVariants.{Memory as OutOfMemory};

    ghost from_gives = { λ _ e. e ≡ OutOfMemory };

    fn from(_error: NoMemory) -> SpecFault {
        SpecFault::Memory
    }
}
