// What names stand for.

ghost use Rattle.std.specs.Prelude.{◌≡◌};
ghost use Rattle.name_check.specs.Scope.{is_function, takes_arguments};

/// What a name stands for. The numbers count from 0: items of the specification, parameters of the
/// definition around, and definitions in the blocks of the item around, each before those in its body.
#[derive(Clone, Copy, PartialEq, Eq, Debug)]
pub enum Declaration {
    /// The input of an item.
    Input(usize),
    /// The definition of an item, without parameters.
    Stream(usize),
    /// The definition of an item, all of whose parameters are streams.
    Macro(usize),
    /// The definition of an item, none of whose parameters is a stream.
    Function(usize),
    /// The definition of an item, some of whose parameters are streams and some are not.
    Mixed(usize),
    Parameter(usize),
    Local(usize),
}

impl Declaration {
    /// A value function.
    pub fn is_function(self) -> bool
        ensures { result ≡ is_function self }
    {
        match self {
            Declaration::Function(_) => true,
            Declaration::Input(_) | Declaration::Stream(_) => false,
            Declaration::Macro(_) | Declaration::Mixed(_) => false,
            Declaration::Parameter(_) | Declaration::Local(_) => false,
        }
    }

    /// A name that is called: a macro, a value function, or a definition of mixed parameters.
    pub fn takes_arguments(self) -> bool
        ensures { result ≡ takes_arguments self }
    {
        match self {
            Declaration::Macro(_) | Declaration::Function(_) | Declaration::Mixed(_) => true,
            Declaration::Input(_) | Declaration::Stream(_) => false,
            Declaration::Parameter(_) | Declaration::Local(_) => false,
        }
    }
}
