// The operations of value functions and the updates, by name.

ghost use Rattle.std.specs.Prelude.{◌≡◌};
ghost use Rattle.tsl_value.specs.Operation.{unary_name, binary_name};

/// The operations of one operand: of an Int, a Bool, an aggregate, a queue, a text, a value, and three
/// of an option.
#[derive(Clone, Copy, PartialEq, Eq, Debug)]
pub enum Unary {
    Neg,
    Not,
    Size,
    Front,
    Length,
    Some,
    IsSome,
    IsNone,
    GetSome,
}

impl Unary {
    /// Its name where a body is printed.
    pub fn name(self) -> &'static [u8]
        ensures { result.now ≡ unary_name self }
    {
        match self {
            Unary::Neg => b"neg",
            Unary::Not => b"not",
            Unary::Size => b"size",
            Unary::Front => b"front",
            Unary::Length => b"length",
            Unary::Some => b"some",
            Unary::IsSome => b"issome",
            Unary::IsNone => b"isnone",
            Unary::GetSome => b"getsome",
        }
    }
}

/// The operations of two operands.
#[derive(Clone, Copy, PartialEq, Eq, Debug)]
pub enum Binary {
    Add,
    Sub,
    Mul,
    Div,
    Rem,
    Eq,
    Ne,
    Lt,
    Le,
    Gt,
    Ge,
    And,
    Or,
    Contains,
    Get,
    Concat,
}

impl Binary {
    /// Its name where a body is printed.
    pub fn name(self) -> &'static [u8]
        ensures { result.now ≡ binary_name self }
    {
        match self {
            Binary::Add => b"add",
            Binary::Sub => b"sub",
            Binary::Mul => b"mul",
            Binary::Div => b"div",
            Binary::Rem => b"rem",
            Binary::Eq => b"eq",
            Binary::Ne => b"ne",
            Binary::Lt => b"lt",
            Binary::Le => b"le",
            Binary::Gt => b"gt",
            Binary::Ge => b"ge",
            Binary::And => b"and",
            Binary::Or => b"or",
            Binary::Contains => b"contains",
            Binary::Get => b"get",
            Binary::Concat => b"concat",
        }
    }
}

/// The updates of sets, maps and queues.
#[derive(Clone, Copy, PartialEq, Eq, Debug)]
pub enum Update {
    SetAdd,
    SetRemove,
    MapAdd,
    MapRemove,
    QueueAdd,
    QueueTake,
}
