// The functions whose names have a dot.

ghost use Rattle.std.specs.Prelude.{◌≡◌};
ghost use Rattle.vocabulary.specs.Table.{family_name, family_of, family_in, member_name, parameters_of, gives_of, role_of, takes_of};
ghost use Rattle.vocabulary.specs.Table.{dotted_of};

use crate::kind::{Kind, kind_named};
use crate::signature::{Parameters, Role, Term};
use tsl_value::operation::{Binary, Unary, Update};
use tsl_value::scalar::ScalarType;

/// What may stand before a dot.
#[derive(Clone, Copy)]
pub enum Family {
    Of(Kind),
    Text,
}

impl Family {
    pub fn name(self) -> &'static str
        ensures { result.now ≡ family_name self }
    {
        match self {
            Family::Of(kind) => kind.name(),
            Family::Text => "String",
        }
    }
}

pub fn family_named(name: &str) -> Option<Family>
    ensures { result ≡ family_of name.now }
{
    if name == "String" {
        return Some(Family::Text);
    }
    match kind_named(name) {
        Some(kind) => Some(Family::Of(kind)),
        None => None,
    }
}

#[derive(Clone, Copy, PartialEq, Eq, Debug)]
pub enum Dotted {
    SetAdd,
    SetRemove,
    SetContains,
    SetSize,
    MapAdd,
    MapRemove,
    MapContains,
    MapGet,
    MapSize,
    QueueEnqueue,
    QueueDequeue,
    QueueFront,
    QueueSize,
    StringConcat,
    StringSize,
}

const SETS: Family = Family::Of(Kind::Set);

const MAPS: Family = Family::Of(Kind::Map);

const QUEUES: Family = Family::Of(Kind::Queue);

const SET: Term = Term::Of(Kind::Set);

const MAP: Term = Term::Of(Kind::Map);

const QUEUE: Term = Term::Of(Kind::Queue);

const INT: Term = Term::Scalar(ScalarType::Int);

const BOOL: Term = Term::Scalar(ScalarType::Bool);

const TEXT: Term = Term::Scalar(ScalarType::Text);

impl Dotted {
    /// What stands before the dot.
    pub fn family(self) -> Family
        ensures { result ≡ family_in self }
    {
        match self {
            Dotted::SetAdd | Dotted::SetRemove | Dotted::SetContains => SETS,
            Dotted::SetSize => SETS,
            Dotted::MapAdd | Dotted::MapRemove | Dotted::MapContains => MAPS,
            Dotted::MapGet | Dotted::MapSize => MAPS,
            Dotted::QueueEnqueue | Dotted::QueueDequeue => QUEUES,
            Dotted::QueueFront | Dotted::QueueSize => QUEUES,
            Dotted::StringConcat | Dotted::StringSize => Family::Text,
        }
    }

    /// What stands after the dot.
    pub fn member(self) -> &'static str
        ensures { result.now ≡ member_name self }
    {
        match self {
            Dotted::SetAdd | Dotted::MapAdd => "add",
            Dotted::SetRemove | Dotted::MapRemove => "remove",
            Dotted::SetContains | Dotted::MapContains => "contains",
            Dotted::SetSize | Dotted::MapSize => "size",
            Dotted::QueueSize | Dotted::StringSize => "size",
            Dotted::MapGet => "get",
            Dotted::QueueEnqueue => "enqueue",
            Dotted::QueueDequeue => "dequeue",
            Dotted::QueueFront => "front",
            Dotted::StringConcat => "concat",
        }
    }

    pub fn parameters(self) -> Parameters
        ensures { result ≡ parameters_of self }
    {
        match self {
            Dotted::SetAdd | Dotted::SetRemove => Parameters::Two(SET, Term::Key),
            Dotted::SetContains => Parameters::Two(SET, Term::Key),
            Dotted::SetSize => Parameters::One(SET),
            Dotted::MapAdd => Parameters::Three(MAP, Term::Key, Term::Entry),
            Dotted::MapRemove => Parameters::Two(MAP, Term::Key),
            Dotted::MapContains | Dotted::MapGet => Parameters::Two(MAP, Term::Key),
            Dotted::MapSize => Parameters::One(MAP),
            Dotted::QueueEnqueue => Parameters::Two(QUEUE, Term::Entry),
            Dotted::QueueDequeue | Dotted::QueueFront => Parameters::One(QUEUE),
            Dotted::QueueSize => Parameters::One(QUEUE),
            Dotted::StringConcat => Parameters::Two(TEXT, TEXT),
            Dotted::StringSize => Parameters::One(TEXT),
        }
    }

    pub fn gives(self) -> Term
        ensures { result ≡ gives_of self }
    {
        match self {
            Dotted::SetAdd | Dotted::SetRemove => SET,
            Dotted::MapAdd | Dotted::MapRemove => MAP,
            Dotted::QueueEnqueue | Dotted::QueueDequeue => QUEUE,
            Dotted::MapGet | Dotted::QueueFront => Term::Entry,
            Dotted::SetContains | Dotted::MapContains => BOOL,
            Dotted::SetSize | Dotted::MapSize => INT,
            Dotted::QueueSize | Dotted::StringSize => INT,
            Dotted::StringConcat => TEXT,
        }
    }

    pub fn role(self) -> Role
        ensures { result ≡ role_of self }
    {
        match self {
            Dotted::SetAdd => Role::Update(Update::SetAdd),
            Dotted::SetRemove => Role::Update(Update::SetRemove),
            Dotted::MapAdd => Role::Update(Update::MapAdd),
            Dotted::MapRemove => Role::Update(Update::MapRemove),
            Dotted::QueueEnqueue => Role::Update(Update::QueueAdd),
            Dotted::QueueDequeue => Role::Update(Update::QueueTake),
            Dotted::QueueFront => Role::Unary(Unary::Front),
            Dotted::SetContains | Dotted::MapContains => Role::Binary(Binary::Contains),
            Dotted::MapGet => Role::Binary(Binary::Get),
            Dotted::StringConcat => Role::Binary(Binary::Concat),
            Dotted::SetSize | Dotted::MapSize => Role::Unary(Unary::Size),
            Dotted::QueueSize => Role::Unary(Unary::Size),
            Dotted::StringSize => Role::Unary(Unary::Length),
        }
    }

    /// How many arguments it takes.
    pub fn takes(self) -> usize
        ensures { result ≡ takes_of self }
    {
        self.parameters().how_many()
    }
}

#[tactic(auto, unfolding(crate::specs::Table::dotted_of))]
fn in_sets(name: &str) -> Option<Dotted>
    ensures { result ≡ dotted_of (Family.Of Kind.Set) name.now }
{
    match name {
        "add" => Some(Dotted::SetAdd),
        "remove" => Some(Dotted::SetRemove),
        "contains" => Some(Dotted::SetContains),
        "size" => Some(Dotted::SetSize),
        _ => None,
    }
}

#[tactic(auto, unfolding(crate::specs::Table::dotted_of))]
fn in_maps(name: &str) -> Option<Dotted>
    ensures { result ≡ dotted_of (Family.Of Kind.Map) name.now }
{
    match name {
        "add" => Some(Dotted::MapAdd),
        "remove" => Some(Dotted::MapRemove),
        "contains" => Some(Dotted::MapContains),
        "get" => Some(Dotted::MapGet),
        "size" => Some(Dotted::MapSize),
        _ => None,
    }
}

#[tactic(auto, unfolding(crate::specs::Table::dotted_of))]
fn in_queues(name: &str) -> Option<Dotted>
    ensures { result ≡ dotted_of (Family.Of Kind.Queue) name.now }
{
    match name {
        "enqueue" => Some(Dotted::QueueEnqueue),
        "dequeue" => Some(Dotted::QueueDequeue),
        "front" => Some(Dotted::QueueFront),
        "size" => Some(Dotted::QueueSize),
        _ => None,
    }
}

#[tactic(auto, unfolding(crate::specs::Table::dotted_of))]
fn in_texts(name: &str) -> Option<Dotted>
    ensures { result ≡ dotted_of Family.Text name.now }
{
    match name {
        "concat" => Some(Dotted::StringConcat),
        "size" => Some(Dotted::StringSize),
        _ => None,
    }
}

/// The function of this name.
pub fn dotted_named(family: Family, name: &str) -> Option<Dotted>
    ensures { result ≡ dotted_of family name.now }
{
    match family {
        Family::Of(Kind::Set) => in_sets(name),
        Family::Of(Kind::Map) => in_maps(name),
        Family::Of(Kind::Queue) => in_queues(name),
        Family::Text => in_texts(name),
    }
}
