// The kinds of aggregates.

ghost use Rattle.std.specs.Prelude.{◌≡◌};
ghost use Rattle.vocabulary.specs.Kinds.{kind_name, kind_named, kind_of, is_kind};

use tsl_value::scalar::ValueType;

#[derive(Clone, Copy, PartialEq, Eq, Debug)]
pub enum Kind {
    Set,
    Map,
    Queue,
}

impl Kind {
    /// The name of its types, which stands before the dot of its functions too.
    pub fn name(self) -> &'static str
        ensures { result.now ≡ kind_name self }
    {
        match self {
            Kind::Set => "Set",
            Kind::Map => "Map",
            Kind::Queue => "Queue",
        }
    }

    pub fn is(self, other: Kind) -> bool
        ensures { result ≡ is_kind self other }
    {
        match (self, other) {
            (Kind::Set, Kind::Set) => true,
            (Kind::Map, Kind::Map) => true,
            (Kind::Queue, Kind::Queue) => true,
            _ => false,
        }
    }
}

pub fn kind_named(name: &str) -> Option<Kind>
    ensures { result ≡ kind_named name.now }
{
    if name == "Set" {
        Some(Kind::Set)
    } else if name == "Map" {
        Some(Kind::Map)
    } else if name == "Queue" {
        Some(Kind::Queue)
    } else {
        None
    }
}

/// The kind of a type of aggregates.
pub fn kind_of(of: ValueType) -> Option<Kind>
    ensures { result ≡ kind_of of }
{
    match of {
        ValueType::Scalar(_) => None,
        ValueType::Set(_) => Some(Kind::Set),
        ValueType::Map(_, _) => Some(Kind::Map),
        ValueType::Queue(_) => Some(Kind::Queue),
    }
}
