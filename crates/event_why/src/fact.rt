// Facts, and derivations.

ghost use Rattle.std.specs.Prelude.{◌≡◌, ◌↔◌, IfOk, IsTrue};
ghost use Rattle.why_rules.specs.Facts as rules;
ghost use Rattle.event_why.specs.Said.{said};

use plain_solver::value::Value;
use std::alloc::Global;
use tsl_value::ids::EqId;
use tsl_value::memory::NoMemory;
use tsl_value::time::Time;

/// A fact about what happens.
#[derive(Drop)]
pub enum Fact {
    /// An equation has this event at a time.
    Event {
        equation: EqId,
        time: Time,
        value: Value,
    },
    /// It has none from one time to another, both included.
    Silent {
        equation: EqId,
        from: Time,
        to: Time,
    },
    /// No equation on which the output can depend has one from one time to another.
    Gap {
        from: Time,
        to: Time,
    },
    /// A delay is due at this time, or at none, by what happened up to a time.
    Pending {
        equation: EqId,
        time: Time,
        due: Option<Time>,
    },
}

/// A fact, and the numbers of the earlier ones that it follows from, counted from 0.
#[derive(Drop)]
pub struct WhyStep {
    pub fact: Fact,
    pub by: Vec<u64>,
}

/// A derivation: each fact follows from earlier ones, and the last one is what is explained.
#[derive(Drop)]
pub struct Why {
    pub steps: Vec<WhyStep>,
}

/// What is wrong with a derivation.
#[derive(Clone, Copy, PartialEq, Eq, Debug)]
pub enum WhyFault {
    /// This fact follows by no rule from the earlier ones that it names. It is the first one.
    Wrong { fact: u64 },
    /// No later fact names this one, and it is not the last. It is the first one.
    Unused { fact: u64 },
    /// There is no fact, or the last is no event of the output.
    NoEvent,
    /// Out of memory.
    Memory,
}

impl Fact {
    /// An equal fact.
    pub fn copy(&self) -> Result<Fact, NoMemory>
        ensures { IfOk result (λ f. said f ≡ said self.now) }
    {
        Ok(match self {
            Fact::Event {
                equation,
                time,
                value,
            } => Fact::Event {
                equation: *equation,
                time: *time,
                value: value.copy()?,
            },
            Fact::Silent { equation, from, to } => Fact::Silent {
                equation: *equation,
                from: *from,
                to: *to,
            },
            Fact::Gap { from, to } => Fact::Gap {
                from: *from,
                to: *to,
            },
            Fact::Pending {
                equation,
                time,
                due,
            } => Fact::Pending {
                equation: *equation,
                time: *time,
                due: *due,
            },
        })
    }

    /// Whether both say the same.
    pub fn is_same(&self, other: &Fact) -> bool
        ensures { IsTrue result ↔ said self.now ≡ said other.now }
    {
        match self {
            Fact::Event {
                equation,
                time,
                value,
            } => other.is_event(*equation, *time, value),
            Fact::Silent { equation, from, to } => other.is_silent(*equation, *from, *to),
            Fact::Gap { from, to } => other.is_gap(*from, *to),
            Fact::Pending {
                equation,
                time,
                due,
            } => other.is_pending(*equation, *time, *due),
        }
    }

    fn is_event(&self, i: EqId, t: Time, v: &Value) -> bool
        ensures { IsTrue result ↔ rules.Happens i t v.now ≡ said self.now }
    {
        match self {
            Fact::Event {
                equation,
                time,
                value,
            } => *equation == i && *time == t && value.is_same(v),
            _ => false,
        }
    }

    fn is_silent(&self, i: EqId, first: Time, last: Time) -> bool
        ensures { IsTrue result ↔ rules.Silent i first last ≡ said self.now }
    {
        match self {
            Fact::Silent { equation, from, to } => *equation == i && *from == first && *to == last,
            _ => false,
        }
    }

    fn is_gap(&self, first: Time, last: Time) -> bool
        ensures { IsTrue result ↔ rules.Gap first last ≡ said self.now }
    {
        match self {
            Fact::Gap { from, to } => *from == first && *to == last,
            _ => false,
        }
    }

    fn is_pending(&self, i: EqId, t: Time, u: Option<Time>) -> bool
        ensures { IsTrue result ↔ rules.Pending i t u ≡ said self.now }
    {
        match self {
            Fact::Pending {
                equation,
                time,
                due,
            } => *equation == i && *time == t && *due == u,
            _ => false,
        }
    }
}
