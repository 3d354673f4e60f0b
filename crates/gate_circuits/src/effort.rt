// How much searches may do.

ghost use Rattle.std.specs.Prelude.{◌≡◌, IsTrue};

/// How many gates all searches for rows look at, at most.
const STEPS: usize = 20_000_000;

/// Which part of what is left one of them may use up.
const PART: usize = 8;

/// How many gates searches may still look at. A search that may look at no more gives up.
#[derive(Clone, Copy, PartialEq, Eq, Debug)]
pub enum Effort {
    // As many as it takes.
    Unlimited,
    // So many all together, and so many the search that is under way.
    Limited { all: usize, one: usize },
}

impl Effort {
    /// What searches for rows may do.
    pub fn limited() -> Effort {
        Effort::Limited { all: STEPS, one: 0 }
    }

    /// Begins the next search, which may use up a part of what is left.
    pub fn begin(&mut self) {
        match *self {
            Effort::Unlimited => {}
            Effort::Limited { all, one: _ } => {
                *self = Effort::Limited {
                    all,
                    one: all / PART,
                };
            }
        }
    }

    /// Looks at so many gates more, if it may.
    pub fn spend(&mut self, count: usize) -> bool
        ensures { self.old ≡ Effort.Unlimited → IsTrue result × (self.new ≡ Effort.Unlimited) }
    {
        match *self {
            Effort::Unlimited => true,
            Effort::Limited { all, one } => {
                if count > one || count > all {
                    return false;
                }
                *self = Effort::Limited {
                    all: all - count,
                    one: one - count,
                };
                true
            }
        }
    }
}
