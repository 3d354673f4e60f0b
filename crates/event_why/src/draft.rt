// A derivation that is being made: each of its steps is right, and tables have the numbers of those that say what happens.

ghost use Rattle.std.specs.Prelude.{◌≡◌, ◌≤◌, ◌∷◌, [], ℕ, Some, IfOk, replicate, slice_set};
ghost use Rattle.std.specs.Option.{option_copied, option_map};
ghost use Rattle.why_rules.specs.Facts as rules;
ghost use Rattle.event_why.specs.Said.{said};
ghost use Rattle.event_why.specs.inner.Drafted.{IsBlank, IsPut, due_of, fact_at, fact_of, happens_in, joined_of};
ghost use Rattle.event_why.specs.inner.Drafted.{number_at, silence_of, there};
ghost use Rattle.event_why.specs.inner.Tale.{HasQuiet, IsStory, SaysStill, Tale, Tells};
ghost use Rattle.flat_core.specs.System.{runs};
ghost use Rattle.std.specs.Prelude.{IsTrue};

use crate::fact::{Fact, WhyStep};
use std::alloc::Global;
use tsl_value::ids::EqId;
use tsl_value::memory::NoMemory;
use tsl_value::time::Time;

/// The numbers of steps, one for each equation that has one.
#[derive(Drop)]
pub(crate) struct Known {
    pub(crate) numbers: Vec<Option<u64>>,
}

impl Known {
    /// None of so many equations has a number.
    fn new(alloc: Global, count: u32) -> Result<Known, NoMemory>
        ensures { IfOk result (λ k. k.numbers.items ≡ replicate count None) }
    {
        Ok(Known {
            numbers: vec![in alloc; None; count as usize]?,
        })
    }

    /// The number of an equation.
    pub(crate) fn get(&self, i: EqId) -> Option<u64>
        ensures { result ≡ number_at self.now.numbers.items i }
    {
        match self.numbers.get(i.get() as usize) {
            Some(number) => *number,
            None => None,
        }
    }

    /// The equation has this number from now on, or none.
    pub(crate) fn set(&mut self, i: EqId, number: Option<u64>)
        ensures { self.new.numbers.items ≡ slice_set self.old.numbers.items i number }
    {
        let place = i.get() as usize;
        if place < self.numbers.len() {
            self.numbers[place] = number;
        }
    }
}

/// Steps, and for each equation the numbers of those that later ones may name.
#[derive(Drop)]
pub(crate) struct Draft {
    pub(crate) steps: Vec<WhyStep>,
    /// What happens at it at this instant, once it was run.
    pub(crate) here: Known,
    /// Its latest event at an earlier instant.
    pub(crate) latest: Known,
    /// That it has had no event since, or none at all.
    pub(crate) quiet: Known,
    /// When it is due by what happened at earlier times, if it is a delay.
    pub(crate) pending: Known,
    /// How many steps there were when the last ones were left out.
    pub(crate) kept: usize,
}

impl Draft {
    /// Nothing is known of so many equations.
    pub(crate) fn new(alloc: Global, count: u32) -> Result<Draft, NoMemory>
        ensures { IfOk result (λ d. IsBlank count d) }
    {
        Ok(Draft {
            steps: Vec::new(alloc),
            here: Known::new(alloc, count)?,
            latest: Known::new(alloc, count)?,
            quiet: Known::new(alloc, count)?,
            pending: Known::new(alloc, count)?,
            kept: 0,
        })
    }

    /// One more step, and its number.
    pub(crate) fn put(&mut self, fact: Fact, by: Vec<u64>) -> Result<u64, NoMemory>
        ensures { IfOk result (λ n. IsPut self.old self.new (record { fact = fact; by = by }) n) }
    {
        let number = self.steps.len() as u64;
        self.steps.push(WhyStep { fact, by })?;
        Ok(number)
    }

    /// The fact of the step with a number.
    pub(crate) fn fact(&self, number: Option<u64>) -> Option<&Fact>
        ensures { option_map said (option_copied result) ≡ fact_at self.now.steps.items number }
    {
        match number {
            Some(n) => match self.steps.get(n as usize) {
                Some(step) => Some(&step.fact),
                None => None,
            },
            None => None,
        }
    }

    /// Whether an equation has an event at this instant.
    pub(crate) fn has_event(&self, i: EqId) -> bool
        ensures { result ≡ happens_in (fact_of self.now.steps.items self.now.here.numbers.items i) }
    {
        match self.fact(self.here.get(i)) {
            Some(fact) => is_event(fact),
            None => false,
        }
    }

    /// When a delay is due, by what happened at earlier times.
    pub(crate) fn due(&self, i: EqId) -> Option<Time>
        ensures { result ≡ due_of (fact_of self.now.steps.items self.now.pending.numbers.items i) }
    {
        match self.fact(self.pending.get(i)) {
            Some(fact) => due_of(fact),
            None => None,
        }
    }

    /// The times of two silences that join, of which these are the numbers.
    fn joined_times(&self, earlier: Option<u64>, later: u64) -> Option<(Time, Time)>
        ensures { result ≡ joined_of
            (silence_of (fact_at self.now.steps.items earlier)) (silence_of (fact_at self.now.steps.items (Some later))) }
    {
        let (from, _) = silence_of(self.fact(earlier)?)?;
        let (_, to) = silence_of(self.fact(Some(later))?)?;
        Some((from, to))
    }

    /// The fact that an equation has no event up to a time, from the fact that it had none since its latest event and a later one from
    /// then on.
    pub(crate) fn joined(&mut self, alloc: Global, i: EqId, later: u64) -> Result<u64, NoMemory>
        ensures still { IfOk result (λ _. SaysStill self.old self.new) }
        ensures joins { IfOk result (λ n. (T : Tale) (low from to : ℕ)
            → IsStory T
            → IsTrue (runs T.system i)
            → HasQuiet self.old.steps.items self.old.quiet.numbers.items i low from
            → fact_at self.old.steps.items (Some later) ≡ Some (rules.Silent i from to)
            → from ≤ to
            → Tells T self.old self.new n (rules.Silent i low to)) }
    {
        let earlier = self.quiet.get(i);
        match self.joined_times(earlier, later) {
            Some(times) => {
                let silent = Fact::Silent {
                    equation: i,
                    from: times.0,
                    to: times.1,
                };
                self.put(silent, numbers_of(alloc, &[earlier, Some(later)])?)
            }
            None => Ok(later),
        }
    }
}

/// Those of these numbers that are there.
pub(crate) fn numbers_of(alloc: Global, numbers: &[Option<u64>]) -> Result<Vec<u64>, NoMemory>
    ensures { IfOk result (λ v. v.items ≡ there numbers.now) }
{
    let mut by = Vec::new(alloc);
    for number in numbers {
        if let Some(n) = number {
            by.push(*n)?;
        }
    }
    Ok(by)
}

fn is_event(fact: &Fact) -> bool
    ensures { result ≡ happens_in (Some (said fact.now)) }
{
    match fact {
        Fact::Event {
            equation: _,
            time: _,
            value: _,
        } => true,
        _ => false,
    }
}

fn due_of(fact: &Fact) -> Option<Time>
    ensures { result ≡ due_of (Some (said fact.now)) }
{
    match fact {
        Fact::Pending {
            equation: _,
            time: _,
            due,
        } => *due,
        _ => None,
    }
}

/// From when to when an equation has no event, if the fact says this.
fn silence_of(fact: &Fact) -> Option<(Time, Time)>
    ensures { result ≡ silence_of (Some (said fact.now)) }
{
    match fact {
        Fact::Silent {
            equation: _,
            from,
            to,
        } => Some((*from, *to)),
        _ => None,
    }
}
