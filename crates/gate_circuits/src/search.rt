// The search for what a gate implies.

ghost use Rattle.std.specs.Prelude.{◌≡◌, ℕ, ◌+◌, ◌/◌, ◌<◌, ◌↔◌, ◌⊎◌, true, length, IfOk, IfSome, IsTrue, IsFalse, OnOk};
ghost use Rattle.std.specs.List.{Contains};
ghost use Rattle.gate_circuits.specs.inner.Marks.{has, IsLastBefore};
ghost use Rattle.gate_circuits.specs.inner.Knowledge.{AreModels, Follow};
ghost use Rattle.gate_circuits.specs.Circuit.{Implies};
ghost use Rattle.gate_circuits.specs.inner.Search.{AreHeld, AreSummands, IsDescent, IsNarrowed, IsSearched, IsSeen, IsSum, IsTurn};

use crate::circuit::Gate;
use crate::effort::Effort;
use crate::knowledge::{Knowledge, model};
use crate::marks::Marks;
use std::alloc::Global;
use tsl_value::memory::NoMemory;

/// The part of a circuit that is as long to look at as copies of its sets.
const COPIED: usize = 16;

/// A turn of a search: all assignments that have the wanted gates. Each wanted gate from the place on is on where those before it are.
#[derive(Drop)]
pub struct Turn {
    pub place: usize,
    pub wanted: Marks,
    // What is on where all that is wanted is.
    pub known: Marks,
}

/// What is seen of a wanted gate.
enum Seen {
    // It is on where what is wanted before it is.
    Held,
    Never,
    // A sum of which no summand is wanted.
    Open,
}

/// How a turn goes on.
enum Descent {
    // Each wanted gate is held.
    Bottom,
    Never,
    // One of these summands of a sum is wanted.
    Open { sum: usize, summands: Vec<usize> },
}

impl Turn {
    /// One of some gates that is wanted, or else one that is known.
    fn choice(&self, gates: &[usize]) -> Option<usize>
        ensures { IfSome result (λ x. Contains gates.now x × (IsTrue (has self.now.wanted x) ⊎ IsTrue (has self.now.known x))) }
    {
        match self.wanted.first_of(gates) {
            Some(gate) => Some(gate),
            None => self.known.first_of(gates),
        }
    }

    fn copy(&self, alloc: Global) -> Result<Turn, NoMemory>
        ensures { IfOk result (λ t. t ≡ self.now) }
    {
        Ok(Turn {
            place: self.place,
            wanted: self.wanted.copy(alloc)?,
            known: self.known.copy(alloc)?,
        })
    }
}

/// Appends a gate to the first list, if it is easy, and else to the other.
fn put(
    first: &mut Vec<usize>,
    others: &mut Vec<usize>,
    gate: usize,
    is_easy: bool,
) -> Result<(), NoMemory>
    ensures { OnOk result ((x : ℕ) → (Contains first.new.items x ⊎ Contains others.new.items x) ↔
        ((Contains first.old.items x ⊎ Contains others.old.items x) ⊎ (gate ≡ x))) }
{
    if is_easy {
        first.push(gate)?;
        Ok(())
    } else {
        others.push(gate)?;
        Ok(())
    }
}

impl Knowledge {
    /// Wants what a wanted gate needs.
    fn settle(&self, gate: usize, turn: &mut Turn) -> Seen
        requires turn { IsTurn self.now turn.old }
        requires wanted { IsTrue (has turn.old.wanted gate) }
        ensures narrowed { IsNarrowed self.now turn.old turn.new }
        ensures place { turn.new.place ≡ turn.old.place }
        ensures lower { (x : ℕ) → IsTrue (has turn.new.wanted x) → IsTrue (has turn.old.wanted x) ⊎ (x < gate) }
        ensures seen { IsSeen self.now gate turn.new result }
    {
        if !self.is_possible(gate) {
            return Seen::Never;
        }
        match self.gates().get(gate) {
            None => Seen::Never,
            Some(Gate::Leaf) => Seen::Held,
            Some(Gate::All { inputs }) => {
                turn.wanted.add_each(inputs.numbers());
                Seen::Held
            }
            Some(Gate::Any { inputs }) => match turn.choice(inputs.numbers()) {
                Some(input) => {
                    turn.wanted.add(input);
                    Seen::Held
                }
                None => Seen::Open,
            },
        }
    }

    /// Goes down to a sum, if one of its summands is wanted or known, and wants that.
    fn choose(&self, turn: &mut Turn, sum: usize, summands: &[usize]) -> bool
        requires turn { IsTurn self.now turn.old }
        requires last { IsLastBefore turn.old.wanted turn.old.place sum }
        requires sum { IsSum self.now sum }
        requires summands { AreSummands self.now sum summands.now }
        ensures narrowed { IsNarrowed self.now turn.old turn.new }
        ensures held { IsTrue result → (turn.new.place ≡ sum) × AreHeld self.now turn.new.wanted sum }
        ensures open { IsFalse result → turn.new ≡ turn.old }
    {
        match turn.choice(summands) {
            Some(summand) => {
                turn.wanted.add(summand);
                turn.place = sum;
                true
            }
            None => false,
        }
    }

    /// Goes down from the place, as long as nothing has to be chosen.
    fn descend(&self, alloc: Global, turn: &mut Turn) -> Result<Descent, NoMemory>
        requires { IsTurn self.now turn.old }
        ensures narrowed { OnOk result (IsNarrowed self.now turn.old turn.new) }
        ensures descent { IfOk result (λ d. IsDescent self.now turn.old.place turn.new d) }
    {
        'down: while let Some(gate) = turn.wanted.last_before(turn.place) {
            match self.settle(gate, turn) {
                Seen::Held => turn.place = gate,
                Seen::Never => return Ok(Descent::Never),
                Seen::Open => {
                    let summands = self.summands(alloc, gate)?;
                    if !self.choose(turn, gate, &summands) {
                        return Ok(Descent::Open {
                            sum: gate,
                            summands,
                        });
                    }
                }
            }
        }
        Ok(Descent::Bottom)
    }

    /// The turn in which a summand of a sum is wanted.
    fn with_summand(
        &self,
        alloc: Global,
        turn: &Turn,
        sum: usize,
        summand: usize,
    ) -> Result<Turn, NoMemory>
        requires room { length turn.now.wanted ≡ length self.now / 64 + 1 }
        requires held { AreHeld self.now turn.now.wanted (sum + 1) }
        requires known { Follow self.now turn.now.wanted turn.now.known }
        requires sum { IsSum self.now sum }
        requires below { summand < sum }
        requires implies { Implies self.now summand sum }
        ensures turn { IfOk result (λ next. IsTurn self.now next) }
        ensures place { IfOk result (λ next. next.place ≡ sum) }
        ensures there { IfOk result (λ next. (x : ℕ) → IsTrue (has turn.now.wanted x) → IsTrue (has next.wanted x)) }
        ensures from { IfOk result (λ next. (x : ℕ) → IsTrue (has next.wanted x) → IsTrue (has turn.now.wanted x) ⊎ (x ≡ summand)) }
    {
        let mut next = turn.copy(alloc)?;
        next.place = sum;
        next.wanted.add(summand);
        self.learn(&mut next.known, summand);
        Ok(next)
    }

    /// Whether a gate needs no more than leaves and what is wanted or known.
    fn is_easy(&self, turn: &Turn, gate: usize) -> bool {
        match self.gates().get(gate) {
            Some(Gate::Leaf) => true,
            Some(Gate::All { inputs }) => self.are_easy(turn, inputs.numbers()),
            _ => false,
        }
    }

    fn are_easy(&self, turn: &Turn, inputs: &[usize]) -> bool {
        for input in inputs {
            let is_leaf = match self.gates().get(*input) {
                Some(Gate::Leaf) => true,
                _ => false,
            };
            if !is_leaf && !turn.wanted.has(*input) && !turn.known.has(*input) {
                return false;
            }
        }
        true
    }

    /// The same gates, those first that need no more than leaves.
    fn easy_first(
        &self,
        alloc: Global,
        turn: &Turn,
        gates: &[usize],
    ) -> Result<Vec<usize>, NoMemory>
        ensures { IfOk result (λ list. (x : ℕ) → Contains list.items x ↔ Contains gates.now x) }
    {
        let mut first = Vec::new(alloc);
        let mut others = Vec::new(alloc);
        'gates: for gate in gates {
            let is_easy = self.is_easy(turn, *gate);
            put(&mut first, &mut others, *gate, is_easy)?;
        }
        first.extend_from_slice(&others)?;
        Ok(first)
    }

    /// What is left over and off in the model of a turn in which each wanted gate is held is refuted.
    fn refute(
        &self,
        alloc: Global,
        turn: &Turn,
        left: &mut Marks,
        models: &mut Vec<Marks>,
    ) -> Result<(), NoMemory>
        requires held { AreHeld self.now turn.now.wanted 0 }
        requires known { Follow self.now turn.now.wanted turn.now.known }
        requires models { AreModels self.now models.old.items }
        ensures models { OnOk result (AreModels self.now models.new.items) }
        ensures searched { OnOk result (IsSearched self.now turn.now.wanted left.old left.new true) }
    {
        let on = model(alloc, self.circuit(), &turn.wanted)?;
        left.keep_either(&on, &turn.known);
        models.push(on)?;
        Ok(())
    }

    /// How many gates a closing looks at, and about as much for copies of sets.
    pub fn closing(&self, cone: &[usize]) -> usize {
        cone.len().saturating_add(self.gates().len() / COPIED)
    }

    /// Takes away from what is left over what some assignment that has the wanted gates has not. If it does not give up, the rest is on in
    /// all of them.
    pub fn search(
        &self,
        alloc: Global,
        cone: &[usize],
        turn: Turn,
        left: &mut Marks,
        models: &mut Vec<Marks>,
        effort: &mut Effort,
    ) -> Result<bool, NoMemory>
        requires turn { IsTurn self.now turn }
        requires models { AreModels self.now models.old.items }
        ensures models { OnOk result (AreModels self.now models.new.items) }
        ensures searched { IfOk result (λ done. IsSearched self.now turn.wanted left.old left.new done) }
        ensures whole { effort.old ≡ Effort.Unlimited → IfOk result (λ done. IsTrue done) }
        ensures unlimited { effort.old ≡ Effort.Unlimited → effort.new ≡ Effort.Unlimited }
    {
        let mut turn = turn;
        if !effort.spend(self.closing(cone)) {
            return Ok(false);
        }
        self.close_over(&mut turn.known, cone);
        if left.is_within(&turn.known) {
            return Ok(true);
        }
        match self.descend(alloc, &mut turn)? {
            Descent::Never => Ok(true),
            Descent::Bottom => {
                effort.spend(self.gates().len());
                self.refute(alloc, &turn, left, models)?;
                Ok(true)
            }
            Descent::Open { sum, summands } => {
                let list = self.easy_first(alloc, &turn, &summands)?;
                'turns: for summand in &list {
                    if left.is_within(&turn.known) {
                        return Ok(true);
                    }
                    let next = self.with_summand(alloc, &turn, sum, *summand)?;
                    let is_done = self.search(alloc, cone, next, left, models, effort)?;
                    if !is_done {
                        return Ok(false);
                    }
                }
                Ok(true)
            }
        }
    }
}
