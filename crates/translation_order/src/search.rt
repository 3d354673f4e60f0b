// A search that tells of each node whether it lies on a cycle.
//
// It goes along a path. The nodes of the path stand in groups: from each node, all nodes of its group and of later groups can be
// reached. An edge of the last group to a new node begins a group. One to a node of an earlier group joins the groups from there
// on, since they lie on a cycle with it. Once all edges of the last group were followed, its nodes are done. They lie on a cycle
// where an edge was found that led back to one of them; if there was none, all edges led to nodes that were done.
//
// Each step takes an edge off, comes to a new node, joins two groups or ends one: there are few more than edges and nodes.

ghost use Rattle.std.specs.Prelude.{◌≡◌, ◌<◌, ◌^◌, ◌∷◌, [], ℕ, true, false, reverse, replicate, length, IfOk, All};
ghost use Rattle.std.specs.List.{Contains};
ghost use Rattle.translation_order.specs.inner.Searching.{AreInside, visit_of, IsSearch, GoesOn, AreDone, path_of, steps_left, IsJoined};
ghost use Rattle.translation_order.specs.inner.Searching.{IsPassed};
ghost use Rattle.translation_order.specs.inner.Searching.{IsMet, AreMarked};

use crate::steps::Steps;
use std::alloc::Global;
use tsl_value::memory::NoMemory;

/// How far the search is with a node.
#[derive(Clone, Copy)]
pub enum Visit {
    /// It did not come to the node yet.
    New,
    /// The node is in a group of the path. Nodes are numbered in the order in which the search comes to them.
    OnPath { number: u32 },
    /// All that can be reached from the node is done.
    Done { on_cycle: bool },
}

/// Nodes of the path, each of which can be reached from each other one.
#[derive(Drop)]
pub struct Group {
    /// The least number of its nodes.
    pub first: u32,
    pub nodes: Steps,
    /// Where edges from these nodes lead that have still to be followed.
    pub targets: Steps,
    /// Whether its nodes lie on a cycle.
    pub cyclic: bool,
}

impl Group {
    /// A group in front of all others. It has no node, and leads to all nodes, so that the search comes to each of them.
    fn outside(alloc: Global, count: u32) -> Result<Group, NoMemory>
        ensures start { IfOk result (λ g. (g.first ≡ 0) × (g.nodes ≡ [])) }
        ensures within { IfOk result (λ g. (x : ℕ) → Contains g.targets x → x < count) }
        ensures all { IfOk result (λ g. (x : ℕ) → x < count → Contains g.targets x) }
    {
        Ok(Group {
            first: 0,
            nodes: Steps::new(alloc),
            targets: Steps::below(alloc, count)?,
            cyclic: false,
        })
    }

    /// A group of one node.
    fn of_node(alloc: Global, node: u32, number: u32, targets: &Steps) -> Result<Group, NoMemory>
        ensures { IfOk result (λ g. g ≡ record { first = number; nodes = node ∷ []; targets = targets.now; cyclic = false }) }
    {
        let mut nodes = Steps::new(alloc);
        nodes.push(node)?;
        Ok(Group {
            first: number,
            nodes,
            targets: targets.copied(alloc)?,
            cyclic: false,
        })
    }

    /// With the group after it, from which an edge leads back.
    fn joined(self, after: Group) -> Result<Group, NoMemory>
        ensures { IfOk result (IsJoined self after) }
    {
        Ok(Group {
            first: self.first,
            nodes: self.nodes.joined(after.nodes)?,
            targets: self.targets.joined(after.targets)?,
            cyclic: true,
        })
    }

    /// Without its last target, which needs not be followed.
    fn passed(self) -> Group
        ensures passed { IsPassed self result }
        ensures cyclic { result.cyclic ≡ self.cyclic }
    {
        let mut passed = self;
        let _ = passed.targets.pop();
        passed
    }
}

/// Follows an edge from the last group to a node of the path, which has this number. Answers the group that is last then.
fn meet(others: &mut Vec<Group>, last: Group, number: u32) -> Result<Group, NoMemory>
    ensures { IfOk result (λ g. IsMet number last others.old.items g others.new.items) }
{
    if number < last.first {
        match others.pop() {
            Some(before) => before.joined(last),
            None => Ok(last),
        }
    } else {
        let mut around = last.passed();
        around.cyclic = true;
        Ok(around)
    }
}

/// These nodes are done.
fn mark(visits: &mut [Visit], nodes: &[u32], on_cycle: bool)
    requires { All (λ x. x < length visits.old) nodes.now }
    ensures { AreMarked nodes.now on_cycle visits.old visits.new }
{
    for node in nodes {
        visits[*node as usize] = Visit::Done { on_cycle };
    }
}

/// The state of the search besides the last group of its path.
#[derive(Drop)]
struct Search {
    visits: Vec<Visit>,
    /// How many nodes the search came to.
    entered: u32,
    /// The groups of the path before the last one.
    others: Vec<Group>,
}

impl Search {
    /// Follows an edge from the last group to a new node, which is a group of its own then.
    fn enter(
        &mut self,
        alloc: Global,
        successors: &[Steps],
        last: Group,
        node: u32,
    ) -> Result<Group, NoMemory>
        requires small { length successors.now < 2 ^ 32 }
        requires search { IsSearch successors.now self.old.visits.items self.old.entered (last ∷ reverse self.old.others.items) }
        requires target { Contains last.targets node }
        requires new { visit_of self.old.visits.items node ≡ Visit.New }
        ensures { IfOk result (λ g. GoesOn successors.now self.new.visits.items self.new.entered (g ∷ reverse self.new.others.items)
            (steps_left successors.now self.old.entered (last ∷ reverse self.old.others.items))) }
    {
        let group = Group::of_node(alloc, node, self.entered, &successors[node as usize])?;
        self.visits[node as usize] = Visit::OnPath {
            number: self.entered,
        };
        self.entered += 1;
        self.others.push(last)?;
        Ok(group)
    }

    /// The last group is done. Answers the group that is last then.
    fn leave(&mut self, successors: &[Steps], last: Group) -> Option<Group>
        requires search { IsSearch successors.now self.old.visits.items self.old.entered (last ∷ reverse self.old.others.items) }
        requires followed { last.targets ≡ [] }
        ensures { GoesOn successors.now self.new.visits.items self.new.entered (path_of result self.new.others.items)
            (steps_left successors.now self.old.entered (last ∷ reverse self.old.others.items)) }
    {
        mark(
            self.visits.as_mut_slice(),
            last.nodes.as_slice(),
            last.cyclic,
        );
        self.others.pop()
    }

    /// One step, with the last group of the path: one of its edges is followed, or the group is done. Answers the group that is
    /// last then.
    fn step(
        &mut self,
        alloc: Global,
        successors: &[Steps],
        last: Group,
    ) -> Result<Option<Group>, NoMemory>
        requires small { length successors.now < 2 ^ 32 }
        requires search { IsSearch successors.now self.old.visits.items self.old.entered (last ∷ reverse self.old.others.items) }
        ensures { IfOk result (λ g. GoesOn successors.now self.new.visits.items self.new.entered (path_of g self.new.others.items)
            (steps_left successors.now self.old.entered (last ∷ reverse self.old.others.items))) }
    {
        match last.targets.last() {
            None => Ok(self.leave(successors, last)),
            Some(node) => match self.visits[node as usize] {
                Visit::New => Ok(Some(self.enter(alloc, successors, last, node)?)),
                Visit::OnPath { number } => Ok(Some(meet(&mut self.others, last, number)?)),
                Visit::Done { on_cycle: _ } => Ok(Some(last.passed())),
            },
        }
    }
}

/// The search did not come to any node.
fn all_new(alloc: Global, count: usize) -> Result<Vec<Visit>, NoMemory>
    ensures { IfOk result (λ v. v.items ≡ replicate count Visit.New) }
{
    Ok(vec![in alloc; Visit::New; count]?)
}

/// For each node whether it lies on a cycle.
pub fn visit_all(alloc: Global, count: u32, successors: &[Steps]) -> Result<Vec<Visit>, NoMemory>
    requires count { length successors.now ≡ count }
    requires inside { AreInside successors.now }
    ensures { IfOk result (λ v. AreDone successors.now v.items) }
{
    let mut search = Search {
        visits: all_new(alloc, count as usize)?,
        entered: 0,
        others: Vec::new(alloc),
    };
    let mut last = Group::outside(alloc, count)?;
    while let Some(next) = search.step(alloc, successors, last)? {
        last = next;
    }
    let Search {
        visits,
        entered: _,
        others: _,
    } = search;
    Ok(visits)
}
