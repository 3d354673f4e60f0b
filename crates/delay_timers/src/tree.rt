// The tree that finds the delay which is due first, as a list of slots.

ghost use Rattle.std.specs.Prelude.{◌≡◌, ◌≢◌, ◌+◌, ◌<◌, ◌≤◌, ℕ, length, IsTrue, IsFalse, None, MatchOption};
ghost use Rattle.std.specs.Option.{option_map};
ghost use Rattle.delay_timers.specs.inner.Tournament.{slot, ComesFirst, IsOf, IsUpTo, IsFirstOf, IsTree, IsTreeBut, SameFrom, ChangesLeaf};
ghost use Rattle.delay_timers.specs.inner.Tournament.{IsFirstLeafAt};
ghost use Rattle.delay_timers.specs.inner.Tournament.{NoLeafAt};

use tsl_value::time::Time;

/// A pending delay with its time.
#[derive(Clone, Copy, PartialEq, Eq, PartialOrd, Ord, Debug)]
pub struct Due {
    pub time: Time,
    pub delay: u32,
}

/// The one that comes first: what is pending before what is not, then the earlier time, then the lower delay.
fn first_of(a: Option<Due>, b: Option<Due>) -> Option<Due>
    ensures { IsFirstOf result a b }
{
    match (a, b) {
        (Some(left), Some(right)) => Some(left.min(right)),
        (Some(left), None) => Some(left),
        (None, _) => b,
    }
}

/// One comes before another.
pub fn comes_first(a: &Due, b: &Due) -> bool
    ensures yes { IsTrue result → ComesFirst a.now b.now }
    ensures no { IsFalse result → ComesFirst b.now a.now }
{
    a <= b
}

/// Makes this slot and each one above it hold the first of its children again.
fn mend(nodes: &mut [Option<Due>], delays: usize, mut node: usize)
    requires tree { IsTreeBut nodes.old delays node }
    requires inner { node < delays }
    ensures tree { IsTree nodes.new delays }
    ensures leaves { SameFrom delays nodes.new nodes.old }
{
    while node > 0 {
        nodes[node] = first_of(nodes[2 * node], nodes[2 * node + 1]);
        node /= 2;
    }
}

/// Puts this into the leaf of a delay.
pub fn change_leaf(nodes: &mut [Option<Due>], delays: usize, delay: usize, due: Option<Due>)
    requires tree { IsTree nodes.old delays }
    requires there { delay < delays }
    requires own { IsOf delay due }
    ensures tree { IsTree nodes.new delays }
    ensures leaves { ChangesLeaf nodes.old nodes.new delays delay due }
{
    let leaf = delays + delay;
    nodes[leaf] = due;
    mend(nodes, delays, leaf / 2);
}

/// The first delay whose leaf has this time.
pub fn first_leaf_at(nodes: &[Option<Due>], delays: usize, at: Time) -> Option<u32>
    requires { IsTree nodes.now delays }
    ensures { MatchOption result (NoLeafAt nodes.now delays at) (IsFirstLeafAt nodes.now delays at) }
{
    for leaf in &nodes[delays..] {
        match leaf {
            Some(due) if due.time == at => return Some(due.delay),
            _ => {}
        }
    }
    None
}
