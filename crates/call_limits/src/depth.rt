// How deep the edges of a graph nest, for edges that count and edges that do not.

ghost use Rattle.std.specs.Prelude.{◌≡◌, ◌<◌, ◌≤◌, ◌↔◌, ℕ, [], length, replicate, slice_index, IfOk, IfSome, IsNone, All};
ghost use Rattle.std.specs.List.{Contains};
ghost use Rattle.translation_order.specs.OnCycle.{AreBetween};
ghost use Rattle.translation_order.specs.inner.Searching.{AreSuccessors, Leads};
ghost use Rattle.call_limits.specs.inner.Depths.{AreAfter, AreDepths, IsDeep, IsDepthBy, IsFirst, one_deeper};

use definition_cycles::limits::MOST_CALLS;
use std::alloc::Global;
use translation_order::steps::Steps;
use tsl_value::memory::NoMemory;

/// For each item those to which its edges lead.
pub fn successors(alloc: Global, count: u32, edges: &[(u32, u32)]) -> Result<Vec<Steps>, NoMemory>
    requires { AreBetween count edges.now }
    ensures { IfOk result (λ s. AreSuccessors count edges.now s.items) }
{
    let mut successors = no_successors(alloc, count)?;
    for (from, to) in edges {
        let of_from = &mut successors[*from as usize];
        of_from.push(*to)?;
    }
    Ok(successors)
}

/// So many empty lists.
fn no_successors(alloc: Global, count: u32) -> Result<Vec<Steps>, NoMemory>
    ensures { IfOk result (λ s. s.items ≡ replicate count []) }
{
    let mut lists = Vec::new(alloc);
    for _ in 0..count {
        lists.push(Steps::new(alloc))?;
    }
    Ok(lists)
}

/// How many edges that count lie at most on a path from each item, up to one more than may be: those of `counted` count, and those
/// of `passed` only lead on. The order has each item after those to which its edges lead.
pub fn depths(
    alloc: Global,
    order: &[u32],
    counted: &[Steps],
    passed: &[Steps],
) -> Result<Vec<u32>, NoMemory>
    requires same { length passed.now ≡ length counted.now }
    requires after { AreAfter (Leads counted.now) (Leads passed.now) (length counted.now) order.now }
    ensures { IfOk result (λ d. AreDepths (Leads counted.now) (Leads passed.now) (length counted.now) d.items) }
{
    let mut depths = vec![in alloc; 0u32; counted.len()]?;
    for item in order {
        let place = *item as usize;
        let depth = depth_by(&depths, counted[place].as_slice(), passed[place].as_slice());
        depths[place] = depth;
    }
    Ok(depths)
}

/// The depth of an item, by those of the items to which its edges lead.
fn depth_by(depths: &[u32], counted: &[u32], passed: &[u32]) -> u32
    requires counted { All (λ x. x < length depths.now) counted.now }
    requires passed { All (λ x. x < length depths.now) passed.now }
    ensures { IsDepthBy depths.now counted.now passed.now result }
{
    let through = greatest(depths, counted).map_or(0, deeper);
    let besides = greatest(depths, passed).unwrap_or(0);
    through.max(besides)
}

/// One call deeper, up to the first depth that is too great.
fn deeper(depth: u32) -> u32
    ensures { result ≡ one_deeper depth }
{
    depth.min(MOST_CALLS) + 1
}

/// The greatest depth among these items.
fn greatest(depths: &[u32], items: &[u32]) -> Option<u32>
    requires { All (λ x. x < length depths.now) items.now }
    ensures none { IsNone result ↔ (items.now ≡ []) }
    ensures one_of { IfSome result (λ d. (x : ℕ) × Contains items.now x × (slice_index depths.now x ≡ d)) }
    ensures greatest { IfSome result (λ d. All (λ x. slice_index depths.now x ≤ d) items.now) }
{
    items.iter().map(|item| depths[*item as usize]).max()
}

/// The first item of which one of both depths is too great.
pub fn first_deep(macros: &[u32], functions: &[u32]) -> Option<usize>
    requires { length macros.now ≡ length functions.now }
    ensures { IsFirst (IsDeep macros.now functions.now) result }
{
    for item in 0..macros.len() {
        if macros[item] > MOST_CALLS || functions[item] > MOST_CALLS {
            return Some(item);
        }
    }
    None
}
