// A search that goes on from what was found before.

ghost use Rattle.std.specs.Prelude.{◌≡◌, [], length, IfOk, OnOk, IsTrue};
ghost use Rattle.flat_core.specs.inner.Marks.{has_mark};
ghost use Rattle.alias_paths.specs.inner.Search.{marks_of, AreListed, MarkedAll};

use alias_paths::numbers::Numbers;
use alias_paths::reach::Search;
use std::alloc::Global;
use tsl_value::memory::NoMemory;

/// A search that has found these numbers, and follows none of them.
pub fn search_of(alloc: Global, found: &Numbers) -> Result<Search, NoMemory>
    ensures same { IfOk result (λ s. s.marked.items ≡ found.now) }
    ensures listed { IfOk result AreListed }
    ensures none_waits { IfOk result (λ s. s.waiting.items ≡ []) }
{
    Ok(Search {
        marked: Vec::from_slice(alloc, found.marks())?,
        listed: Vec::from_slice(alloc, found.listed())?,
        waiting: Vec::new(alloc),
    })
}

/// Marks these numbers. Those that were not marked before wait.
pub fn mark_each(search: &mut Search, numbers: &Numbers) -> Result<(), NoMemory>
    requires { length numbers.now ≡ length search.old.marked.items }
    ensures marked { OnOk result (MarkedAll (λ x. IsTrue (has_mark numbers.now x)) (marks_of search.old) (marks_of search.new)) }
    ensures listed { OnOk result (AreListed search.old → AreListed search.new) }
{
    let listed = numbers.listed();
    for number in listed {
        search.mark(*number)?;
    }
    Ok(())
}
