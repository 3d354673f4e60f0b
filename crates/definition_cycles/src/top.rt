// What is seen at the top of a specification.

ghost use Rattle.std.specs.Prelude.{◌≡◌, [], ◌∷◌, map, if◌then◌else◌, IfOk};
ghost use Rattle.syntax_tree.specs.inner.OneLevel.{params_in, item_of};
ghost use Rattle.name_check.specs.Scope.{are_values, top};
ghost use Rattle.definition_cycles.specs.inner.Seen.{IsTop};

use name_check::names::Names;
use name_check::scope::{Scope, are_values};
use name_check::top::{top_functions, top_names};
use std::alloc::Global;
use syntax_tree::tree::{Item, Param};
use tsl_value::memory::NoMemory;

/// The names of the top, and the value functions among them. Where a name is declared twice, its first declaration counts, and
/// the first as a value function where value functions alone are seen.
#[derive(Drop)]
pub struct Top {
    pub names: Names,
    pub functions: Names,
}

impl Top {
    /// Those of these items.
    pub fn of_items(alloc: Global, items: &[Item]) -> Result<Top, NoMemory>
        ensures { IfOk result (IsTop (top (map item_of items.now))) }
    {
        Ok(Top {
            names: top_names(alloc, items)?,
            functions: top_functions(alloc, items)?,
        })
    }

    /// What is seen around a definition with these parameters.
    pub fn around(&self, params: &[Param]) -> Scope<'_>
        ensures { result ≡ (if are_values (params_in params.now) then self.now.functions else self.now.names) ∷ [] }
    {
        if are_values(params) {
            Scope::all(&self.functions)
        } else {
            Scope::all(&self.names)
        }
    }
}
