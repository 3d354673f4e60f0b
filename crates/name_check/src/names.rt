// Tables of names.

ghost use Rattle.std.specs.Prelude.{◌≡◌, [], ◌∷◌, ◌++◌, is_none, if◌then◌else◌, IfOk, OnErr};
ghost use Rattle.name_check.specs.Scope.{meaning, functions_of};

use crate::declaration::Declaration;
use indexmap::IndexMap;
use std::alloc::Global;
use std::marker::Model;
use tsl_value::memory::NoMemory;

/// Names, and what they stand for. Contracts see the entries in the order in which they were made.
#[derive(Drop)]
pub struct Names {
    entries: IndexMap<String, Declaration>,
}

impl Model for Names {
    ghost use Rattle.name_check.specs.Scope.{Scope};
    ghost use Rattle.name_check.specs.inner.Tables.{entries_in};
    ghost use Rattle.std.specs.String.{string_eq};
    ghost use Rattle.indexmap.specs.IndexMap.{IsUnique};

    ghost Value = { Scope };

    ghost view = { λ n. entries_in n.entries.entries };

    ghost invariant = { λ n. IsUnique string_eq n.entries };
}

impl Names {
    /// No names.
    pub(crate) fn new(alloc: Global) -> Names
        ensures { result ≡ [] }
    {
        Names {
            entries: IndexMap::new(alloc),
        }
    }

    /// What a name stands for, if it is declared.
    pub fn find(&self, name: &str) -> Option<Declaration>
        ensures { result ≡ meaning self.now name.now }
    {
        self.entries.get(name).copied()
    }

    /// What a name stands for, if it is declared as a value function.
    pub fn find_function(&self, name: &str) -> Option<Declaration>
        ensures { result ≡ meaning (functions_of self.now) name.now }
    {
        match self.entries.get(name).copied() {
            Some(found) => {
                if found.is_function() {
                    Some(found)
                } else {
                    None
                }
            }
            None => None,
        }
    }

    /// Declares a name, and says whether it is new. A name that is there keeps what it stands for.
    pub(crate) fn declare(&mut self, name: &str, is: Declaration) -> Result<bool, NoMemory>
        ensures new { IfOk result (λ new. new ≡ is_none (meaning self.old name.now)) }
        ensures added { IfOk result (λ new. self.new ≡ (if new then self.old ++ record { name = name.now; is = is } ∷ [] else self.old)) }
        ensures err { OnErr result (self.new ≡ self.old) }
    {
        if self.entries.contains_key(name) {
            return Ok(false);
        }
        let key = String::from_str(*self.entries.allocator(), name)?;
        self.entries.insert(key, is)?;
        Ok(true)
    }
}
