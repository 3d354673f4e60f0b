// A list of numbers for each equation.

ghost use Rattle.std.specs.Prelude.{◌≡◌, ◌∷◌, [], ◌++◌, length, replicate, slice_set, IfOk, OnOk};
ghost use Rattle.std.specs.List.{flat_map};
ghost use Rattle.step_uses.specs.Uses.{row};

use std::alloc::Global;
use std::marker::Model;
use tsl_value::ids::EqId;
use tsl_value::memory::NoMemory;

/// A list of numbers for each equation, which contracts see as the list of these.
#[derive(Drop)]
pub struct Rows {
    rows: Vec<Vec<u32>>,
}

impl Model for Rows {
    ghost use Rattle.std.specs.Prelude.{List, ℕ, map};

    ghost Value = { List (List ℕ) };

    ghost view = { λ r. map (λ v. v.items) r.rows.items };
}

impl Rows {
    /// An empty list for each of so many equations.
    pub(crate) fn with_count(alloc: Global, count: u32) -> Result<Rows, NoMemory>
        ensures { IfOk result (λ r. r ≡ replicate count []) }
    {
        let mut rows = Vec::new(alloc);
        for _n in 0..count {
            rows.push(Vec::new(alloc))?;
        }
        Ok(Rows { rows })
    }

    /// The list of an equation, or the empty list where there is none.
    pub fn of(&self, id: EqId) -> &[u32]
        ensures { result.now ≡ row self.now id }
    {
        match self.rows.get(id.get() as usize) {
            Some(numbers) => numbers.as_slice(),
            None => &[],
        }
    }

    /// Puts the lists of these equations, one after the other, in the place of what was listed.
    pub fn gather(&self, ids: &[EqId], numbers: &mut Vec<EqId>) -> Result<(), NoMemory>
        ensures { OnOk result (numbers.new.items ≡ flat_map (row self.now) ids.now) }
    {
        numbers.clear();
        for id in ids {
            add_row(self.of(*id), numbers)?;
        }
        Ok(())
    }

    /// Appends a number to the list of an equation, if there is one.
    pub(crate) fn add(&mut self, id: EqId, number: u32) -> Result<(), NoMemory>
        ensures size { length self.new ≡ length self.old }
        ensures added { OnOk result (self.new ≡ slice_set self.old id (row self.old id ++ number ∷ [])) }
    {
        let place = id.get() as usize;
        if place < self.rows.len() {
            self.rows[place].push(number)?;
        }
        Ok(())
    }
}

/// Appends the equations of a list.
fn add_row(row: &[u32], numbers: &mut Vec<EqId>) -> Result<(), NoMemory>
    ensures { OnOk result (numbers.new.items ≡ numbers.old.items ++ row.now) }
{
    for number in row {
        numbers.push(EqId::new(*number))?;
    }
    Ok(())
}
