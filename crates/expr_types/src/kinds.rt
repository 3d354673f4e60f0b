// What the declared names are.

ghost use Rattle.std.specs.Prelude.{◌≡◌, ℕ, ◌<◌, None, OnOk, OnErr, vec_len};
ghost use Rattle.expr_types.specs.inner.Shown.{kind_at, kinds_at, kinds_of};

use std::alloc::Global;
use tsl_value::memory::NoMemory;
use type_rules::rule::ExprType;

/// What is known of the declared names, by the numbers of their items. What is not known, or is nothing, is None.
#[derive(Drop)]
pub struct KindTable {
    /// What each item is. Of a macro or a value function it is what a call of it gives.
    pub items: Vec<Option<ExprType>>,
    /// What the definitions of each item's block are.
    pub locals: Vec<Vec<Option<ExprType>>>,
}

/// Makes room for what stands at a number, without telling more.
fn make_room(kinds: &mut Vec<Option<ExprType>>, number: usize) -> Result<(), NoMemory>
    ensures room { OnOk result (number < vec_len kinds.new) }
    ensures same { (i : ℕ) → kind_at kinds.new.items i ≡ kind_at kinds.old.items i }
{
    while kinds.len() <= number {
        kinds.push(None)?;
    }
    Ok(())
}

fn set_kind(
    kinds: &mut Vec<Option<ExprType>>,
    number: usize,
    kind: Option<ExprType>,
) -> Result<(), NoMemory>
    ensures set { OnOk result (kind_at kinds.new.items number ≡ kind) }
    ensures others { (i : ℕ) → (i ≡ number → ⊥) → kind_at kinds.new.items i ≡ kind_at kinds.old.items i }
    ensures err { OnErr result ((i : ℕ) → kind_at kinds.new.items i ≡ kind_at kinds.old.items i) }
{
    make_room(kinds, number)?;
    kinds[number] = kind;
    Ok(())
}

/// Makes room for the block of an item, without telling more.
fn make_block_room(
    locals: &mut Vec<Vec<Option<ExprType>>>,
    alloc: Global,
    number: usize,
) -> Result<(), NoMemory>
    ensures room { OnOk result (number < vec_len locals.new) }
    ensures same { (i k : ℕ) → kinds_at locals.new.items i k ≡ kinds_at locals.old.items i k }
{
    while locals.len() <= number {
        locals.push(Vec::new(alloc))?;
    }
    Ok(())
}

impl KindTable {
    /// A table that knows nothing.
    pub fn new(alloc: Global) -> KindTable
        ensures items { (i : ℕ) → (kinds_of result).item i ≡ None }
        ensures locals { (i k : ℕ) → (kinds_of result).local i k ≡ None }
    {
        KindTable {
            items: Vec::new(alloc),
            locals: Vec::new(alloc),
        }
    }

    /// Sets what an item is. Nothing else changes, and after out of memory nothing at all.
    pub fn set_item(&mut self, number: usize, kind: Option<ExprType>) -> Result<(), NoMemory>
        ensures set { OnOk result ((kinds_of self.new).item number ≡ kind) }
        ensures others { (i : ℕ) → (i ≡ number → ⊥) → (kinds_of self.new).item i ≡ (kinds_of self.old).item i }
        ensures locals { (i k : ℕ) → (kinds_of self.new).local i k ≡ (kinds_of self.old).local i k }
        ensures err { OnErr result ((i : ℕ) → (kinds_of self.new).item i ≡ (kinds_of self.old).item i) }
    {
        set_kind(&mut self.items, number, kind)
    }

    /// Sets what a definition of an item's block is. Nothing else changes, and after out of memory nothing at all.
    pub fn set_local(
        &mut self,
        alloc: Global,
        number: usize,
        local: usize,
        kind: Option<ExprType>,
    ) -> Result<(), NoMemory>
        ensures set { OnOk result ((kinds_of self.new).local number local ≡ kind) }
        ensures others { (i k : ℕ) → (i ≡ number → k ≡ local → ⊥) → (kinds_of self.new).local i k ≡ (kinds_of self.old).local i k }
        ensures items { (i : ℕ) → (kinds_of self.new).item i ≡ (kinds_of self.old).item i }
        ensures err { OnErr result ((i k : ℕ) → (kinds_of self.new).local i k ≡ (kinds_of self.old).local i k) }
    {
        make_block_room(&mut self.locals, alloc, number)?;
        set_kind(&mut self.locals[number], local, kind)
    }

    /// What an item is, if that is known.
    pub fn item(&self, number: usize) -> Option<ExprType>
        ensures { result ≡ (kinds_of self.now).item number }
    {
        match self.items.get(number) {
            Some(kind) => *kind,
            None => None,
        }
    }

    /// What a definition of an item's block is, if that is known.
    pub fn local(&self, number: usize, local: usize) -> Option<ExprType>
        ensures { result ≡ (kinds_of self.now).local number local }
    {
        match self.locals.get(number) {
            Some(kinds) => match kinds.get(local) {
                Some(kind) => *kind,
                None => None,
            },
            None => None,
        }
    }
}
