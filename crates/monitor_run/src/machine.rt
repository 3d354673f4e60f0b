// What an instant works on.

ghost use Rattle.std.specs.Prelude.{◌≡◌, ◌<◌, [], false, length, replicate, slice_set, IfOk};
ghost use Rattle.std.specs.FinMap as map;

use aggregate_store::store::Store;
use body_eval::register::Register;
use delay_timers::timers::Timers;
use std::alloc::Global;
use tsl_value::bytes::Bytes;
use tsl_value::ids::Handle;
use tsl_value::memory::NoMemory;

/// Registers by the numbers of equations, cells and timers, and texts by the numbers of outputs.
///
/// `registers`, `faulted` and `texts` are those of one instant: what stands at each equation, which are faults, and the lines that were
/// printed. Between instants all of them are empty; the texts keep their room. `kept` lists cells at an instant's end. No mark of a fault has
/// to be taken off, since a run ends with a fault. `last` has for each equation that is kept the register of its last event.
#[derive(Drop)]
pub(crate) struct Machine {
    pub registers: Vec<Register>,
    pub faulted: Vec<bool>,
    pub last: Vec<Register>,
    pub store: Store,
    pub timers: Timers,
    pub texts: Vec<Bytes>,
    pub kept: Vec<Handle>,
}

impl Machine {
    /// Empty registers for so many equations, no cell and no timer, and empty texts for so many outputs.
    pub(crate) fn new(alloc: Global, count: u32, outputs: usize) -> Result<Machine, NoMemory>
        ensures registers { IfOk result (λ m. m.registers.items ≡ replicate count Register.Empty) }
        ensures faulted { IfOk result (λ m. m.faulted.items ≡ replicate count false) }
        ensures last { IfOk result (λ m. m.last.items ≡ replicate count Register.Empty) }
        ensures store { IfOk result (λ m. m.store ≡ record { cells = map.empty; ledger = replicate count 0 }) }
        ensures timers { IfOk result (λ m. m.timers ≡ record { capacity = count; times = map.empty }) }
        ensures texts { IfOk result (λ m. m.texts.items ≡ replicate outputs []) }
    {
        Ok(Machine {
            registers: empty_registers(alloc, count)?,
            faulted: vec![in alloc; false; count as usize]?,
            last: empty_registers(alloc, count)?,
            store: Store::new(alloc, count)?,
            timers: Timers::with_capacity(alloc, count)?,
            texts: empty_texts(alloc, outputs)?,
            kept: Vec::new(alloc),
        })
    }
}

/// So many empty registers.
fn empty_registers(alloc: Global, count: u32) -> Result<Vec<Register>, NoMemory>
    ensures { IfOk result (λ v. v.items ≡ replicate count Register.Empty) }
{
    let mut registers = Vec::new(alloc);
    for _n in 0..count {
        registers.push(Register::Empty)?;
    }
    Ok(registers)
}

/// So many empty texts.
fn empty_texts(alloc: Global, count: usize) -> Result<Vec<Bytes>, NoMemory>
    ensures { IfOk result (λ v. v.items ≡ replicate count []) }
{
    let mut texts = Vec::new(alloc);
    for _n in 0..count {
        texts.push(Bytes::new(alloc))?;
    }
    Ok(texts)
}

/// Puts a register into a place.
#[inline(always)]
pub(crate) fn put(register: Register, place: usize, registers: &mut [Register])
    requires { place < length registers.old }
    ensures { registers.new ≡ slice_set registers.old place register }
{
    match register {
        Register::Empty => empty(place, registers),
        full => registers[place] = full,
    }
}

/// Empties a place. In most instants most places are empty already, and nothing is written there.
pub(crate) fn empty(place: usize, registers: &mut [Register])
    requires { place < length registers.old }
    ensures { registers.new ≡ slice_set registers.old place Register.Empty }
{
    match &registers[place] {
        Register::Empty => {}
        _ => registers[place] = Register::Empty,
    }
}
