// The inputs of a system, by their names.

ghost use Rattle.std.specs.Prelude.{◌≡◌, ◌<◌, ℕ, List, [], Some, None, if◌then◌else◌, length, IfOk, IfSome, OnErr, OnOk};
ghost use Rattle.flat_core.specs.declared.equation.Equation.{Equation};
ghost use Rattle.tsl_value.specs.declared.scalar.ScalarType.{ScalarType};
ghost use Rattle.tsl_value.specs.declared.scalar.ValueType.TheVariants as value_type;
ghost use Rattle.std.specs.Option.{option_or};
ghost use Rattle.flat_core.specs.System.{equation};
ghost use Rattle.trace_reader.specs.inner.Places.{IsTable, noted, place_in};
ghost use Rattle.trace_reader.specs.inner.Plain.{ArePlainInputs, HasPlainInput, IsInputOf};
ghost use Rattle.trace_reader.specs.Reading.{input_called, is_input_called};

use crate::name::name_of;
use flat_core::equation::{Equation, Op};
use flat_core::flat::Flat;
use indexmap::IndexMap;
use std::alloc::Global;
use std::marker::Model;
use tsl_value::ids::EqId;
use tsl_value::memory::NoMemory;
use tsl_value::scalar::{ScalarType, ValueType};

/// Names, each with the input that has it.
#[derive(Drop)]
struct Places {
    entries: IndexMap<String, EqId>,
}

impl Model for Places {
    ghost use Rattle.std.specs.String.{string_eq};
    ghost use Rattle.indexmap.specs.IndexMap.{IsUnique};
    ghost use Rattle.trace_reader.specs.inner.Places.{Places, places_in};

    ghost Value = { Places };

    ghost view = { λ p. places_in p.entries.entries };

    ghost invariant = { λ p. IsUnique string_eq p.entries };
}

impl Places {
    fn new(alloc: Global) -> Places
        ensures { result ≡ [] }
    {
        Places {
            entries: IndexMap::new(alloc),
        }
    }

    fn find(&self, name: &str) -> Option<EqId>
        ensures { result ≡ place_in self.now name.now }
    {
        match self.first_called(name) {
            Some(input) => Some(input),
            None => self.entries.get(name).copied(),
        }
    }

    /// The first input, if it has the name. `None` says nothing of the others. In a trace of one input
    /// no name's hash is made.
    fn first_called(&self, name: &str) -> Option<EqId>
        ensures { IfSome result (λ i. place_in self.now name.now ≡ Some i) }
    {
        let (first, input) = self.entries.first()?;
        if name == first.as_str() {
            Some(*input)
        } else {
            None
        }
    }

    /// Notes a name that is not there.
    fn note(&mut self, name: &str, input: EqId) -> Result<(), NoMemory>
        ensures ok { OnOk result (self.new ≡ noted self.old name.now input) }
        ensures err { OnErr result (self.new ≡ self.old) }
    {
        if self.entries.contains_key(name) {
            return Ok(());
        }
        let key = String::from_str(*self.entries.allocator(), name)?;
        self.entries.insert(key, input)?;
        Ok(())
    }

    /// Notes an equation's name, where it is an input.
    fn note_input(&mut self, equation: &Equation, id: EqId) -> Result<(), NoMemory>
        ensures { OnOk result ((name : List ℕ)
            → place_in self.new name ≡ option_or (place_in self.old name) (if is_input_called name equation.now then Some id else None)) }
    {
        match (&equation.op, &equation.name) {
            (Op::Input, Some(name)) => self.note(name.as_str(), id),
            _ => Ok(()),
        }
    }
}

/// The inputs of a system, by their names. Contracts see the system.
#[derive(Drop)]
pub(crate) struct Inputs<'f> {
    flat: &'f Flat,
    places: Places,
    // Whether an input is in a slot.
    has_plain: bool,
    // The input that is in a slot, where it is the only one. Its name needs no slot then.
    sole: Option<EqId>,
    // Inputs of scalars whose names can stand in a trace, by their names' slots. Of several in one slot it has one.
    slots: Vec<Option<EqId>>,
}

/// How many slots the table of these inputs has.
const SLOTS: usize = 4096;

/// The slot of the name at the front, which a blank or the line's end ends. Of a long name the first bytes count.
fn slot_of(bytes: &[u8]) -> usize {
    let mut slot: usize = 0;
    for byte in &bytes[..bytes.len().min(32)] {
        if *byte <= b' ' {
            break;
        }
        slot = slot.wrapping_mul(31).wrapping_add(usize::from(*byte));
    }
    slot % SLOTS
}

/// The name of an input of scalars, where it can stand in a trace.
fn plain_name(equation: &Equation) -> Option<&str>
    ensures { IfSome result (λ name. (of : ScalarType) × IsInputOf of name.now equation.now) }
{
    match (&equation.op, equation.of, &equation.name) {
        (Op::Input, ValueType::Scalar(_), Some(name)) => { name_of(name.as_str().as_bytes()) }
        _ => None,
    }
}

/// The slot of an equation, where it is the first input of its name, has scalars, and its name can stand in a trace.
fn slot_of_input(flat: &Flat, places: &Places, id: EqId) -> Option<usize>
    requires table { IsTable places.now flat.now }
    requires there { id < length flat.now.equations }
    ensures { IfSome result (λ _. HasPlainInput flat.now id) }
{
    let name = plain_name(flat.equation(id))?;
    if places.find(name)? == id {
        Some(slot_of(name.as_bytes()))
    } else {
        None
    }
}

/// Whether a system has such an input.
fn has_plain(flat: &Flat, places: &Places) -> bool
    requires { IsTable places.now flat.now }
{
    for number in 0..flat.count() {
        if let Some(_) = slot_of_input(flat, places, EqId::new(number)) {
            return true;
        }
    }
    false
}

/// The only one of a system's inputs that is such.
fn sole_of(flat: &Flat, places: &Places) -> Option<EqId>
    requires { IsTable places.now flat.now }
    ensures { IfSome result (HasPlainInput flat.now) }
{
    let mut sole = None;
    for number in 0..flat.count() {
        let id = EqId::new(number);
        if let Some(_) = slot_of_input(flat, places, id) {
            if sole.is_some() {
                return None;
            }
            sole = Some(id);
        }
    }
    sole
}

/// Puts an equation into its slot, if it is such an input.
fn note_slot(flat: &Flat, places: &Places, id: EqId, slots: &mut Vec<Option<EqId>>)
    requires table { IsTable places.now flat.now }
    requires there { id < length flat.now.equations }
    requires are { ArePlainInputs flat.now slots.old.items }
    ensures { ArePlainInputs flat.now slots.new.items }
{
    match slot_of_input(flat, places, id) {
        Some(slot) if slot < slots.len() => slots[slot] = Some(id),
        _ => {}
    }
}

/// The table of such inputs.
fn slots_of(alloc: Global, flat: &Flat, places: &Places) -> Result<Vec<Option<EqId>>, NoMemory>
    requires { IsTable places.now flat.now }
    ensures { IfOk result (λ v. ArePlainInputs flat.now v.items) }
{
    let mut slots = vec![in alloc; None; SLOTS]?;
    for number in 0..flat.count() {
        note_slot(flat, places, EqId::new(number), &mut slots);
    }
    Ok(slots)
}

impl<'f> Model for Inputs<'f> {
    ghost use Rattle.lift_func.specs.contracts.body.Body as body;
    ghost use Rattle.std.specs.Coded.{codes};
    ghost use Rattle.flat_core.specs.System.{System};
    ghost use Rattle.trace_reader.specs.inner.Places.{IsTable};
    ghost use Rattle.std.specs.Prelude.{IfSome};
    ghost use Rattle.trace_reader.specs.inner.Plain.{ArePlainInputs, HasPlainInput};

    ghost Value = { System };

    ghost coded = { Prim.hlevel (codes, body.the_row.coded) };

    ghost view = { λ i. i.flat.now };

    ghost invariant = { λ i. IsTable i.places i.flat.now × IfSome i.sole (HasPlainInput i.flat.now)
        × ArePlainInputs i.flat.now i.slots.items };
}

impl<'f> Inputs<'f> {
    /// The inputs of a system.
    pub(crate) fn new(alloc: Global, flat: &'f Flat) -> Result<Inputs<'f>, NoMemory>
        ensures { IfOk result (λ i. i ≡ flat.now) }
    {
        let mut places = Places::new(alloc);
        for number in 0..flat.count() {
            let id = EqId::new(number);
            places.note_input(flat.equation(id), id)?;
        }
        let has_plain = has_plain(flat, &places);
        let sole = sole_of(flat, &places);
        let slots = slots_of(alloc, flat, &places)?;
        Ok(Inputs {
            flat,
            places,
            has_plain,
            sole,
            slots,
        })
    }

    /// Whether lines may be of the form in which most are written.
    pub(crate) fn has_plain(&self) -> bool {
        self.has_plain
    }

    /// An input of scalars whose name may be the one at the front. `None` says nothing of that name.
    pub(crate) fn plain_input(&self, bytes: &[u8]) -> Option<EqId>
        ensures { IfSome result (HasPlainInput self.now) }
    {
        match self.sole {
            Some(input) => Some(input),
            None => *self.slots.get(slot_of(bytes))?,
        }
    }

    /// The name of an equation.
    pub(crate) fn name(&self, id: EqId) -> Option<&[u8]>
        requires { id < length self.now.equations }
        ensures { IfSome result (λ name. (e : Equation) → equation self.now id ≡ Some e → e.name ≡ Some name.now) }
    {
        match &self.flat.equation(id).name {
            Some(name) => Some(name.as_str().as_bytes()),
            None => None,
        }
    }

    /// The type of an equation, where it is one of scalars.
    pub(crate) fn type_of(&self, id: EqId) -> Option<ScalarType>
        requires { id < length self.now.equations }
        ensures { IfSome result (λ of. (e : Equation) → equation self.now id ≡ Some e → e.of ≡ value_type.Scalar of) }
    {
        match self.flat.equation(id).of {
            ValueType::Scalar(of) => Some(of),
            _ => None,
        }
    }

    /// The first input of a name.
    pub(crate) fn find(&self, name: &str) -> Option<EqId>
        ensures { result ≡ input_called self.now name.now }
    {
        self.places.find(name)
    }

    /// The equation of a number.
    pub(crate) fn equation(&self, id: EqId) -> &Equation
        requires { id < length self.now.equations }
        ensures { equation self.now id ≡ Some result.now }
    {
        self.flat.equation(id)
    }
}
