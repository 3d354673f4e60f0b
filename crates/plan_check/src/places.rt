// The places of steps in an order.

ghost use Rattle.std.specs.Prelude.{◌≡◌, ◌↔◌, ◌<◌, None, Some, is_none, length, replicate, slice_set, IfOk, IsTrue};
ghost use Rattle.std.specs.List.{list_all};
ghost use Rattle.std.specs.Option.{option_map};
ghost use Rattle.alias_rules.specs.Steps.{is_print, is_step, step_count};
ghost use Rattle.plan_check.specs.inner.Places.{is_before, place_in, stands_before, AllStand, ArePlacesOrNone, IsUnplaced, IsWhole};

use flat_core::flat::Flat;
use std::alloc::Global;
use tsl_value::ids::EqId;
use tsl_value::memory::NoMemory;

fn is_print(flat: &Flat, step: u32) -> bool
    ensures { result ≡ is_print flat.now step }
{
    flat.count() <= step && ((step - flat.count()) as usize) < flat.outputs().len()
}

/// Whether the number is that of a running equation or of an output's print.
fn is_step(flat: &Flat, step: u32) -> bool
    ensures { result ≡ is_step flat.now step }
{
    flat.runs(EqId::new(step)) || is_print(flat, step)
}

/// How many numbers there are for equations and prints.
fn step_count(flat: &Flat) -> u32
    ensures { result ≡ step_count flat.now }
{
    flat.count() + flat.outputs().len() as u32
}

/// The place of a number, if it has one.
fn place_in(places: &[Option<usize>], number: u32) -> Option<usize>
    ensures { result ≡ place_in places.now number }
{
    *places.get(number as usize)?
}

fn is_free(places: &[Option<usize>], number: u32) -> bool
    ensures { result ≡ is_none (place_in places.now number) }
{
    place_in(places, number).is_none()
}

/// Whether the number is that of a step, and has no place.
fn is_unplaced(flat: &Flat, places: &[Option<usize>], number: u32) -> bool
    ensures { IsTrue result ↔ IsUnplaced flat.now places.now number }
{
    flat.assert_whole();
    if !is_step(flat, number) {
        return false;
    }
    is_free(places, number)
}

/// No number has a place.
fn no_places(alloc: Global, flat: &Flat) -> Result<Vec<Option<usize>>, NoMemory>
    ensures { IfOk result (λ p. p.items ≡ replicate (step_count flat.now) None) }
{
    Ok(vec![in alloc; None; step_count(flat) as usize]?)
}

fn put(places: &mut Vec<Option<usize>>, number: u32, place: usize)
    requires { number < length places.old.items }
    ensures { places.new.items ≡ slice_set places.old.items number (Some place) }
{
    places[number as usize] = Some(place);
}

/// The place of each number in an order. `None` comes exactly where a number stands there twice, or one that is no step.
pub(crate) fn places_of(
    alloc: Global,
    flat: &Flat,
    order: &[u32],
) -> Result<Option<Vec<Option<usize>>>, NoMemory>
    ensures { IfOk result (λ r. ArePlacesOrNone flat.now order.now (option_map (λ places. places.items) r)) }
{
    flat.assert_whole();
    let mut places = no_places(alloc, flat)?;
    for place in 0..order.len() {
        let number = order[place];
        if !is_unplaced(flat, places.as_slice(), number) {
            return Ok(None);
        }
        put(&mut places, number, place);
    }
    Ok(Some(places))
}

/// Whether each step has a place.
fn all_stand(flat: &Flat, places: &[Option<usize>]) -> bool
    ensures { IsTrue result ↔ AllStand flat.now places.now }
{
    for number in 0..step_count(flat) {
        if is_unplaced(flat, places, number) {
            return false;
        }
    }
    true
}

fn is_before(first: Option<usize>, second: Option<usize>) -> bool
    ensures { result ≡ is_before first second }
{
    match (first, second) {
        (Some(first), Some(second)) => first < second,
        _ => false,
    }
}

/// Whether both have a place, the second a later one.
fn stands_before(places: &[Option<usize>], first: u32, second: u32) -> bool
    ensures { result ≡ stands_before places.now first second }
{
    is_before(place_in(places, first), place_in(places, second))
}

fn agree(places: &[Option<usize>], pairs: &[(u32, u32)]) -> bool
    ensures { result ≡ list_all (λ p. stands_before places.now p.0 p.1) pairs.now }
{
    pairs
        .iter()
        .all(|pair| stands_before(places, pair.0, pair.1))
}

/// Whether each step has a place, and the second of each pair a later one than the first.
pub(crate) fn is_whole(flat: &Flat, places: &[Option<usize>], pairs: &[(u32, u32)]) -> bool
    ensures { IsTrue result ↔ IsWhole flat.now places.now pairs.now }
{
    if !all_stand(flat, places) {
        return false;
    }
    agree(places, pairs)
}
