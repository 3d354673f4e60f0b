// How a system is refused whose equations have a cycle without a guard.

ghost use Rattle.std.specs.Prelude.{◌≡◌, ◌<◌, ℕ, List, ◌++◌, length, map, codes, IfOk};
ghost use Rattle.std.specs.Fmt.{decimal};
ghost use Rattle.std.specs.List.{All};
ghost use Rattle.flat_core.specs.System.{equation};
ghost use Rattle.program_text.specs.Text.{label_text};
ghost use Rattle.syntax_tree.specs.Tree.{Item as ItemTree};
ghost use Rattle.translation_order.specs.Cycle.{IsCycleOfWalk};
ghost use Rattle.recursion_check.specs.Feeds.{Feeds};
ghost use Rattle.source_rules.specs.Source.{HasSystem, IsRefused};

use flat_core::flat::Flat;
use source_rules::fault::SpecFault;
use std::alloc::Global;
use translation_order::steps::Steps;
use tsl_value::bytes::Bytes;
use tsl_value::ids::EqId;
use tsl_value::memory::NoMemory;
use tsl_value::print::print_number;
use tsl_value::text::Text;

/// What the equation of this number is called where it has no name, as `%7`.
fn numbered(alloc: Global, number: u32) -> Result<Text, NoMemory>
    ensures { IfOk result (λ t. t ≡ codes "%" ++ decimal number) }
{
    let mut bytes = Bytes::new(alloc);
    bytes.push(b'%')?;
    print_number(number as u64, &mut bytes)?;
    match Text::from_utf8(bytes) {
        Some(text) => Ok(text),
        None => unreachable!(),
    }
}

/// What an equation is called: its name, or else its number.
fn label(alloc: Global, flat: &Flat, equation: EqId) -> Result<Text, NoMemory>
    requires { equation < length flat.now.equations }
    ensures { IfOk result (λ t. t ≡ label_text flat.now equation) }
{
    match &flat.equation(equation).name {
        Some(name) => name.copy(),
        None => numbered(alloc, equation.get()),
    }
}

/// What equations are called, in their order.
fn names_of(alloc: Global, flat: &Flat, equations: &Steps) -> Result<Vec<Text>, NoMemory>
    requires { All (λ i. i < length flat.now.equations) equations.now }
    ensures { IfOk result (λ names. names.items ≡ map (label_text flat.now) equations.now) }
{
    let mut names = Vec::new(alloc);
    for place in 0..equations.len() {
        if let Some(equation) = equations.get(place) {
            names.push(label(alloc, flat, EqId::new(*equation))?)?;
        }
    }
    Ok(names)
}

/// How the source of a system that has this cycle is refused.
pub(crate) fn cyclic(alloc: Global, flat: &Flat, equations: &Steps) -> Result<SpecFault, NoMemory>
    requires { IsCycleOfWalk (length flat.now.equations) (Feeds flat.now) equations.now }
    ensures { (source : List ℕ) (items : List ItemTree) → HasSystem source items flat.now → IfOk result (IsRefused source) }
{
    let names = names_of(alloc, flat, equations)?;
    match equations.get(0) {
        Some(first) => Ok(SpecFault::Cycle {
            place: flat.equation(EqId::new(*first)).place,
            names,
        }),
        None => unreachable!(),
    }
}
