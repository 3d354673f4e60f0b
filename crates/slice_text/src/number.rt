// Which output is printed under a name.

ghost use Rattle.std.specs.Prelude.{◌≡◌, nat_eq, IfNone, IfSome};
ghost use Rattle.std.specs.Cmp.Lexicographic.{pointwise};
ghost use Rattle.std.specs.List.{position};
ghost use Rattle.slice_text.specs.Text.{HasOutput, IsOutputCalled};

use flat_core::equation::Output;
use flat_core::flat::Flat;

/// The place of the output that is printed under a name.
fn place_of(outputs: &[Output], name: &str) -> Option<usize>
    ensures { result ≡ position (λ o. pointwise nat_eq o.name name.now) outputs.now }
{
    outputs
        .iter()
        .position(|output| output.name.as_str() == name)
}

/// The number, counted from 0, of the output that is printed under a name. `None` exactly where none is.
pub fn number_of(flat: &Flat, name: &str) -> Option<u32>
    ensures some { IfSome result (IsOutputCalled flat.now name.now) }
    ensures none { IfNone result (HasOutput flat.now name.now → ⊥) }
{
    flat.assert_whole();
    match place_of(flat.outputs(), name) {
        Some(place) => Some(place as u32),
        None => None,
    }
}
