// How many definitions stand in blocks.

ghost use Rattle.std.specs.Prelude.{◌≡◌, suc, ◌+◌, ◌^◌, ◌<◌};
ghost use Rattle.syntax_tree.specs.inner.OneLevel.{body_of, definitions_of};
ghost use Rattle.syntax_tree.specs.Counts.{AreFew, HasFewInside, count_in, counts};

use syntax_tree::tree::{Body, Definition};

/// How many definitions stand in the blocks of a body, those in the bodies of others among them.
#[cycle(count)]
pub fn count_in(body: &Body) -> usize
    requires { HasFewInside (body_of body.now) }
    ensures { result ≡ count_in (body_of body.now) }
{
    match body {
        Body::Plain(_) => 0,
        Body::Block(definitions, _) => counts(definitions),
    }
}

#[cycle(count)]
fn counts(definitions: &[Definition]) -> usize
    requires { AreFew (definitions_of definitions.now) }
    ensures { result ≡ counts (definitions_of definitions.now) }
{
    let mut count = 0;
    for definition in definitions {
        count = number_after(count, &definition.parts().body);
    }
    count
}

/// The number after a definition that has this number and this body, and after those in its body.
#[cycle(count)]
pub fn number_after(number: usize, body: &Body) -> usize
    requires { suc number + count_in (body_of body.now) < 2 ^ 64 }
    ensures { result ≡ suc number + count_in (body_of body.now) }
{
    number + count_in(body) + 1
}
