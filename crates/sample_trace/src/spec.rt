// The specifications that are run over the sample trace.

ghost use Rattle.std.specs.Prelude.{◌≡◌};
ghost use Rattle.sample_trace.specs.Source.{copy_source, seen_source};

/// The specification that asks of each value whether it came before. It keeps the set of the values so far.
const SEEN: &[u8] = b"in i: Events[Int]\ndef m := merge(y, Set.empty[Int])\ndef yl := last(m, i)\n\
def y: Events[Set[Int]] := Set.add(yl, i)\ndef s := Set.contains(yl, i)\nout s\n";

/// The same, where a further output holds the set as it was before.
const COPY: &[u8] = b"in i: Events[Int]\ndef m := merge(y, Set.empty[Int])\ndef yl := last(m, i)\n\
def y: Events[Set[Int]] := Set.add(yl, i)\ndef s := Set.contains(yl, i)\nout s\n\
in j: Events[Unit]\ndef prev := last(yl, j)\nout prev\n";

/// The specification that asks of each value whether it came before. It keeps the set of the values so far.
#[tactic(auto, unfolding(crate::specs::Source::seen_source))]
pub fn seen_source() -> &'static [u8]
    ensures { result.now ≡ seen_source }
{
    SEEN
}

/// The same with a further output, which holds the set as it was before the last event of another input.
#[tactic(auto, unfolding(crate::specs::Source::copy_source, crate::specs::Source::seen_source, crate::specs::Source::held_source))]
pub fn copy_source() -> &'static [u8]
    ensures { result.now ≡ copy_source }
{
    COPY
}
