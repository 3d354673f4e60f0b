// The facts that a step names, where there are one, two or three.

ghost use Rattle.std.specs.Prelude.{◌≡◌, map};
ghost use Rattle.std.specs.Option.{option_copied, option_map};
ghost use Rattle.event_why.specs.Said.{said};
ghost use Rattle.event_why.specs.inner.Named.{one_of, three_of, two_of};

use crate::fact::Fact;

/// The only fact.
pub(crate) fn one(named: &[Fact]) -> Option<&Fact>
    ensures { option_map said (option_copied result) ≡ one_of (map said named.now) }
{
    match named.split_first() {
        Some((first, rest)) => { if rest.is_empty() { Some(first) } else { None } }
        None => None,
    }
}

/// Both facts, where there are two.
pub(crate) fn two(named: &[Fact]) -> Option<(&Fact, &Fact)>
    ensures { option_map (λ r. (said r.0.now, said r.1.now)) result ≡ two_of (map said named.now) }
{
    let (first, rest) = named.split_first()?;
    let second = one(rest)?;
    Some((first, second))
}

/// All facts, where there are three.
pub(crate) fn three(named: &[Fact]) -> Option<(&Fact, &Fact, &Fact)>
    ensures { option_map (λ r. (said r.0.now, said r.1.now, said r.2.now)) result ≡ three_of (map said named.now) }
{
    let (first, rest) = named.split_first()?;
    let (second, third) = two(rest)?;
    Some((first, second, third))
}
