// Lists of arguments.

ghost use Rattle.std.specs.Prelude.{◌≡◌, [], ◌∷◌, IfOk};
ghost use Rattle.stream_constructs.specs.Equations.{numbers};

use crate::construct::Stream;
use flat_core::lists::Args;
use std::alloc::Global;
use tsl_value::ids::EqId;
use tsl_value::memory::NoMemory;

pub(crate) fn one(alloc: Global, a: EqId) -> Result<Args, NoMemory>
    ensures { IfOk result (λ args. args ≡ a ∷ []) }
{
    let mut args = Args::new(alloc);
    args.push(a)?;
    Ok(args)
}

pub(crate) fn two(alloc: Global, a: EqId, b: EqId) -> Result<Args, NoMemory>
    ensures { IfOk result (λ args. args ≡ a ∷ b ∷ []) }
{
    let mut args = one(alloc, a)?;
    args.push(b)?;
    Ok(args)
}

pub(crate) fn all(alloc: Global, streams: &[Stream]) -> Result<Args, NoMemory>
    ensures { IfOk result (λ args. args ≡ numbers streams.now) }
{
    let mut args = Args::new(alloc);
    for stream in streams {
        args.push(stream.id)?;
    }
    Ok(args)
}
