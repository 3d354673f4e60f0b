// Cells, read.

ghost use Rattle.std.specs.Prelude.{◌≡◌, ◌++◌, OnOk, OnErr};
ghost use Rattle.std.specs.Option.{option_copied};
ghost use Rattle.tsl_value.specs.Aggregate.{size_of};
ghost use Rattle.tsl_value.specs.Print.{view_text};
ghost use Rattle.cell_reader.specs.inner.Cells.{Cells, FitsKey, IsLive, IsMap, IsQueue, front_of, has_key, value_at, view_at};

use tsl_value::bytes::Bytes;
use tsl_value::ids::Handle;
use tsl_value::memory::NoMemory;
use tsl_value::scalar::Scalar;

/// Reads aggregates by the handles of their cells.
pub trait Reader {
    ghost cells: { Self → Cells };

    /// The number of elements.
    fn size(&self, cell: Handle) -> u64
        requires { IsLive (cells self.now) cell }
        ensures { result ≡ size_of (view_at (cells self.now) cell) };

    /// Whether a key is there.
    fn contains(&self, cell: Handle, key: &Scalar) -> bool
        requires live { IsLive (cells self.now) cell }
        requires typed { FitsKey (view_at (cells self.now) cell) key.now }
        ensures { result ≡ has_key (view_at (cells self.now) cell) key.now };

    /// The value of a map's key. `None` exactly where the key is absent.
    fn get(&self, cell: Handle, key: &Scalar) -> Option<&Scalar>
        requires live { IsLive (cells self.now) cell }
        requires map { IsMap (view_at (cells self.now) cell) }
        requires typed { FitsKey (view_at (cells self.now) cell) key.now }
        ensures { option_copied result ≡ value_at (view_at (cells self.now) cell) key.now };

    /// The element in front of a queue. `None` exactly where the queue is empty.
    fn front(&self, cell: Handle) -> Option<&Scalar>
        requires live { IsLive (cells self.now) cell }
        requires queue { IsQueue (view_at (cells self.now) cell) }
        ensures { option_copied result ≡ front_of (view_at (cells self.now) cell) };

    /// Appends the aggregate's text.
    fn print(&self, cell: Handle, out: &mut Bytes) -> Result<(), NoMemory>
        requires { IsLive (cells self.now) cell }
        ensures ok { OnOk result (out.new ≡ out.old ++ view_text (view_at (cells self.now) cell)) }
        ensures err { OnErr result (out.new ≡ out.old) };
}

/// A reader where no cell is live, for values without aggregates.
#[derive(Clone, Copy, PartialEq, Eq, Debug)]
pub struct NoCells;

#[tactic(auto, using(crate::proofs::NoCells::none_is_live))]
impl Reader for NoCells {
    ghost use Rattle.std.specs.FinMap as finite_map;

    ghost cells = { λ _. finite_map.empty };

    fn size(&self, _cell: Handle) -> u64 {
        unreachable!()
    }

    fn contains(&self, _cell: Handle, _key: &Scalar) -> bool {
        unreachable!()
    }

    fn get(&self, _cell: Handle, _key: &Scalar) -> Option<&Scalar> {
        unreachable!()
    }

    fn front(&self, _cell: Handle) -> Option<&Scalar> {
        unreachable!()
    }

    fn print(&self, _cell: Handle, _out: &mut Bytes) -> Result<(), NoMemory> {
        unreachable!()
    }
}
