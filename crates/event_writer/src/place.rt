// The text of places.

ghost use Rattle.std.specs.Prelude.{◌≡◌, ◌++◌, length, take, OnOk, OnErr};
ghost use Rattle.event_writer.specs.Text.{place_text};

use tsl_value::bytes::Bytes;
use tsl_value::memory::NoMemory;
use tsl_value::place::Place;
use tsl_value::print::print_number;

/// Appends a place as `LINE:COLUMN`, or leaves `out` as it was.
pub fn print_place(place: Place, out: &mut Bytes) -> Result<(), NoMemory>
    ensures ok { OnOk result (out.new ≡ out.old ++ place_text place) }
    ensures err { OnErr result (out.new ≡ out.old) }
{
    let before = out.len();
    match append_place(place, out) {
        Ok(()) => Ok(()),
        Err(none) => {
            out.truncate(before);
            Err(none)
        }
    }
}

fn append_place(place: Place, out: &mut Bytes) -> Result<(), NoMemory>
    ensures ok { OnOk result (out.new ≡ out.old ++ place_text place) }
    ensures err { OnErr result (take (length out.old) out.new ≡ out.old) }
{
    print_number(place.line as u64, out)?;
    out.push(b':')?;
    print_number(place.column as u64, out)
}
