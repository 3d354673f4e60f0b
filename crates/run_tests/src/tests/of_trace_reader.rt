// The reader, on a small trace.

use sample_systems::systems::sample;
use std::test::Fail;
use trace_reader::next::Rest;
use trace_reader::reader::TraceReader;

// The system has no input of this name, so that the line only says its time.
#[test]
fn a_trace_has_its_lines(rt: HostRuntime) -> Result<(), Fail> {
    let flat = sample(rt.alloc())?;
    let mut reader = TraceReader::new(rt.alloc(), &flat, false, 100)?;
    let mut lines = Vec::new(rt.alloc());
    reader.feed(b"1: i = 5\n2:\n")?;
    reader.finish();
    assert!(rt; matches!(reader.read_all(&mut lines), Ok(Rest::End)));
    assert!(rt; lines.len() == 2);
    Ok(())
}
