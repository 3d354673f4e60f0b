// Marks of more places than a word has bits.

use agenda::marks::Agenda;
use std::test::Fail;

#[test]
fn all_marks_are_taken_the_least_first(rt: HostRuntime) -> Result<(), Fail> {
    let mut agenda = Agenda::with_places(rt.alloc(), 70)?;
    agenda.mark_all();
    for place in 0..70 {
        assert!(rt; agenda.take_least() == Some(place));
    }
    assert!(rt; agenda.take_least().is_none());
    Ok(())
}
