// The code of a small system from its bytes, and from bytes that differ in one place.

ghost use Rattle.std.specs.Prelude.{◌≤◌, length, IfOk};
ghost use Rattle.flat_core.specs.declared.limits.TheConstants.{MOST_EQUATIONS};

use code_check::read::read_code;
use code_file::fault::CodeFault;
use code_file::write::write_code;
use code_reader::parts::Parts;
use code_reader::read::read_form;
use equation_types::equation::first_ill_typed;
use flat_core::lists::EqSet;
use register_code::code::Code;
use std::alloc::Global;
use std::test::Fail;
use tsl_value::bytes::Bytes;
use tsl_value::ids::EqId;

/// The numbers less one that came as `x`, in a set that is updated in place, and one that is copied. The first equation is needed by
/// none; an input `u` and another equation do not run. Eleven equations, an output, an update in place, ten steps.
const CODE: &[u8] = b"TSLCOD1\n\0\0\0\x0b\
    \x01\x01\x01\0\0\0\0\0\0\0\0\0\0\0\0\0\0\0\0\
    \x01\0\x01\0\0\0\x01\0\0\0\x01\0\0\0\x01x\0\0\0\0\
    \x02\0\x02\0\0\0\x02\0\0\0\x01\0\0\0\x01u\0\0\0\0\
    \x01\x0b\x04\x01\0\0\0\0\0\0\0\0\0\0\0\0\0\0\0\0\
    \x01\x08\x04\x01\0\0\0\0\0\0\0\0\0\0\0\0\0\0\0\x02\0\0\0\x07\0\0\0\x03\
    \x01\x06\x04\x01\0\0\0\0\0\0\0\0\0\0\0\0\0\0\0\x02\0\0\0\x04\0\0\0\x01\
    \x01\x03\x01\0\0\0\0\0\0\0\0\0\0\0\0\0\0\0\x01\0\0\0\x01\x01\x02\x01\0\0\0\0\0\x01\x01\0\0\0\0\0\0\0\x01\
    \x01\x0e\x04\x01\0\0\0\0\0\0\0\0\0\0\0\0\0\0\0\x02\0\0\0\x05\0\0\0\x06\
    \0\
    \x01\x03\x02\0\0\0\0\0\0\0\0\0\0\0\0\0\0\0\x02\0\0\0\x05\0\0\0\x06\x01\x02\x10\0\0\0\0\0\0\0\0\0\x01\
    \x01\x0e\x04\x01\0\0\0\0\0\0\0\0\0\0\0\0\0\0\0\x02\0\0\0\x03\0\0\0\x06\
    \0\0\0\x01\0\0\0\x01o\0\0\0\x09\
    \0\0\0\x01\0\0\0\x07\
    \0\0\0\n\0\0\0\0\0\0\0\x01\0\0\0\x03\0\0\0\x05\0\0\0\x06\0\0\0\x09\0\0\0\x07\0\0\0\x04\0\0\0\n\0\0\0\x0b";

/// How each byte is answered with its lowest bit turned, as `answer` says it.
const ANSWERS: &[u8] = b"FFFFFFFFFFFF\
    FF.........FFFFFFFF\
    F.6........FFFF.FFFF\
    FF.........FFFF.FFFF\
    F3FF........FFFFFFFF\
    F4FF........FFFFFFFF44444444\
    F5FF........FFFFFFFF555P555.\
    FF6........FFFFFFFF666.6F.F6666FF........\
    F.FF........FFFFFFFF777C7777\
    F\
    FF9........FFFFFFFF999P99999FFF9999F9999\
    F.FF........FFFFFFFFAAAAAAAA\
    FFFFFFFF.FFFF\
    FFFFFFFF\
    FFFFFFFPFFFPFFFFFFFPFFFPFFFFFFFPFFFPFFFPFFFP";

/// Bytes in place of others, and how they are answered then.
struct Change {
    from: usize,
    to: usize,
    put: &'static [u8],
    answer: u8,
}

const CHANGES: &[Change] = &[
    // the code itself
    Change {
        from: 0,
        to: 0,
        put: b"",
        answer: b'.',
    },
    // a mark of another version
    Change {
        from: 6,
        to: 7,
        put: b"2",
        answer: b'F',
    },
    // a byte after it
    Change {
        from: 350,
        to: 350,
        put: b"\0",
        answer: b'F',
    },
    // `x` has no name
    Change {
        from: 42,
        to: 47,
        put: b"\0\0\0\0",
        answer: b'F',
    },
    // both inputs are `x`
    Change {
        from: 66,
        to: 67,
        put: b"x",
        answer: b'F',
    },
    // what happens in place is no update
    Change {
        from: 302,
        to: 306,
        put: b"\0\0\0\x09",
        answer: b'F',
    },
    // the first equation is a unit among numbers
    Change {
        from: 13,
        to: 14,
        put: b"\x02",
        answer: b'0',
    },
    // an input of sets
    Change {
        from: 33,
        to: 34,
        put: b"\x04\x01",
        answer: b'1',
    },
    // a set of texts is merged with one of numbers
    Change {
        from: 74,
        to: 75,
        put: b"\x03",
        answer: b'4',
    },
    // a choice between a number and a truth value
    Change {
        from: 171,
        to: 188,
        put: b"\x02\x0f\x01\x02\x01\0\0\0\0\0\x01\x02\x01",
        answer: b'6',
    },
    // eight streams are merged, by no step
    Change {
        from: 216,
        to: 217,
        put: b"\x01\x04\0\0\0\0\0\0\0\0\0\0\0\0\0\0\0\0\x08\0\0\0\x01\0\0\0\x01\0\0\0\x01\0\0\0\x01\0\0\0\x01\0\0\0\x01\0\0\0\x01\0\0\0\x01",
        answer: b'P',
    },
    // nine
    Change {
        from: 216,
        to: 217,
        put: b"\x01\x04\0\0\0\0\0\0\0\0\0\0\0\0\0\0\0\0\x09\0\0\0\x01\0\0\0\x01\0\0\0\x01\0\0\0\x01\0\0\0\x01\0\0\0\x01\0\0\0\x01\0\0\0\x01\0\0\0\x01",
        answer: b'8',
    },
    // what runs needs `u`
    Change {
        from: 216,
        to: 217,
        put: b"\x01\x04\0\0\0\0\0\0\0\0\0\0\0\0\0\0\0\0\x03\0\0\0\x02\0\0\0\x02\0\0\0\x02",
        answer: b'8',
    },
    // a delay that waits for its own reset
    Change {
        from: 216,
        to: 217,
        put: b"\x01\x07\0\0\0\0\0\0\0\0\0\0\0\0\0\0\0\0\x02\0\0\0\x06\0\0\0\x08",
        answer: b'C',
    },
    // the first step is missing
    Change {
        from: 306,
        to: 314,
        put: b"\0\0\0\x09",
        answer: b'P',
    },
    // no print
    Change {
        from: 306,
        to: 350,
        put: b"\0\0\0\x09\0\0\0\0\0\0\0\x01\0\0\0\x03\0\0\0\x05\0\0\0\x06\0\0\0\x09\0\0\0\x07\0\0\0\x04\0\0\0\n",
        answer: b'P',
    },
    // a step twice
    Change {
        from: 306,
        to: 350,
        put: b"\0\0\0\x0b\0\0\0\0\0\0\0\x01\0\0\0\x03\0\0\0\x05\0\0\0\x05\0\0\0\x06\0\0\0\x09\0\0\0\x07\0\0\0\x04\0\0\0\n\0\0\0\x0b",
        answer: b'P',
    },
    // a step before what it needs
    Change {
        from: 326,
        to: 334,
        put: b"\0\0\0\x09\0\0\0\x06",
        answer: b'P',
    },
    // the update before what reads its set
    Change {
        from: 330,
        to: 338,
        put: b"\0\0\0\x07\0\0\0\x09",
        answer: b'P',
    },
    // an update of what another one needs
    Change {
        from: 298,
        to: 306,
        put: b"\0\0\0\x02\0\0\0\x07\0\0\0\n",
        answer: b'P',
    },
];

/// An input and an empty set.
const SET: &[u8] =
    b"\x01\0\x01\0\0\0\x01\0\0\0\x01\0\0\0\x01x\0\0\0\0\x01\x0b\x04\x01\0\0\0\0\0\0\0\0\0\0\0\0\0\0\0\0";

/// The input is added to the set.
const UPDATE: &[u8] = b"\x01\x0e\x04\x01\0\0\0\0\0\0\0\0\0\0\0\0\0\0\0\x02\0\0\0\x01\0\0\0\0";

/// An output, and a plan without steps.
const NO_PLAN: &[u8] = b"\0\0\0\x01\0\0\0\x01o\0\0\0\x02\0\0\0\0\0\0\0\0";

/// The bytes of the code that bytes spell.
fn written_again(alloc: Global, bytes: &[u8]) -> Result<Bytes, CodeFault> {
    let code = read_code(alloc, bytes)?;
    let mut out = Bytes::new(alloc);
    write_code(&code, &mut out)?;
    Ok(out)
}

/// `.` for code, the number of an equation that breaks types, or the letter of another fault.
fn letter(read: &Result<Code, CodeFault>) -> u8 {
    match read {
        Ok(_) => b'.',
        Err(CodeFault::WrongTypes { equation }) => digit(equation.get()),
        Err(CodeFault::WrongForm) => b'F',
        Err(CodeFault::Cycle) => b'C',
        Err(CodeFault::NotFine) => b'P',
        Err(CodeFault::TooLong) => b'L',
        Err(CodeFault::Memory) => b'M',
    }
}

/// How bytes are answered, as a letter.
fn answer(alloc: Global, bytes: &[u8]) -> u8 {
    let read = read_code(alloc, bytes);
    letter(&read)
}

fn digit(number: u32) -> u8 {
    match b"0123456789A".get(number as usize) {
        Some(digit) => *digit,
        None => b'?',
    }
}

/// The code with these bytes in place of others.
fn changed(alloc: Global, from: usize, to: usize, put: &[u8]) -> Result<Vec<u8>, Fail> {
    let (Some(front), Some(rest)) = (CODE.get(..from), CODE.get(to..)) else {
        return Err(Fail::from("no such place"));
    };
    let mut bytes = Vec::from_slice(alloc, front)?;
    bytes.extend_from_slice(put)?;
    bytes.extend_from_slice(rest)?;
    Ok(bytes)
}

/// Code of so many equations, of which so many are updates.
fn with_updates(alloc: Global, equations: u32, updates: u32) -> Result<Vec<u8>, Fail> {
    let mut bytes = Vec::from_slice(alloc, b"TSLCOD1\n")?;
    bytes.extend_from_slice(&equations.to_be_bytes())?;
    bytes.extend_from_slice(SET)?;
    for _ in 0..updates {
        bytes.extend_from_slice(UPDATE)?;
    }
    bytes.extend_from_slice(NO_PLAN)?;
    Ok(bytes)
}

#[test]
fn code_comes_back_from_its_bytes(rt: HostRuntime) -> Result<(), Fail> {
    match written_again(rt.alloc(), CODE) {
        Ok(bytes) => {
            assert!(rt; bytes.as_slice() == CODE);
            Ok(())
        }
        Err(_) => Err(Fail::from("refused")),
    }
}

#[test]
fn each_change_has_its_answer(rt: HostRuntime) -> Result<(), Fail> {
    for change in CHANGES {
        let bytes = changed(rt.alloc(), change.from, change.to, change.put)?;
        assert_eq!(rt; answer(rt.alloc(), &bytes), change.answer);
    }
    Ok(())
}

#[test]
fn another_byte_in_each_place_has_its_answer(rt: HostRuntime) -> Result<(), Fail> {
    for place in 0..CODE.len() {
        let bytes = changed(rt.alloc(), place, place + 1, &[CODE[place] ^ 1])?;
        assert!(rt; ANSWERS.get(place).copied() == Some(answer(rt.alloc(), &bytes)));
    }
    Ok(())
}

#[test]
fn no_front_of_it_is_code(rt: HostRuntime) -> Result<(), Fail> {
    for end in 0..CODE.len() {
        assert!(rt; answer(rt.alloc(), &CODE[..end]) == b'F');
    }
    Ok(())
}

#[test]
fn so_many_updates_run(rt: HostRuntime) -> Result<(), Fail> {
    let bytes = with_updates(rt.alloc(), 258, 256)?;
    assert!(rt; answer(rt.alloc(), &bytes) == b'P');
    let bytes = with_updates(rt.alloc(), 259, 257)?;
    assert!(rt; answer(rt.alloc(), &bytes) == b'F');
    Ok(())
}

/// The parts of code, which nobody has judged.
fn parts(alloc: Global, bytes: &[u8]) -> Result<Parts, Fail>
    ensures { IfOk result (λ p. length p.equations.items ≤ MOST_EQUATIONS) }
{
    match read_form(alloc, bytes) {
        Ok(parts) => Ok(parts),
        Err(_) => Err(Fail::from("of another form")),
    }
}

// Three streams and one that is not there are merged. No equation runs, so that types alone are judged.
#[test]
fn an_argument_has_to_be_there(rt: HostRuntime) -> Result<(), Fail> {
    let put = b"\x01\x04\0\0\0\0\0\0\0\0\0\0\0\0\0\0\0\0\x04\0\0\0\x01\0\0\0\x01\0\0\0\x01\0\0\0c";
    let bytes = changed(rt.alloc(), 216, 217, put)?;
    let parts = parts(rt.alloc(), &bytes)?;
    let none = EqSet::new(rt.alloc());
    let broken = first_ill_typed(rt.alloc(), &parts.equations, &none)?;
    assert!(rt; broken == Some(EqId::new(8)));
    Ok(())
}
