// What is told on the standard error.

ghost use Rattle.std.specs.Prelude.{◌≡◌, ◌++◌, OnOk};
ghost use Rattle.tessla_cli.specs.Messages.{at_text, at_time_text, back_text, broken_line, broken_status, clash_text, code_text};
ghost use Rattle.tessla_cli.specs.Messages.{cycle_text, ending_line, flat_text, lex_text, limit_text, line_text, members_text, next_text};
ghost use Rattle.tessla_cli.specs.Messages.{no_event_text, parse_text, spec_text, state_text, status_of, trace_text, twice_text};
ghost use Rattle.tessla_cli.specs.Messages.{types_text, wrong_text, wrong_types_text};

use crate::ending::Ending;
use code_file::fault::CodeFault;
use event_writer::fault::write_fault;
use event_writer::place::print_place;
use source_rules::fault::{FlatFault, SpecFault};
use spec_lexer::fault::LexFault;
use spec_parser::parse::ParseFault;
use state_snapshot::fault::StateFault;
use trace_reader::fault::TraceFault;
use tsl_value::bytes::Bytes;
use tsl_value::ids::EqId;
use tsl_value::memory::NoMemory;
use tsl_value::place::Place;
use tsl_value::print::print_number;
use tsl_value::text::Text;
use tsl_value::time::Time;
use tsl_world::Broken;
use type_check::fault::{Kind, TypeFault};
use type_check::print::print_kind;

/// Appends the number of a refused line, and why it is refused.
fn print_line(line: u64, cause: &[u8], out: &mut Bytes) -> Result<(), NoMemory>
    ensures { OnOk result (out.new ≡ out.old ++ line_text line cause.now) }
{
    print_number(line, out)?;
    out.append(b": ")?;
    out.append(cause)
}

/// Appends the two times of a line that goes back in time.
fn print_back(before: Time, now: Time, out: &mut Bytes) -> Result<(), NoMemory>
    ensures { OnOk result (out.new ≡ out.old ++ back_text before now) }
{
    print_number(now.get(), out)?;
    out.append(b" after ")?;
    print_number(before.get(), out)
}

/// Appends that a line has a wrong value for an input.
fn print_wrong(line: u64, name: &Text, out: &mut Bytes) -> Result<(), NoMemory>
    ensures { OnOk result (out.new ≡ out.old ++ wrong_text line name.now) }
{
    print_line(line, b"wrong value for ", out)?;
    out.append(name.as_str().as_bytes())
}

/// Appends that a line has an event of an input that has one at this time already.
fn print_twice(line: u64, name: &Text, out: &mut Bytes) -> Result<(), NoMemory>
    ensures { OnOk result (out.new ≡ out.old ++ twice_text line name.now) }
{
    print_line(line, name.as_str().as_bytes(), out)?;
    out.append(b" twice at one time")
}

/// Appends why a trace is refused, and in which line.
fn print_trace(fault: &TraceFault, out: &mut Bytes) -> Result<(), NoMemory>
    ensures { OnOk result (out.new ≡ out.old ++ trace_text fault.now) }
{
    match fault {
        TraceFault::BadLine { line } => print_line(*line, b"not a trace line", out),
        TraceFault::TimeTooLarge { line } => print_line(*line, b"time too large", out),
        TraceFault::TimeBack { line, before, now } => {
            print_line(*line, b"time ", out)?;
            print_back(*before, *now, out)
        }
        TraceFault::UnknownStream { line } => print_line(*line, b"unknown stream", out),
        TraceFault::WrongValue { line, name } => print_wrong(*line, name, out),
        TraceFault::Twice { line, name } => print_twice(*line, name, out),
        TraceFault::LineTooLong { line } => print_line(*line, b"line too long", out),
        TraceFault::TraceTooLong { line } => print_line(*line, b"trace too long", out),
        TraceFault::Memory => Ok(()),
    }
}

/// Appends where a specification is refused, and how.
fn print_at(place: Place, kind: &[u8], out: &mut Bytes) -> Result<(), NoMemory>
    ensures { OnOk result (out.new ≡ out.old ++ at_text place kind.now) }
{
    print_place(place, out)?;
    out.append(b": ")?;
    out.append(kind)
}

fn print_lex(fault: LexFault, out: &mut Bytes) -> Result<(), NoMemory>
    ensures { OnOk result (out.new ≡ out.old ++ lex_text fault) }
{
    match fault {
        LexFault::SpecTooLong { place } => print_at(place, b"SpecTooLong", out),
        LexFault::BadUtf8 { place } => print_at(place, b"BadUtf8", out),
        LexFault::BadCharacter { place } => print_at(place, b"BadCharacter", out),
        LexFault::OpenText { place } => print_at(place, b"OpenText", out),
        LexFault::BadEscape { place } => print_at(place, b"BadEscape", out),
        LexFault::LiteralTooWide { place } => print_at(place, b"LiteralTooWide", out),
        LexFault::TextTooLong { place } => print_at(place, b"TextTooLong", out),
        LexFault::NameTooLong { place } => print_at(place, b"NameTooLong", out),
        LexFault::Memory => Ok(()),
    }
}

fn print_parse(fault: ParseFault, out: &mut Bytes) -> Result<(), NoMemory>
    ensures { OnOk result (out.new ≡ out.old ++ parse_text fault) }
{
    match fault {
        ParseFault::Unexpected { place } => print_at(place, b"Unexpected", out),
        ParseFault::TooDeep { place } => print_at(place, b"TooDeep", out),
        ParseFault::Memory => Ok(()),
    }
}

/// Appends what an expression is, and what is asked of it.
fn print_clash(have: &Kind, want: &Kind, out: &mut Bytes) -> Result<(), NoMemory>
    ensures { OnOk result (out.new ≡ out.old ++ clash_text have.now want.now) }
{
    out.append(b": have ")?;
    print_kind(have, out)?;
    out.append(b", want ")?;
    print_kind(want, out)
}

fn print_types(fault: TypeFault, out: &mut Bytes) -> Result<(), NoMemory>
    ensures { OnOk result (out.new ≡ out.old ++ types_text fault) }
{
    match fault {
        TypeFault::DefinedTwice { place } => print_at(place, b"DefinedTwice", out),
        TypeFault::UnknownName { place } => print_at(place, b"UnknownName", out),
        TypeFault::BadType { place } => print_at(place, b"BadType", out),
        TypeFault::MixedParameters { place } => print_at(place, b"MixedParameters", out),
        TypeFault::AggregateInput { place } => print_at(place, b"AggregateInput", out),
        TypeFault::FunctionCycle { place } => print_at(place, b"FunctionCycle", out),
        TypeFault::NeedsType { place } => print_at(place, b"NeedsType", out),
        TypeFault::WrongArity { place } => print_at(place, b"WrongArity", out),
        TypeFault::WrongType { place, have, want } => {
            print_at(place, b"WrongType", out)?;
            print_clash(&have, &want, out)
        }
        TypeFault::AggregateResult { place } => print_at(place, b"AggregateResult", out),
        TypeFault::OutputTwice { place } => print_at(place, b"OutputTwice", out),
        TypeFault::NoOutput { place } => print_at(place, b"NoOutput", out),
        TypeFault::Memory => Ok(()),
    }
}

fn print_flat(fault: FlatFault, out: &mut Bytes) -> Result<(), NoMemory>
    ensures { OnOk result (out.new ≡ out.old ++ flat_text fault) }
{
    match fault {
        FlatFault::MacroCycle { place } => print_at(place, b"MacroCycle", out),
        FlatFault::CallsTooDeep { place } => print_at(place, b"CallsTooDeep", out),
        FlatFault::BodyTooLarge { place } => print_at(place, b"BodyTooLarge", out),
        FlatFault::TooManyEquations { place } => print_at(place, b"TooManyEquations", out),
        FlatFault::TooManyUpdates { place } => print_at(place, b"TooManyUpdates", out),
    }
}

/// Appends the names of a cycle, each with an arrow after it.
fn print_members(names: &[Text], out: &mut Bytes) -> Result<(), NoMemory>
    ensures { OnOk result (out.new ≡ out.old ++ members_text names.now) }
{
    for name in names {
        out.append(name.as_str().as_bytes())?;
        out.append(b" -> ")?;
    }
    Ok(())
}

/// Appends a cycle, at the place of its first equation. It ends with the name with which it begins.
fn print_cycle(place: Place, names: &[Text], out: &mut Bytes) -> Result<(), NoMemory>
    ensures { OnOk result (out.new ≡ out.old ++ cycle_text place names.now) }
{
    print_at(place, b"cycle ", out)?;
    print_members(names, out)?;
    match names.first() {
        Some(name) => out.append(name.as_str().as_bytes()),
        None => Ok(()),
    }
}

/// Appends why a specification is refused.
fn print_spec(fault: &SpecFault, out: &mut Bytes) -> Result<(), NoMemory>
    ensures { OnOk result (out.new ≡ out.old ++ spec_text fault.now) }
{
    match fault {
        SpecFault::Lex(fault) => print_lex(*fault, out),
        SpecFault::Parse(fault) => print_parse(*fault, out),
        SpecFault::Types(fault) => print_types(*fault, out),
        SpecFault::Flat(fault) => print_flat(*fault, out),
        SpecFault::Cycle { place, names } => print_cycle(*place, names, out),
        SpecFault::Memory => Ok(()),
    }
}

/// Appends when the next instant comes.
fn print_next(time: Time, out: &mut Bytes) -> Result<(), NoMemory>
    ensures { OnOk result (out.new ≡ out.old ++ next_text time) }
{
    out.append(b" instants before time ")?;
    print_number(time.get(), out)
}

/// Appends how many instants ran, and when the next one comes.
fn print_limit(count: u64, time: Time, out: &mut Bytes) -> Result<(), NoMemory>
    ensures { OnOk result (out.new ≡ out.old ++ limit_text count time) }
{
    out.append(b"limit: ")?;
    print_number(count, out)?;
    print_next(time, out)
}

/// Appends the equation of code whose types are wrong.
fn print_wrong_types(equation: EqId, out: &mut Bytes) -> Result<(), NoMemory>
    ensures { OnOk result (out.new ≡ out.old ++ wrong_types_text equation) }
{
    out.append(b"wrong types in equation ")?;
    print_number(u64::from(equation.get()), out)
}

/// Appends why there is no code file, or why it has no code.
fn print_code(fault: CodeFault, out: &mut Bytes) -> Result<(), NoMemory>
    ensures { OnOk result (out.new ≡ out.old ++ code_text fault) }
{
    match fault {
        CodeFault::TooLong => out.append(b"too long"),
        CodeFault::WrongForm => out.append(b"wrong form"),
        CodeFault::WrongTypes { equation } => print_wrong_types(equation, out),
        CodeFault::Cycle => out.append(b"cycle"),
        CodeFault::NotFine => out.append(b"plan not fine"),
        CodeFault::Memory => Ok(()),
    }
}

/// Appends why there is no state that a run can go on from.
fn print_state(fault: StateFault, out: &mut Bytes) -> Result<(), NoMemory>
    ensures { OnOk result (out.new ≡ out.old ++ state_text fault) }
{
    match fault {
        StateFault::OtherProgram => out.append(b"other program"),
        StateFault::WrongForm => out.append(b"wrong form"),
        StateFault::Memory => Ok(()),
    }
}

/// Appends at which time.
fn print_at_time(time: Time, out: &mut Bytes) -> Result<(), NoMemory>
    ensures { OnOk result (out.new ≡ out.old ++ at_time_text time) }
{
    out.append(b" at ")?;
    print_number(time.get(), out)
}

/// Appends that an output has no event at a time.
fn print_no_event(name: &Text, time: Time, out: &mut Bytes) -> Result<(), NoMemory>
    ensures { OnOk result (out.new ≡ out.old ++ no_event_text name.now time) }
{
    out.append(b"no event of ")?;
    out.append(name.as_str().as_bytes())?;
    print_at_time(time, out)
}

/// Appends the line that tells an ending.
pub fn print_ending(ending: &Ending, out: &mut Bytes) -> Result<(), NoMemory>
    ensures { OnOk result (out.new ≡ out.old ++ ending_line ending.now) }
{
    match ending {
        Ending::Done => Ok(()),
        Ending::Words => out.append(b"words not accepted\n"),
        Ending::Spec(fault) => {
            out.append(b"spec ")?;
            print_spec(fault, out)?;
            out.push(b'\n')
        }
        Ending::Code(fault) => {
            out.append(b"code: ")?;
            print_code(*fault, out)?;
            out.push(b'\n')
        }
        Ending::State(fault) => {
            out.append(b"state: ")?;
            print_state(*fault, out)?;
            out.push(b'\n')
        }
        Ending::NoOutput(name) => {
            out.append(b"no output ")?;
            out.append(name.as_str().as_bytes())?;
            out.push(b'\n')
        }
        Ending::NoEvent { name, time } => {
            print_no_event(name, *time, out)?;
            out.push(b'\n')
        }
        Ending::Trace(fault) => {
            out.append(b"trace ")?;
            print_trace(fault, out)?;
            out.push(b'\n')
        }
        Ending::Fault { time, kind, place } => write_fault(*time, *kind, *place, out),
        Ending::Limit { count, time } => {
            print_limit(*count, *time, out)?;
            out.push(b'\n')
        }
    }
}

impl Ending {
    /// The status with which the program ends so.
    pub fn status(&self) -> u8
        ensures { result ≡ status_of self.now }
    {
        match self {
            Ending::Done => 0,
            Ending::Fault { .. } => 1,
            Ending::Words => 2,
            Ending::Spec(_) => 3,
            Ending::Trace(_) => 4,
            Ending::Limit { .. } => 7,
            Ending::State(_) => 8,
            Ending::Code(_) => 9,
            Ending::NoOutput(_) | Ending::NoEvent { .. } => 10,
        }
    }
}

/// The line that tells what cut a run short.
pub fn broken_line(broken: Broken) -> &'static [u8]
    ensures { result.now ≡ broken_line broken }
{
    match broken {
        Broken::Outside => b"outside: a call failed\n",
        Broken::Memory => b"out of memory\n",
    }
}

/// The status with which the program ends then.
pub fn broken_status(broken: Broken) -> u8
    ensures { result ≡ broken_status broken }
{
    match broken {
        Broken::Outside => 5,
        Broken::Memory => 6,
    }
}
