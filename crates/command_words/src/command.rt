// What the words ask for.

use tsl_value::text::Text;
use tsl_value::time::Time;

/// What is written of a compiled specification.
#[derive(Drop)]
pub enum Form {
    /// How many equations and how many updates run.
    Check,
    /// The running equations and the outputs.
    Flat,
    /// Which updates happen in place, and why the others copy.
    Show,
    /// The register code.
    Code,
    /// What the output of this name can depend on.
    Slice(Text),
    /// The bytes of its code, to the file of this name.
    File(Text),
}

/// A kind of generated traces.
#[derive(Clone, Copy)]
pub enum Workload {
    Seen,
    Copy,
}

/// Where what runs comes from.
#[derive(Drop)]
pub enum Origin {
    /// It is compiled from the specification of this name.
    Spec(Text),
    /// It stands in the code file of this name.
    Code(Text),
}

/// A run over a trace.
#[derive(Drop)]
pub struct Run {
    /// What runs.
    pub origin: Origin,
    /// The name of the trace; `-`, the standard input, where the words name none.
    pub trace: Text,
    /// Times up to this one are closed at the end of the trace; 0 where the words don't say.
    pub until: u64,
    pub instants: u64,
    pub bytes: u64,
    pub strict: bool,
    /// Whether the end tells how much was copied.
    pub stats: bool,
    /// The file that the state is saved to, if it is.
    pub save: Option<Text>,
    /// The file of the state that the run goes on from, if it does.
    pub resume: Option<Text>,
}

/// A question why an output has an event.
#[derive(Drop)]
pub struct Why {
    pub spec: Text,
    /// The name of the trace.
    pub trace: Text,
    /// The name of the output.
    pub output: Text,
    pub time: Time,
    pub instants: u64,
    pub bytes: u64,
    pub strict: bool,
}

/// What the words ask for.
#[derive(Drop)]
pub enum Command {
    /// To write a text of the specification of this name.
    Write { spec: Text, form: Form },
    /// To monitor a trace.
    Run(Run),
    /// To tell why an output has an event.
    Why(Why),
    /// To write the sample trace with so many lines.
    Generate { lines: u64 },
    /// To tell what the specification of a kind does over that trace.
    Bench { kind: Workload, lines: u64 },
}
