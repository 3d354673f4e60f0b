// The top call.

ghost use Rattle.std.specs.Prelude.{◌≡◌, ◌<◌, ◌≤◌, ◌-◌, ◌^◌};
ghost use Rattle.command_words.specs.Words.{command_of};
ghost use Rattle.tsl_world.specs.Runs.{Grows};
ghost use Rattle.tsl_world.specs.Seen.{seen};
ghost use Rattle.tsl_world.specs.Standing.{at_first};
ghost use Rattle.tessla_cli.specs.Completeness.{IsComplete};
ghost use Rattle.tessla_cli.specs.Conduct.{OpensAsAsked, MakesAsAsked, MakesLast, TakesInTurn, StopsAtEnds, StopsAtLimits, ReadsPieces};
ghost use Rattle.tessla_cli.specs.Conduct.{GoesOnAtReads, IsPartlyDue, StopsAtFailures, WritesLast};
ghost use Rattle.tessla_cli.specs.Failures.{SomeFailed, failures};
ghost use Rattle.tessla_cli.specs.Headline.{IsDueAtReads};
ghost use Rattle.tessla_cli.specs.Outcome.{Concludes, EndsWith, IsExact, RanOut, TellsFailure};
ghost use Rattle.tessla_cli.specs.Unseen.{NoUpdateIsSeen};

use crate::run::run;
use crate::tell::{tell_broken, tell_ending};
use command_words::words::Words;
use std::alloc::Global;
use tsl_world::{Broken, World};

/// Does what the words ask for and tells how it ended. The answer is the status.
fn conclude<W: World>(alloc: Global, words: &Words, world: &mut W) -> u8
    requires { W.standing world.old ≡ at_first }
    ensures calm { (result ≡ 5 → ⊥) → W.faults world.new ≡ W.faults world.old }
    ensures outside { result ≡ 5 → SomeFailed (failures W.faults W.unheard world.old) (failures W.faults W.unheard world.new) }
    ensures answers { result ≤ 10 }
    ensures calls { Grows W.told W.journal world.old world.new
        (Concludes (command_of words.now) (failures W.faults W.unheard world.old) (failures W.faults W.unheard world.new) result) }
{
    match run(alloc, words, world) {
        Ok(ended) => tell_ending(world, &ended),
        Err(broken) => tell_broken(world, broken),
    }
}

/// The program, after its words. Each command with a SPEC compiles that specification: its flat system is simplified and becomes register
/// code.
///
/// - `run SPEC TRACE` monitors the trace under it, and writes the output events up to the first fault. `-` names the standard input,
///   and a TRACE that is left out is `-`. `--until T` closes the times up to T at the end of the trace, `--instants N` is the limit of
///   instants, from 1 to 10^12, `--bytes B` that of the bytes of the trace, from 1 to 2^40, and with `--strict` a line is refused whose
///   name is no input's. With `--stats` it is told at the end how many elements each update has copied. Each stands anywhere after the
///   command, at most once, as `--name V` or `--name=V`.
/// - `exec FILE TRACE` does so by the code that FILE spells, with the same options. Nothing trusts who wrote FILE: it is read and checked
///   first, and what is due is said by the solutions of its system.
/// - With `--save FILE` both take the trace as a part, which goes on in a later run: at its end no time is closed, and what stands behind
///   the last line end is kept and not judged. Where all was done, FILE is made last of all, and the state of the run is written into it as
///   bytes; a file that is there is replaced. With `--resume FILE` they go on from the state that FILE spells, of the same program and
///   whoever wrote it. It is read and judged before the trace is opened. What was due before is left out, `--strict` and the limits are
///   those of the first run, and bytes, lines, instants and copied elements are counted from the first byte of the first run. Of a state
///   that no run wrote nothing is said of what is printed, nor why the run ends.
/// - `check SPEC` writes `ok E U`, how many equations and how many updates run.
/// - `flat SPEC` writes the running equations and the outputs.
/// - `show SPEC` writes for each running update whether it happens in place, or why it copies.
/// - `code SPEC` writes the register code.
/// - `slice SPEC NAME` writes the equations that the output printed under NAME can depend on, and that output, as `flat` does.
/// - `why SPEC TRACE NAME TIME` writes a derivation of the event that the output printed under NAME has at TIME. It reads the trace until
///   the times through TIME are closed, or to its end, which closes no time after the last line's. It takes `--strict`, `--instants N` and
///   `--bytes B`. A fault or an instant beyond the limit ends it only where it comes up to TIME, and a refused line before TIME is closed.
/// - `compile SPEC FILE` makes FILE and writes the code into it as bytes. FILE is made last of all, and a file that is there is replaced.
/// - `gen KIND N` writes the sample trace with N lines, from 1 to 1,000,000. KIND is `seen` or `copy`.
/// - `bench KIND N` compiles the specification of that kind and runs it over that trace. It writes the lines `events N`, `instants X`,
///   `bytes Y` and `copied Z`: how many instants ran, how many bytes of text are due, and how many elements the updates copied together.
///
/// The answer is the status: 0 where all was done, 1 where a fault is closed, 2 where the words are not accepted, 3 where the specification
/// is refused, 4 where a line of the trace is, 5 where a call of the outside failed, 6 where memory ran out, 7 where the limit of instants
/// was passed, 8 where the FILE of `--resume` has no state of the program, or more than 2^40 bytes, 9 where the bytes of the code are more
/// than 2^30 or FILE has no code that may run, and 10 where no output is printed under NAME, or this one has no event at TIME. At 5 alone
/// the FILE of `compile` or `--save` may be there without all of its bytes, and at each other status but 0 it is not made. Words are not
/// accepted, and nothing is opened, where the command is another, SPEC, NAME, FILE, KIND or N is left out or empty, or the TRACE or TIME of
/// `why`, KIND is another, a further name stands, an option is unknown, stands twice or has no value, a number is none or past its limits,
/// `--save` stands with `--until`, or `--resume` with `--strict` or a limit. Each status but 0 is told by one line on the standard error.
/// With `--stats` and status 0, 1, 4 or 7 the line `stats NAME LINE:COLUMN copied N` of each running update, by number, stands before it.
///
/// The clauses speak of the part of the journal that this call adds, where the world is told at its exit.
pub fn tessla<W: World>(alloc: Global, words: &Words, world: &mut W) -> u8
    requires { W.standing world.old ≡ at_first }

    // What is opened, made, read and written, and in which order.
    ensures opens { Grows W.told W.journal world.old world.new (OpensAsAsked (command_of words.now)) }
    ensures makes { Grows W.told W.journal world.old world.new (MakesAsAsked (command_of words.now)) }
    ensures makes_last { Grows W.told W.journal world.old world.new (MakesLast (command_of words.now)) }
    ensures in_turn { Grows W.told W.journal world.old world.new (TakesInTurn (command_of words.now)) }
    ensures writes_last { Grows W.told W.journal world.old world.new (WritesLast (command_of words.now)) }
    ensures ends { Grows W.told W.journal world.old world.new StopsAtEnds }
    ensures limits { Grows W.told W.journal world.old world.new StopsAtLimits }
    ensures pieces { Grows W.told W.journal world.old world.new ReadsPieces }

    // What is done after a call that failed: a write to Err tells it, and nothing follows where that one failed.
    ensures stops { Grows W.told W.journal world.old world.new StopsAtFailures }

    // Before each read of the trace, what was given to Out is the text that is due of the bytes taken so far, and nothing ends the run. It
    // is due by the meaning of the specification, or by the solutions of the system that the code file spells. Where a run goes on from a
    // state, this and all below holds whatever stands before it: the bytes are those from the first one of the first run on, and what was
    // due of the earlier ones is left out. Of a question nothing is due before its time is closed.
    ensures due { Grows W.told W.journal world.old world.new (IsDueAtReads (command_of words.now)) }
    ensures goes_on { Grows W.told W.journal world.old world.new (GoesOnAtReads (command_of words.now)) }

    // Whatever the status, what was given to a channel begins the text that is due there of all that was taken, or that the words ask
    // for.
    ensures partly { Grows W.told W.journal world.old world.new (λ part. IsPartlyDue (command_of words.now) (seen part)) }

    // Over the closed times of the trace that was taken, the register machine by the plan that is taken, or by that of the code file: no
    // update in place copies an element or changes a register that is still read. That the engine runs as this machine does is said of
    // the engine, and not here.
    ensures unseen { Grows W.told W.journal world.old world.new (λ part. NoUpdateIsSeen (command_of words.now) (seen part)) }

    // Each status but 5 and 6 is that of an ending, with its cause, what was made, and what it leaves on each channel.
    ensures ended { (result ≡ 5 → ⊥) → (result ≡ 6 → ⊥) → Grows W.told W.journal world.old world.new
        (EndsWith (command_of words.now) result) }
    ensures failed { result ≡ 5 → SomeFailed (failures W.faults W.unheard world.old) (failures W.faults W.unheard world.new) }
    ensures failed_told { result ≡ 5 → Grows W.told W.journal world.old world.new
        (TellsFailure (command_of words.now) (failures W.faults W.unheard world.old) (failures W.faults W.unheard world.new)) }
    ensures memory { result ≡ 6 → Grows W.told W.journal world.old world.new RanOut }
    ensures calm { (result ≡ 5 → ⊥) → W.faults world.new ≡ W.faults world.old }
    ensures exact { Grows W.told W.journal world.old world.new (λ part. IsExact (command_of words.now) result (seen part)) }

    // Where the outside did not fail, what nothing stands against is done whole, or memory ran out.
    ensures complete { W.faults world.new ≡ W.faults world.old → W.faults world.old < 2 ^ 64 - 1
        → Grows W.told W.journal world.old world.new (λ part. IsComplete (command_of words.now) result (seen part)) }
    ensures answers { result ≤ 10 }
{
    conclude(alloc, words, world)
}
