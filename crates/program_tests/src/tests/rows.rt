// Tables of whole runs: the words, the specification, the trace, and how the run ends.

use crate::tests::Tessla;
use crate::tests::specs::{
    ABOVE, ALL, BOTH, CHOSEN, CONJUNCTION, COUNTED, EACH_OTHER, EIGHTEEN, FAULT, FAULTS, FIRST,
    GREW, HEARTBEATS, ITSELF, KEPT, NUMBERS, OPEN, POSITIVE, PREVIOUS, PREVIOUS_SET, PRINTED,
    QUOTIENT, RESET, SEEN, SUM, TENTH, TICKS, WAITING,
};
use memory_files::rows::{Row, all_end};
use std::test::Fail;

const RUN: &[&str] = &["run", "s.tsl"];

const SHOW: &[&str] = &["show", "s.tsl"];

const STATISTICS: &[&str] = &["run", "s.tsl", "--stats"];

/// Where an update happens in place, and why another one copies.
const SHOWN: &[Row<'_>] = &[
    Row {
        words: SHOW,
        spec: SEEN,
        trace: "",
        status: 0,
        out: "y 4:28 in place\n",
        err: "",
    },
    Row {
        words: SHOW,
        spec: KEPT,
        trace: "",
        status: 0,
        out: "y 4:28 copied: y kept by yl\n",
        err: "",
    },
    Row {
        words: SHOW,
        spec: PRINTED,
        trace: "",
        status: 0,
        out: "y 4:28 in place\n",
        err: "",
    },
    Row {
        words: SHOW,
        spec: CHOSEN,
        trace: "",
        status: 0,
        out: "u 4:10 copied: u kept by m\n",
        err: "",
    },
    Row {
        words: SHOW,
        spec: GREW,
        trace: "",
        status: 0,
        out: "y 4:28 copied: cycle y -> g -> y\n",
        err: "",
    },
    Row {
        words: SHOW,
        spec: FIRST,
        trace: "",
        status: 0,
        out: "y 5:28 copied: y not overwritten in e0\n",
        err: "",
    },
    Row {
        words: SHOW,
        spec: POSITIVE,
        trace: "",
        status: 0,
        out: "y 4:10 in place\n",
        err: "",
    },
    Row {
        words: SHOW,
        spec: HEARTBEATS,
        trace: "",
        status: 0,
        out: "upd 9:12 in place\n",
        err: "",
    },
    Row {
        words: SHOW,
        spec: EIGHTEEN,
        trace: "",
        status: 0,
        out: "y 22:28 in place\n",
        err: "",
    },
    Row {
        words: SHOW,
        spec: PREVIOUS_SET,
        trace: "",
        status: 0,
        out: "y 4:28 copied: y kept by yl\n",
        err: "",
    },
];

/// The equations and the register code of one specification.
const PRINTED_PROGRAMS: &[Row<'_>] = &[
    Row {
        words: &["check", "s.tsl"],
        spec: SEEN,
        trace: "",
        status: 0,
        out: "ok 6 1\n",
        err: "",
    },
    Row {
        words: &["flat", "s.tsl"],
        spec: SEEN,
        trace: "",
        status: 0,
        out: "%0 i := Input Int\n%1 := Empty Set[Int]\n%2 m := Merge %8 %1\n%3 yl := Last %2 %0\n%8 y := SetAdd %3 %0\n%13 s := Lift contains($0, $1) %3 %0\nout s %13\n",
        err: "",
    },
    Row {
        words: &["code", "s.tsl"],
        spec: SEEN,
        trace: "",
        status: 0,
        out: "%0 i := Input Int\n%1 := Empty Set[Int]\n%3 yl := Last %2 %0\n%13 s := Lift contains($0, $1) %3 %0\n%8 y := SetAdd %3 %0 in place\n%2 m := Merge %8 %1\nprint s %13\nkeep %2\n",
        err: "",
    },
];

/// How many elements the updates of a run copied.
const COPIED: &[Row<'_>] = &[
    Row {
        words: STATISTICS,
        spec: SEEN,
        trace: NUMBERS,
        status: 0,
        out: "1: s = false\n2: s = false\n3: s = true\n",
        err: "stats y 4:28 copied 0\n",
    },
    Row {
        words: STATISTICS,
        spec: KEPT,
        trace: NUMBERS,
        status: 0,
        out: "1: s = false\n2: s = false\n3: s = true\n",
        err: "stats y 4:28 copied 3\n",
    },
    Row {
        words: STATISTICS,
        spec: PRINTED,
        trace: "1: i = 5\n2: i = 7\n2: j\n",
        status: 0,
        out: "1: s = false\n2: s = false\n2: old = Set(5)\n",
        err: "stats y 4:28 copied 0\n",
    },
    Row {
        words: STATISTICS,
        spec: FIRST,
        trace: "1: i = 5\n2: i = 7\n3: j\n",
        status: 0,
        out: "1: s = false\n2: s = false\n3: z = Set()\n",
        err: "stats y 5:28 copied 1\n",
    },
    Row {
        words: STATISTICS,
        spec: POSITIVE,
        trace: "1: i = 4\n2: i = -1\n",
        status: 0,
        out: "0: m = Set()\n1: m = Set(4)\n2: m = Set(4)\n",
        err: "stats y 4:10 copied 0\n",
    },
    Row {
        words: STATISTICS,
        spec: HEARTBEATS,
        trace: "10: beat = 1\n20: beat = 2\n45: beat = 1\n110:\n",
        status: 0,
        out: "0: ticks = 0\n0: devices = 0\n10: ticks = 1\n10: devices = 1\n20: ticks = 2\n20: devices = 2\n45: late = 1\n45: ticks = 3\n45: devices = 2\n95: quiet = ()\n",
        err: "stats upd 9:12 copied 0\n",
    },
    Row {
        words: STATISTICS,
        spec: SEEN,
        trace: "1: i = 5\n2: i = 7\n3: i = 5\n4 i = 1\n",
        status: 4,
        out: "1: s = false\n2: s = false\n",
        err: "stats y 4:28 copied 0\ntrace 4: not a trace line\n",
    },
];

/// What runs write.
const MONITORED: &[Row<'_>] = &[
    Row {
        words: RUN,
        spec: SEEN,
        trace: "0: i = 5\n1: i = 5\n",
        status: 0,
        out: "1: s = false\n",
        err: "",
    },
    Row {
        words: RUN,
        spec: ALL,
        trace: "",
        status: 0,
        out: "0: m = Set()\n",
        err: "",
    },
    Row {
        words: RUN,
        spec: GREW,
        trace: NUMBERS,
        status: 0,
        out: "1: s = false\n1: g = 1\n2: s = false\n2: g = 1\n3: s = true\n3: g = 0\n",
        err: "",
    },
    Row {
        words: RUN,
        spec: SUM,
        trace: "1: x = 1\n2: y = 5\n3: x = 2\n",
        status: 0,
        out: "2: d = 6\n3: d = 7\n",
        err: "",
    },
    Row {
        words: RUN,
        spec: BOTH,
        trace: "1: x = 1\n2: x = 2\n2: y = 5\n",
        status: 0,
        out: "2: c = 7\n",
        err: "",
    },
    Row {
        words: RUN,
        spec: ABOVE,
        trace: "1: i = 3\n2: i = 4\n",
        status: 0,
        out: "1: b = false\n2: b = true\n",
        err: "",
    },
    Row {
        words: RUN,
        spec: TENTH,
        trace: "1: i = 0\n2: i = 3\n",
        status: 0,
        out: "1: g = 0\n2: g = 3\n",
        err: "",
    },
    Row {
        words: RUN,
        spec: COUNTED,
        trace: "4: e = 9\n8: e = 9\n",
        status: 0,
        out: "0: n = 0\n4: n = 1\n8: n = 2\n",
        err: "",
    },
];

/// Runs that stop at a fault or a limit, or do not begin.
const STOPPED: &[Row<'_>] = &[
    Row {
        words: RUN,
        spec: OPEN,
        trace: "",
        status: 3,
        out: "",
        err: "spec 1:69: TooDeep\n",
    },
    Row {
        words: RUN,
        spec: CONJUNCTION,
        trace: "",
        status: 3,
        out: "",
        err: "spec 2:10: WrongType: have Events[Int], want Events[Bool]\n",
    },
    Row {
        words: &["run", "s.tsl", "-", "--until=9", "--instants", "2"],
        spec: SEEN,
        trace: "1: i = 5\n2: i = 7\n",
        status: 7,
        out: "1: s = false\n",
        err: "limit: 2 instants before time 2\n",
    },
    Row {
        words: RUN,
        spec: FAULTS,
        trace: "1: i = 1\n",
        status: 1,
        out: "",
        err: "1: fault Overflow at 2:10\n",
    },
    Row {
        words: RUN,
        spec: FAULT,
        trace: "1: i = 1\n",
        status: 1,
        out: "",
        err: "1: fault DivideByZero at 3:10\n",
    },
    Row {
        words: RUN,
        spec: ITSELF,
        trace: "",
        status: 3,
        out: "",
        err: "spec 1:23: cycle a -> a\n",
    },
    Row {
        words: RUN,
        spec: EACH_OTHER,
        trace: "",
        status: 3,
        out: "",
        err: "spec 1:23: cycle a -> b -> a\n",
    },
    Row {
        words: RUN,
        spec: RESET,
        trace: "",
        status: 3,
        out: "",
        err: "spec 1:24: cycle x -> x\n",
    },
    Row {
        words: &["run", "s.tsl", "--instants", "3"],
        spec: TICKS,
        trace: "1000:\n",
        status: 7,
        out: "1: p = ()\n2: p = ()\n",
        err: "limit: 3 instants before time 3\n",
    },
    Row {
        words: RUN,
        spec: QUOTIENT,
        trace: "1: i = 1\n3: i = 0\n4: i = 1\n",
        status: 1,
        out: "1: q = 1\n",
        err: "3: fault DivideByZero at 2:10\n",
    },
    Row {
        words: RUN,
        spec: "out x +",
        trace: "1: i = 4\n",
        status: 3,
        out: "",
        err: "spec 1:8: Unexpected\n",
    },
    Row {
        words: &["check", "s.tsl"],
        spec: WAITING,
        trace: "",
        status: 3,
        out: "",
        err: "spec 2:23: cycle a -> b -> a\n",
    },
    Row {
        words: &["run"],
        spec: PREVIOUS,
        trace: "1: i = 4\n",
        status: 2,
        out: "",
        err: "words not accepted\n",
    },
    Row {
        words: &["flat", "s.tsl", "t"],
        spec: PREVIOUS,
        trace: "",
        status: 2,
        out: "",
        err: "words not accepted\n",
    },
];

/// Traces, and which lines of them are refused.
const READ: &[Row<'_>] = &[
    Row {
        words: RUN,
        spec: SEEN,
        trace: "# c\n\n1: i = 5 \t\r\n2: other = ?\n3: i = 5",
        status: 0,
        out: "1: s = false\n3: s = true\n",
        err: "",
    },
    Row {
        words: &["run", "s.tsl", "--strict"],
        spec: SEEN,
        trace: "# c\n\n1: i = 5 \t\r\n2: other = ?\n3: i = 5",
        status: 4,
        out: "",
        err: "trace 4: unknown stream\n",
    },
    Row {
        words: &["run", "s.tsl", "--bytes", "20"],
        spec: SEEN,
        trace: "5: i = 1\n4: i = 1\n",
        status: 4,
        out: "",
        err: "trace 2: time 4 after 5\n",
    },
    Row {
        words: &["run", "s.tsl", "--bytes", "20"],
        spec: SEEN,
        trace: "1: i = x\n",
        status: 4,
        out: "",
        err: "trace 1: wrong value for i\n",
    },
    Row {
        words: &["run", "s.tsl", "--bytes", "20"],
        spec: SEEN,
        trace: "# no more than a comment\n",
        status: 4,
        out: "",
        err: "trace 1: trace too long\n",
    },
];

/// A sample trace, and what the runs over such traces count.
const SAMPLES: &[Row<'_>] = &[
    Row {
        words: &["gen", "seen", "3"],
        spec: "",
        trace: "",
        status: 0,
        out: "1: i = 1\n2: i = 2\n3: i = 3\n",
        err: "",
    },
    Row {
        words: &["bench", "seen", "5000"],
        spec: "",
        trace: "",
        status: 0,
        out: "events 5000\ninstants 5001\nbytes 74893\ncopied 0\n",
        err: "",
    },
    Row {
        words: &["bench", "copy", "2000"],
        spec: "",
        trace: "",
        status: 0,
        out: "events 2000\ninstants 2001\nbytes 29893\ncopied 1499500\n",
        err: "",
    },
    Row {
        words: &["bench", "seen", "20000"],
        spec: "",
        trace: "",
        status: 0,
        out: "events 20000\ninstants 20001\nbytes 309894\ncopied 0\n",
        err: "",
    },
    Row {
        words: &["bench", "seen", "100000"],
        spec: "",
        trace: "",
        status: 0,
        out: "events 100000\ninstants 100001\nbytes 1589895\ncopied 0\n",
        err: "",
    },
    Row {
        words: &["bench", "seen", "3"],
        spec: "",
        trace: "",
        status: 0,
        out: "events 3\ninstants 4\nbytes 39\ncopied 0\n",
        err: "",
    },
];

#[test]
fn updates_are_shown(rt: HostRuntime) -> Result<(), Fail> {
    assert!(rt; all_end(&Tessla, rt.alloc(), SHOWN)?);
    assert!(rt; all_end(&Tessla, rt.alloc(), PRINTED_PROGRAMS)?);
    Ok(())
}

#[test]
fn due_events_are_written_and_copies_counted(rt: HostRuntime) -> Result<(), Fail> {
    assert!(rt; all_end(&Tessla, rt.alloc(), COPIED)?);
    assert!(rt; all_end(&Tessla, rt.alloc(), MONITORED)?);
    assert!(rt; all_end(&Tessla, rt.alloc(), SAMPLES)?);
    Ok(())
}

#[test]
fn faults_limits_and_refusals_stop(rt: HostRuntime) -> Result<(), Fail> {
    assert!(rt; all_end(&Tessla, rt.alloc(), STOPPED)?);
    assert!(rt; all_end(&Tessla, rt.alloc(), READ)?);
    Ok(())
}
