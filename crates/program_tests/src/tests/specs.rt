// The specifications that are run, and a trace.

pub(crate) const PREVIOUS: &str = "in i: Events[Int]\ndef p := last(i, i)\nout p\n";

/// Whether a number came before, by a set of all that came.
pub(crate) const SEEN: &str =
    "in i: Events[Int]\ndef m := merge(y, Set.empty[Int])\ndef yl := last(m, i)\ndef y: Events[Set[Int]] := Set.add(yl, i)\ndef s := Set.contains(yl, i)\nout s\n";

/// All numbers that came are an output.
pub(crate) const ALL: &str =
    "in i: Events[Int]\ndef m := merge(y, Set.empty[Int])\ndef yl := last(m, i)\ndef y: Events[Set[Int]] := Set.add(yl, i)\ndef s := Set.contains(yl, i)\nout s\nout m\n";

/// The set before each update is read at other times as well.
pub(crate) const KEPT: &str =
    "in i: Events[Int]\ndef m := merge(y, Set.empty[Int])\ndef yl := last(m, i)\ndef y: Events[Set[Int]] := Set.add(yl, i)\ndef s := Set.contains(yl, i)\nout s\nin j: Events[Unit]\ndef prev := last(yl, j)\nout prev\n";

/// The set before an update is printed where it is asked for.
pub(crate) const PRINTED: &str =
    "in i: Events[Int]\ndef m := merge(y, Set.empty[Int])\ndef yl := last(m, i)\ndef y: Events[Set[Int]] := Set.add(yl, i)\ndef s := Set.contains(yl, i)\nout s\nin j: Events[Unit]\ndef old := last(m, j)\nout old\n";

/// The new set is stored or not, as a condition says.
pub(crate) const CHOSEN: &str =
    "in i: Events[Int]\ndef m := merge(y, Set.empty[Int])\ndef yl := last(m, i)\ndef u := Set.add(yl, i)\ndef s := Set.contains(yl, i)\nout s\ndef y: Events[Set[Int]] := if i > 0 then u else yl\n";

/// By how much the set grew: both sets are needed at one time.
pub(crate) const GREW: &str =
    "in i: Events[Int]\ndef m := merge(y, Set.empty[Int])\ndef yl := last(m, i)\ndef y: Events[Set[Int]] := Set.add(yl, i)\ndef s := Set.contains(yl, i)\nout s\ndef grew(a: Set[Int], b: Set[Int]): Int := Set.size(a) - Set.size(b)\ndef g := grew(y, yl)\nout g\n";

/// The empty set with which all begins is read later.
pub(crate) const FIRST: &str =
    "in i: Events[Int]\ndef e0 := Set.empty[Int]\ndef m := merge(y, e0)\ndef yl := last(m, i)\ndef y: Events[Set[Int]] := Set.add(yl, i)\ndef s := Set.contains(yl, i)\nout s\nin j: Events[Unit]\ndef z := last(e0, j)\nout z\n";

/// Only positive numbers are put in, and the set is an output each time.
pub(crate) const POSITIVE: &str =
    "in i: Events[Int]\ndef f := filter(i, i > 0)\ndef ol := last(m, f)\ndef y := Set.add(ol, f)\ndef yl := last(m, i)\ndef m: Events[Set[Int]] := merge(merge(y, yl), Set.empty[Int])\nout m\n";

/// Two streams fault at one time. The first one is named where both run.
pub(crate) const FAULTS: &str =
    "in i: Events[Int]\ndef a := i + 9223372036854775807\ndef b := 1 / (i - i)\nout b\nout a\n";

/// Only the second one runs.
pub(crate) const FAULT: &str =
    "in i: Events[Int]\ndef a := i + 9223372036854775807\ndef b := 1 / (i - i)\nout b\n";

/// A stream that waits for itself.
pub(crate) const ITSELF: &str = "def a: Events[Int] := a + 1\nout a\n";

/// Two that wait for each other, one of them through the second argument of `last`.
pub(crate) const EACH_OTHER: &str = "def a: Events[Int] := last(a, b)\ndef b := a + 1\nout b\n";

/// A delay whose second argument is itself.
pub(crate) const RESET: &str = "def x: Events[Unit] := delay(const(1, unit), x)\nout x\n";

/// The sum of what two inputs had last.
pub(crate) const SUM: &str = "in x: Events[Int]\nin y: Events[Int]\ndef d := x + y\nout d\n";

/// The sum of what two inputs have at one time.
pub(crate) const BOTH: &str =
    "in x: Events[Int]\nin y: Events[Int]\ndef both(a: Option[Int], b: Option[Int]): Option[Int] := if isSome(a) && isSome(b) then Some(getSome(a) + getSome(b)) else None[Int]\ndef c := lift(x, y, both)\nout c\n";

/// Whether a number is above three.
pub(crate) const ABOVE: &str = "in i: Events[Int]\ndef b := i > 3\nout b\n";

/// A division that a value function leaves out where it would fault.
pub(crate) const TENTH: &str =
    "in i: Events[Int]\ndef f(a: Int): Int := if a == 0 then 0 else 10 / a\ndef g := f(i)\nout g\n";

/// A number where a truth value is asked for.
pub(crate) const CONJUNCTION: &str = "in i: Events[Int]\ndef b := i && true\nout b\n";

/// One level more than there may be.
pub(crate) const OPEN: &str =
    "out (((((((((((((((((((((((((((((((((((((((((((((((((((((((((((((((((";

/// How many numbers came, by a macro.
pub(crate) const COUNTED: &str =
    "in e: Events[Int]\ndef count(x: Events[Int]): Events[Int] := { def c: Events[Int] := merge(last(c, x) + 1, 0) c }\nout count(e) as n\n";

/// Heartbeats of devices, in a map that is updated.
pub(crate) const HEARTBEATS: &str =
    "-- heartbeats of devices\nin beat: Events[Int]\ndef since(m: Map[Int, Int], k: Int, t: Int): Int :=\n  if Map.contains(m, k) then t - Map.get(m, k) else 0\ndef old := last(seen, beat)\ndef now := time(beat)\ndef gap := since(old, beat, now)\ndef late := filter(beat, gap > 30)\ndef upd := Map.add(old, beat, now)\ndef seen: Events[Map[Int, Int]] := merge(upd, Map.empty[Int, Int])\ndef ticks: Events[Int] := merge(last(ticks, beat) + 1, 0)\ndef start := merge(beat, 0)\ndef quiet := delay(const(50, start), start)\nout late\nout ticks\nout quiet\nout Map.size(seen) as devices\n";

/// A set grows by each event of so many inputs.
pub(crate) const EIGHTEEN: &str =
    "in i1: Events[Int]\nin i2: Events[Int]\nin i3: Events[Int]\nin i4: Events[Int]\nin i5: Events[Int]\nin i6: Events[Int]\nin i7: Events[Int]\nin i8: Events[Int]\nin i9: Events[Int]\nin i10: Events[Int]\nin i11: Events[Int]\nin i12: Events[Int]\nin i13: Events[Int]\nin i14: Events[Int]\nin i15: Events[Int]\nin i16: Events[Int]\nin i17: Events[Int]\nin i18: Events[Int]\ndef t := merge(i1, merge(i2, merge(i3, merge(i4, merge(i5, merge(i6, merge(i7, merge(i8, merge(i9, merge(i10, merge(i11, merge(i12, merge(i13, merge(i14, merge(i15, merge(i16, merge(i17, i18)))))))))))))))))\ndef m := merge(y, Set.empty[Int])\ndef yl := last(m, t)\ndef y: Events[Set[Int]] := Set.add(yl, t)\nout m\n";

/// The set before the last update is kept, and read at each number.
pub(crate) const PREVIOUS_SET: &str =
    "in i: Events[Int]\ndef m := merge(y, Set.empty[Int])\ndef yl := last(m, i)\ndef y: Events[Set[Int]] := Set.add(yl, i)\ndef p := last(yl, i)\nout p\n";

/// A delay that sets itself again at each time.
pub(crate) const TICKS: &str =
    "def u := unit\ndef p: Events[Unit] := delay(c, u)\ndef m := merge(u, p)\ndef c := const(1, m)\nout p\n";

pub(crate) const QUOTIENT: &str = "in i: Events[Int]\ndef q := 1 / i\nout q\n";

/// Two merges that wait for each other.
pub(crate) const WAITING: &str =
    "in i: Events[Int]\ndef a: Events[Int] := merge(b, i)\ndef b: Events[Int] := merge(a, i)\nout a\n";

pub(crate) const NUMBERS: &str = "1: i = 5\n2: i = 7\n3: i = 5\n";
