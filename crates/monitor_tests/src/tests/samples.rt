// Code as bytes, as `write_code` of `code_file` spells what is compiled of a specification, with a trace and what is printed.

/// Heartbeats of devices: a map that is updated in place, a count, a delay, and a number that is kept.
///
/// ```text
/// in beat: Events[Int]
/// def since(m: Map[Int, Int], k: Int, t: Int): Int :=
///   if Map.contains(m, k) then t - Map.get(m, k) else 0
/// def old := last(seen, beat)
/// def now := time(beat)
/// def gap := since(old, beat, now)
/// def late := filter(beat, gap > 30)
/// def upd := Map.add(old, beat, now)
/// def seen: Events[Map[Int, Int]] := merge(upd, Map.empty[Int, Int])
/// def ticks: Events[Int] := merge(last(ticks, beat) + 1, 0)
/// def start := merge(beat, 0)
/// def quiet := delay(const(50, start), start)
/// out late
/// out ticks
/// out quiet
/// out Map.size(seen) as devices
/// ```
pub(crate) const HEARTBEATS: &[u8] =
    b"TSLCOD1\n\0\0\0$\x01\0\x01\0\0\0\x02\0\0\0\x04\0\0\0\x04beat\0\0\0\0\x01\x06\x05\x01\x01\0\0\0\x05\0\
    \0\0\x0c\0\0\0\x03old\0\0\0\x02\0\0\0\x18\0\0\0\0\x01\x05\x01\0\0\0\x06\0\0\0\x0c\0\0\0\x03now\0\0\0\
    \x01\0\0\0\0\0\0\0\0\0\0\0\x01\x03\x01\0\0\0\x07\0\0\0\x0c\0\0\0\x03gap\0\0\0\x03\0\0\0\x01\0\0\0\0\
    \0\0\0\x02\x01\x02\x0f\x02\x10\0\0\0\0\0\0\0\0\0\x01\x02\x01\0\0\0\0\x02\x02\x12\0\0\0\0\0\0\0\0\0\
    \x01\x01\x01\0\0\0\0\0\0\0\0\x01\x03\x02\0\0\0\x08\0\0\0\x1a\0\0\0\0\0\0\0\x01\0\0\0\n\x01\x02\n\0\0\
    \0\0\0\x01\x01\0\0\0\0\0\0\0\x1e\0\0\x01\x09\x01\0\0\0\x08\0\0\0\x0d\0\0\0\x04late\0\0\0\x02\0\0\0\0\
    \0\0\0\x0b\0\0\0\0\0\0\0\x01\x0c\x05\x01\x01\0\0\0\x09\0\0\0\x0c\0\0\0\x03upd\0\0\0\x03\0\0\0\x01\0\
    \0\0\0\0\0\0\x02\x01\x0b\x05\x01\x01\0\0\0\n\0\0\0/\0\0\0\0\0\0\0\0\x01\x08\x05\x01\x01\0\0\0\n\0\0\
    \0$\0\0\0\x04seen\0\0\0\x02\0\0\0\x16\0\0\0\x17\x01\x06\x01\0\0\0\x0b\0\0\0!\0\0\0\0\0\0\0\x02\0\0\0\
    \x1d\0\0\0\0\x01\x03\x01\0\0\0\x0b\0\0\0!\0\0\0\0\0\0\0\x01\0\0\0\x19\x01\x02\0\0\0\0\0\0\x01\x01\0\
    \0\0\0\0\0\0\x01\x01\x02\0\0\0\0\x0b\0\0\08\0\0\0\0\0\0\0\0\x01\x03\x01\0\0\0\x0b\0\0\08\0\0\0\0\0\0\
    \0\x01\0\0\0\x1b\x01\x01\x01\0\0\0\0\0\0\0\0\x01\x08\x01\0\0\0\x0b\0\0\0\x1b\0\0\0\x05ticks\0\0\0\
    \x02\0\0\0\x1a\0\0\0\x1c\x01\x02\0\0\0\0\x0c\0\0\0\x1a\0\0\0\0\0\0\0\0\x01\x03\x01\0\0\0\x0c\0\0\0\
    \x1a\0\0\0\0\0\0\0\x01\0\0\0\x1e\x01\x01\x01\0\0\0\0\0\0\0\0\x01\x08\x01\0\0\0\x0c\0\0\0\x0e\0\0\0\
    \x05start\0\0\0\x02\0\0\0\0\0\0\0\x1f\x01\x03\x01\0\0\0\x0d\0\0\0\x14\0\0\0\0\0\0\0\x01\0\0\0 \x01\
    \x01\x01\0\0\0\0\0\0\02\x01\x07\0\0\0\0\x0d\0\0\0\x0e\0\0\0\x05quiet\0\0\0\x02\0\0\0!\0\0\0 \x01\x03\
    \x01\0\0\0\x11\0\0\0\x05\0\0\0\x07devices\0\0\0\x01\0\0\0\x18\x01\x02\x11\0\0\0\0\0\0\0\0\x04\0\0\0\
    \x04late\0\0\0\x0e\0\0\0\x05ticks\0\0\0\x1d\0\0\0\x05quiet\0\0\0\"\0\0\0\x07devices\0\0\0#\0\0\0\x01\
    \0\0\0\x16\0\0\0\x18\0\0\0\0\0\0\0\x01\0\0\0\x02\0\0\0\n\0\0\0\x0b\0\0\0\x0e\0\0\0\x16\0\0\0\x17\0\0\
    \0\x18\0\0\0\x19\0\0\0\x1a\0\0\0\x1b\0\0\0\x1c\0\0\0\x1d\0\0\0\x1e\0\0\0\x1f\0\0\0 \0\0\0!\0\0\0\"\0\
    \0\0#\0\0\0$\0\0\0%\0\0\0&\0\0\0'";

pub(crate) const BEATS: &[u8] = b"10: beat = 1\n20: beat = 2\n45: beat = 1\n110:\n";

/// What the heartbeats print.
pub(crate) const SIGNS: &[u8] =
    b"0: ticks = 0\n0: devices = 0\n10: ticks = 1\n10: devices = 1\n20: ticks = 2\n20: devices = 2\n45: late = 1\n45: ticks = 3\n45: devices = 2\n95: quiet = ()\n";

/// How long each request waits for its answer: the times of the open requests are a queue, which one update appends to in place, and the other
/// copies.
///
/// ```text
/// in req: Events[Int]
/// in rsp: Events[Unit]
/// def q: Events[Queue[Int]] := merge(merge(add, take), Queue.empty[Int])
/// def add := Queue.enqueue(last(q, req), time(req))
/// def take := Queue.dequeue(last(q, rsp))
/// def lat := time(rsp) - Queue.front(last(q, rsp))
/// out lat
/// ```
pub(crate) const LATENCIES: &[u8] =
    b"TSLCOD1\n\0\0\0\x16\x01\0\x01\0\0\0\x01\0\0\0\x04\0\0\0\x03req\0\0\0\0\x01\0\0\0\0\0\x02\0\0\0\x04\0\
    \0\0\x03rsp\0\0\0\0\x01\x08\x06\x01\0\0\0\x03\0\0\0$\0\0\0\0\0\0\0\x02\0\0\0\x0b\0\0\0\x0d\x01\x0b\
    \x06\x01\0\0\0\x03\0\0\06\0\0\0\0\0\0\0\0\x01\x08\x06\x01\0\0\0\x03\0\0\0\x1e\0\0\0\x01q\0\0\0\x02\0\
    \0\0\x02\0\0\0\x03\x01\x06\x06\x01\0\0\0\x04\0\0\0\x1a\0\0\0\0\0\0\0\x02\0\0\0\x04\0\0\0\0\x01\x05\
    \x01\0\0\0\x04\0\0\0(\0\0\0\0\0\0\0\x01\0\0\0\0\0\0\0\0\x01\x10\x06\x01\0\0\0\x04\0\0\0\x0c\0\0\0\
    \x03add\0\0\0\x02\0\0\0\x05\0\0\0\x06\x01\x06\x06\x01\0\0\0\x05\0\0\0\x1b\0\0\0\0\0\0\0\x02\0\0\0\
    \x04\0\0\0\x01\x01\x11\x06\x01\0\0\0\x05\0\0\0\x0d\0\0\0\x04take\0\0\0\x01\0\0\0\x0c\x01\x05\x01\0\0\
    \0\x06\0\0\0\x0c\0\0\0\0\0\0\0\x01\0\0\0\x01\x01\x06\x06\x01\0\0\0\x06\0\0\0$\0\0\0\0\0\0\0\x02\0\0\
    \0\x04\0\0\0\x01\x01\x03\x01\0\0\0\x06\0\0\0\x18\0\0\0\0\0\0\0\x01\0\0\0\x0f\x01\x02\x1a\0\0\0\0\0\0\
    \0\0\0\x01\x03\x01\0\0\0\x06\0\0\0\x0c\0\0\0\x03lat\0\0\0\x02\0\0\0\x0e\0\0\0\x10\x01\x02\x01\0\0\0\
    \0\0\0\0\0\0\x01\0\0\0\x01\0\0\0\x03lat\0\0\0\x15\0\0\0\x01\0\0\0\x0b\0\0\0\x0f\0\0\0\0\0\0\0\x01\0\
    \0\0\x03\0\0\0\x05\0\0\0\x06\0\0\0\x0c\0\0\0\x0d\0\0\0\x0e\0\0\0\x0f\0\0\0\x10\0\0\0\x0b\0\0\0\x02\0\
    \0\0\x04\0\0\0\x15\0\0\0\x16";

pub(crate) const REQUESTS: &[u8] = b"1: req = 10\n2: req = 11\n5: rsp\n7: rsp\n";

/// What the latencies print.
pub(crate) const ANSWERS: &[u8] = b"5: lat = 4\n7: lat = 5\n";

/// Whether a number came before, by a set of all that came.
///
/// ```text
/// in i: Events[Int]
/// def m := merge(y, Set.empty[Int])
/// def yl := last(m, i)
/// def y: Events[Set[Int]] := Set.add(yl, i)
/// def s := Set.contains(yl, i)
/// out s
/// ```
pub(crate) const SEEN: &[u8] =
    b"TSLCOD1\n\0\0\0\x0e\x01\0\x01\0\0\0\x01\0\0\0\x04\0\0\0\x01i\0\0\0\0\x01\x0b\x04\x01\0\0\0\x02\0\0\0\
    \x13\0\0\0\0\0\0\0\0\x01\x08\x04\x01\0\0\0\x02\0\0\0\n\0\0\0\x01m\0\0\0\x02\0\0\0\x08\0\0\0\x01\x01\
    \x06\x04\x01\0\0\0\x03\0\0\0\x0b\0\0\0\x02yl\0\0\0\x02\0\0\0\x02\0\0\0\0\0\0\0\0\x01\x0e\x04\x01\0\0\
    \0\x04\0\0\0\x1c\0\0\0\x01y\0\0\0\x02\0\0\0\x03\0\0\0\0\0\0\0\0\x01\x03\x02\0\0\0\x05\0\0\0\n\0\0\0\
    \x01s\0\0\0\x02\0\0\0\x03\0\0\0\0\x01\x02\x10\0\0\0\0\0\0\0\0\0\x01\0\0\0\x01\0\0\0\x01s\0\0\0\x0d\0\
    \0\0\x01\0\0\0\x08\0\0\0\x07\0\0\0\0\0\0\0\x01\0\0\0\x03\0\0\0\x0d\0\0\0\x08\0\0\0\x02\0\0\0\x0e";

pub(crate) const NUMBERS: &[u8] = b"1: i = 5\n2: i = 7\n3: i = 5\n";

/// The bits of a byte.
pub(crate) const BITS: &[u8] = &[1, 2, 4, 8, 16, 32, 64, 128];
