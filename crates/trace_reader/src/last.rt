// The time of the last line.

ghost use Rattle.std.specs.Prelude.{◌≡◌, ◌<◌, ◌^◌, IfSome, None, Some, nat_lt};
ghost use Rattle.flat_core.specs.Pending.{option_is};
ghost use Rattle.trace_reader.specs.inner.LastTime.{is_later, last_of, or_zero};

use tsl_value::time::Time;

/// The time of the last line that has one, if there is one. That there is none is kept as -1, so that a comparison costs what one of two
/// times does.
#[derive(Clone, Copy, Debug)]
pub(crate) struct LastTime {
    number: i64,
}

impl LastTime {
    /// No line has a time.
    pub(crate) fn none() -> LastTime
        ensures { last_of result.number ≡ None }
    {
        LastTime { number: -1 }
    }

    /// The time of a line.
    pub(crate) fn of(time: Time) -> LastTime
        ensures { last_of result.number ≡ Some time }
    {
        LastTime {
            number: time.get() as i64,
        }
    }

    /// The last time or none.
    pub(crate) fn from_option(time: Option<Time>) -> LastTime
        ensures { last_of result.number ≡ time }
    {
        match time {
            Some(time) => LastTime::of(time),
            None => LastTime::none(),
        }
    }

    /// The time, where there is one.
    pub(crate) fn get(self) -> Option<Time>
        ensures time { result ≡ last_of self.number }
        ensures bounded { IfSome result (λ t. t < 2 ^ 63) }
    {
        if self.number < 0 {
            return None;
        }
        Time::new(self.number as u64)
    }

    /// The time, or 0 where there is none.
    pub(crate) fn or_zero(self) -> Time
        ensures { result ≡ or_zero (last_of self.number) }
    {
        Time::new(self.number.max(0) as u64).unwrap()
    }

    /// Whether it is this time.
    #[inline(always)]
    pub(crate) fn is(self, time: Time) -> bool
        ensures { result ≡ option_is time (last_of self.number) }
    {
        self.number == time.get() as i64
    }

    /// Whether a time is later, or there is none.
    #[inline(always)]
    pub(crate) fn is_before(self, time: Time) -> bool
        ensures { result ≡ is_later (last_of self.number) time }
    {
        self.number < time.get() as i64
    }

    /// Whether a time is earlier.
    pub(crate) fn is_after(self, time: Time) -> bool
        ensures { result ≡ nat_lt time (or_zero (last_of self.number)) }
    {
        (time.get() as i64) < self.number
    }
}
