//! The trait of a clock.

ghost use Rattle.std.specs.Prelude.{Option};
ghost use Rattle.crsm_clock.specs.Readings.{Readings, Gives};

/// Returns readings of a clock, which may stand still or go back. It cannot fail.
pub trait Clock {
    /// The readings still to come, if the clock specifies them.
    ghost readings: { Self → Option Readings };

    /// Returns the next reading, in microseconds: since 1970 from `SystemClock`, as fed from `ListClock`.
    fn now(&mut self) -> u64
        ensures { Gives (readings self.old) (readings self.new) result };
}

impl<C: Clock> Clock for &mut C {
    ghost readings = { λ clock. C.readings clock.now };

    fn now(&mut self) -> u64 {
        (**self).now()
    }
}
