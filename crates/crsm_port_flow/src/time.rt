//! Spans of time between two readings of a clock, in microseconds.

ghost use Rattle.std.specs.Prelude.{◌↔◌, IsTrue};
ghost use Rattle.crsm_port_flow.specs.Went.{IsRecent};

/// Returns whether less than `span` has passed from a reading to another. If the clock went back, it has passed.
pub(crate) fn is_recent(at: u64, now: u64, span: u64) -> bool
    ensures { IsTrue result ↔ IsRecent at now span }
{
    at <= now && now - at < span
}
