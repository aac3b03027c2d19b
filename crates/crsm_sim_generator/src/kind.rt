//! The kinds of events, and their frequencies.

ghost use Rattle.std.specs.Prelude.{◌≡◌};
ghost use Rattle.crsm_sim_generator.specs.Drawing as on_paper;

/// The kind of a random event.
#[derive(Clone, Copy, Debug)]
pub(crate) enum EventKind {
    Request,
    Go,
    Again,
    Lose,
    Tick,
    Crash,
    Start,
    Suspect,
    Settle,
    /// A delivery whose step stops once its records are durable, before it sends.
    Cut,
}

/// The first draws of an event.
#[derive(Clone, Copy, Debug)]
pub(crate) struct EventHead {
    pub kind: EventKind,
    pub replica: u32,
    pub reading: u64,
}

/// Returns the kind for a number below 100.
#[tactic(auto, unfolding(crate::specs::Drawing::kind_of))]
pub(crate) fn kind_of(number: u64) -> EventKind
    ensures { result ≡ on_paper.kind_of number }
{
    match number {
        0..=24 => EventKind::Request,
        25..=69 => EventKind::Go,
        70..=74 => EventKind::Again,
        75..=79 => EventKind::Lose,
        80..=89 => EventKind::Tick,
        90..=91 => EventKind::Crash,
        92..=94 => EventKind::Start,
        95..=96 => EventKind::Suspect,
        97..=98 => EventKind::Settle,
        _ => EventKind::Cut,
    }
}
