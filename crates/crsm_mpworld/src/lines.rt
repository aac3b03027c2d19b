//! The lines of a step.

ghost use Rattle.std.specs.Prelude.{◌≡◌};
ghost use Rattle.crsm_mpspec.specs.World as on_paper;

use crsm_mpspec::{MpKind, MpMessage};

/// Returns the kind of a message.
#[tactic(auto, unfolding(crsm_mpspec::specs::World::kind_of))]
pub(crate) fn kind_of(message: &MpMessage) -> MpKind
    ensures { result ≡ on_paper.kind_of message.now }
{
    match message {
        MpMessage::Prep { .. } => MpKind::Prep,
        MpMessage::Prom { .. } => MpKind::Prom,
        MpMessage::No { .. } => MpKind::No,
        MpMessage::Acc { .. } => MpKind::Acc,
        MpMessage::Accd { .. } => MpKind::Accd,
        MpMessage::Learn { .. } => MpKind::Learn,
        MpMessage::Ask { .. } => MpKind::Ask,
    }
}
