//! The state of a replay.

ghost use Rattle.std.specs.Prelude.{◌<◌, ◌≤◌};
ghost use Rattle.crsm_replica_rerun.specs.Stages.{IsSound};

use crate::stage::SheetStage;
use std::alloc::Global;

/// The replay of a replica from its sheet, line by line.
#[derive(Drop)]
pub struct Rerun {
    pub(crate) alloc: Global,
    pub(crate) me: u32,
    pub(crate) n: u32,
    // The number of the next line.
    pub(crate) next: u64,
    pub(crate) stage: SheetStage,
    ghost me_below: { me < 15 },
    ghost some: { 1 ≤ n },
    ghost few: { n ≤ 15 },
    ghost sound: { ∥ IsSound stage ∥₁ },
}
