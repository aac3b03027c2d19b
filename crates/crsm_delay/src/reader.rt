//! The state of a reader of a plan.

ghost use Rattle.crsm_delay.specs.Advancing.{IsRead};

use crate::draft::Draft;
use crate::handling::Wanted;
use std::alloc::Global;

/// The reading of a plan, and the text that is wanted of it.
#[derive(Drop)]
pub(crate) struct PlanReader {
    pub(crate) alloc: Global,
    pub(crate) wanted: Wanted,
    pub(crate) draft: Option<Draft>,
    ghost read: { ∥ IsRead draft ∥₁ },
}
