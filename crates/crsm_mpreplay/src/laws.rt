//! Laws of the text of a schedule.

ghost use Rattle.crsm_mpreplay.specs.Laws.{SchedulesAreOne};

use crsm_sim_schedule::schedules_are_one as texts_are_of_one;

/// States that a text is that of at most one schedule. It runs no code.
pub fn schedules_are_one()
    ensures { SchedulesAreOne }
{
    texts_are_of_one();
}
