//! Laws of the text of a schedule.

ghost use Rattle.crsm_sim_schedule.specs.Schedules.{SchedulesAreOne};

use crsm_law_texts::{events_have_one_text, first_lines_have_one_text, spelt_are_lines};

/// States that a text is that of at most one schedule. It runs no code.
pub fn schedules_are_one()
    ensures { SchedulesAreOne }
{
    events_have_one_text();
    first_lines_have_one_text();
    spelt_are_lines();
}
