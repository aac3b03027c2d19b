//! The commands `delay` and `delay times`: they read a plan of delays and clocks, and write the schedule of its
//! timeline, or the moments at which its command commits.
#![tactic(auto)]

mod agenda;
mod command;
mod draft;
mod handling;
mod line;
mod moments;
mod reader;
mod timeline;
mod upcoming;

pub use command::{delay, delay_times, plans_are_exact};
pub use draft::Draft;
pub use handling::{PlanCause, Wanted};
pub use line::{PlanLine, read_line};
pub use moments::commit_at;
