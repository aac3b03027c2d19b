//! Generates the events of a run from a seed: a large run that is possible, and that can be repeated.
#![tactic(auto)]

mod choice;
mod command;
mod drawing;
mod events;
mod generator;
mod kind;
mod laws;
mod look;

pub use drawing::Drawing;
pub use generator::Generator;
pub use laws::drawn_can_happen;
pub use look::Look;
