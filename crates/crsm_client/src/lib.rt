//! A client of the store: it requests a command or a membership change from a replica over a port.
#![tactic(auto)]

mod asking;
mod command;
mod error;
mod inbox;
mod marks;
mod operating;

pub use asking::ask;
pub use command::{ClientEnd, ClientOrder, client};
pub use error::{AskError, OperateError};
pub use operating::{operate, operate_command};
