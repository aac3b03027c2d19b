//! The rules of a step that end an epoch or handle control messages: suspend, collect, promise, propose, count promises
//! and votes, learn, and transfer pages. `on_control` dispatches each kind of message to its rule.
#![tactic(auto)]

mod answering;
mod beginning;
mod choosing;
mod collecting;
mod controls;
mod counting;
mod fitting;
mod learning;
mod paging;
mod promising;
mod proposing;
mod reconfiguring;
mod renewing;
mod sending;
mod suspending;
mod tails;
mod telling;
mod ticks;

pub use answering::on_p1b;
pub use beginning::{begin_proposing, may_begin};
pub use choosing::choose;
pub use collecting::{on_suspend_ok, send_collect};
pub use controls::on_control;
pub use counting::{on_p1no, on_p2b};
pub use fitting::fits_own;
pub use learning::on_decide;
pub use paging::{on_page, on_retrieve};
pub use promising::{on_p1a, on_p2a};
pub use proposing::accept_own;
pub use reconfiguring::on_suspect;
pub use renewing::{renew_over, renew_proposal};
pub use sending::{ask_all, send_ask, send_proposal};
pub use suspending::on_suspend;
pub use ticks::renew_and_ask;
