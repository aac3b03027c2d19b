//! A store with a leader, for comparison: replicas that decide the slots of a list, in ballots of a leader. Its plain
//! values; and in `specs/` the rules of a replica, the world, the acts that are possible in it, and the laws of its
//! runs.
#![tactic(auto)]

mod accepts;
mod bad;
mod batch;
mod choices;
mod input;
mod line;
mod lines;
mod message;
mod multicast;
mod rec;
mod recs;
mod send;
mod sends;
mod shared;

pub use accepts::{MpAccepted, MpAccepts};
pub use bad::MpBad;
pub use batch::MpBatch;
pub use choices::{MpChoices, MpChosen};
pub use input::MpInput;
pub use line::{MpKind, MpLine};
pub use lines::MpLines;
pub use message::MpMessage;
pub use multicast::{MpMulticast, MpReceivers};
pub use rec::MpRec;
pub use recs::MpRecs;
pub use send::MpSend;
pub use sends::MpSends;
pub use shared::{SharedCommand, SharedValue};
