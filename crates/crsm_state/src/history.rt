//! What executed entries lead to, and its encoding.

ghost use Rattle.std.specs.Prelude.{◌≡◌, ◌++◌, IfErr, IfOk, OnOk};
ghost use Rattle.std.specs.Option.{option_map};
ghost use Rattle.crsm_state.specs.Faults.{IsHistoryFault};
ghost use Rattle.crsm_state.specs.Histories.{FitsHead, FitsHistory, SpeltHistory, head_at, head_bytes, history_bytes, is_begun};

use crate::client_rows::{ClientRows, decode_clients, put_client_rows};
use crate::error::HistoryError;
use crate::key_rows::{KeyRows, decode_keys, put_key_rows};
use crate::position::{Position, put_option_position, take_option_position};
use crsm_base::{Bytes, NoMemory};
use crsm_text_fields::{put_u64, take_u64};
use std::alloc::Global;

/// What a list of executed entries leads to.
pub struct History {
    /// The number of executed entries.
    pub executed: u64,
    /// The position of the last of them; `None` if there is none.
    pub last: Option<Position>,
    /// The store's keys with their values, in ascending order.
    pub keys: KeyRows,
    /// The store's clients with their last commands, in the order of their first ones.
    pub clients: ClientRows,
}

// Written by hand, it is one call for the crates above, which would prove a derived one again.
impl Drop for History {
    fn drop(self) {
        let History {
            executed: _,
            last: _,
            keys: _,
            clients: _,
        } = self;
    }
}

/// Appends the encoding of a number of executed entries and of the position of the last one: the head of a history,
/// behind which are its keys and its clients. `NoMemory` if memory runs out; a prefix may then have been appended.
#[tactic(auto, unfolding(crate::specs::Histories::head_bytes))]
pub fn put_head(executed: u64, last: &Option<Position>, out: &mut Bytes) -> Result<(), NoMemory>
    requires { FitsHead (executed, last.now) }
    ensures { OnOk result (out.new ≡ out.old ++ head_bytes (executed, last.now)) }
{
    put_u64(executed, out)?;
    put_option_position(last, out)
}

/// Appends the encoding of a history. `NoMemory` if memory runs out; a prefix may then have been appended.
#[tactic(auto, unfolding(crate::specs::Histories::history_bytes))]
pub fn encode_history(history: &History, out: &mut Bytes) -> Result<(), NoMemory>
    requires { FitsHistory history.now }
    ensures { OnOk result (out.new ≡ out.old ++ history_bytes history.now) }
{
    put_head(history.executed, &history.last, out)?;
    put_key_rows(&history.keys, out)?;
    put_client_rows(&history.clients, out)
}

#[tactic(auto, unfolding(crate::specs::Histories::head_at))]
fn take_head(bytes: &[u8]) -> Option<((u64, Option<Position>), &[u8])>
    ensures { option_map (λ x. (x.0, x.1.now)) result ≡ head_at bytes.now }
{
    let Some((executed, rest)) = take_u64(bytes) else {
        return None;
    };
    let Some((last, rest)) = take_option_position(rest) else {
        return None;
    };
    Some(((executed, last), rest))
}

#[tactic(auto, unfolding(crate::specs::Histories::is_begun))]
fn is_begun(history: &History) -> bool
    ensures { result ≡ is_begun history.now }
{
    if history.executed == 0 {
        history.last.is_none()
            && history.keys.as_slice().len() == 0
            && history.clients.as_slice().len() == 0
    } else {
        history.last.is_some()
    }
}

/// Decodes a history from its encoding, which is all of `bytes`. An error says why they are none, or that memory ran
/// out.
pub fn decode_history(alloc: Global, bytes: &[u8]) -> Result<History, HistoryError>
    ensures found { IfOk result (λ history. SpeltHistory history bytes.now) }
    ensures fault { IfErr result (IsHistoryFault bytes.now) }
{
    let Some((head, rest)) = take_head(bytes) else {
        return Err(HistoryError::Head);
    };
    let (keys, rest) = match decode_keys(alloc, rest) {
        Ok(read) => read,
        Err(why) => return Err(why),
    };
    let (clients, rest) = match decode_clients(alloc, rest) {
        Ok(read) => read,
        Err(why) => {
            drop(keys);
            return Err(why);
        }
    };
    let history = History {
        executed: head.0,
        last: head.1,
        keys,
        clients,
    };
    if !is_begun(&history) {
        drop(history);
        return Err(HistoryError::Begun);
    }
    if !rest.is_empty() {
        drop(history);
        return Err(HistoryError::GoesOn);
    }
    Ok(history)
}
