//! What the sheets of nodes say of each other.

use crate::fault::Fault;
use std::alloc::Global;

/// What a node took from another one.
#[derive(Clone, Copy, Debug, PartialEq, Eq)]
pub(crate) enum Took {
    Nothing,
    /// Only what the other's sheet sends to it.
    Sent,
    More,
}

/// The datagram that a line of a replayed sheet sends to a node, in hexadecimal.
fn sent_in<'a>(line: &'a str, receiver: &str) -> Option<&'a str> {
    let (_, said) = line.split_once(' ')?;
    let (to, bytes) = said.strip_prefix("out ")?.split_once(' ')?;
    if to != receiver {
        return None;
    }
    let (bytes, _) = bytes.split_once(' ').unwrap_or((bytes, ""));
    Some(bytes)
}

/// The datagrams that a replayed sheet sends to a node, in order of their bytes.
fn sent_to(alloc: Global, text: &str, to: usize) -> Result<Vec<&str>, Fault> {
    let receiver = format!(in alloc; "{to}")?;
    let mut sent = Vec::new(alloc);
    for line in text.lines() {
        if let Some(bytes) = sent_in(line, receiver.as_str()) {
            sent.push(bytes)?;
        }
    }
    sent.sort_unstable();
    Ok(sent)
}

/// What a node took from the address of another one, whose sheet is replayed to this text.
pub(crate) fn taken_from(
    alloc: Global,
    sheet: &str,
    from: u64,
    text: &str,
    me: usize,
) -> Result<Took, Fault> {
    let sender = format!(in alloc; "{from}")?;
    let sent = sent_to(alloc, text, me)?;
    let mut found = Took::Nothing;
    for line in sheet.lines() {
        let mut words = line.split(' ');
        if words.next() != Some("in") || words.nth(1) != Some(sender.as_str()) {
            continue;
        }
        let bytes = words.next().unwrap_or("");
        if sent.binary_search(&bytes).is_err() {
            return Ok(Took::More);
        }
        found = Took::Sent;
    }
    Ok(found)
}
