//! The newest control message of a peer, by its parts.

ghost use Rattle.std.specs.Prelude.{◌≡◌, ◌<◌, IfOk, OnOk, OnErr, None, false, replicate};
ghost use Rattle.crsm_segment.specs.Gathering.{has_passed, is_before, is_same, has_other_count, fits, empty_gathering, given_gathering, is_filled, all_bytes, after_add, after_heading};
ghost use Rattle.crsm_segment.specs.Answering.{answer_of_add, answer_of};

use crsm_base::{Bytes, MAX_CONTROL_BYTES, MAX_PARTS, NoMemory, PART_BYTES};
use std::alloc::Global;
use std::marker::Model;

/// The outcome of taking a part.
#[derive(Drop)]
pub enum PartOutcome {
    /// The part completes its message, which is this.
    Whole(Bytes),
    /// Further parts of its message are missing.
    More,
    /// The message is older than the newest of its sender, or was returned before.
    Old,
    /// The part contradicts the count of its message's other parts, or has an invalid length.
    Odd,
}

/// The heading of a part: boot and number of its message, its index, and the count of the message's parts.
#[derive(Clone, Copy, Debug)]
pub struct Heading {
    pub boot: u64,
    pub number: u64,
    pub index: u32,
    pub count: u32,
}

/// The newest message of a peer. Its parts are dropped once it is returned.
#[derive(Drop)]
pub struct Message {
    boot: u64,
    number: u64,
    count: u32,
    slots: Vec<Option<Bytes>>,
    given: bool,
}

impl Model for Message {
    ghost use Rattle.std.specs.Prelude.{◌≡◌, false, length};
    ghost use Rattle.crsm_segment.specs.Gathering.{Gathering};

    ghost Value = { Gathering };

    ghost view = { λ m. record { boot = m.boot; number = m.number; count = m.count; slots = m.slots.items; given = m.given } };

    ghost invariant = { λ m. m.given ≡ false → length m.slots.items ≡ m.count };
}

/// Returns whether all parts have been received.
fn is_all_there(slots: &[Option<Bytes>]) -> bool
    ensures { result ≡ is_filled slots.now }
{
    slots.iter().all(|slot| slot.is_some())
}

/// Returns the parts, joined. `NoMemory` if memory runs out.
fn join(alloc: Global, slots: &[Option<Bytes>]) -> Result<Bytes, NoMemory>
    ensures { IfOk result (λ whole. whole ≡ all_bytes slots.now) }
{
    let mut whole = Bytes::new(alloc);
    for slot in slots {
        if let Some(bytes) = slot {
            whole.append(bytes.as_slice())?;
        }
    }
    Ok(whole)
}

/// Returns `count` empty slots. `NoMemory` if memory runs out.
fn room(alloc: Global, count: u32) -> Result<Vec<Option<Bytes>>, NoMemory>
    ensures { IfOk result (λ v. v.items ≡ replicate count None) }
{
    let mut slots = Vec::new(alloc);
    for _k in 0..count {
        slots.push(None)?;
    }
    Ok(slots)
}

/// Returns a copy of a part's bytes. `NoMemory` if memory runs out.
fn kept(alloc: Global, bytes: &[u8]) -> Result<Bytes, NoMemory>
    ensures { IfOk result (λ copy. copy ≡ bytes.now) }
{
    let mut copy = Bytes::new(alloc);
    copy.reserve(bytes.len())?;
    copy.append(bytes)?;
    Ok(copy)
}

impl Message {
    /// Returns a message without parts. `NoMemory` if memory runs out.
    fn new(alloc: Global, h: Heading) -> Result<Message, NoMemory>
        ensures { IfOk result (λ made. made ≡ empty_gathering h) }
    {
        let slots = room(alloc, h.count)?;
        Ok(Message {
            boot: h.boot,
            number: h.number,
            count: h.count,
            slots,
            given: false,
        })
    }

    /// Returns a message whose only part was received and returned.
    fn given_at_once(alloc: Global, h: Heading) -> Message
        ensures { result ≡ given_gathering h }
    {
        Message {
            boot: h.boot,
            number: h.number,
            count: h.count,
            slots: Vec::new(alloc),
            given: true,
        }
    }

    fn is_of(&self, h: Heading) -> bool
        ensures { result ≡ is_same h self.now }
    {
        h.boot == self.boot && h.number == self.number
    }

    fn is_above(&self, h: Heading) -> bool
        ensures { result ≡ is_before h self.now }
    {
        h.boot < self.boot || (h.boot == self.boot && h.number < self.number)
    }

    fn is_given(&self) -> bool
        ensures { result ≡ self.now.given }
    {
        self.given
    }

    fn count(&self) -> u32
        ensures { result ≡ self.now.count }
    {
        self.count
    }

    /// Adds a part and returns its outcome. `NoMemory` if memory runs out; nothing has changed then.
    fn add(&mut self, alloc: Global, index: u32, bytes: &[u8]) -> Result<PartOutcome, NoMemory>
        requires open { self.old.given ≡ false }
        requires below { index < self.old.count }
        ensures state { OnOk result (self.new ≡ after_add self.old index bytes.now) }
        ensures taken { IfOk result (λ taken. taken ≡ answer_of_add self.old index bytes.now) }
        ensures err { OnErr result (self.new ≡ self.old) }
    {
        let i = index as usize;
        if self.slots[i].is_some() {
            return Ok(PartOutcome::More);
        }
        let piece = kept(alloc, bytes)?;
        self.slots[i] = Some(piece);
        if !is_all_there(&self.slots) {
            return Ok(PartOutcome::More);
        }
        match join(alloc, &self.slots) {
            Ok(whole) => {
                self.slots.clear();
                self.given = true;
                Ok(PartOutcome::Whole(whole))
            }
            Err(e) => {
                self.slots[i] = None;
                Err(e)
            }
        }
    }
}

fn is_passed(peer: &Option<Message>, h: Heading) -> bool
    ensures { result ≡ has_passed peer.now h }
{
    match peer {
        None => false,
        Some(message) => message.is_above(h) || (message.is_of(h) && message.is_given()),
    }
}

fn has_count_besides(peer: &Option<Message>, h: Heading) -> bool
    ensures { result ≡ has_other_count peer.now h }
{
    match peer {
        None => false,
        Some(message) => message.is_of(h) && message.count() != h.count,
    }
}

/// Returns whether a part has a valid length: each but the last is full, and together they are no longer than a control
/// message may be.
#[tactic(auto, unfolding(crate::specs::Taking::is_sized))]
fn is_fit(h: Heading, bytes: &[u8]) -> bool
    ensures { result ≡ fits h bytes.now }
{
    if h.count > MAX_PARTS || h.index >= h.count {
        return false;
    }
    let full = PART_BYTES as usize;
    if h.index + 1 < h.count {
        return bytes.len() == full;
    }
    let most = if h.count == MAX_PARTS {
        (MAX_CONTROL_BYTES - PART_BYTES * (MAX_PARTS - 1)) as usize
    } else {
        full
    };
    0 < bytes.len() && bytes.len() <= most
}

/// Takes a part of a peer and returns its outcome. `NoMemory` if memory runs out; nothing has changed then.
#[tactic(auto, unfolding(crate::specs::Taking::is_sized))]
pub fn take_part(
    alloc: Global,
    peer: &mut Option<Message>,
    h: Heading,
    bytes: &[u8],
) -> Result<PartOutcome, NoMemory>
    ensures state { OnOk result (peer.new ≡ after_heading peer.old h bytes.now) }
    ensures taken { IfOk result (λ taken. taken ≡ answer_of peer.old h bytes.now) }
    ensures err { OnErr result (peer.new ≡ peer.old) }
{
    if is_passed(peer, h) {
        return Ok(PartOutcome::Old);
    }
    if has_count_besides(peer, h) || !is_fit(h, bytes) {
        return Ok(PartOutcome::Odd);
    }
    if let Some(message) = peer {
        if message.is_of(h) {
            return message.add(alloc, h.index, bytes);
        }
    }
    // The only part of its message is the message: it needs no slot.
    if h.count == 1 {
        let whole = kept(alloc, bytes)?;
        *peer = Some(Message::given_at_once(alloc, h));
        return Ok(PartOutcome::Whole(whole));
    }
    let mut message = Message::new(alloc, h)?;
    let taken = message.add(alloc, h.index, bytes)?;
    *peer = Some(message);
    Ok(taken)
}
