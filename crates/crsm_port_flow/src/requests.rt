//! Requests that wait until the node has room for them.

ghost use Rattle.std.specs.Prelude.{◌≡◌, ◌⊎◌, ◌++◌, ◌∷◌, ◌<◌, ◌≤◌, [], length, true, false, None, Some, IfOk, IfSome};
ghost use Rattle.std.specs.VecDeque.{deque_capacity};
ghost use Rattle.crsm_port_flow.specs.Turns.{AreInTime, CountsOneMore, IsWaiting, LeavesSome, IsAnswered, IsOldestYoung, IsOver, IsSince, IsUnderWay, OthersStay, TakesFirst, reading_of};

use crate::commands::Command;
use crate::datagram::Datagram;
use crate::time::is_recent;
use crsm_base::NoMemory;
use indexmap::IndexMap;
use std::alloc::Global;
use std::collections::VecDeque;

/// Number of unanswered commands from which on a node refuses more, and maximum number of requests that wait for it.
const MOST_OPEN: usize = 64;

const MOST_WAITING: usize = 1_024;

/// Maximum number of requests that are kept. If more than 1,024 wait, the oldest goes up whether or not the node has
/// room for it, so that the node refuses it.
pub(crate) const MOST_KEPT: usize = 1_280;

/// Times in microseconds for which a request waits at most, and after which one without a reply is no longer counted.
const WAITING_TIME: u64 = 2_000_000;

const OPEN_TIME: u64 = 1_000_000;

/// A request that waits: its command, its datagram, and the reading since which it waits.
#[derive(Drop)]
struct Waiting {
    command: Command,
    datagram: Datagram,
    since: u64,
}

/// A command that the node received, and the reading at which it did.
#[derive(Clone, Copy)]
struct Opened {
    command: Command,
    since: u64,
}

/// What becomes of a received request.
#[derive(Clone, Copy, PartialEq)]
pub(crate) enum RequestFate {
    Waits,
    /// The node has it already, or it waits already: it goes no further.
    IsUnderWay,
    /// So many wait that it is dropped.
    HasNoRoom,
}

/// The requests that wait, the oldest first, and the commands that the node has not answered.
#[derive(Drop)]
pub(crate) struct Requests {
    waiting: VecDeque<Waiting>,
    // Of each command that waits, the reading since which it does.
    waits: IndexMap<Command, u64>,
    // Of each command that the node has not answered, the reading at which it received it.
    unanswered: IndexMap<Command, u64>,
    // These in the order in which it received them, with some that are answered.
    opened: VecDeque<Opened>,
    ghost reserved: { 1_280 ≤ deque_capacity waiting },
}

impl Requests {
    ghost use Rattle.crsm_port_flow.specs.Order.{HasNoRoom};

    /// Returns an empty record, or `NoMemory` if memory runs out.
    pub(crate) fn new(alloc: Global) -> Result<Requests, NoMemory>
        ensures waiting { IfOk result (λ r. r.waiting.items ≡ []) }
        ensures unanswered { IfOk result (λ r. r.unanswered.entries ≡ []) }
    {
        Ok(Requests {
            waiting: VecDeque::with_capacity(alloc, MOST_KEPT)?,
            waits: IndexMap::with_capacity(alloc, MOST_KEPT)?,
            unanswered: IndexMap::with_capacity(alloc, MOST_OPEN)?,
            opened: VecDeque::new(alloc),
        })
    }

    /// Returns what becomes of a received request.
    pub(crate) fn fate(&self, command: Command, now: u64) -> RequestFate
        ensures repeat { result ≡ RequestFate.IsUnderWay → IsUnderWay command now self.now.waiting.items self.now.unanswered.entries }
        ensures full { result ≡ RequestFate.HasNoRoom → 1_280 ≤ length self.now.waiting.items }
        ensures waits { result ≡ RequestFate.Waits → length self.now.waiting.items < 1_280 }
    {
        if self.is_under_way(command, now) {
            RequestFate::IsUnderWay
        } else if self.waiting.len() < MOST_KEPT {
            RequestFate::Waits
        } else {
            RequestFate::HasNoRoom
        }
    }

    /// Returns whether a command waits or has no reply, and not for too long.
    fn is_under_way(&self, command: Command, now: u64) -> bool
        ensures { result ≡ true → IsUnderWay command now self.now.waiting.items self.now.unanswered.entries }
    {
        self.is_waiting(command, now) || is_since(&self.unanswered, command, now, OPEN_TIME)
    }

    /// Returns whether a command waits, and not for too long.
    fn is_waiting(&self, command: Command, now: u64) -> bool
        ensures { result ≡ true → IsWaiting command now self.now.waiting.items }
    {
        if !is_since(&self.waits, command, now, WAITING_TIME) {
            return false;
        }
        for index in 0..self.waiting.len() {
            let Some(request) = self.waiting.get(index) else {
                return false;
            };
            if request.command == command && is_recent(request.since, now, WAITING_TIME) {
                return true;
            }
        }
        false
    }

    /// Appends a request to those that wait, of which there are fewer than 1,280.
    pub(crate) fn keep(&mut self, command: Command, datagram: Datagram, now: u64)
        requires { length self.old.waiting.items < 1_280 }
        ensures last { self.new.waiting.items ≡ self.old.waiting.items ++ (record { command = command; datagram = datagram; since = now }) ∷ [] }
        ensures unanswered { self.new.unanswered ≡ self.old.unanswered }
    {
        let request = Waiting {
            command,
            datagram,
            since: now,
        };
        self.waiting.push_back_reserved(request);
        // Without memory for this its repeats wait, too.
        let _ = self.waits.insert(command, now);
    }

    /// Removes the oldest request if it has waited too long, and returns its datagram; or `None`.
    pub(crate) fn take_expired(&mut self, now: u64) -> Option<Datagram>
        ensures first { IfSome result (λ d. (r : Waiting) × (self.old.waiting.items ≡ r ∷ self.new.waiting.items) × (r.datagram ≡ d) × IsOver now r) }
        ensures none { result ≡ None → (self.new.waiting.items ≡ self.old.waiting.items) × AreInTime now self.new.waiting.items }
    {
        let oldest = self.waiting.front()?;
        if is_recent(oldest.since, now, WAITING_TIME) {
            return None;
        }
        let expired = self.waiting.pop_front()?;
        let _ = self.waits.swap_remove(&expired.command);
        Some(expired.datagram)
    }

    /// Returns whether a request waits, and the node has room for it or has to refuse it.
    pub(crate) fn has_ready(&mut self, now: u64) -> bool
        ensures same { self.new.waiting ≡ self.old.waiting }
        ensures waits { result ≡ true → self.new.waiting.items ≡ [] → ⊥ }
        ensures none { result ≡ false → (self.new.waiting.items ≡ []) ⊎ HasNoRoom now self.new }
        ensures leaves { LeavesSome self.old.unanswered.entries self.new.unanswered.entries }
    {
        !self.waiting.is_empty() && (self.waiting.len() > MOST_WAITING || self.has_room(now))
    }

    /// Returns whether the node has room for one more.
    fn has_room(&mut self, now: u64) -> bool
        ensures same { self.new.waiting ≡ self.old.waiting }
        ensures none { result ≡ false → HasNoRoom now self.new }
        ensures leaves { LeavesSome self.old.unanswered.entries self.new.unanswered.entries }
    {
        if self.unanswered.len() >= MOST_OPEN {
            self.forget_old(now);
        }
        self.unanswered.len() < MOST_OPEN
    }

    /// Forgets the oldest commands that were answered or have waited too long for their reply. These no longer count.
    fn forget_old(&mut self, now: u64)
        ensures same { self.new.waiting ≡ self.old.waiting }
        ensures items { self.new.waiting.items ≡ self.old.waiting.items }
        ensures oldest { IsOldestYoung now self.new.opened.items self.new.unanswered.entries }
        ensures leaves { LeavesSome self.old.unanswered.entries self.new.unanswered.entries }
    {
        while let Some(oldest) = self.opened.front() {
            let Opened { command, since } = *oldest;
            if self.is_open_since(command, since) {
                if is_recent(since, now, OPEN_TIME) {
                    return;
                }
                let _ = self.unanswered.swap_remove(&command);
            }
            let _ = self.opened.pop_front();
        }
        // None is listed, so none counts.
        self.unanswered.clear();
    }

    /// Returns whether the node received the command at this reading, and has not answered it.
    fn is_open_since(&self, command: Command, reading: u64) -> bool
        ensures { result ≡ true → reading_of command self.now.unanswered.entries ≡ Some reading }
    {
        match self.unanswered.get(&command) {
            Some(since) => *since == reading,
            None => false,
        }
    }

    /// Removes the oldest waiting request, and returns its datagram. The node has its command from now on.
    pub(crate) fn take(&mut self, now: u64) -> Option<Datagram>
        ensures first { IfSome result (λ d. TakesFirst d self.old.waiting.items self.new.waiting.items) }
        ensures counts { IfSome result (λ d. (r : Waiting) × (self.old.waiting.items ≡ r ∷ self.new.waiting.items) × CountsOneMore r.command now self.old.unanswered.entries self.new.unanswered.entries) }
        ensures none { result ≡ None → (self.old.waiting.items ≡ []) × (self.new.waiting.items ≡ []) }
    {
        self.forget_old(now);
        let Waiting {
            command,
            datagram,
            ..
        } = self.waiting.pop_front()?;
        let _ = self.waits.swap_remove(&command);
        self.note_opened(command, now);
        Some(datagram)
    }

    /// Records that the node has a command from now on.
    fn note_opened(&mut self, command: Command, now: u64)
        ensures waiting { self.new.waiting.items ≡ self.old.waiting.items }
        ensures counts { CountsOneMore command now self.old.unanswered.entries self.new.unanswered.entries }
    {
        let opened = Opened {
            command,
            since: now,
        };
        if self.opened.push_back(opened).is_ok() {
            let _ = self.unanswered.insert(command, now);
        }
    }

    /// Records that the node has answered a command.
    pub(crate) fn note_answered(&mut self, command: Command)
        ensures waiting { self.new.waiting ≡ self.old.waiting }
        ensures answered { IsAnswered command self.new.unanswered.entries }
        ensures others { OthersStay command self.old.unanswered.entries self.new.unanswered.entries }
    {
        let _since = self.unanswered.swap_remove(&command);
    }
}

/// Returns whether the command is among these, and for less than `span`.
fn is_since(commands: &IndexMap<Command, u64>, command: Command, now: u64, span: u64) -> bool
    ensures { result ≡ true → IsSince command now span commands.now.entries }
{
    match commands.get(&command) {
        Some(since) => is_recent(*since, now, span),
        None => false,
    }
}
