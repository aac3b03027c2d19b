//! What those ask for who are no peers: clients' requests, and an operator's request for a membership change.

ghost use Rattle.crsm_port_flow.specs.Rooms.{CountsAsked};

use crate::commands::Command;
use crate::datagram::{Datagram, Loss};
use crate::heads::{Asked, asked_in};
use crate::requests::{MOST_KEPT, RequestFate, Requests};
use crate::room::{Limits, Room};
use crate::time::is_recent;
use crsm_base::NoMemory;
use crsm_port::Recv;
use std::alloc::Global;

/// Room for all requests that are kept, and two for a membership change, of which the later takes the place of the other.
const LIMITS: Limits = Limits {
    datagrams: MOST_KEPT + 2,
    bytes: 4_194_304,
};

/// Time in microseconds after which the request for a membership change is handed up again.
const PAUSE: u64 = 1_000_000;

/// A request for a membership change, the reading at which it came, in microseconds, and whether it was handed up.
#[derive(Drop)]
struct Operate {
    datagram: Datagram,
    at: u64,
    has_gone: bool,
}

/// What goes up next.
#[derive(Clone, Copy, PartialEq)]
pub(crate) enum NextAsked {
    Membership,
    Command,
    Nothing,
}

/// What those ask for who are no peers. It has room of its own.
///
/// A replica that has suspected nobody for 5 seconds ends its epoch at a request for a membership change, but at its
/// next tick asks for the replicas that it has heard from, in place of the requested ones; the same request within the
/// next 5 seconds takes effect. So the latest such request is kept, and handed up once more.
#[derive(Drop)]
pub(crate) struct Clients {
    alloc: Global,
    room: Room,
    pub(crate) requests: Requests,
    operate: Option<Operate>,
    ghost counted: { CountsAsked room requests.waiting.items operate },
}

impl Clients {
    ghost use Rattle.std.specs.Prelude.{◌≡◌, ◌⊎◌, ℕ, [], IfOk, IfSome, IsErrOf, OnErr, OnOk, None, Some, true, false};
    ghost use Rattle.crsm_port.specs.Passing.{NoMore};
    ghost use Rattle.crsm_port_flow.specs.Heads.{AsksNothing, IsOperate, IsRequest};
    ghost use Rattle.crsm_port_flow.specs.Kept.{KeepsOnly, of_clients};
    ghost use Rattle.crsm_port_flow.specs.Lost.{HasNoRoomOfClients};
    ghost use Rattle.crsm_port_flow.specs.Order.{IsNotDue, LatestGoes, NoneGoes, OldestGoes};
    ghost use Rattle.crsm_port_flow.specs.Same.{SameClients};
    ghost use Rattle.crsm_port_flow.specs.Taken.{IsAsked};
    ghost use Rattle.crsm_port_flow.specs.Turns.{AreInTime, DropsOver, IsAnswered, IsCommandIn};

    /// Returns a state without requests, or `NoMemory` if memory runs out.
    pub(crate) fn new(alloc: Global) -> Result<Clients, NoMemory>
        ensures { IfOk result (λ c. (c.requests.waiting.items ≡ []) × (c.operate ≡ None) × (c.requests.unanswered.entries ≡ [])) }
    {
        Ok(Clients {
            alloc,
            room: Room::new(alloc),
            requests: Requests::new(alloc)?,
            operate: None,
        })
    }

    /// Takes in what one asks for. `Dropped` if it asks for nothing, or if there is no room; `NoMemory` if memory runs
    /// out.
    pub(crate) fn take_in(&mut self, from: u64, bytes: &[u8], now: u64) -> Result<(), Loss>
        ensures taken { OnOk result (IsAsked from bytes.now now self.old self.new) }
        ensures dropped { IsErrOf result Loss.Dropped → AsksNothing bytes.now ⊎ HasNoRoomOfClients bytes.now self.old }
        ensures unchanged { OnErr result (SameClients self.old self.new) }
        ensures only { KeepsOnly from bytes.now (of_clients self.old) (of_clients self.new) }
    {
        match asked_in(self.alloc, bytes) {
            Ok(Asked::Command) => self.take_request(from, bytes, now),
            Ok(Asked::Membership) => self.take_operate(from, bytes, now),
            Ok(Asked::Nothing) => Err(Loss::Dropped),
            Err(NoMemory) => Err(Loss::NoMemory),
        }
    }

    /// Takes a request in. It goes no further if the node has it already.
    fn take_request(&mut self, from: u64, bytes: &[u8], now: u64) -> Result<(), Loss>
        requires { IsRequest bytes.now }
        ensures taken { OnOk result (IsAsked from bytes.now now self.old self.new) }
        ensures dropped { IsErrOf result Loss.Dropped → HasNoRoomOfClients bytes.now self.old }
        ensures unchanged { OnErr result (SameClients self.old self.new) }
        ensures only { KeepsOnly from bytes.now (of_clients self.old) (of_clients self.new) }
    {
        let Some(command) = Command::of(bytes) else {
            return Err(Loss::NoMemory);
        };
        match self.requests.fate(command, now) {
            RequestFate::IsUnderWay => Ok(()),
            RequestFate::HasNoRoom => Err(Loss::Dropped),
            RequestFate::Waits => {
                let datagram = self.room.put(LIMITS, from, bytes)?;
                self.requests.keep(command, datagram, now);
                Ok(())
            }
        }
    }

    /// Keeps a request for a membership change in place of the one before it.
    fn take_operate(&mut self, from: u64, bytes: &[u8], now: u64) -> Result<(), Loss>
        requires { IsOperate bytes.now }
        ensures taken { OnOk result (IsAsked from bytes.now now self.old self.new) }
        ensures dropped { IsErrOf result Loss.Dropped → HasNoRoomOfClients bytes.now self.old }
        ensures unchanged { OnErr result (SameClients self.old self.new) }
        ensures only { KeepsOnly from bytes.now (of_clients self.old) (of_clients self.new) }
    {
        let datagram = self.room.put(LIMITS, from, bytes)?;
        let operate = Operate {
            datagram,
            at: now,
            has_gone: false,
        };
        if let Some(before) = self.operate.replace(operate) {
            self.room.take_back(before.datagram);
        }
        Ok(())
    }

    /// Forgets the request for a membership change.
    fn forget_operate(&mut self)
        ensures none { self.new.operate ≡ None }
        ensures requests { self.new.requests ≡ self.old.requests }
    {
        if let Some(operate) = self.operate.take() {
            self.room.take_back(operate.datagram);
        }
    }

    /// Drops the requests that have waited too long.
    pub(crate) fn look_at_clock(&mut self, now: u64)
        ensures dropped { DropsOver now self.old.requests.waiting.items self.new.requests.waiting.items }
        ensures in_time { AreInTime now self.new.requests.waiting.items }
        ensures operate { self.new.operate ≡ self.old.operate }
    {
        while let Some(datagram) = self.requests.take_expired(now) {
            self.room.take_back(datagram);
        }
    }

    /// Returns what goes up next: a request for a membership change that has not gone or is due again, or the oldest
    /// request, if requests are admitted and the node has room.
    pub(crate) fn next(&mut self, now: u64, admits: bool) -> NextAsked
        ensures membership { result ≡ NextAsked.Membership → (o : Operate) × (self.new.operate ≡ Some o) }
        ensures command { result ≡ NextAsked.Command → self.new.requests.waiting.items ≡ [] → ⊥ }
        ensures nothing { result ≡ NextAsked.Nothing → IsNotDue now self.new.operate × (admits ≡ true → NoneGoes now self.new) }
        ensures waiting { self.new.requests.waiting.items ≡ self.old.requests.waiting.items }
        ensures operate { self.new.operate ≡ self.old.operate }
    {
        if self.is_operate_due(now) {
            NextAsked::Membership
        } else if admits && self.requests.has_ready(now) {
            NextAsked::Command
        } else {
            NextAsked::Nothing
        }
    }

    /// Returns whether the request for a membership change goes up.
    fn is_operate_due(&self, now: u64) -> bool
        ensures due { result ≡ true → (o : Operate) × (self.now.operate ≡ Some o) }
        ensures not_due { result ≡ false → IsNotDue now self.now.operate }
    {
        match &self.operate {
            Some(operate) => !operate.has_gone || !is_recent(operate.at, now, PAUSE),
            None => false,
        }
    }

    /// Hands up what is next, cut to the buffer, or returns `None`.
    pub(crate) fn hand_up(&mut self, next: NextAsked, buf: &mut [u8], now: u64) -> Option<Recv>
        ensures goes { IfSome result (λ got. OldestGoes self.old self.new buf.old buf.new got ⊎ LatestGoes self.old self.new buf.old buf.new got) }
        ensures none { result ≡ None → (next ≡ NextAsked.Command → self.old.requests.waiting.items ≡ []) × (next ≡ NextAsked.Membership → self.old.operate ≡ None) }
    {
        match next {
            NextAsked::Membership => self.hand_up_operate(buf),
            NextAsked::Command => self.hand_up_request(buf, now),
            NextAsked::Nothing => None,
        }
    }

    /// Hands up the request for a membership change, and forgets it if that was the second time.
    fn hand_up_operate(&mut self, buf: &mut [u8]) -> Option<Recv>
        ensures goes { IfSome result (LatestGoes self.old self.new buf.old buf.new) }
        ensures none { result ≡ None → self.old.operate ≡ None }
    {
        let operate = self.operate.as_mut()?;
        let got = operate.datagram.hand_up(buf);
        if operate.has_gone {
            self.forget_operate();
        } else {
            operate.has_gone = true;
        }
        Some(got)
    }

    /// Hands up the oldest request.
    fn hand_up_request(&mut self, buf: &mut [u8], now: u64) -> Option<Recv>
        ensures goes { IfSome result (OldestGoes self.old self.new buf.old buf.new) }
        ensures none { result ≡ None → self.old.requests.waiting.items ≡ [] }
    {
        let datagram = self.requests.take(now)?;
        let got = datagram.hand_up(buf);
        self.room.take_back(datagram);
        Some(got)
    }

    /// Records that the node has answered a command.
    pub(crate) fn note_answered(&mut self, reply: &[u8])
        ensures answered { (c : Command) → IsCommandIn c reply.now → IsAnswered c self.new.requests.unanswered.entries }
        ensures waiting { self.new.requests.waiting.items ≡ self.old.requests.waiting.items }
        ensures operate { self.new.operate ≡ self.old.operate }
    {
        if let Some(command) = Command::of(reply) {
            self.requests.note_answered(command);
        }
    }
}
