//! The datagrams that came up and are not handed up yet.

ghost use Rattle.std.specs.Prelude.{◌≡◌, ◌≢◌, ◌⊎◌, [], IfOk, IfSome, IsSome, None, true};
ghost use Rattle.crsm_port.specs.Passing.{NoMore};
ghost use Rattle.crsm_port_flow.specs.Followed.{GoesBy};
ghost use Rattle.crsm_port_flow.specs.Kept.{kept_in};
ghost use Rattle.crsm_port_flow.specs.Order.{FirstGoes, IsNotDue, IsTheirTurn, LatestGoes, NextGoes, NoneGoes, OldestGoes};
ghost use Rattle.crsm_port_flow.specs.Same.{SameKept, StaysWhenSent};
ghost use Rattle.crsm_port_flow.specs.Turns.{IsAnswered, IsReplyTo};
ghost use Rattle.crsm_port_flow.specs.declared.commands.Command.{Command};

use crate::clients::{Clients, NextAsked};
use crate::heads::{ACK, head_in, is_reply};
use crate::peers::FromPeers;
use crsm_base::NoMemory;
use crsm_port::Recv;
use std::alloc::Global;

/// Number of datagrams of peers that are handed up between two of others, if there are so many.
const PEERS_FIRST: u32 = 3;

/// The datagrams of peers, and what others ask for.
#[derive(Drop)]
pub(crate) struct Inbound {
    pub(crate) peers: FromPeers,
    pub(crate) clients: Clients,
    // The number of datagrams of peers that were handed up since the last of another.
    since_client: u32,
}

impl Inbound {
    /// Returns a state without datagrams, or `NoMemory` if memory runs out.
    pub(crate) fn new(alloc: Global) -> Result<Inbound, NoMemory>
        ensures kept { IfOk result (λ i. NoMore (λ _ _. ⊥) (kept_in i)) }
        ensures unanswered { IfOk result (λ i. i.clients.requests.unanswered.entries ≡ []) }
    {
        Ok(Inbound {
            peers: FromPeers::new(alloc)?,
            clients: Clients::new(alloc)?,
            since_client: 0,
        })
    }

    /// Returns what goes up next of those who are no peers, if it is their turn: after three datagrams of peers, or if
    /// nothing else is ready and nothing else comes.
    fn next_asked(&mut self, now: u64, admits: bool, is_last: bool) -> NextAsked
        ensures peers { (self.new.peers ≡ self.old.peers) × (self.new.since_client ≡ self.old.since_client) }
        ensures waiting { self.new.clients.requests.waiting.items ≡ self.old.clients.requests.waiting.items }
        ensures operate { self.new.clients.operate ≡ self.old.clients.operate }
        ensures turn { result ≢ NextAsked.Nothing → IsTheirTurn self.old }
        ensures membership { result ≡ NextAsked.Membership → self.old.clients.operate ≢ None }
        ensures command { result ≡ NextAsked.Command → self.old.clients.requests.waiting.items ≢ [] }
        ensures nothing { result ≡ NextAsked.Nothing → is_last ≡ true → self.old.peers.ready.items ≡ [] → IsNotDue now self.new.clients.operate × (admits ≡ true → NoneGoes now self.new.clients) }
    {
        let is_turn = self.since_client >= PEERS_FIRST || is_last && self.peers.ready() == 0;
        if is_turn {
            self.clients.next(now, admits)
        } else {
            NextAsked::Nothing
        }
    }

    /// Hands up the next datagram, cut to the buffer, or returns `None`. Requests go up only if they are admitted, and
    /// behind what may still come unless this is the last question.
    pub(crate) fn hand_up(
        &mut self,
        buf: &mut [u8],
        now: u64,
        admits: bool,
        is_last: bool,
    ) -> Option<Recv>
        ensures goes { IfSome result (NextGoes self.old self.new buf.old buf.new) }
        ensures none { result ≡ None → (self.old.peers.ready.items ≡ []) × (self.new.peers.ready.items ≡ []) }
        ensures nothing { result ≡ None → is_last ≡ true → IsNotDue now self.new.clients.operate × (admits ≡ true → NoneGoes now self.new.clients) }
        ensures same { result ≡ None → SameKept self.old self.new }
    {
        match self.next_asked(now, admits, is_last) {
            NextAsked::Nothing => self.hand_up_of_peer(buf),
            next => self.hand_up_asked(next, buf, now),
        }
    }

    /// Hands up the first datagram of a peer.
    fn hand_up_of_peer(&mut self, buf: &mut [u8]) -> Option<Recv>
        ensures first { IfSome result (FirstGoes self.old.peers self.new.peers buf.old buf.new) }
        ensures none { result ≡ None → (self.old.peers.ready.items ≡ []) × (self.new.peers.ready.items ≡ []) × (self.new.peers.early ≡ self.old.peers.early) }
        ensures clients { self.new.clients ≡ self.old.clients }
    {
        let got = self.peers.hand_up(buf)?;
        self.since_client = self.since_client.saturating_add(1);
        Some(got)
    }

    /// Hands up what another asks for.
    fn hand_up_asked(&mut self, next: NextAsked, buf: &mut [u8], now: u64) -> Option<Recv>
        requires membership { next ≡ NextAsked.Membership → self.old.clients.operate ≢ None }
        requires command { next ≡ NextAsked.Command → self.old.clients.requests.waiting.items ≢ [] }
        requires something { next ≢ NextAsked.Nothing }
        ensures goes { IfSome result (λ got. OldestGoes self.old.clients self.new.clients buf.old buf.new got ⊎ LatestGoes self.old.clients self.new.clients buf.old buf.new got) }
        ensures some { IsSome result }
        ensures peers { self.new.peers ≡ self.old.peers }
    {
        self.since_client = 0;
        self.clients.hand_up(next, buf, now)
    }

    /// Records what a datagram says that the replica sends.
    pub(crate) fn note_sent(&mut self, bytes: &[u8])
        ensures rest { NoMore (kept_in self.old) (kept_in self.new) }
        ensures stays { StaysWhenSent self.old self.new }
        ensures goes_by { GoesBy bytes.now self.old.peers self.new.peers }
        ensures answered { (c : Command) → IsReplyTo c bytes.now → IsAnswered c self.new.clients.requests.unanswered.entries }
    {
        if let Some(expected) = head_in(ACK, bytes) {
            self.peers.note_expected(expected);
        } else if is_reply(bytes) {
            self.clients.note_answered(bytes);
        }
    }
}
