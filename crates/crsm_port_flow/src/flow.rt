//! `FlowPort`: retransmission and flow control around a port.

ghost use Rattle.std.specs.Prelude.{◌≡◌, ◌≢◌, ◌<◌, ◌≤◌, ◌⊎◌, ◌++◌, List, [], take, true, false, All, None, Option, IfOk, IfSome, IsErrOf, IsOk, IsOkAnd, OnErr, OnOk, length};
ghost use Rattle.crsm_clock.specs.Readings.{Gives, Readings};
ghost use Rattle.crsm_port_faults.specs.Counts.{Rose};
ghost use Rattle.crsm_port.specs.Meaning.{IsWithin, Packet, Receives, Reserves, Sends, SendsAll};
ghost use Rattle.crsm_port.specs.Passing.{Cut, HandsUpBy, IsOf, NoMore, PassesOnBy, RestsBy};
ghost use Rattle.crsm_port.specs.Unknown.{unknown};
ghost use Rattle.crsm_port_flow.specs.Followed.{GoesBy};
ghost use Rattle.crsm_port_flow.specs.Hears.{AreKnownBy, Tells};
ghost use Rattle.crsm_port_flow.specs.Kept.{KeepsOnly, given_by, kept_in};
ghost use Rattle.crsm_port_flow.specs.Lost.{ComesUnlessEarly, MayDrop, MayLackMemory, TakesIn};
ghost use Rattle.crsm_port_flow.specs.New.{IsNew};
ghost use Rattle.crsm_port_flow.specs.Order.{NextGoes, NothingGoes};
ghost use Rattle.crsm_port_flow.specs.Reads.{IsAnswer, ReadsAhead, ReadsAll, ReadsOne, SendsAndTakes, TakesAndEnds, TakesOrEnds, state_of};
ghost use Rattle.crsm_port_flow.specs.Same.{SameClients, SameKept, SamePeers, StaysWhenSent};
ghost use Rattle.crsm_port_flow.specs.Taken.{Comes, IsStranger};
ghost use Rattle.crsm_port_flow.specs.Ticks.{IsTickDue, NotesAnswer, TicksFirst, at_tick};
ghost use Rattle.crsm_port_flow.specs.Traffic.{IsHeldBack, acks_of, given_over, sent_over};
ghost use Rattle.crsm_port_flow.specs.Turns.{IsAnswered, IsReplyTo};
ghost use Rattle.crsm_port_flow.specs.Waits.{HoldsStill, Notes, NotesNone};
ghost use Rattle.crsm_port_flow.specs.Windows.{WindowSends, WindowTakes, new_window};
ghost use Rattle.crsm_port_flow.specs.declared.commands.Command.{Command};

use crate::clients::NextAsked;
use crate::datagram::{Loss, Losses};
use crate::hearing::{Heard, Hearing};
use crate::inbound::Inbound;
use crate::outbound::Outbound;
use crate::peers::MOST_AHEAD;
use crate::quiet::Quiet;
use crate::ticks::Ticks;
use crsm_base::{Failed, NoMemory};
use crsm_clock::Clock;
use crsm_port::{Port, Recv};
use crsm_port_faults::raise;
use std::alloc::Global;

/// Maximum length of a datagram in bytes, with the mark of a cluster.
const MOST_RECEIVED: usize = 8_201;

/// Maximum number of datagrams that a receive or a look ahead takes in.
const MOST_TAKEN: usize = 2_048;

/// A port over a port that limits retransmission. A link retransmits its frames at each tick until they are
/// acknowledged, and a receiver acknowledges each frame and accepts none after a missing one; over a socket with a
/// short buffer this crowds out new datagrams. Therefore:
///
/// - a frame is not retransmitted within 20 milliseconds, or twice the time that its receiver's acknowledgements take on
///   average, and then within twice as long each time, up to 160 milliseconds; the first time within 1 millisecond if its
///   receiver has acknowledged the same number twice and this is one of the 32 frames from there on, and the missing one
///   itself within 5 each time;
/// - a part is not sent to the same address again within 20 milliseconds, whatever the number of its message, since a
///   replica repeats its control messages at each tick;
/// - acknowledgements wait for the next flush or receive, and only the last one for each address is sent;
/// - datagrams that have arrived at the inner port are read ahead before the replica syncs its records, up to 1,024;
/// - a frame received before a missing one is kept, up to 1,024 of a link, and is handed up after that one; one of them
///   every 2 milliseconds is handed up at once, too, so that its sender learns what is missing;
/// - from an address that is no peer's, a request is taken in or a request for a membership change, each whole, and
///   nothing else; they have room of their own;
/// - a request waits, one of up to 1,280 and for up to two seconds: behind the datagrams of peers, but for one of four;
///   while the replica has 64 that it has not answered, since it would refuse it; and while a peer is far behind. If
///   more than 1,024 wait, the oldest goes up to be refused. One that has no reply after a second counts no longer. A
///   repeat of a request that waits or has no reply goes no further;
/// - the latest request for a membership change is handed up once more after a second;
/// - each second each peer is told whom this node hears. A peer that says three times that it does not hear this node
///   is not heard until it does;
/// - where nothing but times came and went for 50 milliseconds, the inner port is asked to wait longer, or not at all if
///   a peer was heard and the last flush is 7 milliseconds ago: an empty receive is a tick, so nodes that are idle tell
///   their times together, and wake once for all;
/// - the first receive after a flush answers nothing, although something may be ready, if none did for 10 milliseconds:
///   a tick is due then, and would end a group behind its first datagram.
///
/// A send that is held back is answered as sent, whether it is sent later or not: a network may lose it.
#[derive(Drop)]
pub struct FlowPort<P, C> {
    port: P,
    clock: C,
    // The clock's reading before the next sends, or at the first receive after the last ones, in microseconds.
    now: u64,
    inbound: Inbound,
    outbound: Outbound,
    hearing: Hearing,
    quiet: Quiet,
    ticks: Ticks,
    // A received datagram.
    room: Vec<u8>,
    // Whether a receive failed after the datagrams that were read ahead.
    has_failed: bool,
    // Whether the next receive must not wait.
    is_soon: bool,
    faults: u64,
    losses: u64,
    empties: u64,
    // The received datagrams that went no further.
    lost: Losses,
}

impl<P: Drop, C: Drop> FlowPort<P, C> {
    /// Returns a port over `inner` that reads `clock`, in microseconds, for replica `me` of those with these addresses
    /// (IPv4 x 65,536 + port). It allocates some megabytes; `NoMemory` if memory runs out.
    pub fn new(
        alloc: Global,
        inner: P,
        clock: C,
        me: usize,
        peers: &[u64],
    ) -> Result<FlowPort<P, C>, NoMemory>
        ensures made { IfOk result (IsNew inner clock me peers.now) }
        ensures room { IfOk result (λ p. (length p.room.items ≡ 8_201) × (p.has_failed ≡ false)) }
        ensures nothing { IfOk result (λ p. NoMore (λ _ _. ⊥) (kept_in p.inbound) × (p.outbound.acks.acks.items ≡ [])) }
        ensures unsaid { IfOk result (λ p. p.hearing.said_at ≡ None) }
        ensures ticks { IfOk result (λ p. p.ticks ≡ at_tick 0) }
        ensures frames { IfOk result (λ p. All (λ f. f.at ≡ 0) p.outbound.repeats.last.items) }
        ensures parts { IfOk result (λ p. All (λ q. q.at ≡ 0) p.outbound.parts.last.items) }
        ensures window { IfOk result (λ p. p.outbound.window ≡ new_window 0) }
        ensures unanswered { IfOk result (λ p. p.inbound.clients.requests.unanswered.entries ≡ []) }
    {
        // Those with the most parts last: each is dropped where a later one finds no memory.
        let room = Vec::from_elem(alloc, 0u8, MOST_RECEIVED)?;
        let hearing = Hearing::new(alloc, me, peers)?;
        let outbound = Outbound::new(alloc)?;
        let inbound = Inbound::new(alloc)?;
        Ok(FlowPort {
            port: inner,
            clock,
            now: 0,
            inbound,
            outbound,
            hearing,
            quiet: Quiet::new(),
            ticks: Ticks::new(),
            room,
            has_failed: false,
            is_soon: false,
            faults: 0,
            losses: 0,
            empties: 0,
            lost: Losses::new(),
        })
    }
}

impl<P: Port, C: Clock> FlowPort<P, C> {
    /// Takes a received datagram in. What asks for nothing and comes from nobody who is a peer is dropped, and so is what
    /// there is no room or no memory for; for what comes from a peer there is room, but for a frame that cannot wait.
    fn take_in(&mut self, from: u64, len: usize)
        requires within { len ≤ length self.old.room.items }
        requires few { length self.old.inbound.peers.ready.items < 1_024 }
        ensures kept { KeepsOnly from (take len self.old.room.items) (kept_in self.old.inbound) (kept_in self.new.inbound) }
        ensures comes { TakesIn from (take len self.old.room.items) self.old.now self.old.hearing.peers.items self.old.inbound self.new.inbound self.old.lost self.new.lost }
        ensures all_but_early_frames_come { ComesUnlessEarly from (take len self.old.room.items) self.old.now self.old.hearing.peers.items self.old.inbound self.new.inbound self.old.lost self.new.lost }
        ensures leaves_room { IsStranger from self.old.hearing.peers.items → self.new.inbound.peers ≡ self.old.inbound.peers }
        ensures known { AreKnownBy self.old.hearing.me from (take len self.old.room.items) self.old.now self.old.hearing.peers.items self.new.hearing.peers.items }
        ensures me { self.new.hearing.me ≡ self.old.hearing.me }
        ensures window { WindowTakes from (take len self.old.room.items) self.old.now self.old.hearing.peers.items self.old.outbound.window self.new.outbound.window }
        ensures same { self.new ≡ record self.old { hearing = self.new.hearing; quiet = self.new.quiet; inbound = self.new.inbound; outbound = self.new.outbound; lost = self.new.lost } }
        ensures port { self.new.port ≡ self.old.port }
        ensures acks { self.new.outbound.acks ≡ self.old.outbound.acks }
        ensures noted { NotesNone self.old.outbound self.new.outbound }
        ensures counts { unknown self.new.faults self.new.losses self.new.empties ≡ unknown self.old.faults self.old.losses self.old.empties }
    {
        let Err(loss) = self.takes(from, len) else {
            return;
        };
        self.lost.count(loss);
    }

    /// Takes a received datagram in. `Dropped` if it is of no use or there is no room for it, `NoMemory` if memory runs
    /// out.
    fn takes(&mut self, from: u64, len: usize) -> Result<(), Loss>
        requires within { len ≤ length self.old.room.items }
        requires few { length self.old.inbound.peers.ready.items < 1_024 }
        ensures kept { KeepsOnly from (take len self.old.room.items) (kept_in self.old.inbound) (kept_in self.new.inbound) }
        ensures comes { OnOk result (Comes from (take len self.old.room.items) self.old.now self.old.hearing.peers.items self.old.inbound self.new.inbound) }
        ensures dropped { IsErrOf result Loss.Dropped → MayDrop from (take len self.old.room.items) self.old.hearing.peers.items self.old.inbound }
        ensures no_memory { IsErrOf result Loss.NoMemory → MayLackMemory from (take len self.old.room.items) self.old.hearing.peers.items self.old.inbound }
        ensures leaves_room { IsStranger from self.old.hearing.peers.items → self.new.inbound.peers ≡ self.old.inbound.peers }
        ensures known { AreKnownBy self.old.hearing.me from (take len self.old.room.items) self.old.now self.old.hearing.peers.items self.new.hearing.peers.items }
        ensures me { self.new.hearing.me ≡ self.old.hearing.me }
        ensures window { WindowTakes from (take len self.old.room.items) self.old.now self.old.hearing.peers.items self.old.outbound.window self.new.outbound.window }
        ensures unchanged { OnErr result (SamePeers self.old.inbound.peers self.new.inbound.peers × SameClients self.old.inbound.clients self.new.inbound.clients) }
        ensures same { self.new ≡ record self.old { hearing = self.new.hearing; quiet = self.new.quiet; inbound = self.new.inbound; outbound = self.new.outbound } }
        ensures lost { self.new.lost ≡ self.old.lost }
        ensures acks { self.new.outbound.acks ≡ self.old.outbound.acks }
        ensures noted { NotesNone self.old.outbound self.new.outbound }
    {
        let Some(bytes) = self.room.get(..len) else {
            unreachable!();
        };
        match self.hearing.note(from, bytes, self.now) {
            Heard::Open => {
                self.quiet.note_heard();
                self.quiet.note(bytes, self.now);
                self.outbound.note_received(bytes, self.now);
                self.inbound.peers.take_in(from, bytes, self.now)
            }
            Heard::Stranger => {
                self.quiet.note(bytes, self.now);
                self.inbound.clients.take_in(from, bytes, self.now)
            }
            Heard::Closed => Ok(()),
            Heard::Says => Ok(()),
        }
    }

    /// Reads what has arrived at the port, so that the socket's buffer does not overflow while the node is busy.
    fn read_ahead(&mut self)
        ensures gives { NoMore (given_by (P.gives self.old.port) self.old.inbound) (given_by (P.gives self.new.port) self.new.inbound) }
        ensures sends { NoMore (P.may_send self.old.port) (P.may_send self.new.port) }
        ensures acks { self.new.outbound.acks ≡ self.old.outbound.acks }
        ensures noted { NotesNone self.old.outbound self.new.outbound }
        ensures reads { ReadsAll self.old.has_failed self.new.has_failed self.old.now (state_of (P.meaning self.old.port) self.old) (state_of (P.meaning self.new.port) self.new) }
        ensures now { self.new.now ≡ self.old.now }
        ensures ticks { self.new.ticks ≡ self.old.ticks }
        ensures counts { unknown self.new.faults self.new.losses self.new.empties ≡ unknown self.old.faults self.old.losses self.old.empties }
    {
        for _ in 0..MOST_TAKEN {
            if self.inbound.peers.ready() >= MOST_AHEAD {
                return;
            }
            if !self.read_one() {
                return;
            }
        }
    }

    /// Takes in the next datagram that has arrived at the port, and returns whether there was one.
    fn read_one(&mut self) -> bool
        requires few { length self.old.inbound.peers.ready.items < 1_024 }
        ensures gives { NoMore (given_by (P.gives self.old.port) self.old.inbound) (given_by (P.gives self.new.port) self.new.inbound) }
        ensures sends { NoMore (P.may_send self.old.port) (P.may_send self.new.port) }
        ensures acks { self.new.outbound.acks ≡ self.old.outbound.acks }
        ensures noted { NotesNone self.old.outbound self.new.outbound }
        ensures reads { ReadsOne self.old.has_failed self.new.has_failed self.old.now (state_of (P.meaning self.old.port) self.old) (state_of (P.meaning self.new.port) self.new) result }
        ensures now { self.new.now ≡ self.old.now }
        ensures ticks { self.new.ticks ≡ self.old.ticks }
        ensures counts { unknown self.new.faults self.new.losses self.new.empties ≡ unknown self.old.faults self.old.losses self.old.empties }
    {
        if self.has_failed {
            return false;
        }
        match self.arrived(true) {
            Ok(Recv::Datagram { from, len }) => {
                self.take_in(from, len);
                true
            }
            Ok(Recv::Nothing) => false,
            Err(Failed) => {
                self.has_failed = true;
                false
            }
        }
    }

    /// Hands up the next datagram, or `Nothing`. The receive after it may wait again.
    fn next_once(&mut self, buf: &mut [u8]) -> Result<Recv, Failed>
        ensures goes { self.old.inbound.peers.ready.items ≢ [] → IsOkAnd result (NextGoes self.old.inbound self.new.inbound buf.old buf.new) }
        ensures nothing { IfOk result (λ got. got ≡ Recv.Nothing → NothingGoes self.new.now self.new.inbound self.new.outbound.window) }
        ensures within { IfOk result (IsWithin (length buf.old)) }
        ensures given { IfOk result (IsOf (given_by (P.gives self.old.port) self.old.inbound) buf.new) }
        ensures gives { NoMore (given_by (P.gives self.old.port) self.old.inbound) (given_by (P.gives self.new.port) self.new.inbound) }
        ensures sends { NoMore (P.may_send self.old.port) (P.may_send self.new.port) }
        ensures acks { self.new.outbound.acks ≡ self.old.outbound.acks }
        ensures noted { NotesNone self.old.outbound self.new.outbound }
        ensures takes { TakesAndEnds self.old.has_failed self.old.now buf.old buf.new (state_of (P.meaning self.old.port) self.old) (state_of (P.meaning self.new.port) self.new) result }
        ensures ready { OnOk result (self.new.has_failed ≡ self.old.has_failed) }
        ensures failed { OnErr result (self.new.has_failed ≡ false) }
        ensures now { self.new.now ≡ self.old.now }
        ensures ticks { self.new.ticks ≡ self.old.ticks }
        ensures counts { unknown self.new.faults self.new.losses self.new.empties ≡ unknown self.old.faults self.old.losses self.old.empties }
    {
        let got = self.first_or_next(buf);
        self.is_soon = false;
        got
    }

    /// Hands up the next datagram, or `Nothing`. Nothing is received where one is ready.
    fn first_or_next(&mut self, buf: &mut [u8]) -> Result<Recv, Failed>
        ensures goes { self.old.inbound.peers.ready.items ≢ [] → IsOkAnd result (NextGoes self.old.inbound self.new.inbound buf.old buf.new) }
        ensures nothing { IfOk result (λ got. got ≡ Recv.Nothing → NothingGoes self.new.now self.new.inbound self.new.outbound.window) }
        ensures within { IfOk result (IsWithin (length buf.old)) }
        ensures given { IfOk result (IsOf (given_by (P.gives self.old.port) self.old.inbound) buf.new) }
        ensures gives { NoMore (given_by (P.gives self.old.port) self.old.inbound) (given_by (P.gives self.new.port) self.new.inbound) }
        ensures sends { NoMore (P.may_send self.old.port) (P.may_send self.new.port) }
        ensures acks { self.new.outbound.acks ≡ self.old.outbound.acks }
        ensures noted { NotesNone self.old.outbound self.new.outbound }
        ensures takes { TakesAndEnds self.old.has_failed self.old.now buf.old buf.new (state_of (P.meaning self.old.port) self.old) (state_of (P.meaning self.new.port) self.new) result }
        ensures ready { OnOk result (self.new.has_failed ≡ self.old.has_failed) }
        ensures failed { OnErr result (self.new.has_failed ≡ false) }
        ensures now { self.new.now ≡ self.old.now }
        ensures ticks { self.new.ticks ≡ self.old.ticks }
        ensures counts { unknown self.new.faults self.new.losses self.new.empties ≡ unknown self.old.faults self.old.losses self.old.empties }
    {
        if self.inbound.peers.ready() > 0 {
            return Ok(self.last(buf));
        }
        self.next(buf)
    }

    /// Hands up the next datagram, or `Nothing`.
    fn next(&mut self, buf: &mut [u8]) -> Result<Recv, Failed>
        ensures nothing { IfOk result (λ got. got ≡ Recv.Nothing → NothingGoes self.new.now self.new.inbound self.new.outbound.window) }
        ensures within { IfOk result (IsWithin (length buf.old)) }
        ensures given { IfOk result (IsOf (given_by (P.gives self.old.port) self.old.inbound) buf.new) }
        ensures gives { NoMore (given_by (P.gives self.old.port) self.old.inbound) (given_by (P.gives self.new.port) self.new.inbound) }
        ensures sends { NoMore (P.may_send self.old.port) (P.may_send self.new.port) }
        ensures acks { self.new.outbound.acks ≡ self.old.outbound.acks }
        ensures noted { NotesNone self.old.outbound self.new.outbound }
        ensures takes { TakesAndEnds self.old.has_failed self.old.now buf.old buf.new (state_of (P.meaning self.old.port) self.old) (state_of (P.meaning self.new.port) self.new) result }
        ensures ready { OnOk result (self.new.has_failed ≡ self.old.has_failed) }
        ensures failed { OnErr result (self.new.has_failed ≡ false) }
        ensures now { self.new.now ≡ self.old.now }
        ensures ticks { self.new.ticks ≡ self.old.ticks }
        ensures counts { unknown self.new.faults self.new.losses self.new.empties ≡ unknown self.old.faults self.old.losses self.old.empties }
    {
        for _ in 0..MOST_TAKEN {
            if let Some(got) = self.next_or_more(buf)? {
                return Ok(got);
            }
        }
        Ok(self.last(buf))
    }

    /// Hands up the next datagram, or `Nothing` if none comes, or takes one in and returns `None`.
    fn next_or_more(&mut self, buf: &mut [u8]) -> Result<Option<Recv>, Failed>
        ensures within { IfOk result (λ got. IfSome got (IsWithin (length buf.old))) }
        ensures given { IfOk result (λ got. IfSome got (IsOf (given_by (P.gives self.old.port) self.old.inbound) buf.new)) }
        ensures gives { NoMore (given_by (P.gives self.old.port) self.old.inbound) (given_by (P.gives self.new.port) self.new.inbound) }
        ensures sends { NoMore (P.may_send self.old.port) (P.may_send self.new.port) }
        ensures acks { self.new.outbound.acks ≡ self.old.outbound.acks }
        ensures noted { NotesNone self.old.outbound self.new.outbound }
        ensures takes { TakesOrEnds self.old.has_failed self.old.now buf.old buf.new (state_of (P.meaning self.old.port) self.old) (state_of (P.meaning self.new.port) self.new) result }
        ensures ready { OnOk result (self.new.has_failed ≡ self.old.has_failed) }
        ensures failed { OnErr result (self.new.has_failed ≡ false) }
        ensures now { self.new.now ≡ self.old.now }
        ensures ticks { self.new.ticks ≡ self.old.ticks }
        ensures counts { unknown self.new.faults self.new.losses self.new.empties ≡ unknown self.old.faults self.old.losses self.old.empties }
        ensures nothing { IfOk result (λ got. IfSome got (λ up. up ≡ Recv.Nothing → NothingGoes self.new.now self.new.inbound self.new.outbound.window)) }
    {
        let admits = self.outbound.admits(self.now);
        match self.inbound.hand_up(buf, self.now, admits, false) {
            Some(got) => Ok(Some(got)),
            None => self.receive_one(buf, admits),
        }
    }

    /// Takes in the next datagram of the port below and returns `None`, or hands up what waits if none comes.
    fn receive_one(&mut self, buf: &mut [u8], admits: bool) -> Result<Option<Recv>, Failed>
        requires none { self.old.inbound.peers.ready.items ≡ [] }
        ensures within { IfOk result (λ got. IfSome got (IsWithin (length buf.old))) }
        ensures given { IfOk result (λ got. IfSome got (IsOf (given_by (P.gives self.old.port) self.old.inbound) buf.new)) }
        ensures gives { NoMore (given_by (P.gives self.old.port) self.old.inbound) (given_by (P.gives self.new.port) self.new.inbound) }
        ensures sends { NoMore (P.may_send self.old.port) (P.may_send self.new.port) }
        ensures acks { self.new.outbound.acks ≡ self.old.outbound.acks }
        ensures noted { NotesNone self.old.outbound self.new.outbound }
        ensures takes { TakesOrEnds self.old.has_failed self.old.now buf.old buf.new (state_of (P.meaning self.old.port) self.old) (state_of (P.meaning self.new.port) self.new) result }
        ensures ready { OnOk result (self.new.has_failed ≡ self.old.has_failed) }
        ensures failed { OnErr result (self.new.has_failed ≡ false) }
        ensures now { self.new.now ≡ self.old.now }
        ensures ticks { self.new.ticks ≡ self.old.ticks }
        ensures counts { unknown self.new.faults self.new.losses self.new.empties ≡ unknown self.old.faults self.old.losses self.old.empties }
        ensures nothing { IfOk result (λ got. IfSome got (λ up. up ≡ Recv.Nothing → NothingGoes self.new.now self.new.inbound self.new.outbound.window)) }
    {
        let asked = self.inbound.clients.next(self.now, admits);
        let is_busy = asked != NextAsked::Nothing;
        match self.arrived(is_busy) {
            Ok(Recv::Datagram { from, len }) => {
                self.take_in(from, len);
                Ok(None)
            }
            Ok(Recv::Nothing) => Ok(Some(self.last(buf))),
            Err(Failed) => Err(Failed),
        }
    }

    /// Hands up the next datagram where nothing else comes, or `Nothing`.
    fn last(&mut self, buf: &mut [u8]) -> Recv
        ensures within { IsWithin (length buf.old) result }
        ensures goes { result ≢ Recv.Nothing → NextGoes self.old.inbound self.new.inbound buf.old buf.new result }
        ensures nothing { result ≡ Recv.Nothing → NothingGoes self.new.now self.new.inbound self.new.outbound.window }
        ensures some { result ≡ Recv.Nothing → self.old.inbound.peers.ready.items ≡ [] }
        ensures stays { result ≡ Recv.Nothing → SameKept self.old.inbound self.new.inbound }
        ensures kept { IsOf (Cut (kept_in self.old.inbound)) buf.new result }
        ensures rest { NoMore (kept_in self.old.inbound) (kept_in self.new.inbound) }
        ensures same { self.new ≡ record self.old { inbound = self.new.inbound } }
        ensures port { self.new.port ≡ self.old.port }
    {
        let admits = self.outbound.admits(self.now);
        match self.inbound.hand_up(buf, self.now, admits, true) {
            Some(got) => got,
            None => Recv::Nothing,
        }
    }

    /// Receives from the port, and does not wait if there is something else to do.
    fn arrived(&mut self, is_busy: bool) -> Result<Recv, Failed>
        ensures given { IfOk result (IsOf (P.gives self.old.port) self.new.room.items) }
        ensures within { IfOk result (IsWithin (length self.new.room.items)) }
        ensures gives { NoMore (P.gives self.old.port) (P.gives self.new.port) }
        ensures sends { NoMore (P.may_send self.old.port) (P.may_send self.new.port) }
        ensures inbound { self.new.inbound ≡ self.old.inbound }
        ensures outbound { self.new.outbound ≡ self.old.outbound }
        ensures answers { IsAnswer self.old.has_failed (P.meaning self.old.port) (P.meaning self.new.port) self.old.room.items self.new.room.items result }
        ensures ready { OnOk result (self.new.has_failed ≡ self.old.has_failed) }
        ensures failed { OnErr result (self.new.has_failed ≡ false) }
        ensures same { self.new ≡ record self.old { port = self.new.port; clock = self.new.clock; room = self.new.room; has_failed = self.new.has_failed } }
        ensures room { length self.new.room.items ≡ length self.old.room.items }
        ensures counts { unknown self.new.faults self.new.losses self.new.empties ≡ unknown self.old.faults self.old.losses self.old.empties }
    {
        if self.has_failed {
            self.has_failed = false;
            return Err(Failed);
        }
        if self.is_soon || is_busy || self.is_due() {
            self.port.poll_soon();
        } else if self.quiet.is_idle(self.now) {
            self.port.wait_long();
        }
        self.port.recv(&mut self.room)
    }

    /// Returns whether an idle node was told a peer's time and should now tell its own.
    fn is_due(&mut self) -> bool
        ensures { self.new ≡ record self.old { clock = self.new.clock } }
    {
        self.quiet.is_idle(self.now) && self.quiet.is_due(self.clock.now())
    }
}

impl<P: Port, C: Clock> Port for FlowPort<P, C> {
    ghost meaning = { λ p. unknown p.faults p.losses p.empties };

    ghost gives = { given_over P.gives };

    ghost may_send = { sent_over P.may_send };

    fn recv(&mut self, buf: &mut [u8]) -> Result<Recv, Failed>
        ensures receives { Receives (unknown self.old.faults self.old.losses self.old.empties) (unknown self.new.faults self.new.losses self.new.empties) buf.old buf.new result }
        ensures hands_up { HandsUpBy (given_over P.gives) (sent_over P.may_send) self.old self.new buf.new result }
        ensures goes { self.old.inbound.peers.ready.items ≢ [] → IsOkAnd result (NextGoes self.old.inbound self.new.inbound buf.old buf.new) ⊎ TicksFirst P.meaning self.old self.new result }
        ensures nothing { IfOk result (λ got. got ≡ Recv.Nothing → NothingGoes self.new.now self.new.inbound self.new.outbound.window ⊎ TicksFirst P.meaning self.old self.new result) }
        ensures noted { NotesNone self.old.outbound self.new.outbound }
        ensures none_held { self.new.outbound.acks.acks.items ≡ [] }
        ensures takes { SendsAndTakes (acks_of self.old) self.old.has_failed self.new.now buf.old buf.new (state_of (P.meaning self.old.port) self.old) (state_of (P.meaning self.new.port) self.new) result
            ⊎ TicksFirst P.meaning self.old self.new result }
        ensures ticks { NotesAnswer result self.new.now self.old.ticks self.new.ticks }
        ensures due { IsTickDue self.new.now self.old.ticks → TicksFirst P.meaning self.old self.new result }
        ensures reading { self.old.ticks.has_flushed ≡ true → (after : Option Readings) × Gives (C.readings self.old.clock) after self.new.now }
        ensures same_reading { self.old.ticks.has_flushed ≡ false → self.new.now ≡ self.old.now }
        ensures ready { OnOk result (self.new.has_failed ≡ self.old.has_failed) }
        ensures failed { OnErr result (self.new.has_failed ≡ false) }
    {
        self.outbound.acks.let_go(&mut self.port);
        self.now = self.ticks.reading(&mut self.clock, self.now);
        if self.ticks.goes_first(self.now) {
            raise(&mut self.empties);
            return Ok(Recv::Nothing);
        }
        match self.next_once(buf) {
            Ok(Recv::Datagram { from, len }) => Ok(Recv::Datagram { from, len }),
            Ok(Recv::Nothing) => {
                self.ticks.note_nothing(self.now);
                raise(&mut self.empties);
                Ok(Recv::Nothing)
            }
            Err(Failed) => {
                raise(&mut self.faults);
                Err(Failed)
            }
        }
    }

    fn send(&mut self, to: u64, bytes: &[u8]) -> Result<(), Failed>
        ensures sends { Sends to bytes.now (unknown self.old.faults self.old.losses self.old.empties) (unknown self.new.faults self.new.losses self.new.empties) result }
        ensures passes_on { PassesOnBy (given_over P.gives) (sent_over P.may_send) self.old self.new to bytes.now }
        ensures goes { Sends to bytes.now (P.meaning self.old.port) (P.meaning self.new.port) result ⊎ (IsOk result × IsHeldBack to bytes.now self.old self.new) }
        ensures noted { Notes to bytes.now self.old.now self.old.outbound self.new.outbound }
        ensures held { HoldsStill to bytes.now self.old.outbound self.new.outbound }
        ensures window { WindowSends bytes.now self.old.now self.old.outbound.window self.new.outbound.window }
        ensures answered { (c : Command) → IsReplyTo c bytes.now → IsAnswered c self.new.inbound.clients.requests.unanswered.entries }
        ensures lost { OnErr result (Rose (P.meaning self.old.port).losses (P.meaning self.new.port).losses) }
        ensures stays { StaysWhenSent self.old.inbound self.new.inbound }
        ensures goes_by { GoesBy bytes.now self.old.inbound.peers self.new.inbound.peers }
        ensures same { self.new ≡ record self.old { port = self.new.port; inbound = self.new.inbound; outbound = self.new.outbound; quiet = self.new.quiet; losses = self.new.losses } }
    {
        self.quiet.note(bytes, self.now);
        self.inbound.note_sent(bytes);
        if !self.outbound.may_go(to, bytes, self.now) {
            return Ok(());
        }
        match self.port.send(to, bytes) {
            Ok(()) => Ok(()),
            Err(Failed) => {
                raise(&mut self.losses);
                Err(Failed)
            }
        }
    }

    fn reserve(&mut self, sends: u64, bytes: u64) -> Result<(), NoMemory>
        ensures reserves { Reserves sends bytes (unknown self.old.faults self.old.losses self.old.empties) (unknown self.new.faults self.new.losses self.new.empties) result }
        ensures rests { RestsBy (given_over P.gives) (sent_over P.may_send) self.old self.new }
        ensures ticks { self.new.ticks ≡ self.old.ticks }
        ensures noted { NotesNone self.old.outbound self.new.outbound }
        ensures acks { self.new.outbound.acks ≡ self.old.outbound.acks }
        ensures reading { (after : Option Readings) × Gives (C.readings self.old.clock) after self.new.now }
        ensures reads { ReadsAhead self.old.has_failed self.new.has_failed self.new.now sends bytes (state_of (P.meaning self.old.port) self.old) (state_of (P.meaning self.new.port) self.new) result }
    {
        self.now = self.clock.now();
        self.inbound.clients.look_at_clock(self.now);
        self.read_ahead();
        self.port.reserve(sends, bytes)
    }

    fn poll_soon(&mut self)
        ensures same { unknown self.new.faults self.new.losses self.new.empties ≡ unknown self.old.faults self.old.losses self.old.empties }
        ensures rests { RestsBy (given_over P.gives) (sent_over P.may_send) self.old self.new }
        ensures soon { self.new ≡ record self.old { is_soon = true } }
    {
        self.is_soon = true;
    }

    fn flush(&mut self)
        ensures same { unknown self.new.faults self.new.losses self.new.empties ≡ unknown self.old.faults self.old.losses self.old.empties }
        ensures rests { RestsBy (given_over P.gives) (sent_over P.may_send) self.old self.new }
        ensures goes { (said : List Packet) × Tells self.old.now self.old.hearing self.new.hearing said × SendsAll (acks_of self.old ++ said) (P.meaning self.old.port) (P.meaning self.new.port) }
        ensures none_held { self.new.outbound.acks.acks.items ≡ [] }
        ensures noted { NotesNone self.old.outbound self.new.outbound }
        ensures window { self.new.outbound.window ≡ self.old.outbound.window }
        ensures stays { self.new ≡ record self.old { port = self.new.port; outbound = self.new.outbound; quiet = self.new.quiet; ticks = self.new.ticks; hearing = record self.old.hearing { said_at = self.new.hearing.said_at } } }
        ensures ticks { self.new.ticks ≡ record self.old.ticks { has_flushed = true } }
    {
        self.outbound.acks.let_go(&mut self.port);
        self.hearing.say(self.now, &mut self.port);
        self.quiet.note_flush(self.now);
        self.ticks.note_flush();
        self.port.flush();
    }
}
