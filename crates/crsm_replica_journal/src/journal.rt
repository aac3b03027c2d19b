//! The journal of a node: which lines its turns make.

use crate::clocks::Clocks;
use crate::flushes::Flushes;
use crate::line::Line;
use crate::refusals::Refusals;
use crate::replicas::Replicas;
use crate::room::Room;
use crate::silence::Silences;
use crsm_base::{Decision, Rec};
use crsm_ledger::Ledger;
use crsm_replica_io::ReceivedInput;
use crsm_shell::TurnResult;
use std::alloc::Global;

/// The time between two lines about the state, in microseconds.
const MINUTE: u64 = 60_000_000;

/// A flush of this time in microseconds and above is told at once.
const LONG: u64 = 1_000_000;

/// What the turns before the first one were not there for.
#[derive(Clone, Copy)]
struct Since {
    silences: Silences,
    refusals: Refusals,
    clocks: Clocks,
    /// The reading at the last line about the state.
    minute: u64,
}

impl Since {
    fn at(reading: u64) -> Since {
        Since {
            silences: Silences::at(reading),
            refusals: Refusals::at(reading),
            clocks: Clocks::at(reading),
            minute: reading,
        }
    }
}

/// The journal of a node. It is given each turn and makes lines of what an operator wants to know; a line for which
/// there is no memory is left out.
#[derive(Drop)]
pub struct Journal {
    me: u32,
    lines: Vec<Line>,
    since: Option<Since>,
    epoch: u64,
    is_live: bool,
    executed: u64,
    /// The executed commands before the first ones that came from others while this node took no part.
    behind: Option<u64>,
    room: Room,
    /// The flushes since the last line about the state was due.
    flushes: Flushes,
    /// The executed commands at the last line about the state.
    told: u64,
}

/// Returns the members of the decision, and its replica set.
fn replicas_of(decision: &Decision, counted: &[u32]) -> (Replicas, Replicas) {
    (
        Replicas::of(decision.members.as_slice()),
        Replicas::of(counted),
    )
}

impl Journal {
    /// Returns the journal of node `me`, whose log has `bytes` bytes, in epoch `epoch` with `executed` commands.
    pub fn new(alloc: Global, me: u32, bytes: u64, epoch: u64, executed: u64) -> Journal {
        Journal {
            me,
            lines: Vec::new(alloc),
            since: None,
            epoch,
            is_live: false,
            executed,
            behind: None,
            room: Room::of(bytes),
            flushes: Flushes::new(alloc),
            told: executed,
        }
    }

    /// Returns the lines that were made since they were last cleared.
    pub fn lines(&self) -> &[Line] {
        self.lines.as_slice()
    }

    /// Removes all lines.
    pub fn clear(&mut self) {
        self.lines.clear();
    }

    /// Takes a turn, with the datagram that it took, if any, and the ledger after it.
    pub fn turned(&mut self, turn: &TurnResult, datagram: &[u8], state: &Ledger) {
        let mut since = match self.since {
            Some(since) => since,
            None => Since::at(turn.reading),
        };
        self.hear(&mut since, turn, datagram);
        self.room.add(turn.size);
        if turn.size > 0 || self.since.is_none() {
            self.note_transfer(turn, state);
            self.note_epoch(state);
        }
        if let ReceivedInput::Suspect(members) = &turn.taken {
            self.note_suspicion(members.as_slice(), state);
        }
        since.refusals.count(turn.batch.sends.as_slice());
        if let ReceivedInput::Tick = turn.taken {
            self.tick(&mut since, turn.reading, state);
        }
        self.since = Some(since);
    }

    /// Notes that all turns so far are in the log, and how long it took to write and send them, in microseconds: two
    /// syncs above all. Of turns without records nothing is written, and their time does not count.
    pub fn kept(&mut self, time: u64) {
        if self.room.has_pending() {
            let _ = self.flushes.add(time);
            if time >= LONG {
                self.say(Some(Line::SlowFlush { time }));
            }
        }
        let line = self.room.kept();
        self.say(line);
    }

    fn say(&mut self, line: Option<Line>) {
        if let Some(line) = line {
            let _ = self.lines.push(line);
        }
    }

    /// Notes who was heard, and with which time.
    fn hear(&mut self, since: &mut Since, turn: &TurnResult, datagram: &[u8]) {
        if let Some(k) = turn.received {
            let line = since.silences.hear(k, turn.reading);
            self.say(line);
            since.clocks.take(datagram, turn.reading);
        }
    }

    /// Says which epoch has begun, and whether this node takes part in it.
    fn note_epoch(&mut self, state: &Ledger) {
        let epoch = state.known().epoch;
        let is_live = state.live();
        if epoch == self.epoch && is_live == self.is_live && self.since.is_some() {
            return;
        }
        let (members, spec) = replicas_of(state.known(), state.counted().as_slice());
        if is_live {
            self.note_caught_up();
            self.say(Some(Line::Entered {
                epoch,
                members,
                spec,
            }));
        } else if members.has(self.me) {
            self.say(Some(Line::Waits { epoch }));
        } else {
            self.say(Some(Line::Outside {
                epoch,
                members,
                spec,
            }));
        }
        self.epoch = epoch;
        self.is_live = is_live;
    }

    /// Notes executed commands that came from others while this node took no part.
    fn note_transfer(&mut self, turn: &TurnResult, state: &Ledger) {
        let records = turn.batch.records.as_slice();
        if !self.is_live
            && self.behind.is_none()
            && records.iter().any(|rec| matches!(rec, Rec::Adopt { .. }))
        {
            self.behind = Some(self.executed);
        }
        self.executed = state.executed_len();
    }

    /// Says, once this node takes part, that executed commands had come from others.
    fn note_caught_up(&mut self) {
        if let Some(from) = self.behind {
            let to = self.executed;
            self.say(Some(Line::Transferred { from, to }));
        }
        self.behind = None;
    }

    /// Says whom a suspicion leaves out.
    fn note_suspicion(&mut self, remaining: &[u32], state: &Ledger) {
        let remaining = Replicas::of(remaining);
        let (members, _) = replicas_of(state.known(), &[]);
        let suspected = members.outside(remaining);
        if suspected != Replicas::none() {
            self.say(Some(Line::Suspects {
                suspected,
                remaining,
            }));
        }
    }

    /// Says what a tick shows: silence, refusals, clocks and, each minute, the state.
    fn tick(&mut self, since: &mut Since, reading: u64, state: &Ledger) {
        for k in state.known().members.as_slice() {
            if *k != self.me {
                let line = since.silences.miss(*k, reading);
                self.say(line);
            }
        }
        let line = since.refusals.say(reading);
        self.say(line);
        let line = since.clocks.say(reading);
        self.say(line);
        if reading.saturating_sub(since.minute) >= MINUTE {
            since.minute = reading;
            self.note_state(state);
        }
    }

    /// Says what there is, and how long the flushes of the last minute took, if something was executed since the last
    /// time.
    fn note_state(&mut self, state: &Ledger) {
        let flushes = self.flushes.take();
        if self.executed == self.told {
            return;
        }
        self.told = self.executed;
        let (members, _) = replicas_of(state.known(), &[]);
        self.say(Some(Line::State {
            is_live: state.live(),
            epoch: state.known().epoch,
            members,
            executed: self.executed,
            bytes: self.room.bytes,
            flushes,
        }));
    }
}
