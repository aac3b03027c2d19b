//! The events of one replica: deliveries, requests, ticks and suspicions.

ghost use Rattle.std.specs.Prelude.{◌≡◌, ◌<◌, ◌≤◌, None, Some, ℕ, fold, drop, length, slice_get, IfOk, OnOk};
ghost use Rattle.crsm_sim_machine.specs.Arriving.{turn_of};
ghost use Rattle.crsm_base.specs.Messages.{FitsDatagram, datagram_bytes};
ghost use Rattle.crsm_base.specs.Spelling.{FitsCommand};
ghost use Rattle.crsm_schedule.specs.Grammar.{FitsSingle};
ghost use Rattle.crsm_spec.specs.Acts.{Single as OneStep};
ghost use Rattle.crsm_spec.specs.Moments as moments;
ghost use Rattle.crsm_spec.specs.Node.{Turn};
ghost use Rattle.crsm_spec.specs.Replica.{Replica};
ghost use Rattle.crsm_spec.specs.World as on_paper;
ghost use Rattle.crsm_world.specs.Doing.{single_of};
ghost use Rattle.crsm_world.specs.World.{Holds, Leads, LeadsOn, WhereHolds};
ghost use Rattle.crsm_world.specs.Turning.{ending_of, FitsEnding, IsGenuine, turn_at, request_turn};

use crate::ending::Ending;
use crate::outgoing::leave;
use crate::world::World;
use crsm_base::{Bytes, Command, Datagram, Lines, NoMemory};
use crsm_schedule::Single;
use crsm_sim_machine::Arrival;
use crsm_wire::write_datagram;
use std::alloc::Global;

impl World {
    /// Runs a step of replica `k` on an arrival, and ends it as `ending` says. Nothing happens if the replica is down.
    fn arrive(
        &mut self,
        k: u64,
        ending: Ending,
        arrival: Arrival<'_>,
        reading: u64,
        lines: &mut Lines,
    ) -> Result<(), NoMemory>
        requires { FitsEnding ending }
        ensures { OnOk result (WhereHolds self.old (λ v.
            LeadsOn (turn_at (ending_of ending) v k (turn_of arrival.entry) reading) self.new.sites self.new.network lines.old lines.new)) }
    {
        let effects = self.sites.arrive(k, ending, arrival, reading)?;
        leave(
            self.alloc,
            &mut self.network,
            self.sites.sent(),
            effects,
            lines,
        )?;
        Ok(())
    }

    /// Delivers bytes from an address to a replica. They are no longer than a datagram.
    fn bytes_arrive(
        &mut self,
        k: u64,
        ending: Ending,
        from: u64,
        bytes: &[u8],
        reading: u64,
        lines: &mut Lines,
    ) -> Result<(), NoMemory>
        requires ends { FitsEnding ending }
        requires short { length bytes.now ≤ 8192 }
        ensures { OnOk result (WhereHolds self.old (λ v.
            LeadsOn (turn_at (ending_of ending) v k (Turn.In from bytes.now) reading) self.new.sites self.new.network lines.old lines.new)) }
    {
        let arrival = Arrival::Bytes { from, bytes };
        self.arrive(k, ending, arrival, reading, lines)?;
        Ok(())
    }

    /// Delivers the datagram with this number to its receiver. Its bytes stay in the network.
    fn come(
        &mut self,
        ending: Ending,
        number: u64,
        reading: u64,
        lines: &mut Lines,
    ) -> Result<(), NoMemory>
        requires { FitsEnding ending }
        ensures { OnOk result (WhereHolds self.old (λ v.
            LeadsOn (moments.come (ending_of ending) v reading (slice_get v.packets number)) self.new.sites self.new.network lines.old lines.new)) }
    {
        let Some(packet) = self.network.packet(number) else {
            return Ok(());
        };
        let arrival = Arrival::Bytes {
            from: u64::from(packet.from),
            bytes: packet.bytes,
        };
        let effects = self
            .sites
            .arrive(u64::from(packet.to), ending, arrival, reading)?;
        leave(
            self.alloc,
            &mut self.network,
            self.sites.sent(),
            effects,
            lines,
        )?;
        Ok(())
    }

    /// Marks the datagram with this number as used, and delivers it to its receiver.
    pub(crate) fn go(
        &mut self,
        ending: Ending,
        number: u64,
        reading: u64,
        lines: &mut Lines,
    ) -> Result<(), NoMemory>
        requires { FitsEnding ending }
        ensures { OnOk result (WhereHolds self.old (λ v.
            LeadsOn (moments.single (ending_of ending) v (OneStep.Go number reading)) self.new.sites self.new.network lines.old lines.new)) }
    {
        self.network.use_up(number);
        self.come(ending, number, reading, lines)?;
        Ok(())
    }

    /// Delivers a client's command to a replica.
    fn request(
        &mut self,
        ending: Ending,
        k: u64,
        reading: u64,
        command: &Command,
        lines: &mut Lines,
    ) -> Result<(), NoMemory>
        requires ends { FitsEnding ending }
        requires fits { FitsCommand command.now }
        ensures { OnOk result (WhereHolds self.old (λ v.
            LeadsOn (turn_at (ending_of ending) v k (request_turn command.now) reading) self.new.sites self.new.network lines.old lines.new)) }
    {
        let bytes = request_bytes(self.alloc, command)?;
        self.bytes_arrive(k, ending, command.client, bytes.as_slice(), reading, lines)?;
        Ok(())
    }

    /// Runs one step at one replica, ends it as `ending` says, and appends its lines.
    fn add_single(
        &mut self,
        ending: Ending,
        single: &Single,
        lines: &mut Lines,
    ) -> Result<(), NoMemory>
        requires ends { FitsEnding ending }
        requires fits { FitsSingle single.now }
        ensures { OnOk result (WhereHolds self.old (λ v. IsGenuine single.now →
            LeadsOn (moments.single (ending_of ending) v (single_of single.now)) self.new.sites self.new.network lines.old lines.new)) }
    {
        match single {
            Single::Request {
                replica,
                reading,
                command,
            } => Ok(self.request(ending, *replica, *reading, command, lines)?),
            Single::Go { number, reading } => Ok(self.go(ending, *number, *reading, lines)?),
            Single::Again { number, reading } => Ok(self.come(ending, *number, *reading, lines)?),
            Single::Tick { replica, reading } => {
                Ok(self.arrive(*replica, ending, Arrival::Tick, *reading, lines)?)
            }
            Single::Suspect {
                replica,
                reading,
                members,
            } => {
                let arrival = Arrival::Suspect(members.copy(self.alloc)?);
                Ok(self.arrive(*replica, ending, arrival, *reading, lines)?)
            }
            Single::Junk {
                replica,
                reading,
                bytes,
            } => Ok(self.bytes_arrive(*replica, ending, 0, bytes.as_slice(), *reading, lines)?),
        }
    }

    /// Runs one step at one replica and ends it as `ending` says. Returns its lines.
    pub(crate) fn do_single(&mut self, ending: Ending, single: &Single) -> Result<Lines, NoMemory>
        requires ends { FitsEnding ending }
        requires fits { FitsSingle single.now }
        ensures { IfOk result (λ lines. WhereHolds self.old (λ v. IsGenuine single.now →
            Leads (moments.single (ending_of ending) v (single_of single.now)) self.new lines)) }
    {
        let mut lines = self.no_lines();
        self.add_single(ending, single, &mut lines)?;
        Ok(lines)
    }
}

/// Returns the bytes of a client's request for a command.
fn request_bytes(alloc: Global, command: &Command) -> Result<Bytes, NoMemory>
    requires { FitsCommand command.now }
    ensures { IfOk result (λ bytes. bytes ≡ datagram_bytes (Datagram.Request command.now)) }
{
    // A datagram is large: it is dropped here alone.
    let datagram = Datagram::Request {
        command: command.copy(alloc)?,
    };
    let bytes = encoded(alloc, &datagram);
    drop(datagram);
    bytes
}

/// Returns the encoding of a datagram.
fn encoded(alloc: Global, datagram: &Datagram) -> Result<Bytes, NoMemory>
    requires { FitsDatagram datagram.now }
    ensures { IfOk result (λ bytes. bytes ≡ datagram_bytes datagram.now) }
{
    let mut bytes = Bytes::new(alloc);
    write_datagram(alloc, datagram, &mut bytes)?;
    Ok(bytes)
}
