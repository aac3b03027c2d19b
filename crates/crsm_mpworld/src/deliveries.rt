//! The events of one replica: deliveries, requests, ticks and elections.

ghost use Rattle.std.specs.Prelude.{◌≡◌, ℕ, slice_get, IfOk, OnOk};
ghost use Rattle.crsm_mpreplica.specs.Fitting.{FitsInput};
ghost use Rattle.crsm_base.specs.Spelling.{FitsCommand};
ghost use Rattle.crsm_mpspec.specs.Moments as moments;
ghost use Rattle.crsm_mpspec.specs.declared.input.MpInput.{MpInput as Input};
ghost use Rattle.crsm_mpworld.specs.Doing.{single_of};
ghost use Rattle.crsm_mpworld.specs.Effects.{WorldLeadsOn, each_gone, ending_of};
ghost use Rattle.crsm_mpworld.specs.Packets.{IsOpen};
ghost use Rattle.crsm_mpworld.specs.World.{Leads, WhereHolds};
ghost use Rattle.crsm_schedule.specs.Grammar.{FitsSingle};
ghost use Rattle.crsm_spec.specs.Acts.{Act, Single as OneStep};

use crate::ending::MpEnding;
use crate::outgoing::leave;
use crate::world::MpWorld;
use crsm_base::{Command, NoMemory};
use crsm_mpledger::share_command;
use crsm_mpspec::{MpInput, MpLines};
use crsm_schedule::Single;
use std::mem;

impl MpWorld {
    /// Runs a step of replica `k` on an input that is not a message, and ends it as `ending` says. Nothing happens if
    /// the replica is down.
    fn arrive(
        &mut self,
        k: u64,
        ending: MpEnding,
        input: &MpInput,
        lines: &mut MpLines,
    ) -> Result<(), NoMemory>
        requires fits { FitsInput input.now }
        requires room { IsOpen self.old.network }
        ensures { OnOk result (WhereHolds self.old (λ v.
            WorldLeadsOn (moments.step_at (ending_of ending) v k input.now 0) self.new lines.old lines.new)) }
    {
        let effects = self.sites.arrive(k, ending, input, 0, &mut self.made)?;
        leave(&mut self.network, effects, &mut self.made, lines)?;
        Ok(())
    }

    /// Delivers the message with this number to its receiver. Nothing happens if that is down.
    fn come(&mut self, ending: MpEnding, number: u64, lines: &mut MpLines) -> Result<(), NoMemory>
        requires { IsOpen self.old.network }
        ensures { OnOk result (WhereHolds self.old (λ v.
            WorldLeadsOn (moments.come (ending_of ending) v (slice_get v.packets number)) self.new lines.old lines.new)) }
    {
        let Some(packet) = self.network.get(number) else {
            return Ok(());
        };
        let effects = self.sites.arrive(
            u64::from(packet.to),
            ending,
            packet.input,
            packet.from,
            &mut self.made,
        )?;
        leave(&mut self.network, effects, &mut self.made, lines)?;
        Ok(())
    }

    /// Marks the message with this number as used, and delivers it to its receiver.
    fn go(&mut self, ending: MpEnding, number: u64, lines: &mut MpLines) -> Result<(), NoMemory>
        requires { IsOpen self.old.network }
        ensures { OnOk result (WhereHolds self.old (λ v. (reading : ℕ) →
            WorldLeadsOn (moments.single (ending_of ending) v (OneStep.Go number reading)) self.new lines.old lines.new)) }
    {
        self.network.use_up(number);
        self.come(ending, number, lines)?;
        Ok(())
    }

    /// Delivers a client's command to a replica.
    fn request(
        &mut self,
        ending: MpEnding,
        k: u64,
        command: &Command,
        lines: &mut MpLines,
    ) -> Result<(), NoMemory>
        requires fits { FitsCommand command.now }
        requires room { IsOpen self.old.network }
        ensures { OnOk result (WhereHolds self.old (λ v.
            WorldLeadsOn (moments.step_at (ending_of ending) v k (Input.Request command.now) 0) self.new lines.old lines.new)) }
    {
        let own = command.copy(self.alloc)?;
        let command = share_command(self.alloc, own)?;
        self.arrive(k, ending, &MpInput::Request { command }, lines)?;
        Ok(())
    }

    /// Runs one step at one replica, ends it as `ending` says, and appends its lines.
    fn add_single(
        &mut self,
        ending: MpEnding,
        single: &Single,
        lines: &mut MpLines,
    ) -> Result<(), NoMemory>
        requires fits { FitsSingle single.now }
        requires room { IsOpen self.old.network }
        ensures { OnOk result (WhereHolds self.old (λ v.
            WorldLeadsOn (moments.single (ending_of ending) v (single_of single.now)) self.new lines.old lines.new)) }
    {
        match single {
            Single::Request {
                replica,
                command,
                ..
            } => Ok(self.request(ending, *replica, command, lines)?),
            Single::Go { number, .. } => Ok(self.go(ending, *number, lines)?),
            Single::Again { number, .. } => Ok(self.come(ending, *number, lines)?),
            Single::Tick { replica, .. } => {
                Ok(self.arrive(*replica, ending, &MpInput::Tick, lines)?)
            }
            Single::Suspect { replica, .. } => {
                Ok(self.arrive(*replica, ending, &MpInput::Lead, lines)?)
            }
            // Bytes from no replica have no effect here.
            Single::Junk { .. } => Ok(()),
        }
    }

    /// Runs one step at one replica and ends it as `ending` says. Returns its lines.
    pub(crate) fn do_single(
        &mut self,
        ending: MpEnding,
        single: &Single,
    ) -> Result<MpLines, NoMemory>
        requires fits { FitsSingle single.now }
        requires room { IsOpen self.old.network }
        ensures { IfOk result (λ lines. WhereHolds self.old (λ v. Leads (moments.single (ending_of ending) v (single_of single.now)) self.new lines)) }
    {
        let mut lines = self.no_lines();
        self.add_single(ending, single, &mut lines)?;
        Ok(lines)
    }

    /// Delivers these messages in order, each as a moment of its own, until the world is full.
    fn deliver_each(&mut self, due: &[u64]) -> Result<MpLines, NoMemory>
        ensures { IfOk result (λ lines. WhereHolds self.old (λ v. (reading : ℕ) → Leads (each_gone reading due.now v) self.new lines)) }
    {
        let mut lines = self.no_lines();
        for number in due {
            if self.network.is_full() {
                return Ok(lines);
            }
            self.go(MpEnding::Whole, *number, &mut lines)?;
        }
        Ok(lines)
    }

    /// Delivers all messages that are fresh now and whose receivers are up.
    pub(crate) fn settle(&mut self) -> Result<MpLines, NoMemory>
        ensures { IfOk result (λ lines. WhereHolds self.old (λ v. (reading : ℕ) → Leads (moments.act v (Act.Settle reading)) self.new lines)) }
    {
        let old_ups = mem::replace(&mut self.spare_ups, Vec::new(self.alloc));
        let old_due = mem::replace(&mut self.spare_due, Vec::new(self.alloc));
        let ups = self.sites.ups(old_ups)?;
        let due = self.network.due(&ups, old_due)?;
        let lines = self.deliver_each(&due)?;
        self.spare_ups = ups;
        self.spare_due = due;
        Ok(lines)
    }
}
