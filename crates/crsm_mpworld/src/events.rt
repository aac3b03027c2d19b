//! The effect of each event.

ghost use Rattle.std.specs.Prelude.{◌≡◌, true, None, Some, slice_get, IfOk};
ghost use Rattle.crsm_mpspec.specs.Log.{Log};
ghost use Rattle.crsm_mpspec.specs.Moments.{act, start_at};
ghost use Rattle.crsm_mpspec.specs.Possible.{possible};
ghost use Rattle.crsm_mpspec.specs.World as on_paper;
ghost use Rattle.crsm_mpworld.specs.Doing.{act_of};
ghost use Rattle.crsm_mpworld.specs.Packets.{IsOpen};
ghost use Rattle.crsm_mpworld.specs.World.{Leads, WhereHolds};
ghost use Rattle.crsm_schedule.specs.Grammar.{FitsEvent};
ghost use Rattle.crsm_spec.specs.Acts.{Act};

use crate::ending::MpEnding;
use crate::outgoing::leave;
use crate::world::MpWorld;
use crsm_base::NoMemory;
use crsm_mpspec::{MpLine, MpLines};
use crsm_schedule::Event;

impl MpWorld {
    /// Marks a message as lost.
    fn lose(&mut self, number: u64) -> MpLines
        ensures { WhereHolds self.old (λ v. Leads (act v (Act.Lose number)) self.new result) }
    {
        let lines = self.no_lines();
        self.network.use_up(number);
        lines
    }

    /// Takes down a replica that is up.
    fn crash(&mut self, replica: u64) -> Result<MpLines, NoMemory>
        requires { IsOpen self.old.network }
        ensures { IfOk result (λ lines. WhereHolds self.old (λ v. on_paper.is_up_at v replica ≡ true → Leads (on_paper.down v replica) self.new lines)) }
    {
        let mut lines = self.no_lines();
        let Some(k) = self.sites.up(replica) else {
            return Ok(lines);
        };
        let effects = self.sites.go_down(k);
        leave(&mut self.network, effects, &mut self.made, &mut lines)?;
        Ok(lines)
    }

    /// Boots a replica that is down.
    pub(crate) fn start(&mut self, replica: u64) -> Result<MpLines, NoMemory>
        requires { IsOpen self.old.network }
        ensures { IfOk result (λ lines. WhereHolds self.old (λ v. (log : Log) → slice_get v.sites replica ≡ Some (on_paper.Site.Down log) →
            Leads (start_at v replica) self.new lines)) }
    {
        let mut lines = self.no_lines();
        let Some(k) = self.sites.down(replica) else {
            return Ok(lines);
        };
        let boot = self.sites.start(k)?;
        self.network.keep(boot.size);
        lines.push(MpLine::Boot {
            replica: k,
            count: boot.count,
        })?;
        Ok(lines)
    }

    /// Executes an event that is possible, and returns its lines.
    pub(crate) fn happen(&mut self, event: &Event) -> Result<MpLines, NoMemory>
        requires fits { FitsEvent event.now }
        requires room { IsOpen self.old.network }
        ensures { IfOk result (λ lines. WhereHolds self.old (λ v. possible v (act_of event.now) ≡ None → Leads (act v (act_of event.now)) self.new lines)) }
    {
        match event {
            Event::One { single } => Ok(self.do_single(MpEnding::Whole, single)?),
            Event::Lose { number } => Ok(self.lose(*number)),
            Event::Crash { replica } => Ok(self.crash(*replica)?),
            Event::Start { replica } => Ok(self.start(*replica)?),
            Event::Settle { .. } => Ok(self.settle()?),
            Event::CutLost { single } => Ok(self.do_single(MpEnding::Lost, single)?),
            Event::CutKept { sends, single } => {
                Ok(self.do_single(MpEnding::Kept { sends: *sends }, single)?)
            }
            // Groups of deliveries, and stops at a call of the device, are not supported here.
            Event::Batch { .. } => Ok(self.no_lines()),
            Event::CutLostBatch { .. } => Ok(self.no_lines()),
            Event::CutAt { .. } => Ok(self.no_lines()),
        }
    }
}
