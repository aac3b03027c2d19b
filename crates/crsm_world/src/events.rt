//! The effect of each event.

ghost use Rattle.std.specs.Prelude.{◌≡◌, true, None, IfOk};
ghost use Rattle.crsm_schedule.specs.Grammar.{FitsEvent};
ghost use Rattle.crsm_spec.specs.Moments.{act, start_at};
ghost use Rattle.crsm_spec.specs.Acts.{Act};
ghost use Rattle.crsm_spec.specs.Possible.{possible};
ghost use Rattle.crsm_spec.specs.World as on_paper;
ghost use Rattle.crsm_world.specs.Doing.{act_of};
ghost use Rattle.crsm_world.specs.Machines.{IsNotUpAt};
ghost use Rattle.crsm_world.specs.World.{Holds, Leads, WhereHolds};
ghost use Rattle.crsm_world.specs.Starting.{CanStart, IsReady};

use crate::ending::{Ending, StepStop};
use crate::outgoing::leave;
use crate::world::World;
use crsm_base::{Lines, NoMemory};
use crsm_schedule::Event;

impl World {
    /// Marks a datagram as lost.
    fn lose(&mut self, number: u64) -> Lines
        ensures { WhereHolds self.old (λ v. Leads (act v (Act.Lose number)) self.new result) }
    {
        self.network.use_up(number);
        Lines::new(self.alloc)
    }

    /// Takes down a replica that is up.
    fn crash(&mut self, replica: u64) -> Result<Lines, NoMemory>
        ensures { IfOk result (λ lines. WhereHolds self.old (λ v. on_paper.is_up_at v replica ≡ true → Leads (on_paper.down v replica) self.new lines)) }
    {
        let Some(k) = self.sites.up(replica) else {
            return Ok(Lines::new(self.alloc));
        };
        let effects = self.sites.go_down(k)?;
        let mut lines = Lines::new(self.alloc);
        leave(
            self.alloc,
            &mut self.network,
            self.sites.sent(),
            effects,
            &mut lines,
        )?;
        Ok(lines)
    }

    /// Boots a replica that is down, or the next new one.
    pub(crate) fn start(&mut self, replica: u64) -> Result<Lines, NoMemory>
        requires { IsNotUpAt self.old.sites replica }
        ensures { IfOk result (λ lines. WhereHolds self.old (λ v. CanStart v replica → Leads (start_at v replica) self.new lines)) }
    {
        let Some(boot) = self.sites.start(replica)? else {
            return Ok(Lines::new(self.alloc));
        };
        self.network.keep(boot.size)?;
        Ok(boot.lines)
    }

    /// Executes an event that is possible, and returns its lines.
    pub(crate) fn happen(&mut self, event: &Event) -> Result<Lines, NoMemory>
        requires fits { FitsEvent event.now }
        requires ready { IsReady event.now self.old.sites }
        ensures { IfOk result (λ lines. WhereHolds self.old (λ v. possible v (act_of event.now) ≡ None → Leads (act v (act_of event.now)) self.new lines)) }
    {
        match event {
            Event::One { single } => Ok(self.do_single(Ending::Whole, single)?),
            Event::Lose { number } => Ok(self.lose(*number)),
            Event::Crash { replica } => Ok(self.crash(*replica)?),
            Event::Start { replica } => Ok(self.start(*replica)?),
            Event::Settle { reading } => Ok(self.settle(*reading)?),
            Event::CutLost { single } => Ok(self.do_single(Ending::Lost, single)?),
            Event::CutKept { sends, single } => {
                Ok(self.do_single(Ending::Kept { sends: *sends }, single)?)
            }
            Event::Batch { reading, numbers } => {
                Ok(self.deliver_together(*reading, numbers.as_slice())?)
            }
            Event::CutLostBatch { reading, numbers } => {
                Ok(self.lose_together(*reading, numbers.as_slice())?)
            }
            Event::CutAt {
                calls,
                fill,
                single,
            } => {
                let stop = StepStop {
                    calls: *calls,
                    fill: *fill,
                };
                Ok(self.do_single(Ending::At { stop }, single)?)
            }
        }
    }
}
