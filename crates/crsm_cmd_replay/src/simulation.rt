//! The world of a cluster as the simulation of a schedule.

ghost use Rattle.std.specs.Prelude.{◌≡◌, ◌++◌, OnOk};
ghost use Rattle.std.specs.Option.{option_map};
ghost use Rattle.crsm_schedule.specs.Transcript.{lines_text};
ghost use Rattle.crsm_world.specs.Doing.{bad_of};
ghost use Rattle.crsm_cmd_replay.specs.Causes.{cause_of};

use crsm_base::{Bytes, Lines, NoMemory};
use crsm_port_lines::Stop;
use crsm_schedule::{Event, push_line};
use crsm_sim_schedule::{Cause, Simulation};
use crsm_world::{Bad, World};
use std::alloc::Global;

/// Memory in bytes reserved for the text of a line; few lines are longer.
const LINE_ROOM: usize = 96;

/// Returns the cause for a reason of the world, or `None` for `NoMemory`.
#[tactic(auto, unfolding(crate::specs::Causes::cause_of, crsm_world::specs::Doing::bad_of))]
fn named_cause(bad: Bad) -> Option<Cause>
    ensures { result ≡ option_map cause_of (bad_of bad) }
{
    match bad {
        Bad::Full { bytes } => Some(Cause::Full { bytes }),
        Bad::NoSuchReplica => Some(Cause::NoSuchReplica),
        Bad::NoSuchDatagram => Some(Cause::NoSuchDatagram),
        Bad::Used => Some(Cause::Used),
        Bad::Fresh => Some(Cause::Fresh),
        Bad::Mixed => Some(Cause::Mixed),
        Bad::IsDown => Some(Cause::IsDown),
        Bad::IsUp => Some(Cause::IsUp),
        Bad::TooFew => Some(Cause::TooFew),
        Bad::Forged => Some(Cause::Forged),
        Bad::NoMemory => None,
    }
}

/// Appends the text of the lines of a transcript. After an error the text is not usable.
fn push_lines(text: &mut Bytes, at: u64, lines: &Lines) -> Result<(), NoMemory>
    ensures { OnOk result (text.new ≡ text.old ++ lines_text at lines.now) }
{
    let room = lines.as_slice().len().saturating_mul(LINE_ROOM);
    text.reserve(room)?;
    for line in lines.as_slice() {
        push_line(text, at, line)?;
    }
    Ok(())
}

/// A cluster that runs a schedule.
#[derive(Drop)]
pub(crate) struct ClusterRun {
    world: World,
}

impl Simulation for ClusterRun {
    ghost use Rattle.crsm_cmd_replay.specs.Rules.{cluster_rules, LeadsTo};

    ghost rules = { cluster_rules };

    ghost stands = { λ run. LeadsTo run.world };

    fn begin(alloc: Global, replicas: u32, text: &mut Bytes) -> Result<ClusterRun, NoMemory> {
        let (world, lines) = World::new(alloc, replicas)?;
        push_lines(text, 1, &lines)?;
        Ok(ClusterRun { world })
    }

    fn advance(&mut self, at: u64, event: &Event, text: &mut Bytes) -> Result<(), Stop<Cause>> {
        let lines = match self.world.step(event) {
            Ok(lines) => lines,
            Err(bad) => match named_cause(bad) {
                Some(cause) => return Err(Stop::Refused(cause)),
                None => return Err(Stop::NoMemory),
            },
        };
        let Ok(()) = push_lines(text, at, &lines) else {
            return Err(Stop::NoMemory);
        };
        self.world.take_back(lines);
        Ok(())
    }

    fn push_finals(&self, text: &mut Bytes) -> Result<(), NoMemory> {
        let lines = self.world.finals()?;
        push_lines(text, 0, &lines)
    }
}
