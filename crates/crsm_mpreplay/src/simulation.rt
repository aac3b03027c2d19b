//! The world of a store with a leader as the simulation of a schedule.

ghost use Rattle.std.specs.Prelude.{◌≡◌, ◌++◌, OnOk};
ghost use Rattle.std.specs.Option.{option_map};
ghost use Rattle.crsm_mpworld.specs.Doing.{cause_of};
ghost use Rattle.crsm_mpreplay.specs.Causes.{cause_told};
ghost use Rattle.crsm_mpreplay.specs.Transcript.{lines_text};

use crate::print::push_line;
use crsm_base::{Bytes, NoMemory};
use crsm_mpspec::{MpBad, MpLines};
use crsm_mpworld::MpWorld;
use crsm_port_lines::Stop;
use crsm_schedule::Event;
use crsm_sim_schedule::{Cause, Simulation};
use crsm_text::{LineNumber, Page};
use std::alloc::Global;

/// Memory in bytes reserved for the text of a line; few lines are longer.
const LINE_ROOM: usize = 32;

/// Returns the cause for a reason of the world, or `None` for `NoMemory`. No event is refused for the reasons of bytes
/// and of groups, since such events are not supported here.
#[tactic(auto, unfolding(crate::specs::Causes::cause_told, crsm_mpworld::specs::Doing::cause_of))]
fn named_cause(bad: MpBad) -> Option<Cause>
    ensures { result ≡ option_map cause_told (cause_of bad) }
{
    match bad {
        MpBad::NotHere | MpBad::Mixed | MpBad::Forged => Some(Cause::NotHere),
        MpBad::Full { bytes } => Some(Cause::Full { bytes }),
        MpBad::NoSuchReplica => Some(Cause::NoSuchReplica),
        MpBad::NoSuchDatagram => Some(Cause::NoSuchDatagram),
        MpBad::Used => Some(Cause::Used),
        MpBad::Fresh => Some(Cause::Fresh),
        MpBad::IsDown => Some(Cause::IsDown),
        MpBad::IsUp => Some(Cause::IsUp),
        MpBad::TooFew => Some(Cause::TooFew),
        MpBad::NoMemory => None,
    }
}

/// Appends the text of the lines of a transcript; of the page only the memory is used. After an error the text is not
/// usable.
fn push_lines(text: &mut Bytes, page: &mut Page, at: u64, lines: &MpLines) -> Result<(), NoMemory>
    ensures { OnOk result (text.new ≡ text.old ++ lines_text at lines.now) }
{
    let room = lines.as_slice().len().saturating_mul(LINE_ROOM);
    text.reserve(room)?;
    page.clear();
    let number = LineNumber::new(at);
    for line in lines.as_slice() {
        push_line(text, page, &number, line)?;
    }
    page.flush(text)
}

/// A store with a leader that runs a schedule.
#[derive(Drop)]
pub(crate) struct LeaderRun {
    world: MpWorld,
    /// The page of the last lines: only its memory is used.
    page: Page,
}

impl Simulation for LeaderRun {
    ghost use Rattle.crsm_mpreplay.specs.Rules.{leader_rules, LeadsTo};

    ghost rules = { leader_rules };

    ghost stands = { λ run. LeadsTo run.world };

    fn begin(alloc: Global, replicas: u32, text: &mut Bytes) -> Result<LeaderRun, NoMemory> {
        let (world, lines) = MpWorld::new(alloc, replicas)?;
        let mut page = Page::new();
        push_lines(text, &mut page, 1, &lines)?;
        Ok(LeaderRun { world, page })
    }

    fn advance(&mut self, at: u64, event: &Event, text: &mut Bytes) -> Result<(), Stop<Cause>> {
        let lines = match self.world.step(event) {
            Ok(lines) => lines,
            Err(bad) => match named_cause(bad) {
                Some(cause) => return Err(Stop::Refused(cause)),
                None => return Err(Stop::NoMemory),
            },
        };
        let Ok(()) = push_lines(text, &mut self.page, at, &lines) else {
            return Err(Stop::NoMemory);
        };
        self.world.take_back(lines);
        Ok(())
    }

    fn push_finals(&self, text: &mut Bytes) -> Result<(), NoMemory> {
        let lines = self.world.finals()?;
        push_lines(text, &mut Page::new(), 0, &lines)
    }
}
