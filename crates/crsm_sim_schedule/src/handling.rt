//! The lines of a schedule: the first begins a simulation, and each later one is an event of it.

ghost use Rattle.std.specs.Prelude.{◌≡◌, ◌+◌, None, IfOk, IfErr, OnOk, Option};
ghost use Rattle.crsm_schedule.specs.Grammar.{FitsEvent};
ghost use Rattle.crsm_sim_schedule.specs.Handled.{Advances, AdvancesTo, Halts, IsAfter, Stops, WhereRead};
ghost use Rattle.crsm_sim_schedule.specs.Schedules.{Schedule, line_count};
ghost use Rattle.crsm_sim_schedule.specs.State.{IsGood, StandsAt, count_of};

use crate::cause::Cause;
use crate::simulation::Simulation;
use crsm_base::Bytes;
use crsm_port_lines::{Handler, Stop};
use crsm_schedule::{Event, LineError, read_event, read_first};
use std::alloc::Global;

/// Executes the event that was read, and appends the text of its lines. `Unreadable` if a line had none.
fn do_event<S: Simulation>(
    run: &mut S,
    at: u64,
    read: &Result<Event, LineError>,
    text: &mut Bytes,
) -> Result<(), Stop<Cause>>
    requires { IfOk read.now (λ event. FitsEvent event) }
    ensures ok { WhereRead read.now (λ line. (s : Schedule) → IsAfter at s → S.rules.can_run s → S.stands run.old s
        → OnOk result (Advances S.rules (S.stands run.new) (Some s) line text.old text.new)) }
    ensures err { WhereRead read.now (λ line. (s : Schedule) → S.rules.can_run s → S.stands run.old s
        → IfErr result (λ stop. Halts S.rules s line text.old text.new stop)) }
{
    match read {
        Ok(event) => run.advance(at, event, text),
        Err(LineError::Unreadable) => Err(Stop::Refused(Cause::Unreadable)),
        Err(LineError::NoMemory) => Err(Stop::NoMemory),
    }
}

/// Parses the event of a line and executes it where it was parsed, since an event is large. Appends the text of its
/// lines. `Unreadable` if it has none.
fn read_and_do<S: Simulation>(
    alloc: Global,
    simulation: &mut S,
    at: u64,
    line: &[u8],
    text: &mut Bytes,
) -> Result<(), Stop<Cause>>
    ensures ok { (s : Schedule) → at ≡ line_count s + 1 → S.rules.can_run s → S.stands simulation.old s
        → OnOk result (Advances S.rules (S.stands simulation.new) (Some s) line.now text.old text.new) }
    ensures err { (s : Schedule) → S.rules.can_run s → S.stands simulation.old s
        → IfErr result (λ stop. Halts S.rules s line.now text.old text.new stop) }
{
    let read = read_event(alloc, line);
    do_event(simulation, at, &read, text)
}

/// Begins a simulation by the first line, and appends the text of its lines.
fn begin_by<S: Simulation>(alloc: Global, line: &[u8], text: &mut Bytes) -> Result<S, Stop<Cause>>
    ensures ok { IfOk result (λ made. Advances S.rules (S.stands made) None line.now text.old text.new) }
    ensures err { IfErr result (λ stop. Stops S.rules None line.now text.old text.new stop) }
{
    let Some(replicas) = read_first(line) else {
        return Err(Stop::Refused(Cause::Unreadable));
    };
    let Ok(simulation) = S::begin(alloc, replicas, text) else {
        text.clear();
        return Err(Stop::NoMemory);
    };
    Ok(simulation)
}

/// Executes the event of a line, and appends the text of its lines.
fn do_line<S: Simulation>(
    alloc: Global,
    simulation: &mut S,
    at: u64,
    line: &[u8],
    text: &mut Bytes,
) -> Result<(), Stop<Cause>>
    ensures ok { (s : Schedule) → at ≡ line_count s + 1 → S.rules.can_run s → S.stands simulation.old s
        → OnOk result (Advances S.rules (S.stands simulation.new) (Some s) line.now text.old text.new) }
    ensures err { (s : Schedule) → S.rules.can_run s → S.stands simulation.old s
        → IfErr result (λ stop. Stops S.rules (Some s) line.now text.old text.new stop) }
{
    match read_and_do(alloc, simulation, at, line, text) {
        Ok(()) => Ok(()),
        Err(Stop::Refused(cause)) => Err(Stop::Refused(cause)),
        Err(Stop::NoMemory) => {
            text.clear();
            Err(Stop::NoMemory)
        }
    }
}

/// Handles the first line. A new simulation is large, and the stack of the later lines needs no room for it.
#[inline(never)]
fn take_first<S: Simulation>(
    alloc: Global,
    held: &mut Option<S>,
    line: &[u8],
    text: &mut Bytes,
) -> Result<(), Stop<Cause>>
    ensures ok { OnOk result (AdvancesTo S.rules S.stands held.new None line.now text.old text.new) }
    ensures err { IfErr result (λ stop. Stops S.rules None line.now text.old text.new stop) }
{
    let begun = match begin_by(alloc, line, text) {
        Ok(begun) => begun,
        Err(stop) => return Err(stop),
    };
    *held = Some(begun);
    Ok(())
}

/// Handles a whole line, which is the first if there is no simulation yet.
fn take_line<S: Simulation>(
    alloc: Global,
    held: &mut Option<S>,
    at: u64,
    line: &[u8],
    text: &mut Bytes,
) -> Result<(), Stop<Cause>>
    ensures ok { (read : Option Schedule) → at ≡ count_of read + 1 → IsGood S.rules read → StandsAt S.stands held.old read
        → OnOk result (AdvancesTo S.rules S.stands held.new read line.now text.old text.new) }
    ensures err { (read : Option Schedule) → IsGood S.rules read → StandsAt S.stands held.old read
        → IfErr result (λ stop. Stops S.rules read line.now text.old text.new stop) }
{
    match held {
        Some(simulation) => do_line(alloc, simulation, at, line, text),
        None => take_first(alloc, held, line, text),
    }
}

/// The replay of a schedule: the simulation, once the first line has begun it.
#[derive(Drop)]
pub struct Replaying<S> {
    alloc: Global,
    simulation: Option<S>,
}

impl<S: Simulation> Replaying<S> {
    /// Returns a replay that has read nothing.
    pub fn new(alloc: Global) -> Replaying<S>
        ensures { result.simulation ≡ None }
    {
        Replaying {
            alloc,
            simulation: None,
        }
    }
}

impl<S: Simulation> Handler for Replaying<S> {
    type Refusal = Cause;

    ghost use Rattle.crsm_sim_schedule.specs.Replayed.{replayed};

    ghost handling = { λ _. replayed S.rules S.stands };

    fn line(&mut self, at: u64, line: &[u8], text: &mut Bytes) -> Result<(), Stop<Cause>> {
        take_line(self.alloc, &mut self.simulation, at, line, text)
    }

    fn end(&self, text: &mut Bytes) -> Result<(), Stop<Cause>> {
        let Some(simulation) = &self.simulation else {
            return Err(Stop::Refused(Cause::Unreadable));
        };
        let Ok(()) = simulation.push_finals(text) else {
            return Err(Stop::NoMemory);
        };
        Ok(())
    }
}
