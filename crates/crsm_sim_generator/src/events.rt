//! Random events of each kind.

ghost use Rattle.std.specs.Prelude.{◌≡◌, ◌≤◌, ℕ, IfOk, IfSome, OnOk};
ghost use Rattle.crsm_base.specs.Members.{IsMembers};
ghost use Rattle.crsm_schedule.specs.Grammar.{FitsEvent};
ghost use Rattle.crsm_sim_generator.specs.Drawing as on_paper;
ghost use Rattle.crsm_sim_generator.specs.Drawing.{asked};
ghost use Rattle.crsm_sim_generator.specs.View.{View};

use crate::choice::{least_down, least_up, oldest_fresh, up_replicas};
use crate::drawing::Drawing;
use crate::kind::{EventHead, EventKind};
use crate::look::Look;
use crsm_base::{Members, NoMemory, majority};
use crsm_schedule::{Event, Single};
use std::alloc::Global;

/// Returns a step of one replica as an event.
fn one(single: Single) -> Event
    ensures { result ≡ Event.One single }
{
    Event::One { single }
}

/// Returns a tick at a replica.
fn tick(replica: u32, reading: u64) -> Event
    ensures drawn { result ≡ Event.One (Single.Tick replica reading) }
    ensures fits { FitsEvent result }
{
    let replica = u64::from(replica);
    one(Single::Tick { replica, reading })
}

/// Returns the event in place of one that is not possible.
#[tactic(auto, unfolding(crate::specs::Drawing::otherwise))]
pub(crate) fn otherwise<L: Look>(world: &L, reading: u64) -> Event
    ensures drawn { (v : View) → L.shows world.now v → result ≡ on_paper.otherwise v reading }
    ensures fits { FitsEvent result }
{
    match least_up(world) {
        Some(replica) => tick(replica, reading),
        None => Event::Start { replica: 0 },
    }
}

/// Returns a tick at the replica, or `None` if it is down.
#[tactic(auto, unfolding(crate::specs::Drawing::asked, crate::specs::Drawing::if_possible))]
fn ticks<L: Look>(replica: u32, reading: u64, world: &L) -> Option<Event>
    ensures drawn { (n : ℕ) (v : View) (s : Drawing) → L.shows world.now v → (result, s) ≡ asked EventKind.Tick n v replica reading s }
    ensures fits { IfSome result FitsEvent }
{
    if !world.is_up(replica) {
        return None;
    }
    Some(tick(replica, reading))
}

/// Returns a crash of the replica, or `None` if it is down.
#[tactic(auto, unfolding(crate::specs::Drawing::asked, crate::specs::Drawing::if_possible))]
fn crash<L: Look>(replica: u32, world: &L) -> Option<Event>
    ensures drawn { (n reading : ℕ) (v : View) (s : Drawing) → L.shows world.now v → (result, s) ≡ asked EventKind.Crash n v replica reading s }
    ensures fits { IfSome result FitsEvent }
{
    if !world.is_up(replica) {
        return None;
    }
    let replica = u64::from(replica);
    Some(Event::Crash { replica })
}

/// Returns the boot of the least replica that is down, or `None` if all are up.
#[tactic(auto, unfolding(crate::specs::Drawing::asked))]
fn start<L: Look>(world: &L) -> Option<Event>
    ensures drawn { (n r reading : ℕ) (v : View) (s : Drawing) → L.shows world.now v → (result, s) ≡ asked EventKind.Start n v r reading s }
    ensures fits { IfSome result FitsEvent }
{
    let replica = u64::from(least_down(world)?);
    Some(Event::Start { replica })
}

/// Returns the members with these numbers, which ascend.
fn members_of(alloc: Global, numbers: &[u32]) -> Result<Members, NoMemory>
    ensures { IfOk result (λ members. (members ≡ numbers.now) × IsMembers members) }
{
    match Members::from_slice(alloc, numbers) {
        Ok(members) => Ok(members),
        Err(_) => Err(NoMemory),
    }
}

/// Returns an event in which a replica suspects all that are down, or `None` if it is not possible.
#[tactic(auto, unfolding(crate::specs::Drawing::asked, crate::specs::Drawing::if_possible))]
fn suspect<L: Look>(
    alloc: Global,
    n: u32,
    replica: u32,
    reading: u64,
    world: &L,
) -> Result<Option<Event>, NoMemory>
    requires some { 1 ≤ n }
    requires most { n ≤ 15 }
    ensures drawn { (v : View) (s : Drawing) → L.shows world.now v → IfOk result (λ event. (event, s) ≡ asked EventKind.Suspect n v replica reading s) }
    ensures fits { IfOk result (λ event. IfSome event FitsEvent) }
{
    let ups = up_replicas(alloc, world)?;
    if !world.is_up(replica) || ups.len() < majority(n) as usize {
        return Ok(None);
    }
    let members = members_of(alloc, ups.as_slice())?;
    let replica = u64::from(replica);
    Ok(Some(one(Single::Suspect {
        replica,
        reading,
        members,
    })))
}

/// Returns the event that delivers all datagrams which can be delivered.
#[tactic(auto, unfolding(crate::specs::Drawing::asked))]
fn settle(reading: u64) -> Option<Event>
    ensures drawn { (n r : ℕ) (v : View) (s : Drawing) → (result, s) ≡ asked EventKind.Settle n v r reading s }
    ensures fits { IfSome result FitsEvent }
{
    Some(Event::Settle { reading })
}

/// Returns the delivery of the oldest fresh datagram, in a step that stops once its records are durable. `None` if
/// there is no such datagram.
#[tactic(auto, unfolding(crate::specs::Drawing::asked))]
fn cut<L: Look>(reading: u64, world: &L) -> Option<Event>
    ensures drawn { (n r : ℕ) (v : View) (s : Drawing) → L.shows world.now v → (result, s) ≡ asked EventKind.Cut n v r reading s }
    ensures fits { IfSome result FitsEvent }
{
    let number = oldest_fresh(world)?;
    let single = Single::Go { number, reading };
    Some(Event::CutKept { sends: 0, single })
}

impl Drawing {
    /// Draws a client's request to a replica. `None` if the replica is down.
    #[tactic(auto, unfolding(crate::specs::Drawing::asked, crate::specs::Drawing::if_possible))]
    fn request<L: Look>(
        &mut self,
        alloc: Global,
        replica: u32,
        reading: u64,
        world: &L,
    ) -> Result<Option<Event>, NoMemory>
        ensures drawn { (n : ℕ) (v : View) → L.shows world.now v → IfOk result (λ event. (event, self.new) ≡ asked EventKind.Request n v replica reading self.old) }
        ensures fits { IfOk result (λ event. IfSome event FitsEvent) }
    {
        let command = self.command(alloc)?;
        if !world.is_up(replica) {
            return Ok(None);
        }
        let replica = u64::from(replica);
        Ok(Some(one(Single::Request {
            replica,
            reading,
            command,
        })))
    }

    /// Draws the delivery of a datagram. `None` if there is none to deliver.
    #[tactic(auto, unfolding(crate::specs::Drawing::asked))]
    fn go<L: Look>(&mut self, reading: u64, world: &L) -> Option<Event>
        ensures drawn { (n r : ℕ) (v : View) → L.shows world.now v → (result, self.new) ≡ asked EventKind.Go n v r reading self.old }
        ensures fits { IfSome result FitsEvent }
    {
        let number = self.one_fresh(world, true)?;
        Some(one(Single::Go { number, reading }))
    }

    /// Draws a further delivery of a used datagram. `None` if there is none.
    #[tactic(auto, unfolding(crate::specs::Drawing::asked))]
    fn again<L: Look>(&mut self, reading: u64, world: &L) -> Option<Event>
        ensures drawn { (n r : ℕ) (v : View) → L.shows world.now v → (result, self.new) ≡ asked EventKind.Again n v r reading self.old }
        ensures fits { IfSome result FitsEvent }
    {
        let number = self.one_used(world)?;
        Some(one(Single::Again { number, reading }))
    }

    /// Draws the loss of a datagram. `None` if there is none to lose.
    #[tactic(auto, unfolding(crate::specs::Drawing::asked))]
    fn lose<L: Look>(&mut self, world: &L) -> Option<Event>
        ensures drawn { (n r reading : ℕ) (v : View) → L.shows world.now v → (result, self.new) ≡ asked EventKind.Lose n v r reading self.old }
        ensures fits { IfSome result FitsEvent }
    {
        let number = self.one_fresh(world, false)?;
        Some(Event::Lose { number })
    }

    /// Draws the event of the kind in `head`. `None` if there is nothing to choose from, or it is not possible.
    pub(crate) fn ask<L: Look>(
        &mut self,
        alloc: Global,
        n: u32,
        head: EventHead,
        world: &L,
    ) -> Result<Option<Event>, NoMemory>
        requires some { 1 ≤ n }
        requires most { n ≤ 15 }
        ensures drawn { (v : View) → L.shows world.now v → IfOk result (λ event. (event, self.new) ≡ asked head.kind n v head.replica head.reading self.old) }
        ensures fits { IfOk result (λ event. IfSome event FitsEvent) }
    {
        let replica = head.replica;
        let reading = head.reading;
        match head.kind {
            EventKind::Request => Ok(self.request(alloc, replica, reading, world)?),
            EventKind::Go => Ok(self.go(reading, world)),
            EventKind::Again => Ok(self.again(reading, world)),
            EventKind::Lose => Ok(self.lose(world)),
            EventKind::Tick => Ok(ticks(replica, reading, world)),
            EventKind::Crash => Ok(crash(replica, world)),
            EventKind::Start => Ok(start(world)),
            EventKind::Suspect => Ok(suspect(alloc, n, replica, reading, world)?),
            EventKind::Settle => Ok(settle(reading)),
            EventKind::Cut => Ok(cut(reading, world)),
        }
    }
}
