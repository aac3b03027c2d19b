//! The generator of a run's events.

ghost use Rattle.std.specs.Prelude.{◌≡◌, ◌≤◌, IfOk, OnErr, OnOk};
ghost use Rattle.crsm_schedule.specs.Grammar.{FitsEvent};
ghost use Rattle.crsm_sim_generator.specs.Drawing.{begun, drawn_next};
ghost use Rattle.crsm_sim_generator.specs.View.{View};

use crate::drawing::Drawing;
use crate::events::otherwise;
use crate::look::Look;
use crsm_base::NoMemory;
use crsm_schedule::Event;
use std::alloc::Global;

/// A generator of events for a cluster. Its draws depend only on its seed and on the worlds that it is given.
#[derive(Clone, Copy)]
pub struct Generator {
    alloc: Global,
    pub(crate) replicas: u32,
    pub(crate) drawing: Drawing,
    ghost some: { 1 ≤ replicas },
    ghost most: { replicas ≤ 15 },
}

impl Generator {
    /// Returns a generator for `replicas` replicas, 1 to 15, with the seed `number`. Equal seeds draw equal events.
    pub fn new(alloc: Global, number: u64, replicas: u32) -> Generator
        requires some { 1 ≤ replicas }
        requires most { replicas ≤ 15 }
        ensures drawing { result.drawing ≡ begun number }
        ensures replicas { result.replicas ≡ replicas }
    {
        Generator {
            alloc,
            replicas,
            drawing: Drawing::new(number),
        }
    }

    /// Draws the next event in this world. The event is possible if the world has exactly these replicas and is not
    /// full. `NoMemory` if memory runs out; nothing has changed then.
    #[tactic(auto, unfolding(crate::specs::Drawing::drawn_next))]
    pub fn next<L: Look>(&mut self, world: &L) -> Result<Event, NoMemory>
        ensures event { (v : View) → L.shows world.now v → IfOk result (λ event. event ≡ (drawn_next self.old.replicas v self.old.drawing).0) }
        ensures state { (v : View) → L.shows world.now v → OnOk result (self.new.drawing ≡ (drawn_next self.old.replicas v self.old.drawing).1) }
        ensures fits { IfOk result (λ event. FitsEvent event) }
        ensures replicas { self.new.replicas ≡ self.old.replicas }
        ensures err { OnErr result (self.new.drawing ≡ self.old.drawing) }
    {
        let mut drawing = self.drawing;
        let head = drawing.head(self.replicas);
        let asked = drawing.ask(self.alloc, self.replicas, head, world)?;
        self.drawing = drawing;
        match asked {
            Some(event) => Ok(event),
            None => Ok(otherwise(world, head.reading)),
        }
    }
}
