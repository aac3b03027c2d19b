//! The run of generated events.

ghost use Rattle.std.specs.Prelude.{◌≡◌, ◌≤◌, ◌+◌, ◌-◌, ◌^◌, ℕ, IfErr, IfOk, List, Ok, OnOk};
ghost use Rattle.crsm_spec.specs.Acts.{Act};
ghost use Rattle.crsm_spec.specs.World as on_paper;
ghost use Rattle.crsm_cmd_soak.specs.Running.{Begins, CanGoOn, HasRun, StepsOn};
ghost use Rattle.crsm_cmd_soak.specs.Soak.{IsBelow};
ghost use Rattle.crsm_world.specs.Laws.{HasDone};
ghost use Rattle.crsm_world.specs.World.{WorldStands};

use crate::summary::Summary;
use crsm_base::{Lines, NoMemory};
use crsm_law_draws::drawn_runs_are_possible;
use crsm_sim_generator::Generator;
use crsm_world::{Bad, World};
use std::alloc::Global;

/// Returns the lines of an event that was not refused.
fn unless_refused(stepped: Result<Lines, Bad>) -> Result<Lines, NoMemory>
    requires { IfErr stepped (λ bad. bad ≡ Bad.NoMemory) }
    ensures { IfOk result (λ lines. stepped ≡ Ok lines) }
{
    match stepped {
        Ok(lines) => Ok(lines),
        Err(bad) => {
            prove!(bad == Bad::NoMemory);
            Err(NoMemory)
        }
    }
}

/// The state of a run: its generator, its world and its summary.
#[derive(Drop)]
pub(crate) struct SoakRun {
    pub world: World,
    pub generator: Generator,
    pub summary: Summary,
}

impl SoakRun {
    /// Returns the run once the replicas have booted.
    fn begin(alloc: Global, number: u64, n: u32) -> Result<SoakRun, NoMemory>
        requires some { 1 ≤ n }
        requires most { n ≤ 15 }
        ensures begins { IfOk result (λ run. Begins run number n) }
        ensures below { IfOk result (λ run. IsBelow 1 run.summary) }
    {
        let (mut world, lines) = World::new(alloc, n)?;
        let summary = Summary::new(lines.as_slice());
        world.take_back(lines);
        Ok(SoakRun {
            world,
            generator: Generator::new(alloc, number, n),
            summary,
        })
    }

    /// Generates an event and executes it. The event is possible, so it is not refused.
    fn step(&mut self) -> Result<(), NoMemory>
        requires goes_on { CanGoOn self.old }
        requires room { IsBelow (2 ^ 64 - 1) self.old.summary }
        ensures steps { (v : on_paper.World) (n : ℕ) (acts : List Act) → WorldStands self.old.world v → HasDone self.old.world n acts → OnOk result (StepsOn v n acts self.old self.new) }
        ensures below { (n : ℕ) → IsBelow n self.old.summary → OnOk result (IsBelow (n + 1) self.new.summary) }
    {
        let event = self.generator.next(&self.world)?;
        let stepped = self.world.step(&event);
        drop(event);
        let lines = unless_refused(stepped)?;
        self.summary.add(lines.as_slice());
        self.world.take_back(lines);
        Ok(())
    }
}

/// Runs up to `steps` generated events: it ends early if the world is full. `NoMemory` if memory runs out.
pub(crate) fn run_all(alloc: Global, number: u64, n: u32, steps: u64) -> Result<SoakRun, NoMemory>
    requires some { 1 ≤ n }
    requires most { n ≤ 15 }
    ensures { IfOk result (λ run. HasRun run number n steps) }
{
    drawn_runs_are_possible();
    let mut run = SoakRun::begin(alloc, number, n)?;
    for _ in 0..steps {
        if run.world.is_full() {
            return Ok(run);
        }
        run.step()?;
    }
    Ok(run)
}
