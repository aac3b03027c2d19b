//! The stages of a replay.

ghost use Rattle.std.specs.Prelude.{◌≡◌, ◌<◌, ◌≤◌, ℕ, IfOk, OnOk};
ghost use Rattle.crsm_text_sheet.specs.declared.line.SheetLine.{SheetLine};
ghost use Rattle.crsm_replica_rerun.specs.Stages.{IsOpen, IsOpenBehind, IsSound, IsSpelt, Leads, TakesLine};

use crate::boot::boot;
use crate::error::RerunError;
use crate::step::{come, nothing, suspect, tick};
use crsm_base::{Bodies, Members, NoMemory};
use crsm_core::{Batch, Core};
use crsm_text_sheet::SheetLine;
use std::alloc::Global;

/// The stage of a replay.
#[derive(Drop)]
pub(crate) enum SheetStage {
    /// Bodies of the log, before `open`.
    Finding { bodies: Bodies },
    /// The running replica, after `open`.
    Running { core: Box<Core> },
    /// Memory ran out in a step, of which half was made.
    Spent,
}

impl SheetStage {
    /// Replays a line of replica `me` of a cluster that began with `n`, and returns the output.
    pub(crate) fn take(
        &mut self,
        alloc: Global,
        me: u32,
        n: u32,
        line: &SheetLine,
    ) -> Result<Batch, RerunError>
        requires me_below { me < 15 }
        requires some { 1 ≤ n }
        requires few { n ≤ 15 }
        ensures takes { TakesLine me n self.old line.now result self.new }
        ensures opened { OnOk result (IsOpenBehind line.now self.new) }
        ensures leads { OnOk result (Leads self.old line.now self.new) }
        ensures sound { IsSound self.old → IsSound self.new }
        ensures spelt { IsSound self.old → IfOk result IsSpelt }
    {
        match line {
            SheetLine::Entry { bytes } => self.find(alloc, bytes.as_slice()),
            SheetLine::Open => self.open(alloc, me, n),
            SheetLine::In {
                reading,
                address,
                bytes,
            } => self.come(alloc, *reading, *address, bytes.as_slice()),
            SheetLine::Tick { reading } => self.tick(*reading),
            SheetLine::Suspect { reading, members } => self.suspect(alloc, *reading, members),
        }
    }

    /// Adds a body of the log.
    fn find(&mut self, alloc: Global, body: &[u8]) -> Result<Batch, RerunError>
        ensures takes { (me n : ℕ) → TakesLine me n self.old (SheetLine.Entry body.now) result self.new }
        ensures leads { OnOk result (Leads self.old (SheetLine.Entry body.now) self.new) }
        ensures sound { IsSound self.old → IsSound self.new }
        ensures spelt { IfOk result IsSpelt }
    {
        let SheetStage::Finding { bodies } = self else {
            return Err(RerunError::Misplaced);
        };
        bodies.push(body)?;
        Ok(nothing(alloc))
    }

    /// Boots replica `me` of a cluster that began with `n` on the bodies.
    fn open(&mut self, alloc: Global, me: u32, n: u32) -> Result<Batch, RerunError>
        requires me_below { me < 15 }
        requires some { 1 ≤ n }
        requires few { n ≤ 15 }
        ensures takes { TakesLine me n self.old SheetLine.Open result self.new }
        ensures leads { OnOk result (Leads self.old SheetLine.Open self.new) }
        ensures opened { OnOk result (IsOpen self.new) }
        ensures sound { IsSound self.old → IsSound self.new }
        ensures spelt { IfOk result IsSpelt }
    {
        let SheetStage::Finding { bodies } = &*self else {
            return Err(RerunError::Misplaced);
        };
        let booted = boot(alloc, me, n, bodies)?;
        *self = SheetStage::Running { core: booted.core };
        Ok(booted.batch)
    }

    /// Steps the replica on bytes from an address.
    fn come(
        &mut self,
        alloc: Global,
        reading: u64,
        address: u64,
        bytes: &[u8],
    ) -> Result<Batch, RerunError>
        ensures takes { (me n : ℕ) → TakesLine me n self.old (SheetLine.In reading address bytes.now) result self.new }
        ensures leads { OnOk result (Leads self.old (SheetLine.In reading address bytes.now) self.new) }
        ensures opened { OnOk result (IsOpen self.new) }
        ensures sound { IsSound self.old → IsSound self.new }
        ensures spelt { IsSound self.old → IfOk result IsSpelt }
    {
        let SheetStage::Running { core } = self else {
            return Err(RerunError::Misplaced);
        };
        match come(alloc, core, reading, address, bytes) {
            Ok(batch) => Ok(batch),
            Err(NoMemory) => {
                // Half a step was made.
                *self = SheetStage::Spent;
                Err(RerunError::NoMemory)
            }
        }
    }

    /// Steps the replica on a tick.
    fn tick(&mut self, reading: u64) -> Result<Batch, RerunError>
        ensures takes { (me n : ℕ) → TakesLine me n self.old (SheetLine.Tick reading) result self.new }
        ensures leads { OnOk result (Leads self.old (SheetLine.Tick reading) self.new) }
        ensures opened { OnOk result (IsOpen self.new) }
        ensures sound { IsSound self.old → IsSound self.new }
        ensures spelt { IsSound self.old → IfOk result IsSpelt }
    {
        let SheetStage::Running { core } = self else {
            return Err(RerunError::Misplaced);
        };
        match tick(core, reading) {
            Ok(batch) => Ok(batch),
            Err(NoMemory) => {
                // Half a step was made.
                *self = SheetStage::Spent;
                Err(RerunError::NoMemory)
            }
        }
    }

    /// Steps the replica on a suspicion.
    fn suspect(
        &mut self,
        alloc: Global,
        reading: u64,
        members: &Members,
    ) -> Result<Batch, RerunError>
        ensures takes { (me n : ℕ) → TakesLine me n self.old (SheetLine.Suspect reading members.now) result self.new }
        ensures leads { OnOk result (Leads self.old (SheetLine.Suspect reading members.now) self.new) }
        ensures opened { OnOk result (IsOpen self.new) }
        ensures sound { IsSound self.old → IsSound self.new }
        ensures spelt { IsSound self.old → IfOk result IsSpelt }
    {
        let SheetStage::Running { core } = self else {
            return Err(RerunError::Misplaced);
        };
        match suspect(alloc, core, reading, members) {
            Ok(batch) => Ok(batch),
            Err(NoMemory) => {
                // Half a step was made.
                *self = SheetStage::Spent;
                Err(RerunError::NoMemory)
            }
        }
    }
}
