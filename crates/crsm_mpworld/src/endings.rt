//! Steps of replicas with each ending.

ghost use Rattle.std.specs.Prelude.{◌≡◌, Some, slice_get, IfOk};
ghost use Rattle.crsm_mpreplica.specs.Fitting.{FitsInput};
ghost use Rattle.crsm_mpspec.specs.Moments.{step_at};
ghost use Rattle.crsm_mpspec.specs.Step as steps;
ghost use Rattle.crsm_mpspec.specs.World as on_paper;
ghost use Rattle.crsm_mpworld.specs.Effects.{FitsEffects, Leaves, WhereSites, WhereUpIn, ending_of};
ghost use Rattle.crsm_mpworld.specs.Sites.{IsOne};
ghost use Rattle.crsm_mpworld.specs.declared.site.MpStep.{MpStep as StepOfMemory};

use crate::ending::{MpEffects, MpEnding};
use crate::site::MpStep;
use crate::sites::Sites;
use crsm_base::NoMemory;
use crsm_mpspec::MpInput;

impl Sites {
    /// Runs a whole step of a replica that is up.
    fn step_whole(
        &mut self,
        k: u32,
        input: &MpInput,
        from: u32,
        made: &mut MpStep,
    ) -> Result<MpEffects, NoMemory>
        requires fits { FitsInput input.now }
        requires there { IsOne self.old k }
        ensures leaves { IfOk result (λ effects. WhereUpIn self.old k (λ v r.
            Leaves (on_paper.whole_step v k (steps.step r input.now from)) v effects made.new self.new)) }
        ensures fits { IfOk result (λ effects. FitsEffects effects made.new) }
    {
        self.step(k, input, from, made)?;
        Ok(MpEffects::Whole { k })
    }

    /// Runs a step of a replica that is up, which stops once its records are durable and its first `sends` messages and
    /// replies are sent.
    fn step_kept(
        &mut self,
        k: u32,
        sends: u64,
        input: &MpInput,
        from: u32,
        made: &mut MpStep,
    ) -> Result<MpEffects, NoMemory>
        requires fits { FitsInput input.now }
        requires there { IsOne self.old k }
        ensures leaves { IfOk result (λ effects. WhereUpIn self.old k (λ v r.
            Leaves (on_paper.cut_step sends v k (steps.step r input.now from)) v effects made.new self.new)) }
        ensures fits { IfOk result (λ effects. FitsEffects effects made.new) }
    {
        self.step(k, input, from, made)?;
        self.crash(k);
        Ok(MpEffects::Cut { k, sends })
    }

    /// Takes a replica down with the content of its disk.
    pub(crate) fn go_down(&mut self, k: u32) -> MpEffects
        requires { IsOne self.old k }
        ensures leaves { WhereSites self.old (λ v. (p : on_paper.Site) (step : StepOfMemory) → slice_get v.sites k ≡ Some p →
            Leaves (on_paper.down v k) v result step self.new) }
        ensures fits { (step : StepOfMemory) → FitsEffects result step }
    {
        self.crash(k);
        MpEffects::Down { k }
    }

    /// Runs a step of replica `k` on an input, and ends it as `ending` says. A message comes from replica `from`.
    /// The output of the step replaces that in `made`. Nothing happens if the replica is down.
    pub(crate) fn arrive(
        &mut self,
        k: u64,
        ending: MpEnding,
        input: &MpInput,
        from: u32,
        made: &mut MpStep,
    ) -> Result<MpEffects, NoMemory>
        requires { FitsInput input.now }
        ensures leaves { IfOk result (λ effects. WhereSites self.old (λ v.
            Leaves (step_at (ending_of ending) v k input.now from) v effects made.new self.new)) }
        ensures fits { IfOk result (λ effects. FitsEffects effects made.new) }
    {
        let Some(k) = self.up(k) else {
            return Ok(MpEffects::Nothing);
        };
        match ending {
            MpEnding::Whole => Ok(self.step_whole(k, input, from, made)?),
            MpEnding::Kept { sends } => Ok(self.step_kept(k, sends, input, from, made)?),
            // Nothing of the step is left, so it is not run.
            MpEnding::Lost => Ok(self.go_down(k)),
        }
    }
}
