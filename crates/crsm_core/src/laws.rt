//! The law of logs on which a core is booted.

ghost use Rattle.std.specs.Prelude.{ℕ, List, []};
ghost use Rattle.std.specs.List.{AllByRecursion};
ghost use Rattle.crsm_base.specs.Records.{FitsRec};
ghost use Rattle.crsm_ledger.specs.Recovered.{AreKept};
ghost use Rattle.crsm_replica_epoch.specs.EpochState.{EachFits};
ghost use Rattle.crsm_spec.specs.Log.{Log};

/// States that each record in the bodies of a log fits after those before it, and has an encoding. It runs no code.
pub fn found_logs_fit()
    ensures { (me n : ℕ) (bodies : List (List ℕ)) (log : Log) → AreKept me n [] bodies log → EachFits me n log × AllByRecursion FitsRec log }
{}
