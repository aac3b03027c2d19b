//! Laws of executed lists, for the crates above.

ghost use Rattle.std.specs.Prelude.{◌≡◌, ◌∷◌, ℕ, List, Some, false, length, slice_get, take};
ghost use Rattle.crsm_mpspec.specs.declared.rec.MpRec.{MpRec};
ghost use Rattle.crsm_mpspec.specs.Log.{Log, executed, is_chosen};
ghost use Rattle.crsm_mpspec.specs.Types.{Value};
ghost use Rattle.crsm_mpledger.specs.Executed.{execution_after, executions_of};

/// States that the executed list only grows when the value of a further slot becomes known. It runs no code.
pub fn executed_slots_grow()
    ensures { (slot : ℕ) (v : Value) (log : Log) → is_chosen slot log ≡ false → take (length (executed log)) (executed (MpRec.Choose slot v ∷ log)) ≡ executed log }
{}

/// States that the execution of a slot is that of its value after the values before it. It runs no code.
pub fn executions_are_by_slot()
    ensures { (values : List Value) (slot : ℕ) (v : Value) → slice_get values slot ≡ Some v → slice_get (executions_of values) slot ≡ Some (execution_after (take slot values) v) }
{}
