//! Laws of the wanted inputs, for the crates above.

ghost use Rattle.std.specs.Prelude.{◌≡◌, ◌+◌, ◌++◌, ◌↔◌, ℕ, true, List};
ghost use Rattle.crsm_base.specs.Replicas.{can_be_members, has};
ghost use Rattle.crsm_spec.specs.Log.{Log, spec};
ghost use Rattle.crsm_spec.specs.Node.{Turn};
ghost use Rattle.crsm_spec.specs.Replica.{Replica};
ghost use Rattle.crsm_spec_process.specs.Turns.{replica_after};
ghost use Rattle.crsm_port.specs.Meaning.{Meaning};
ghost use Rattle.crsm_replica_io.specs.Input.{TakesInput};
ghost use Rattle.crsm_replica_io.specs.declared.input.WantedInput.{WantedInput};
ghost use Rattle.crsm_replica_io.specs.declared.input.ReceivedInput.{ReceivedInput};
ghost use Rattle.crsm_replica_detector.specs.Watching.{Watch, heard_at, watched};
ghost use Rattle.crsm_replica_detector.specs.Wishing.{wish};
ghost use Rattle.crsm_replica_detector.specs.Wished.{AreWished, CountsWished, Fulfils, chosen, empty_receives, watch_after, with_turn};
ghost use Rattle.crsm_shell.specs.Taking.{heard_in, turn_of};

/// States that a suspicion includes the replica itself, and that its replicas can be the members of the next epoch. It
/// runs no code.
pub fn suspicions_can_be_members()
    ensures can_be { (me n : ℕ) (w : Watch) (log : Log) (ms : List ℕ) → wish me n w log ≡ WantedInput.Suspect ms → can_be_members (spec n log) ms ≡ true }
    ensures own { (me n : ℕ) (w : Watch) (log : Log) (ms : List ℕ) → wish me n w log ≡ WantedInput.Suspect ms → has ms me ≡ true }
{}

/// States that taking a wanted input is such a turn, and that the port has counted an empty receive if a tick was taken
/// in place of a datagram. It runs no code.
pub fn inputs_are_wished()
    ensures fulfils { (what : WantedInput) (size : ℕ) (buffer : List ℕ) (p q : Meaning) (t : ReceivedInput) → TakesInput what size buffer p q (Ok t) → Fulfils what (turn_of buffer t) }
    ensures counted { (what : WantedInput) (size : ℕ) (buffer : List ℕ) (p q : Meaning) (t : ReceivedInput) → TakesInput what size buffer p q (Ok t) → CountsWished what (turn_of buffer t) p.empties q.empties }
{}

/// States that the detector's state after a turn that took the wanted input is that of the definitions. It runs no
/// code.
pub fn turns_are_watched()
    ensures { (w : Watch) (what : WantedInput) (t : Turn) (reading : ℕ) → Fulfils what t → with_turn t (heard_at (heard_in t) reading (chosen what w)) ≡ watched w (t, reading) }
{}

/// States that turns appended to others begin where those end. It runs no code.
pub fn turns_append()
    ensures wished { (w : Watch) (r : Replica) (ts us : List (Turn × ℕ)) → AreWished w r (ts ++ us) ↔ (AreWished w r ts × AreWished (watch_after w ts) (replica_after r ts) us) }
    ensures empty { (w : Watch) (r : Replica) (ts us : List (Turn × ℕ)) → empty_receives w r (ts ++ us) ≡ empty_receives w r ts + empty_receives (watch_after w ts) (replica_after r ts) us }
    ensures watch { (w : Watch) (ts us : List (Turn × ℕ)) → watch_after w (ts ++ us) ≡ watch_after (watch_after w ts) us }
    ensures replica { (r : Replica) (ts us : List (Turn × ℕ)) → replica_after r (ts ++ us) ≡ replica_after (replica_after r ts) us }
{}
