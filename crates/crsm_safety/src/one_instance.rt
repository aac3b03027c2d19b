//! A single Paxos instance.

ghost use Rattle.std.specs.Prelude.{◌≡◌, ℕ, ◌+◌, ◌≤◌, List, Contains, ◌⊎◌, IsTrue, MatchOption, None, true, length, [], ◌∷◌};
ghost use Rattle.std.specs.Option.{ForSome};
ghost use Rattle.crsm_base.specs.declared.stamp.Ballot.{Ballot};
ghost use Rattle.crsm_base.specs.Order.{ballot_lt};
ghost use Rattle.crsm_spec.specs.Paxos.{PaxosStep, Instance, Answer, IsRun, IsChosen, IsGreatest, MayTake, after_step, after_steps, fresh, best_of, majority};
ghost use Rattle.crsm_spec.specs.Proposing.{Proposing, start_proposing, counts_answer, counts_vote, after_answer, after_p1b, after_p2b, value_proposed, makes_majority};
ghost use Rattle.crsm_spec.specs.InstanceLaws.{OneIsChosen};
ghost use Rattle.crsm_spec.specs.Following.{lowest, IsReached, IsUnused, IsUsed, IsOther, Follows};
ghost use Rattle.crsm_safety.specs.Laws.{HasPromisedLast, HasVoted, MayBecome, ProposesOwn, WherePromised, WhereVoted};

/// No two different decisions are chosen in one instance, whatever its replicas do.
pub fn choice<D>()
    ensures { (spec : List ℕ) → OneIsChosen D spec }
{}

/// A cluster of one replica can choose any decision, so the premises of `choice` can be met.
pub fn possible_choice<D>()
    ensures { (d : D) → (steps : List (PaxosStep D)) × IsRun (0 ∷ []) fresh steps × IsChosen (0 ∷ []) (after_steps fresh steps) d }
{}

/// A chosen decision was some proposer's own value.
pub fn own_value<D>()
    ensures { (spec : List ℕ) (steps : List (PaxosStep D)) (d : D) → IsRun spec fresh steps → IsChosen spec (after_steps fresh steps) d → ProposesOwn steps d }
{}

/// The answer that counts is the decision accepted in the greatest ballot, named by the least replica.
pub fn best_answer<D>()
    ensures { (answers : List (Answer D)) → MatchOption (best_of answers) ((x : Answer D) → Contains answers x → x.accepted ≡ None) (λ f. IsGreatest answers f) }
{}

/// An acceptor that promises the same ballot again repeats its answer, unless that ballot has proposed a value.
pub fn repeated_answer<D>()
    ensures { (spec : List ℕ) (s : Instance D) (r : ℕ) → IsReached spec s → IsTrue (ballot_lt lowest (s.acceptor r).promised) → HasPromisedLast s r ⊎ IsUsed s (s.acceptor r).promised }
{}

/// The decision that an acceptor has accepted is one that it voted for.
pub fn held_vote<D>()
    ensures { (spec : List ℕ) (s : Instance D) (r : ℕ) → IsReached spec s → ForSome (s.acceptor r).accepted (λ held. HasVoted s r held.0 held.1) }
{}

/// An allowed step leads to a reachable instance, in which chosen decisions stay chosen.
pub fn one_more_step<D>()
    ensures reached { (spec : List ℕ) (s : Instance D) (e : PaxosStep D) → IsReached spec s → MayTake spec s e → IsReached spec (after_step s e) }
    ensures chosen { (spec : List ℕ) (s : Instance D) (e : PaxosStep D) (d : D) → IsChosen spec s d → IsChosen spec (after_step s e) d }
{}

/// A proposer's actions are allowed steps, if each answer that it counted was given by an acceptor of the Spec and no
/// other proposer uses its ballot.
pub fn proposer<D>()
    ensures starts { (spec : List ℕ) (s : Instance D) (b : Ballot) (own : D) → IsUnused s b → Follows spec s (start_proposing b own (length spec)) }

    // Steps of other replicas leave the proposer's state valid.
    ensures others { (spec : List ℕ) (s : Instance D) (p : Proposing D) (e : PaxosStep D) → IsOther e p.ballot → Follows spec s p → Follows spec (after_step s e) p }

    // An answer before a majority is counted.
    ensures waits { WherePromised D (λ spec s p from b accepted. (after_p1b p from b accepted).has_proposed ≡ p.has_proposed → Follows spec s (after_p1b p from b accepted)) }

    // The answer that completes a majority is a step that proposes.
    ensures proposes { WherePromised D (λ spec s p from b accepted. counts_answer p from b ≡ true → majority p.size ≤ length p.received + 1 → MayBecome spec s p (after_answer p from accepted)) }

    // A vote is counted.
    ensures votes { WhereVoted D (λ spec s p from b d. Follows spec s (after_p2b p from b)) }

    // The vote that completes a majority makes the proposed value chosen.
    ensures chooses { WhereVoted D (λ spec s p from b d. counts_vote p from b ≡ true → makes_majority p ≡ true → IsChosen spec s (value_proposed p)) }
{}
