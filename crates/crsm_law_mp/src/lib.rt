//! Safety of every possible run of the store with a leader (Multi-Paxos): executed lists agree, answers are right, and
//! real time is kept. For each slot the replicas are in one instance of single-decree Paxos (`Slots`), and every step
//! of a replica preserves that (`Happenings`).
#![tactic(auto)]

ghost use Rattle.crsm_law_mp.specs.Slots.{SlotsAgree};
ghost use Rattle.crsm_law_mp.specs.Happenings.{MomentsKeepSound};
ghost use Rattle.crsm_mpspec.specs.Safe.{IsSafe};

/// If the replicas' states are one Paxos instance for each slot, no two replicas know different values of a slot.
pub fn slots_agree()
    ensures { SlotsAgree }
{}

/// Each moment preserves that the replicas and their messages are one Paxos instance for each slot, and that each
/// command proposed has a line of its submission.
pub fn moments_keep_sound()
    ensures { MomentsKeepSound }
{}

/// Every run of 1 to 15 replicas is safe, over every list of possible acts, with stops, losses, repeats and rival
/// leaders: all executed lists are prefixes of one, each answer is the store's, a client is informed that its command
/// was dropped only if another value was chosen, and a command first submitted after an answer has a later place.
pub fn leader_runs_are_safe()
    ensures { IsSafe }
{}
