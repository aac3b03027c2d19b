//! Unique decodability: each value has one encoding, and no encoding is a prefix of another of its kind.

ghost use Rattle.std.specs.Prelude.{◌≡◌, List, ℕ};
ghost use Rattle.crsm_base.specs.declared.Rec.{Rec};
ghost use Rattle.crsm_base.specs.Spelling.{FitsOption, FitsStamp, FitsVal, Spelt, SpeltAnswer, SpeltBallot, SpeltCommand, SpeltDecision, SpeltEntries, SpeltEntry, SpeltKey, SpeltMembers, SpeltOp, SpeltOutcome, SpeltReplica, SpeltStamp, SpeltU16, SpeltU32, SpeltU64, SpeltU8, SpeltVal, option_bytes, stamp_bytes, val_bytes};
ghost use Rattle.crsm_base.specs.Messages.{vote_bytes, FitsVote};
ghost use Rattle.crsm_base.specs.Records.{SpeltRec, SpeltBody};
ghost use Rattle.crsm_codec.specs.Readers.{OneSpelling};

/// States for each field and record that a value has one encoding, and that no encoding is a prefix of another. It runs
/// no code.
pub fn one_spelling_each()
    ensures u8_has_one { OneSpelling SpeltU8 }
    ensures u16_has_one { OneSpelling SpeltU16 }
    ensures u32_has_one { OneSpelling SpeltU32 }
    ensures u64_has_one { OneSpelling SpeltU64 }
    ensures replica_has_one { OneSpelling SpeltReplica }
    ensures stamp_has_one { OneSpelling SpeltStamp }
    ensures option_stamp_has_one { OneSpelling (Spelt (option_bytes stamp_bytes) (FitsOption FitsStamp)) }
    ensures ballot_has_one { OneSpelling SpeltBallot }
    ensures key_has_one { OneSpelling SpeltKey }
    ensures val_has_one { OneSpelling SpeltVal }
    ensures option_val_has_one { OneSpelling (Spelt (option_bytes val_bytes) (FitsOption FitsVal)) }
    ensures op_has_one { OneSpelling SpeltOp }
    ensures command_has_one { OneSpelling SpeltCommand }
    ensures entry_has_one { OneSpelling SpeltEntry }
    ensures entries_has_one { OneSpelling SpeltEntries }
    ensures members_has_one { OneSpelling SpeltMembers }
    ensures decision_has_one { OneSpelling SpeltDecision }
    ensures option_vote_has_one { OneSpelling (Spelt (option_bytes vote_bytes) (FitsOption FitsVote)) }
    ensures answer_has_one { OneSpelling SpeltAnswer }
    ensures outcome_has_one { OneSpelling SpeltOutcome }
    ensures rec_has_one { OneSpelling SpeltRec }
    ensures body_has_one { (a b : List Rec) (s : List ℕ) → SpeltBody a s → SpeltBody b s → a ≡ b }
{}
