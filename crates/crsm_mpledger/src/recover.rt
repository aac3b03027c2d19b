//! Recovery of a ledger from the bodies of a log.

ghost use Rattle.std.specs.Prelude.{[], List, IfOk, OnOk};
ghost use Rattle.crsm_mpspec.specs.declared.rec.MpRec.{MpRec as Record};
ghost use Rattle.crsm_mpspec.specs.Log.{Log};
ghost use Rattle.crsm_mpspec.specs.Records.{SpeltBody};
ghost use Rattle.crsm_mpledger.specs.MpLedger.{GoesOn, MpLedgerStands, WhereLedger};
ghost use Rattle.crsm_mpledger.specs.Sound.{IsSound, AreBodies, AreOfALog, with_records};

use crate::ledger::MpLedger;
use crate::take_rec;
use crsm_base::{Bodies, NoMemory};
use std::alloc::Global;

impl MpLedger {
    /// Returns the ledger of these bodies, which must be those of a replica's own log. `NoMemory` if memory runs out.
    pub fn recover(alloc: Global, bodies: &Bodies) -> Result<MpLedger, NoMemory>
        requires { AreOfALog bodies.now }
        ensures { IfOk result (λ ledger. (log : Log) → AreBodies [] bodies.now log → IsSound log → MpLedgerStands ledger log) }
    {
        let mut ledger = MpLedger::new(alloc)?;
        ledger.make_room(bodies.len())?;
        for index in 0..bodies.len() {
            let Some(body) = bodies.get(index) else {
                unreachable!();
            };
            ledger.follow_body(alloc, body)?;
            ledger.forget_executions();
        }
        Ok(ledger)
    }

    /// Reserves memory for the records of `bodies` bodies: mostly a value that is accepted, and then that it is chosen.
    fn make_room(&mut self, bodies: usize) -> Result<(), NoMemory>
        ensures { WhereLedger self.old (λ log. MpLedgerStands self.new log) }
    {
        self.accepted.reserve(bodies / 2)?;
        self.chosen.reserve(bodies / 2)?;
        Ok(())
    }

    /// Applies the records of one body.
    fn follow_body(&mut self, alloc: Global, body: &[u8]) -> Result<(), NoMemory>
        requires { GoesOn self.old body.now }
        ensures { OnOk result (WhereLedger self.old (λ log. (recs : List Record) → SpeltBody recs body.now → IsSound (with_records log recs) →
            MpLedgerStands self.new (with_records log recs))) }
    {
        let mut rest = body;
        // A record has at least one byte: there are no more of them than bytes.
        for _taken in 0..body.len() {
            if rest.is_empty() {
                return Ok(());
            }
            let Some((rec, after)) = take_rec(alloc, rest)? else {
                unreachable!();
            };
            self.take(rec)?;
            rest = after;
        }
        Ok(())
    }
}
