//! Recovery of a ledger from the bodies of a log.

ghost use Rattle.std.specs.Prelude.{◌≡◌, ◌<◌, ◌≤◌, ℕ, [], List, length, IfOk, IfErr};
ghost use Rattle.crsm_base.specs.declared.Rec.{Rec};
ghost use Rattle.crsm_base.specs.RecordReading.{rec_at};
ghost use Rattle.crsm_base.specs.Records.{FitsRec};
ghost use Rattle.crsm_ledger.specs.Ledger.{LedgerStands};
ghost use Rattle.crsm_ledger.specs.Recovered.{AreKept, IfBadLog, IsBadAt, TakesBody, TakesRecord};
ghost use Rattle.crsm_ledger.specs.Taken.{IsAtHand, IsNext, IsRefused, IsTail};

use crate::error::LedgerError;
use crate::ledger::{Ledger, kind_of};
use crate::taken::Remaining;
use crsm_base::{Bodies, Rec};
use crsm_codec::read_recs;
use crsm_text_fields::take_rec;
use std::alloc::Global;

impl Ledger {
    /// Returns the ledger of a log with these bodies, of replica `me` in a cluster that began with `n` replicas.
    /// `BadLog` names the first body that is not a list of records (`why` 0) or has a record that does not fit (`why`
    /// the kind of the first such record). `NoMemory` if memory runs out.
    pub fn recover(alloc: Global, me: u32, n: u32, bodies: &Bodies) -> Result<Ledger, LedgerError>
        requires me_below { me < 15 }
        requires some { 1 ≤ n }
        requires few { n ≤ 15 }
        ensures whole { IfOk result (λ ledger. (log : List Rec) × AreKept me n [] bodies.now log × LedgerStands me n ledger log) }
        ensures bad { IfErr result (λ e. IfBadLog e (IsBadAt me n bodies.now)) }
    {
        let mut ledger = Ledger::new(alloc, me, n)?;
        ledger.take_bodies(bodies)?;
        Ok(ledger)
    }

    /// Applies the records of all bodies of a log to the ledger of an empty one.
    fn take_bodies(&mut self, bodies: &Bodies) -> Result<(), LedgerError>
        ensures whole { (me n : ℕ) → LedgerStands me n self.old [] → IfOk result (λ _. (log : List Rec) × AreKept me n [] bodies.now log × LedgerStands me n self.new log) }
        ensures bad { (me n : ℕ) → LedgerStands me n self.old [] → IfErr result (λ e. IfBadLog e (IsBadAt me n bodies.now)) }
    {
        let mut next = Remaining {
            rest: &[],
            accepted: &[],
            tail: &[],
        };
        for index in 0..bodies.len() {
            let Some(body) = bodies.get(index) else {
                unreachable!();
            };
            match self.take_body(index as u64, next.accepted, next.tail, body) {
                Ok(behind) => next = behind,
                Err(error) => return Err(error),
            }
        }
        Ok(())
    }

    fn take_body<'a>(
        &mut self,
        entry: u64,
        accepted: &'a [u8],
        tail: &'a [u8],
        body: &'a [u8],
    ) -> Result<Remaining<'a>, LedgerError>
        requires accepted { IsAtHand accepted.now self.old.accepted }
        requires tail { IsTail tail.now self.old.known }
        ensures taken { TakesBody entry body.now self.old result self.new }
        ensures accepted { IfOk result (λ next. IsAtHand next.accepted.now self.new.accepted) }
        ensures tail { IfOk result (λ next. IsTail next.tail.now self.new.known) }
    {
        if body.is_empty() {
            return Err(LedgerError::BadLog { entry, why: 0 });
        }
        let mut next = Remaining {
            rest: body,
            accepted,
            tail,
        };
        while !next.rest.is_empty() {
            match self.take_one(entry, body, next.accepted, next.tail, next.rest) {
                Ok(behind) => next = behind,
                Err(error) => return Err(error),
            }
        }
        Ok(next)
    }

    /// Applies the next record of a body, and returns the bytes after it.
    fn take_one<'a>(
        &mut self,
        entry: u64,
        body: &[u8],
        accepted: &'a [u8],
        tail: &'a [u8],
        bytes: &'a [u8],
    ) -> Result<Remaining<'a>, LedgerError>
        requires some { 0 < length bytes.now }
        requires accepted { IsAtHand accepted.now self.old.accepted }
        requires tail { IsTail tail.now self.old.known }
        ensures taken { IfOk result (λ next. IsNext (rec_at bytes.now) next.accepted.now next.tail.now next.rest.now self.old self.new) }
        ensures bad { IfErr result (IsRefused entry body.now bytes.now self.old) }
    {
        if let Some(next) = self.take_next(accepted, tail, bytes)? {
            return Ok(next);
        }
        let Some((rec, rest)) = take_rec(self.alloc, bytes)? else {
            return Err(LedgerError::BadLog { entry, why: 0 });
        };
        if let Err(error) = self.take_record(entry, rec) {
            // A body that is not a list of records is reported before a record that does not fit.
            return match read_recs(self.alloc, body)? {
                Some(_) => Err(error),
                None => Err(LedgerError::BadLog { entry, why: 0 }),
            };
        }
        Ok(Remaining {
            rest,
            accepted: &[],
            tail: &[],
        })
    }

    fn take_record(&mut self, entry: u64, rec: Rec) -> Result<(), LedgerError>
        requires { FitsRec rec }
        ensures { TakesRecord entry rec self.old result self.new }
    {
        if !self.admits(&rec) {
            let why = kind_of(&rec);
            drop(rec);
            return Err(LedgerError::BadLog { entry, why });
        }
        self.follow(rec)?;
        Ok(())
    }
}
