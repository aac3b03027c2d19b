//! The sequential store with its contract: one command at a time, each executed at most once.

ghost use Rattle.std.specs.Prelude.{◌≡◌, IfOk, IfSome, OnErr, OnOk, length};
ghost use Rattle.crsm_base.specs.Store.{no_rows, apply, serve, client_row, done, operate};
ghost use Rattle.crsm_kv.specs.Clients.{IsPlaceOf};

use crate::clients::{self, Clients, Kept};
use crate::keys::{self, Keys};
use crsm_base::{Answer, Command, MAX_CLIENTS, NoMemory};
use indexmap::IndexMap;
use std::alloc::Global;
use std::collections::BTreeMap;
use std::marker::Model;

/// The sequential store: the keys with their values, and the last command of each client in first-seen order. A
/// contract sees the two as lists of rows.
pub struct Store {
    alloc: Global,
    keys: Keys,
    clients: Clients,
}

// Written by hand, it is one call for the crates above, which would prove a derived one again.
impl Drop for Store {
    fn drop(self) {
        let Store {
            alloc: _,
            keys: _,
            clients: _,
        } = self;
    }
}

impl Model for Store {
    ghost use Rattle.crsm_base.specs.Store.{Rows};
    ghost use Rattle.crsm_kv.specs.Clients.{clients_of};

    ghost Value = { Rows };

    ghost view = { λ s. record { keys = s.keys.entries; clients = clients_of s.clients.entries } };
}

impl Store {
    #[tactic(auto, unfolding(crsm_base::specs::Store::no_rows, crate::specs::Clients::clients_of))]
    /// Returns a store without keys and clients. `NoMemory` if memory runs out.
    pub fn new(alloc: Global) -> Result<Store, NoMemory>
        ensures { IfOk result (λ s. s ≡ no_rows) }
    {
        Ok(Store {
            alloc,
            keys: BTreeMap::new(alloc),
            clients: IndexMap::new(alloc),
        })
    }

    #[tactic(auto, unfolding(crsm_base::specs::Store::apply, crsm_base::specs::Store::serve))]
    /// Executes the command and returns its answer. A command with its client's last number is not executed again: the
    /// recorded answer is returned. A lower number is answered by `Stale`, a new client in a full store by `NoRoom`.
    /// `NoMemory` if memory runs out; the store is then unchanged.
    pub fn apply(&mut self, command: &Command) -> Result<Answer, NoMemory>
        ensures done { IfOk result (λ answer. (self.new, answer) ≡ apply self.old command.now) }
        ensures err { OnErr result (self.new ≡ self.old) }
    {
        let place = match clients::last_of(&self.clients, command.client) {
            Some((_, kept)) if command.number == kept.number => {
                return kept.answer.copy(self.alloc);
            }
            Some((_, kept)) if command.number < kept.number => {
                return Ok(Answer::Stale(kept.number));
            }
            Some((place, _)) => Some(place),
            None if clients::count(&self.clients) >= MAX_CLIENTS as usize => {
                return Ok(Answer::NoRoom);
            }
            None => None,
        };
        self.execute(place, command)
    }

    #[tactic(auto, unfolding(crsm_base::specs::Store::done))]
    /// Executes the command of a client whose row stands at this place, or that is new and has room, and records its
    /// answer. `NoMemory` changes nothing.
    fn execute(&mut self, place: Option<usize>, command: &Command) -> Result<Answer, NoMemory>
        requires { IfSome place (IsPlaceOf command.now.client self.old.clients) }
        ensures done { IfOk result (λ answer. (self.new, answer) ≡ done self.old command.now (operate self.old.keys command.now.op)) }
        ensures err { OnErr result (self.new ≡ self.old) }
    {
        // The client's row gets its room before a key changes, and an answer whose copy takes memory changed no key: so
        // nothing has to be undone.
        clients::reserve_for(&mut self.clients, place)?;
        let told = keys::execute(self.alloc, &mut self.keys, &command.op)?;
        let kept = Kept {
            number: command.number,
            answer: keys::second_copy(self.alloc, &told)?,
        };
        clients::keep(&mut self.clients, command.client, place, kept)?;
        Ok(told)
    }

    /// Returns the number of clients.
    pub fn clients(&self) -> u64
        ensures { result ≡ length self.now.clients }
    {
        clients::count(&self.clients) as u64
    }

    /// Returns the number of keys.
    pub fn keys(&self) -> u64
        ensures { result ≡ length self.now.keys }
    {
        self.keys.len() as u64
    }
}
