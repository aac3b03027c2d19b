//! The catalog of a store: the keys and the clients that commands leave in it. The store itself does not list them, so
//! they are followed by its answers.

ghost use Rattle.std.specs.Prelude.{◌≡◌, IfOk, OnOk};
ghost use Rattle.crsm_base.specs.Store.{Rows, after, apply, no_rows, with_client, with_key, without_key};
ghost use Rattle.crsm_ledger.specs.Ledger.{WhereStands};
ghost use Rattle.crsm_spec.specs.Log.{executed};
ghost use Rattle.crsm_cmd_dump.specs.Catalogs as spec;
ghost use Rattle.crsm_cmd_dump.specs.Catalogs.{Lists, changed, client_of, clients_of, is_done, is_executed};

use crsm_base::{Answer, Command, Key, MAX_CLIENTS, NoMemory, Op, Val};
use crsm_kv::Store;
use crsm_ledger::Ledger;
use indexmap::IndexMap;
use std::alloc::Global;
use std::collections::BTreeMap;

/// The values by their keys, in ascending key order.
pub(crate) type Keys = BTreeMap<Key, Val>;

/// A client's last executed command: its number, and the answer to it.
#[derive(Drop)]
pub(crate) struct Kept {
    pub number: u64,
    pub answer: Answer,
}

/// The clients' last commands, in the order in which the clients were first seen.
pub(crate) type Clients = IndexMap<u64, Kept>;

/// The store that commands lead to, with its keys and its clients.
#[derive(Drop)]
pub(crate) struct Catalog {
    alloc: Global,
    store: Store,
    keys: Keys,
    clients: Clients,
}

impl Catalog {
    /// Returns the catalog of a store in which no command was executed. `NoMemory` if memory runs out.
    #[tactic(auto, unfolding(crsm_base::specs::Store::no_rows, crate::specs::Catalogs::clients_of))]
    fn new(alloc: Global) -> Result<Catalog, NoMemory>
        ensures { IfOk result (λ catalog. Lists catalog no_rows) }
    {
        Ok(Catalog {
            alloc,
            store: Store::new(alloc)?,
            keys: BTreeMap::new(alloc),
            clients: IndexMap::new(alloc),
        })
    }

    /// Returns the catalog of the store that the executed entries of a ledger lead to. `NoMemory` if memory runs out.
    pub fn of(alloc: Global, ledger: &Ledger) -> Result<Catalog, NoMemory>
        ensures { WhereStands ledger.now (λ me n log. IfOk result (λ catalog. Lists catalog (after (executed log)))) }
    {
        let mut catalog = Catalog::new(alloc)?;
        for place in 0..ledger.executed_len() {
            let entry = ledger.executed_at(place)?;
            catalog.take(&entry.command)?;
        }
        Ok(catalog)
    }

    /// Executes the next command, and follows its answer. `NoMemory` if memory runs out.
    fn take(&mut self, command: &Command) -> Result<(), NoMemory>
        ensures { (rows : Rows) → Lists self.old rows → OnOk result (Lists self.new (apply rows command.now).0) }
    {
        let is_executed = is_executed(&self.clients, command);
        let answer = self.store.apply(command)?;
        if !is_executed {
            return Ok(());
        }
        change(self.alloc, &mut self.keys, &command.op, is_done(&answer))?;
        let kept = Kept {
            number: command.number,
            answer,
        };
        keep(&mut self.clients, command.client, kept)?;
        Ok(())
    }

    /// Returns the keys with their values, in ascending key order.
    pub fn keys(&self) -> &Keys
        ensures { result.now.entries ≡ self.now.keys.entries }
    {
        &self.keys
    }

    /// Returns the clients' last executed commands, in the order in which the clients were first seen.
    pub fn clients(&self) -> &Clients
        ensures { result.now.entries ≡ self.now.clients.entries }
    {
        &self.clients
    }
}

/// Returns whether a store with these clients executes the command: it repeats no command, is not stale, and its client
/// is known or has room.
#[tactic(auto, using(crate::proofs::ClientsLemmas::clients_rules), unfolding(crate::specs::Catalogs::is_executed))]
fn is_executed(clients: &Clients, command: &Command) -> bool
    ensures { result ≡ spec.is_executed (clients_of clients.now.entries) command.now }
{
    match clients.get(&command.client) {
        Some(kept) => kept.number < command.number,
        None => clients.len() < MAX_CLIENTS as usize,
    }
}

/// Returns whether the answer says that the store was changed as the command asked.
fn is_done(answer: &Answer) -> bool
    ensures { result ≡ spec.is_done answer.now }
{
    matches!(answer, Answer::Done)
}

/// Changes the keys as an operation did that was executed. `NoMemory` if memory runs out.
#[tactic(auto, unfolding(crate::specs::Catalogs::changed))]
fn change(alloc: Global, keys: &mut Keys, op: &Op, is_done: bool) -> Result<(), NoMemory>
    ensures { OnOk result (keys.new.entries ≡ changed op.now is_done keys.old.entries) }
{
    match op {
        Op::Put(key, value) if is_done => set(alloc, keys, key, value),
        Op::Cas(key, _, Some(value)) if is_done => set(alloc, keys, key, value),
        Op::Cas(key, _, None) if is_done => {
            remove(keys, key);
            Ok(())
        }
        Op::Delete(key) => {
            remove(keys, key);
            Ok(())
        }
        Op::Get(_) | Op::Put(..) | Op::Cas(..) => Ok(()),
    }
}

/// Sets the key to the value. `NoMemory` if memory runs out.
#[tactic(auto, using(crate::proofs::KeysLemmas::keys_rules))]
fn set(alloc: Global, keys: &mut Keys, key: &Key, value: &Val) -> Result<(), NoMemory>
    ensures { OnOk result (keys.new.entries ≡ with_key key.now value.now keys.old.entries) }
{
    keys.insert(key.copy(alloc)?, value.copy(alloc)?)?;
    Ok(())
}

#[tactic(auto, using(crate::proofs::KeysLemmas::keys_rules))]
fn remove(keys: &mut Keys, key: &Key)
    ensures { keys.new.entries ≡ without_key key.now keys.old.entries }
{
    let _ = keys.remove(key);
}

/// Records a client's last executed command. `NoMemory` if memory runs out.
#[tactic(auto, using(crate::proofs::ClientsLemmas::clients_rules))]
fn keep(clients: &mut Clients, client: u64, kept: Kept) -> Result<(), NoMemory>
    ensures { OnOk result (clients_of clients.new.entries ≡ with_client (client_of (client, kept)) (clients_of clients.old.entries)) }
{
    clients.insert(client, kept)?;
    Ok(())
}
