//! The clients in first-seen order, each with its last command and the answer to it.

ghost use Rattle.std.specs.Prelude.{◌≡◌, ◌<◌, ℕ, IfSome, IsNone, IsOk, OnOk, length};
ghost use Rattle.std.specs.Option.{option_map};
ghost use Rattle.indexmap.specs.IndexMap.{spare};
ghost use Rattle.crsm_base.specs.Store.{client_row, with_client};
ghost use Rattle.crsm_kv.specs.Clients.{clients_of, row_of, client_of, IsPlaceOf};

use crsm_base::{Answer, NoMemory};
use indexmap::IndexMap;

/// A client's last command: its number, and the answer to it.
#[derive(Drop)]
pub struct Kept {
    pub number: u64,
    pub answer: Answer,
}

/// The clients' last commands, in the order in which the clients were first seen.
pub type Clients = IndexMap<u64, Kept>;

/// Returns the place of the client's row and its last command, or `None` if the client is unknown.
#[tactic(auto, using(crate::proofs::ClientsLemmas::clients_rules))]
pub fn last_of(clients: &Clients, client: u64) -> Option<(usize, &Kept)>
    ensures row { client_row client (clients_of clients.now.entries) ≡ row_of client (option_map (λ last. last.1.now) result) }
    ensures place { IfSome result (λ last. IsPlaceOf client (clients_of clients.now.entries) last.0) }
{
    match clients.get_full(&client) {
        Some((place, _, kept)) => Some((place, kept)),
        None => None,
    }
}

/// Returns the number of clients.
#[tactic(auto, using(crate::proofs::ClientsLemmas::clients_rules))]
pub fn count(clients: &Clients) -> usize
    ensures { result ≡ length (clients_of clients.now.entries) }
{
    clients.len()
}

/// Makes room for the row of a client that has none. `NoMemory` if memory runs out. The rows do not change.
pub fn reserve_for(clients: &mut Clients, place: Option<usize>) -> Result<(), NoMemory>
    ensures rows { clients.new.entries ≡ clients.old.entries }
    ensures room { OnOk result (IsNone place → 0 < spare clients.new) }
{
    if place.is_none() {
        clients.reserve(1)?;
    }
    Ok(())
}

/// Records the client's last command, in the row at this place if it has one. `NoMemory` if memory runs out, which
/// cannot happen if it has one or the map has room for one more client.
#[tactic(auto, using(crate::proofs::ClientsLemmas::clients_rules))]
pub fn keep(
    clients: &mut Clients,
    client: u64,
    place: Option<usize>,
    kept: Kept,
) -> Result<(), NoMemory>
    requires { IfSome place (IsPlaceOf client (clients_of clients.old.entries)) }
    ensures kept { OnOk result (clients_of clients.new.entries ≡ with_client (client_of (client, kept)) (clients_of clients.old.entries)) }
    ensures succeeds { (IsNone place → 0 < spare clients.old) → IsOk result }
{
    match place {
        Some(place) => {
            clients[place] = kept;
            Ok(())
        }
        None => {
            clients.insert(client, kept)?;
            Ok(())
        }
    }
}
