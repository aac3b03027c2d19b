//! The text of a dump.

ghost use Rattle.std.specs.Prelude.{◌≡◌, ◌++◌, OnOk, IfOk, length};
ghost use Rattle.std.specs.List.{flat_map};
ghost use Rattle.crsm_base.specs.Store.{after};
ghost use Rattle.crsm_ledger.specs.Ledger.{WhereStands};
ghost use Rattle.crsm_spec.specs.Log.{Log, executed};
ghost use Rattle.crsm_text.specs.Values.{value_text};
ghost use Rattle.crsm_cmd_dump.specs.Catalogs.{Lists, client_of, clients_of};
ghost use Rattle.crsm_cmd_dump.specs.Texts.{client_row, cluster_row, count_row, dump_text, key_row, lines_text, replicas_row, row, state_text};

use crate::catalog::{Catalog, Clients, Kept, Keys};
use crate::part::Part;
use crsm_base::{Bytes, Key, Members, NoMemory, Val};
use crsm_ledger::Ledger;
use crsm_text::{push_answer, push_hex, push_members, push_named};
use std::alloc::Global;

/// Appends a line of a word and numbers. `NoMemory` if memory runs out.
fn push_row(out: &mut Bytes, name: &[u8], values: &[u64]) -> Result<(), NoMemory>
    ensures { OnOk result (out.new ≡ out.old ++ row name.now values.now) }
{
    push_named(out, name, values)?;
    out.push(b'\n')
}

/// Appends a line of a word and replicas. `NoMemory` if memory runs out.
fn push_replicas(out: &mut Bytes, name: &[u8], replicas: &Members) -> Result<(), NoMemory>
    ensures { OnOk result (out.new ≡ out.old ++ replicas_row name.now replicas.now) }
{
    out.append(name)?;
    out.push(b' ')?;
    push_members(out, replicas)?;
    out.push(b'\n')
}

/// Appends the line of the cluster's number, unless that is 0. `NoMemory` if memory runs out.
fn push_cluster(out: &mut Bytes, cluster: u64) -> Result<(), NoMemory>
    ensures { OnOk result (out.new ≡ out.old ++ cluster_row cluster) }
{
    if cluster == 0 {
        return Ok(());
    }
    push_row(out, b"cluster", &[cluster])
}

/// Appends what a ledger says of its replica. `NoMemory` if memory runs out.
fn push_state(out: &mut Bytes, cluster: u64, bodies: u64, ledger: &Ledger) -> Result<(), NoMemory>
    ensures { WhereStands ledger.now (λ me n log. OnOk result (out.new ≡ out.old ++ state_text n cluster bodies log)) }
{
    push_cluster(out, cluster)?;
    push_row(out, b"bodies", &[bodies])?;
    push_row(out, b"epoch", &[ledger.known().epoch])?;
    push_replicas(out, b"members", &ledger.known().members)?;
    push_replicas(out, b"replicas", ledger.counted())?;
    push_row(out, b"executed", &[ledger.executed_len()])?;
    let promised = ledger.promised();
    push_row(out, b"promised", &[promised.round, u64::from(promised.by)])
}

/// Appends a value in lower-case hexadecimal, or `empty`. `NoMemory` if memory runs out.
fn push_value(out: &mut Bytes, value: &Val) -> Result<(), NoMemory>
    ensures { OnOk result (out.new ≡ out.old ++ value_text value.now) }
{
    let bytes = value.as_slice();
    match bytes {
        [] => out.append(b"empty"),
        [_, ..] => push_hex(out, bytes),
    }
}

/// Appends the line of a key. `NoMemory` if memory runs out.
#[tactic(auto, unfolding(crate::specs::Texts::key_row))]
fn push_key(out: &mut Bytes, key: &Key, value: &Val) -> Result<(), NoMemory>
    ensures { OnOk result (out.new ≡ out.old ++ key_row (key.now, value.now)) }
{
    out.append(b"key ")?;
    push_hex(out, key.as_slice())?;
    out.push(b' ')?;
    push_value(out, value)?;
    out.push(b'\n')
}

/// Appends the line of a client. `NoMemory` if memory runs out.
#[tactic(auto, unfolding(crate::specs::Texts::client_row))]
fn push_client(out: &mut Bytes, client: u64, kept: &Kept) -> Result<(), NoMemory>
    ensures { OnOk result (out.new ≡ out.old ++ client_row (client_of (client, kept.now))) }
{
    push_named(out, b"client", &[client, kept.number])?;
    out.push(b' ')?;
    push_answer(out, &kept.answer)?;
    out.push(b'\n')
}

/// Appends the line of each key. `NoMemory` if memory runs out.
fn push_keys(out: &mut Bytes, keys: &Keys) -> Result<(), NoMemory>
    ensures { OnOk result (out.new ≡ out.old ++ flat_map key_row keys.now.entries) }
{
    for (key, value) in keys {
        push_key(out, key, value)?;
    }
    Ok(())
}

/// Appends the line of each client. `NoMemory` if memory runs out.
#[tactic(auto, unfolding(crate::specs::Catalogs::clients_of))]
fn push_clients(out: &mut Bytes, clients: &Clients) -> Result<(), NoMemory>
    ensures { OnOk result (out.new ≡ out.old ++ flat_map client_row (clients_of clients.now.entries)) }
{
    for (client, kept) in clients {
        push_client(out, *client, kept)?;
    }
    Ok(())
}

/// Appends the lines of the wanted part of a log with this cluster, 0 for none, and this many bodies, which lead to a
/// ledger and to the catalog of its store. `NoMemory` if memory runs out.
fn push_part(
    out: &mut Bytes,
    part: Part,
    cluster: u64,
    bodies: u64,
    ledger: &Ledger,
    catalog: &Catalog,
) -> Result<(), NoMemory>
    ensures { WhereStands ledger.now (λ me n log. Lists catalog.now (after (executed log)) → OnOk result (out.new ≡ out.old ++ lines_text part n cluster bodies log)) }
{
    match part {
        Part::All => {
            push_state(out, cluster, bodies, ledger)?;
            push_keys(out, catalog.keys())?;
            push_clients(out, catalog.clients())?;
            Ok(())
        }
        Part::State => {
            push_state(out, cluster, bodies, ledger)?;
            push_clients(out, catalog.clients())?;
            Ok(())
        }
        Part::Keys => {
            push_keys(out, catalog.keys())?;
            Ok(())
        }
    }
}

/// Appends the number of the keys of a catalog, the last line: without it a dump was cut. `NoMemory` if memory runs out.
fn push_count(out: &mut Bytes, catalog: &Catalog) -> Result<(), NoMemory>
    ensures { (log : Log) → Lists catalog.now (after (executed log)) → OnOk result (out.new ≡ out.old ++ count_row log) }
{
    push_row(out, b"keys", &[catalog.keys().len() as u64])
}

/// Returns the wanted text of a log with this cluster, 0 for none, and this many bodies, which lead to a ledger.
/// `NoMemory` if memory runs out.
pub(crate) fn text_of(
    alloc: Global,
    part: Part,
    cluster: u64,
    bodies: u64,
    ledger: &Ledger,
) -> Result<Bytes, NoMemory>
    ensures { WhereStands ledger.now (λ me n log. IfOk result (λ text. text ≡ dump_text part n cluster bodies log)) }
{
    let catalog = Catalog::of(alloc, ledger)?;
    let mut text = Bytes::new(alloc);
    push_part(&mut text, part, cluster, bodies, ledger, &catalog)?;
    push_count(&mut text, &catalog)?;
    Ok(text)
}
