//! Parsing of tasks, each from the values of its command.

ghost use Rattle.std.specs.Prelude.{◌≡◌, ◌<◌, ◌≤◌, ◌^◌, ◌↔◌, ◌∷◌, [], ℕ, List, IfOk, IfSome, IsTrue, Some, codes, decimal, length};
ghost use Rattle.std.specs.Option.{IsSomeAnd};
ghost use Rattle.crsm_base.specs.declared.Command.{Command as Asking};
ghost use Rattle.crsm_base.specs.declared.Op.{Op as Operation};
ghost use Rattle.crsm_base.specs.Spelling.{FitsCommand, FitsOp};
ghost use Rattle.crsm_text.specs.Reads.{ReadsAs};
ghost use Rattle.crsm_text.specs.Values.{HasBytes};
ghost use Rattle.crsm_text_words.specs.Addresses.{address_text};
ghost use Rattle.crsm_text_words.specs.declared.order.DumpPart.{DumpPart as Part};
ghost use Rattle.crsm_text_words.specs.declared.order.LockAction.{LockAction as Action};
ghost use Rattle.crsm_text_words.specs.declared.order.LockTask.{LockTask as Locked};
ghost use Rattle.crsm_text_words.specs.declared.order.NodeTask.{NodeTask as Node};
ghost use Rattle.crsm_text_words.specs.declared.order.Task.{Task as Asked};
ghost use Rattle.crsm_text_words.specs.Orders.{AreOperation, Asks, AsksCommand, IsAddress, IsClusterSize, IsLock, IsNode, IsPatience, IsPlainTask, action_text, lock_values, node_values, part_words, texts};

use crate::address::read_addresses;
use crate::order::{DumpPart, LockAction, LockTask, NodeTask, Task};
use crate::values::{
    action_of, is_last, is_word, joined, key_of, take_address, take_end, take_number, take_replica,
    take_size, take_word,
};
use crsm_base::{Command, MAX_REPLICAS, Op};
use crsm_text::{LineError, read_members, read_op};
use std::alloc::Global;

/// Maximum number of turns of a node.
const MAX_NODE_TURNS: u64 = 1_000_000_000_000;

/// Maximum number of turns of a client for one reply.
const MAX_CLIENT_TURNS: u64 = 1_000_000;

/// Maximum number of steps of a soak.
const MAX_STEPS: u64 = 100_000;

/// Maximum number of words of an operation.
const MAX_OP_WORDS: usize = 4;

fn replay(values: &[&str]) -> Option<Task>
    ensures found { IfSome result (λ task. Asks task (codes "replay" ∷ texts values.now)) }
    ensures only { (task : Asked) → Asks task (codes "replay" ∷ texts values.now) → result ≡ Some task }
{
    if is_last(values) {
        Some(Task::Replay)
    } else {
        None
    }
}

fn replay_mp(values: &[&str]) -> Option<Task>
    ensures found { IfSome result (λ task. Asks task (codes "replay-mp" ∷ texts values.now)) }
    ensures only { (task : Asked) → Asks task (codes "replay-mp" ∷ texts values.now) → result ≡ Some task }
{
    if is_last(values) {
        Some(Task::ReplayMp)
    } else {
        None
    }
}

fn delay(values: &[&str]) -> Option<Task>
    ensures found { IfSome result (λ task. Asks task (codes "delay" ∷ texts values.now)) }
    ensures only { (task : Asked) → Asks task (codes "delay" ∷ texts values.now) → result ≡ Some task }
{
    if is_last(values) {
        return Some(Task::Delay);
    }
    let (word, rest) = take_word(values)?;
    take_end(rest)?;
    if !is_word(word, "times") {
        return None;
    }
    Some(Task::DelayTimes)
}

/// Parses a replica's number and the number of replicas at first; returns them and the remaining values, or `None`.
fn take_place<'b, 'a>(values: &'b [&'a str]) -> Option<(u32, u32, &'b [&'a str])>
    ensures found { IfSome result (λ v. (v.0 < 15) × IsClusterSize v.1 × (texts values.now ≡ decimal v.0 ∷ decimal v.1 ∷ texts v.2.now)) }
    ensures only { (me n : ℕ) (rest : List (List ℕ)) → me < 15 → IsClusterSize n → texts values.now ≡ decimal me ∷ decimal n ∷ rest
        → IsSomeAnd result (λ v. (v.0 ≡ me) × (v.1 ≡ n) × (texts v.2.now ≡ rest)) }
{
    let (me, rest) = take_replica(values)?;
    let (n, rest) = take_size(rest)?;
    Some((me, n, rest))
}

fn replay_node(values: &[&str]) -> Option<Task>
    ensures found { IfSome result (λ task. Asks task (codes "replay-node" ∷ texts values.now)) }
    ensures only { (task : Asked) → Asks task (codes "replay-node" ∷ texts values.now) → result ≡ Some task }
{
    let (me, n, rest) = take_place(values)?;
    take_end(rest)?;
    Some(Task::ReplayNode { me, n })
}

/// Parses the word of the wanted part of a dump, which is all of it without a word, or returns `None`.
fn part_of(values: &[&str]) -> Option<DumpPart>
    ensures found { IfSome result (λ part. texts values.now ≡ part_words part) }
    ensures only { (part : Part) → texts values.now ≡ part_words part → result ≡ Some part }
{
    if is_last(values) {
        return Some(DumpPart::All);
    }
    let (word, rest) = take_word(values)?;
    take_end(rest)?;
    if is_word(word, "state") {
        return Some(DumpPart::State);
    }
    if is_word(word, "keys") {
        return Some(DumpPart::Keys);
    }
    None
}

fn dump(values: &[&str]) -> Option<Task>
    ensures found { IfSome result (λ task. Asks task (codes "dump" ∷ texts values.now)) }
    ensures only { (task : Asked) → Asks task (codes "dump" ∷ texts values.now) → result ≡ Some task }
{
    let (me, n, rest) = take_place(values)?;
    let part = part_of(rest)?;
    Some(Task::Dump { me, n, part })
}

/// Parses the step count of a soak; returns it and the remaining values, or `None`.
fn take_steps<'b, 'a>(values: &'b [&'a str]) -> Option<(u64, &'b [&'a str])>
    ensures found { IfSome result (λ f. (f.0 ≤ 100000) × (texts values.now ≡ decimal f.0 ∷ texts f.1.now)) }
    ensures only { (n : ℕ) (rest : List (List ℕ)) → n ≤ 100000 → texts values.now ≡ decimal n ∷ rest → IsSomeAnd result (λ f. (f.0 ≡ n) × (texts f.1.now ≡ rest)) }
{
    let (steps, rest) = take_number(values)?;
    if steps > MAX_STEPS {
        return None;
    }
    Some((steps, rest))
}

/// Parses the seed, the number of replicas and the step count of a soak, or returns `None`.
fn soak_values(values: &[&str]) -> Option<(u64, u32, u64)>
    ensures found { IfSome result (λ v. IsClusterSize v.1 × (v.2 ≤ 100000) × (texts values.now ≡ decimal v.0 ∷ decimal v.1 ∷ decimal v.2 ∷ [])) }
    ensures only { (number n steps : ℕ) → number < 2 ^ 64 → IsClusterSize n → steps ≤ 100000 → texts values.now ≡ decimal number ∷ decimal n ∷ decimal steps ∷ []
        → IsSomeAnd result (λ v. (v.0 ≡ number) × (v.1 ≡ n) × (v.2 ≡ steps)) }
{
    let (number, rest) = take_number(values)?;
    let (n, rest) = take_size(rest)?;
    let (steps, rest) = take_steps(rest)?;
    take_end(rest)?;
    Some((number, n, steps))
}

fn soak(values: &[&str]) -> Option<Task>
    ensures found { IfSome result (λ task. Asks task (codes "soak" ∷ texts values.now)) }
    ensures only { (task : Asked) → Asks task (codes "soak" ∷ texts values.now) → result ≡ Some task }
{
    let (number, n, steps) = soak_values(values)?;
    Some(Task::Soak { number, n, steps })
}

fn audit(values: &[&str]) -> Option<Task>
    ensures found { IfSome result (λ task. Asks task (codes "audit" ∷ texts values.now)) }
    ensures only { (task : Asked) → Asks task (codes "audit" ∷ texts values.now) → result ≡ Some task }
{
    let (n, rest) = take_size(values)?;
    take_end(rest)?;
    Some(Task::Audit { n })
}

/// Parses the turn count of a node; returns it and the remaining values, or `None`.
fn take_turns<'b, 'a>(values: &'b [&'a str]) -> Option<(u64, &'b [&'a str])>
    ensures found { IfSome result (λ f. (f.0 ≤ 1000000000000) × (texts values.now ≡ decimal f.0 ∷ texts f.1.now)) }
    ensures only { (n : ℕ) (rest : List (List ℕ)) → n ≤ 1000000000000 → texts values.now ≡ decimal n ∷ rest → IsSomeAnd result (λ f. (f.0 ≡ n) × (texts f.1.now ≡ rest)) }
{
    let (turns, rest) = take_number(values)?;
    if turns > MAX_NODE_TURNS {
        return None;
    }
    Some((turns, rest))
}

/// Parses a node's number, the number of replicas and the turn count; returns them and the word of the peers, or
/// `None`.
fn node_words<'a>(values: &[&'a str]) -> Option<(u32, u32, u64, &'a [u8])>
    ensures found { IfSome result (λ v. (v.0 < 15) × IsClusterSize v.1 × (v.2 ≤ 1000000000000)
        × (texts values.now ≡ decimal v.0 ∷ decimal v.1 ∷ decimal v.2 ∷ v.3.now ∷ [])) }
    ensures only { (me n turns : ℕ) (peers : List ℕ) → me < 15 → IsClusterSize n → turns ≤ 1000000000000
        → texts values.now ≡ decimal me ∷ decimal n ∷ decimal turns ∷ peers ∷ []
        → IsSomeAnd result (λ v. (v.0 ≡ me) × (v.1 ≡ n) × (v.2 ≡ turns) × (v.3.now ≡ peers)) }
{
    let (me, n, rest) = take_place(values)?;
    let (turns, rest) = take_turns(rest)?;
    let (peers, rest) = take_word(rest)?;
    take_end(rest)?;
    Some((me, n, turns, peers))
}

/// Returns whether there are at least `n` addresses, at most 15, and one of them is that of replica `me`.
fn are_enough(me: u32, n: u32, peers: &[u64]) -> bool
    ensures { IsTrue result ↔ ((n ≤ length peers.now) × (length peers.now ≤ 15) × (me < length peers.now)) }
{
    let count = peers.len();
    n as usize <= count && count <= MAX_REPLICAS as usize && (me as usize) < count
}

/// Parses the values of `node`. `Unreadable` if one is outside its limits.
fn node_of(alloc: Global, values: &[&str]) -> Result<NodeTask, LineError>
    ensures found { IfOk result (λ t. IsNode t × (texts values.now ≡ node_values t)) }
    ensures only { (t : Node) → IsNode t → texts values.now ≡ node_values t → ReadsAs result t }
{
    let Some((me, n, turns, word)) = node_words(values) else {
        return Err(LineError::Unreadable);
    };
    let peers = read_addresses(alloc, word)?;
    if are_enough(me, n, peers.as_slice()) {
        Ok(NodeTask {
            me,
            n,
            turns,
            peers,
        })
    } else {
        Err(LineError::Unreadable)
    }
}

fn node(alloc: Global, values: &[&str]) -> Result<Task, LineError>
    ensures found { IfOk result (λ task. Asks task (codes "node" ∷ texts values.now)) }
    ensures only { (task : Asked) → Asks task (codes "node" ∷ texts values.now) → ReadsAs result task }
{
    Ok(Task::Node(node_of(alloc, values)?))
}

/// Parses the turn count of a client; returns it and the remaining values, or `None`.
fn take_patience<'b, 'a>(values: &'b [&'a str]) -> Option<(u64, &'b [&'a str])>
    ensures found { IfSome result (λ f. IsPatience f.0 × (texts values.now ≡ decimal f.0 ∷ texts f.1.now)) }
    ensures only { (n : ℕ) (rest : List (List ℕ)) → IsPatience n → texts values.now ≡ decimal n ∷ rest → IsSomeAnd result (λ f. (f.0 ≡ n) × (texts f.1.now ≡ rest)) }
{
    let (turns, rest) = take_number(values)?;
    if turns == 0 || turns > MAX_CLIENT_TURNS {
        return None;
    }
    Some((turns, rest))
}

/// Parses the address of the replica to ask and the turn count; returns them and the remaining values, or `None`.
fn take_asked<'b, 'a>(values: &'b [&'a str]) -> Option<(u64, u64, &'b [&'a str])>
    ensures found { IfSome result (λ v. IsAddress v.0 × IsPatience v.1 × (texts values.now ≡ address_text v.0 ∷ decimal v.1 ∷ texts v.2.now)) }
    ensures only { (to turns : ℕ) (rest : List (List ℕ)) → IsAddress to → IsPatience turns → texts values.now ≡ address_text to ∷ decimal turns ∷ rest
        → IsSomeAnd result (λ v. (v.0 ≡ to) × (v.1 ≡ turns) × (texts v.2.now ≡ rest)) }
{
    let (to, rest) = take_address(values)?;
    let (turns, rest) = take_patience(rest)?;
    Some((to, turns, rest))
}

/// Parses two numbers; returns them and the remaining values, or `None`.
fn take_numbers<'b, 'a>(values: &'b [&'a str]) -> Option<(u64, u64, &'b [&'a str])>
    ensures found { IfSome result (λ v. texts values.now ≡ decimal v.0 ∷ decimal v.1 ∷ texts v.2.now) }
    ensures only { (m n : ℕ) (rest : List (List ℕ)) → m < 2 ^ 64 → n < 2 ^ 64 → texts values.now ≡ decimal m ∷ decimal n ∷ rest
        → IsSomeAnd result (λ v. (v.0 ≡ m) × (v.1 ≡ n) × (texts v.2.now ≡ rest)) }
{
    let (first, rest) = take_number(values)?;
    let (second, rest) = take_number(rest)?;
    Some((first, second, rest))
}

/// Returns whether an operation can have this number of words: 1 to 4.
fn is_few(words: &[&str]) -> bool
    ensures { IsTrue result ↔ ((1 ≤ length (texts words.now)) × (length (texts words.now) ≤ 4)) }
{
    !words.is_empty() && words.len() <= MAX_OP_WORDS
}

/// Parses one to four words as an operation. `Unreadable` if they are none.
fn op_of(alloc: Global, words: &[&str]) -> Result<Op, LineError>
    ensures found { IfOk result (λ op. FitsOp op × HasBytes op × AreOperation (texts words.now) op) }
    ensures only { (op : Operation) → FitsOp op → HasBytes op → AreOperation (texts words.now) op → ReadsAs result op }
{
    if !is_few(words) {
        return Err(LineError::Unreadable);
    }
    let text = joined(alloc, words)?;
    read_op(alloc, text.as_slice())
}

/// Parses the values of a client's command. `Unreadable` if they are none.
fn command_of(alloc: Global, values: &[&str]) -> Result<Command, LineError>
    ensures found { IfOk result (λ command. FitsCommand command × HasBytes command.op × AsksCommand command (texts values.now)) }
    ensures only { (command : Asking) → FitsCommand command → HasBytes command.op → AsksCommand command (texts values.now) → ReadsAs result command }
{
    let Some((client, number, rest)) = take_numbers(values) else {
        return Err(LineError::Unreadable);
    };
    let op = op_of(alloc, rest)?;
    Ok(Command { client, number, op })
}

fn client(alloc: Global, values: &[&str]) -> Result<Task, LineError>
    ensures found { IfOk result (λ task. Asks task (codes "client" ∷ texts values.now)) }
    ensures only { (task : Asked) → Asks task (codes "client" ∷ texts values.now) → ReadsAs result task }
{
    let Some((to, turns, rest)) = take_asked(values) else {
        return Err(LineError::Unreadable);
    };
    let command = command_of(alloc, rest)?;
    Ok(Task::Client { to, turns, command })
}

/// Parses the address of the replica to ask; returns it and the word of the members, or `None`.
fn operate_words<'a>(values: &[&'a str]) -> Option<(u64, &'a [u8])>
    ensures found { IfSome result (λ v. IsAddress v.0 × (texts values.now ≡ address_text v.0 ∷ v.1.now ∷ [])) }
    ensures only { (to : ℕ) (word : List ℕ) → IsAddress to → texts values.now ≡ address_text to ∷ word ∷ [] → IsSomeAnd result (λ v. (v.0 ≡ to) × (v.1.now ≡ word)) }
{
    let (to, rest) = take_address(values)?;
    let (word, rest) = take_word(rest)?;
    take_end(rest)?;
    Some((to, word))
}

fn operate(alloc: Global, values: &[&str]) -> Result<Task, LineError>
    ensures found { IfOk result (λ task. Asks task (codes "operate" ∷ texts values.now)) }
    ensures only { (task : Asked) → Asks task (codes "operate" ∷ texts values.now) → ReadsAs result task }
{
    let Some((to, word)) = operate_words(values) else {
        return Err(LineError::Unreadable);
    };
    let members = read_members(alloc, word)?;
    Ok(Task::Operate { to, members })
}

/// Splits the values into the word of a key and an action, or returns `None` if they are not two values.
fn lock_words<'a>(values: &[&'a str]) -> Option<(&'a [u8], LockAction)>
    ensures found { IfSome result (λ v. texts values.now ≡ v.0.now ∷ action_text v.1 ∷ []) }
    ensures only { (key : List ℕ) (action : Action) → texts values.now ≡ key ∷ action_text action ∷ [] → IsSomeAnd result (λ v. (v.0.now ≡ key) × (v.1 ≡ action)) }
{
    let (key, rest) = take_word(values)?;
    let (word, rest) = take_word(rest)?;
    let action = action_of(word)?;
    take_end(rest)?;
    Some((key, action))
}

/// Parses the values of `lock`. `Unreadable` if one is outside its limits.
fn lock_of(alloc: Global, values: &[&str]) -> Result<LockTask, LineError>
    ensures found { IfOk result (λ t. IsLock t × (texts values.now ≡ lock_values t)) }
    ensures only { (t : Locked) → IsLock t → texts values.now ≡ lock_values t → ReadsAs result t }
{
    let Some((to, turns, rest)) = take_asked(values) else {
        return Err(LineError::Unreadable);
    };
    let Some((client, number, rest)) = take_numbers(rest) else {
        return Err(LineError::Unreadable);
    };
    let Some((word, action)) = lock_words(rest) else {
        return Err(LineError::Unreadable);
    };
    if number == u64::MAX {
        return Err(LineError::Unreadable);
    }
    let key = key_of(alloc, word)?;
    Ok(LockTask {
        to,
        turns,
        client,
        number,
        key,
        action,
    })
}

fn lock(alloc: Global, values: &[&str]) -> Result<Task, LineError>
    ensures found { IfOk result (λ task. Asks task (codes "lock" ∷ texts values.now)) }
    ensures only { (task : Asked) → Asks task (codes "lock" ∷ texts values.now) → ReadsAs result task }
{
    Ok(Task::Lock(lock_of(alloc, values)?))
}

/// Parses a task whose values need no memory, or returns `None` if the name is none of theirs or a value is bad.
fn plain_task(name: &[u8], values: &[&str]) -> Option<Task>
    ensures found { IfSome result (λ task. Asks task (name.now ∷ texts values.now)) }
    ensures only { (task : Asked) → IsPlainTask task → Asks task (name.now ∷ texts values.now) → result ≡ Some task }
{
    if is_word(name, "replay") {
        return replay(values);
    }
    if is_word(name, "replay-node") {
        return replay_node(values);
    }
    if is_word(name, "soak") {
        return soak(values);
    }
    if is_word(name, "audit") {
        return audit(values);
    }
    if is_word(name, "delay") {
        return delay(values);
    }
    if is_word(name, "replay-mp") {
        return replay_mp(values);
    }
    if is_word(name, "dump") {
        return dump(values);
    }
    None
}

/// Parses a command's name and values as a task. `Unreadable` if they are none; `NoMemory` if memory runs out.
pub(crate) fn read_task(alloc: Global, name: &[u8], values: &[&str]) -> Result<Task, LineError>
    ensures found { IfOk result (λ task. Asks task (name.now ∷ texts values.now)) }
    ensures only { (task : Asked) → Asks task (name.now ∷ texts values.now) → ReadsAs result task }
{
    if is_word(name, "node") {
        return node(alloc, values);
    }
    if is_word(name, "client") {
        return client(alloc, values);
    }
    if is_word(name, "operate") {
        return operate(alloc, values);
    }
    if is_word(name, "lock") {
        return lock(alloc, values);
    }
    plain_task(name, values).ok_or(LineError::Unreadable)
}
