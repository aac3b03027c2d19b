//! Comparison of commands, byte for byte: a slot may get another command than the one proposed there.

ghost use Rattle.std.specs.Prelude.{◌≡◌, bytes_eq};
ghost use Rattle.std.specs.Option.{option_eq};
ghost use Rattle.crsm_mpspec.specs.Values as values;

use crsm_base::{Command, Key, Op, Val};
use crsm_mpspec::SharedValue;

/// Returns whether the value of a slot is this command.
#[tactic(auto, unfolding(crsm_mpspec::specs::Values::is_command))]
pub(crate) fn is_command(command: &Command, value: &SharedValue) -> bool
    ensures { result ≡ values.is_command command.now value.now }
{
    match value.get() {
        Some(chosen) => is_same(command, chosen),
        None => false,
    }
}

/// Returns whether both commands are equal.
#[tactic(auto, unfolding(crsm_mpspec::specs::Values::command_eq))]
fn is_same(a: &Command, b: &Command) -> bool
    ensures { result ≡ values.command_eq a.now b.now }
{
    a.client == b.client && a.number == b.number && is_same_op(&a.op, &b.op)
}

#[tactic(auto, unfolding(crsm_mpspec::specs::Values::op_eq))]
fn is_same_op(a: &Op, b: &Op) -> bool
    ensures { result ≡ values.op_eq a.now b.now }
{
    match (a, b) {
        (Op::Get(a), Op::Get(b)) => is_same_key(a, b),
        (Op::Put(a, x), Op::Put(b, y)) => is_same_key(a, b) && is_same_val(x, y),
        (Op::Delete(a), Op::Delete(b)) => is_same_key(a, b),
        (Op::Cas(a, x, u), Op::Cas(b, y, v)) => {
            is_same_key(a, b) && is_same_option(x, y) && is_same_option(u, v)
        }
        _ => false,
    }
}

fn is_same_key(a: &Key, b: &Key) -> bool
    ensures { result ≡ bytes_eq a.now b.now }
{
    a.as_slice() == b.as_slice()
}

fn is_same_val(a: &Val, b: &Val) -> bool
    ensures { result ≡ bytes_eq a.now b.now }
{
    a.as_slice() == b.as_slice()
}

fn is_same_option(a: &Option<Val>, b: &Option<Val>) -> bool
    ensures { result ≡ option_eq bytes_eq a.now b.now }
{
    match (a, b) {
        (None, None) => true,
        (Some(a), Some(b)) => is_same_val(a, b),
        _ => false,
    }
}
