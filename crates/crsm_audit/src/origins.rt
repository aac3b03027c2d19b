//! The entries that each node has logged, by its last sheet.

ghost use Rattle.std.specs.Prelude.{◌≡◌, ◌<◌, false, IsTrue, IfSome, IfNone};
ghost use Rattle.crsm_audit.specs.Judging.{HasNever, IsLast, IsOfNone, OriginsStand};

use crate::account::Account;
use crate::list::find_held;

/// The last sheet of each node, and the index from which it is searched next.
#[derive(Drop)]
pub(crate) struct Origins {
    last: [Option<usize>; 15],
    seen: [usize; 15],
}

/// Returns the index of a node's last sheet, or `None` if it has none.
fn last_of(accounts: &[Account], node: u32) -> Option<usize>
    ensures found { IfSome result (IsLast accounts.now node) }
    ensures none { IfNone result (IsOfNone accounts.now node) }
{
    let mut index = accounts.len();
    while index > 0 {
        index -= 1;
        if accounts[index].me == node {
            return Some(index);
        }
    }
    None
}

impl Origins {
    /// Returns the last sheet of each node.
    pub(crate) fn new(accounts: &[Account]) -> Origins
        ensures { OriginsStand accounts.now result }
    {
        let mut last = [None; 15];
        for node in 0..15 {
            last[node as usize] = last_of(accounts, node);
        }
        Origins {
            last,
            seen: [0; 15],
        }
    }

    /// Returns whether this node has a sheet, and never logged these bytes according to its last one. Entries are
    /// searched in ascending order, so each search starts after the last found.
    pub(crate) fn is_strange(&mut self, accounts: &[Account], node: u32, bytes: &[u8]) -> bool
        ensures yes { OriginsStand accounts.now self.old → IsTrue result → HasNever accounts.now node bytes.now }
        ensures no { OriginsStand accounts.now self.old → result ≡ false → HasNever accounts.now node bytes.now → ⊥ }
        ensures stays { OriginsStand accounts.now self.old → OriginsStand accounts.now self.new }
    {
        if node >= 15 {
            return false;
        }
        let Some(index) = self.last[node as usize] else {
            return false;
        };
        let Some(account) = accounts.get(index) else {
            return false;
        };
        match find_held(&account.entries, self.seen[node as usize], bytes) {
            Some(place) => {
                self.seen[node as usize] = place;
                false
            }
            None => true,
        }
    }
}
