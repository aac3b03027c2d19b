//! The account of one sheet.

ghost use Rattle.std.specs.Prelude.{◌<◌};

use crate::entries::AccountEntries;
use crate::place::Dropped;
use std::alloc::Global;

/// The account of one node's sheet: the entries that it executed, those that it logged under its own number, and the
/// commands that it reported as dropped.
#[derive(Drop)]
pub struct Account {
    pub(crate) alloc: Global,
    pub(crate) me: u32,
    pub(crate) entries: AccountEntries,
    pub(crate) dropped: Vec<Dropped>,
    ghost me_below: { me < 15 },
}
