//! The joint content of the whole reports.

ghost use Rattle.std.specs.Prelude.{◌≡◌, ◌<◌, ◌≤◌, List, All, IfOk, length};
ghost use Rattle.crsm_spec.specs.Replica.{LogPage};
ghost use Rattle.crsm_spec.specs.Collect.{whole_ones, first_pages, all_entries, base_of, floor_of, union};
ghost use Rattle.crsm_spec.specs.Log.{above};
ghost use Rattle.crsm_suspend.specs.Reports.{ReportsStand};

use crate::report::Report;
use crate::union::Union;
use crsm_base::{Entries, NoMemory, Stamp};
use std::alloc::Global;

/// Returns the number of counted replicas whose reports are whole.
pub fn whole_count(reports: &[Report; 15], spec: &[u32]) -> usize
    requires { All (λ k. k < 15) spec.now }
    ensures { (pages : List LogPage) → ReportsStand reports.now pages → result ≡ length (whole_ones spec.now pages) }
{
    let mut count = 0;
    for k in spec {
        let head = reports[*k as usize].head;
        if !head.is_whole {
            continue;
        }
        count += 1;
    }
    count
}

/// Returns the greatest executed length among whole reports of counted replicas, in entries, at least `start`.
pub fn base_of(start: u64, reports: &[Report; 15], spec: &[u32]) -> u64
    requires { All (λ k. k < 15) spec.now }
    ensures { (pages : List LogPage) → ReportsStand reports.now pages →
        result ≡ base_of start (first_pages (whole_ones spec.now pages) pages) }
{
    let mut base = start;
    for k in spec {
        let head = reports[*k as usize].head;
        if !head.is_whole {
            continue;
        }
        base = base.max(head.executed);
    }
    base
}

/// Returns the last executed stamp of the first whole replica with this executed length, or `None`.
pub fn floor_of(base: u64, reports: &[Report; 15], spec: &[u32]) -> Option<Stamp>
    requires { All (λ k. k < 15) spec.now }
    ensures { (pages : List LogPage) → ReportsStand reports.now pages →
        result ≡ floor_of base (first_pages (whole_ones spec.now pages) pages) }
{
    for k in spec {
        let head = reports[*k as usize].head;
        if !head.is_whole {
            continue;
        }
        if head.executed == base {
            return head.last;
        }
    }
    None
}

/// Returns the whole replicas' entries above a stamp, by ascending stamp, each once. `NoMemory` if memory runs out.
pub fn tail_of(
    alloc: Global,
    floor: Option<Stamp>,
    reports: &[Report; 15],
    spec: &[u32],
) -> Result<Entries, NoMemory>
    requires { All (λ k. k < 15) spec.now }
    ensures { (pages : List LogPage) → ReportsStand reports.now pages →
        IfOk result (λ tail. tail ≡ union (above floor (all_entries (whole_ones spec.now pages) pages))) }
{
    let set = union_of(alloc, floor, reports, spec)?;
    let tail = set.into_entries()?;
    Ok(tail)
}

/// Returns the union of the whole replicas' entries above a stamp, by ascending stamp.
fn union_of(
    alloc: Global,
    floor: Option<Stamp>,
    reports: &[Report; 15],
    spec: &[u32],
) -> Result<Union, NoMemory>
    requires { All (λ k. k < 15) spec.now }
    ensures { (pages : List LogPage) → ReportsStand reports.now pages →
        IfOk result (λ set. set ≡ union (above floor (all_entries (whole_ones spec.now pages) pages))) }
{
    let mut set = Union::new(alloc);
    for k in spec {
        let report = &reports[*k as usize];
        if !report.head.is_whole {
            continue;
        }
        let Ok(()) = set.add_pages(floor, report.pages.as_slice()) else {
            drop(set);
            return Err(NoMemory);
        };
    }
    Ok(set)
}
