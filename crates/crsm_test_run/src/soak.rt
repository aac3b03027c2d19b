//! The table `soak`: each line is a soak, as the number that its events are drawn from, how many replicas and how many
//! steps. It answers what the soak writes, and how it ends.

ghost use Rattle.std.specs.Prelude.{◌≤◌, IfSome};

use crsm_cmd_soak::soak;
use crsm_io::StdSink;
use crsm_test_cases::Fault;
use crsm_text::read_number;
use std::io::{self, Print};

/// Returns the three numbers of a line: what events are drawn from, how many replicas, and how many steps.
fn numbers(line: &str) -> Option<(u64, u32, u64)>
    ensures { IfSome result (λ n. (1 ≤ n.1) × (n.1 ≤ 15)) }
{
    let (number, rest) = line.split_once(' ')?;
    let (replicas, steps) = rest.split_once(' ')?;
    let number = read_number(number.as_bytes())?;
    let replicas = u32::try_from(read_number(replicas.as_bytes())?).ok()?;
    let steps = read_number(steps.as_bytes())?;
    if replicas == 0 || replicas > 15 {
        return None;
    }
    Some((number, replicas, steps))
}

/// Writes what each soak writes, and how it ends.
pub fn show_soaks<R: AllocGlobal + Print>(rt: &R, cases: &str) -> Result<(), Fault> {
    for line in cases.lines() {
        let Some((number, replicas, steps)) = numbers(line) else {
            println!(rt; "no soak: {line}")?;
            continue;
        };
        let mut sink = StdSink::new(io::writer(rt));
        let end = soak(rt.alloc(), number, replicas, steps, &mut sink);
        println!(rt; "{number} {replicas} {steps}: {end:?}")?;
    }
    Ok(())
}
