//! The bodies on a disk that was stopped during a put.

ghost use Rattle.std.specs.Prelude.{◌<◌, ◌≤◌, List, ℕ, IsTrue, length};
ghost use Rattle.crsm_port_image.specs.Calls.{History};
ghost use Rattle.crsm_port_image.specs.Calls.{contents};
ghost use Rattle.crsm_log.specs.Log.{is_synced};
ghost use Rattle.crsm_log.specs.Stop.{IsWhole, StopKeeps};

/// States which bodies are on the image of a disk that was stopped after some of a put's four calls: the new one is
/// among them if all four were made, or three and the fill is the byte of an open gate. It runs no code.
pub fn stop_keeps()
    ensures { (h : History) (end : ℕ) (body : List ℕ) (fill made : ℕ) → IsTrue (is_synced h.calls) → IsWhole (contents h.first h.calls) end → made ≤ 4 → length body < 2147483648 → StopKeeps h end body made fill }
{}
