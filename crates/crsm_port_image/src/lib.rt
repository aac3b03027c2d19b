//! The images that a crash may leave of bytes that were written, cut and synced.
#![tactic(auto)]

ghost use Rattle.std.specs.Prelude.{ℕ, List};
ghost use Rattle.crsm_port_image.specs.Calls.{Call, contents};
ghost use Rattle.crsm_port_image.specs.Image.{IsImage, image_of};
ghost use Rattle.crsm_port_image.specs.Torn.{IsTorn};

/// States that the bytes as they read are one of the images that a crash may leave. It runs no code.
pub fn reads_as_image()
    ensures { (first : List ℕ) (calls : List Call) → IsImage first calls (contents first calls) }
{}

/// States that the bytes with one fill byte in every unsynced place are such an image. It runs no code.
pub fn fills_as_image()
    ensures { (first : List ℕ) (calls : List Call) (fill : ℕ) → IsImage first calls (image_of first calls fill) }
{}

/// States that each image described by `IsTorn` in one sentence is one that calls reach step by step, so that what is
/// proved of all images holds of these. It runs no code.
pub fn each_image_is_reached()
    ensures { (first : List ℕ) (calls : List Call) (image : List ℕ) → IsTorn first calls image → IsImage first calls image }
{}
