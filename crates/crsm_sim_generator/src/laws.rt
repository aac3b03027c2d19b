//! The law that generated events are possible.

ghost use Rattle.crsm_sim_generator.specs.Possible.{DrawnCanHappen};

/// States that a generated event is possible in the world given to the generator. It runs no code.
pub fn drawn_can_happen()
    ensures { DrawnCanHappen }
{}
