//! The law that the outcomes of a collection follow the protocol.

ghost use Rattle.crsm_suspend.specs.Coordinating.{PagesAreTaken, ReportsAreCounted};

/// States that a replica that acts on the outcome of a page, of another or its own, acts as the rules of the protocol
/// say. It runs no code.
pub fn got_is_by_the_rules()
    ensures taken { PagesAreTaken }
    ensures counted { ReportsAreCounted }
{}
