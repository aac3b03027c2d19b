#![tactic(auto)]

//! Laws of collections, the reports of suspended logs that make the next epoch's decision, each as the contract of a
//! function that runs no code.

ghost use Rattle.crsm_law_collection.specs.Collecting.{CollectionLaw};
ghost use Rattle.crsm_law_collection.specs.Frozen.{StaysFrozen};
ghost use Rattle.crsm_law_collection.specs.Collecting.{ReportsMakeCollections};
ghost use Rattle.crsm_law_collection.specs.Collecting.{CollectionsStay};
ghost use Rattle.crsm_law_collection.specs.Collecting.{CommitsStand};
ghost use Rattle.crsm_law_collection.specs.Collecting.{CollectionsAreWellMade};
ghost use Rattle.crsm_law_collection.specs.Premises.{PremisesSuffice};
ghost use Rattle.crsm_law_collection.specs.Paging.{PagesBegin};
ghost use Rattle.crsm_law_collection.specs.Paging.{PagesGoOn};
ghost use Rattle.crsm_law_collection.specs.Paging.{PagesReport};
ghost use Rattle.crsm_law_collection.specs.Paging.{PagesStay};
ghost use Rattle.crsm_law_collection.specs.Paging.{AnswersArePages};
ghost use Rattle.crsm_law_collection.specs.Starts.{CompleteIsCollected};
ghost use Rattle.crsm_law_collection.specs.Starts.{ListsArePrefixes};
ghost use Rattle.crsm_law_collection.specs.Keeping.{FactsBegin};
ghost use Rattle.crsm_law_collection.specs.Keeping.{FactsGoOn};
ghost use Rattle.crsm_law_collection.specs.Keeping.{FactsOfStateGoOn};
ghost use Rattle.crsm_law_collection.specs.Starts.{StartRises};

/// Each entry committed in an epoch, at any time, is at its place in every decision made of the suspended logs of a
/// majority.
pub fn collection_law()
    ensures { CollectionLaw }
{}

/// A suspended replica logs no more entries in the epoch that it knows.
pub fn stays_frozen()
    ensures { StaysFrozen }
{}

/// The reports of a suspended majority make a collection.
pub fn reports_make_collections()
    ensures { ReportsMakeCollections }
{}

/// A collection stays one while logs grow.
pub fn collections_stay()
    ensures { CollectionsStay }
{}

/// Each commit of the epoch is at its place in each collection.
pub fn commits_stand()
    ensures { CommitsStand }
{}

/// A collection's tail rises, has logged entries only, and begins after the end of its base.
pub fn collections_are_well_made()
    ensures { CollectionsAreWellMade }
{}

/// The properties of votes and received times within an epoch imply the premises of the law of collection.
pub fn premises_suffice()
    ensures { PremisesSuffice }
{}

/// A coordinator's own page is complete, and a part of its report.
pub fn pages_begin()
    ensures { PagesBegin }
{}

/// Each page that a coordinator accepts extends the part of its sender's report.
pub fn pages_go_on()
    ensures { PagesGoOn }
{}

/// A complete part is a report.
pub fn pages_report()
    ensures { PagesReport }
{}

/// Parts of reports stay such while logs grow.
pub fn pages_stay()
    ensures { PagesStay }
{}

/// A SUSPENDOK carries a page of its sender's report.
pub fn answers_are_pages()
    ensures { AnswersArePages }
{}

/// The decision that a coordinator makes of the complete reports of a majority is a collection.
pub fn complete_is_collected()
    ensures { CompleteIsCollected }
{}

/// The executed list of each replica that knows an epoch is a prefix of the beginning of the next, by any collection.
pub fn lists_are_prefixes()
    ensures { ListsArePrefixes }
{}

/// The facts of each epoch hold before the first record.
pub fn facts_begin()
    ensures { FactsBegin }
{}

/// The facts of an epoch are kept by each record that fits and meets the conditions of its kind.
pub fn facts_go_on()
    ensures { FactsGoOn }
{}

/// The facts of an epoch are kept if a received entry is its origin's, an own entry is new, and what was received is
/// logged.
pub fn facts_of_state_go_on()
    ensures { FactsOfStateGoOn }
{}

/// The beginning of the next epoch, by a collection, rises by epoch and stamp.
pub fn start_rises()
    ensures { StartRises }
{}
