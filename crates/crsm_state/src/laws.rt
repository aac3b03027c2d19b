//! Laws of encodings of histories.

ghost use Rattle.crsm_state.specs.Faults.{EncodingsHaveNoFault};
ghost use Rattle.crsm_state.specs.Histories.{HistoriesHaveOneEncoding};

/// States that two histories are one where their encodings are. It runs no code.
pub fn histories_have_one_encoding()
    ensures { HistoriesHaveOneEncoding }
{}

/// States that bytes that are the encoding of a history have no fault for which decoding refuses bytes. It runs no code.
pub fn encodings_have_no_fault()
    ensures { EncodingsHaveNoFault }
{}
