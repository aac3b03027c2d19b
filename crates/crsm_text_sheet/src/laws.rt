//! Laws of sheet texts, for the crates above.

ghost use Rattle.crsm_text_sheet.specs.Laws.{LinesHaveOneText, LinesHaveNoFeed, SheetsTellTurns, TextsHaveOneSheet};

/// Two sheet lines with the same text are equal.
pub fn lines_have_one_text()
    ensures { LinesHaveOneText }
{}

/// The text of a sheet line has no line feed.
pub fn lines_have_no_feed()
    ensures { LinesHaveNoFeed }
{}

/// A text is that of at most one list of lines, and the lines are those of at most one list of log bodies and one list
/// of turns.
pub fn sheets_are_one()
    ensures text { TextsHaveOneSheet }
    ensures turns { SheetsTellTurns }
{}
