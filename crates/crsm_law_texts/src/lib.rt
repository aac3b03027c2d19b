//! Texts are unambiguous: a schedule line is the text of one event, and a transcript that of one list of lines.
#![tactic(auto)]

ghost use Rattle.crsm_law_texts.specs.Texts.{EventsHaveOneText, FirstLinesHaveOneText, EventsAreLines, FirstLinesAreLines, TranscriptsAreOne};

/// Two events with the same schedule line are equal.
pub fn events_have_one_text()
    ensures { EventsHaveOneText }
{}

/// Two first lines of schedules with the same text have the same number of replicas.
pub fn first_lines_have_one_text()
    ensures { FirstLinesHaveOneText }
{}

/// The text of an event or of a first line has no line feed, and is within the limit of a line.
pub fn spelt_are_lines()
    ensures events { EventsAreLines }
    ensures first { FirstLinesAreLines }
{}

/// Two transcripts with the same text have the same lines, with the same numbers before them.
pub fn transcripts_are_one()
    ensures { TranscriptsAreOne }
{}
