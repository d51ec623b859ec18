// What the calls answer: why a call is refused, the number that says so, and the values of an answer. Document 01, "When a call says no"; from 12
// on the numbers of document 02, which join that table.

#![tactic(auto)]

ghost use Rattle.std.specs.Prelude.{◌≡◌};
ghost use Rattle.answers.specs.Numbers.{number_of};

use lent::SearchCounts;

// Why a call is refused, in the order of the table; specs/ gives each case its number.
#[derive(Clone, Copy, Debug, PartialEq, Eq)]
pub enum Refusal {
    PatternLength,
    ToleranceTooLarge,
    UnknownMethod,
    ToleranceNotTaken,
    FieldsTooWide,
    TextTooLong,
    TooFewPlaces,
    TotalTooLarge,
    Malformed,
    BufferTooShort,
    BadRequest,
    PatternSet,
    LostHourInPattern,
    BadEntries,
    ConflictingEntries,
}

// The number that the table gives a refusal.
pub fn number_of(refusal: Refusal) -> usize
    ensures { result ≡ number_of refusal }
{
    match refusal {
        Refusal::PatternLength => 1,
        Refusal::ToleranceTooLarge => 2,
        Refusal::UnknownMethod => 3,
        Refusal::ToleranceNotTaken => 4,
        Refusal::FieldsTooWide => 5,
        Refusal::TextTooLong => 6,
        Refusal::TooFewPlaces => 7,
        Refusal::TotalTooLarge => 8,
        Refusal::Malformed => 9,
        Refusal::BufferTooShort => 10,
        Refusal::BadRequest => 11,
        Refusal::PatternSet => 12,
        Refusal::LostHourInPattern => 13,
        Refusal::BadEntries => 15,
        Refusal::ConflictingEntries => 16,
    }
}

// Whether a call is refused that has no other answer: open, set method and load.
pub type Admission = Result<(), Refusal>;

// What a search of a text or of a chunk answers.
pub type Answer = Result<SearchCounts, Refusal>;

// What a whole search with its sheet counted (document 02, T-02): the two counts, and how many bytes the sheet has.
#[derive(Clone, Copy, Debug, PartialEq, Eq)]
pub struct SheetCounts {
    pub found: usize,
    pub inspections: usize,
    pub len: usize,
}

// What a whole search with its sheet answers.
pub type SheetAnswer = Result<SheetCounts, Refusal>;

// What a search for the first match from a given position on came to (document 02, T-08): the position, where there is one, and the inspections made.
#[derive(Clone, Copy, Debug, PartialEq, Eq)]
pub struct First {
    pub position: Option<usize>,
    pub inspections: usize,
}

// What a search for the first match answers.
pub type FirstAnswer = Result<First, Refusal>;

// What a save answers: the image's length.
pub type Saving = Result<usize, Refusal>;
