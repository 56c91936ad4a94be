// Defines the errors of all entry points: the checks (questions) of documents 01 and 02 that can fail.
// A variant has upstream's error name if there is one. `specs/Numbers.antt` has the error numbers and values.

#![tactic(auto)]

ghost use Rattle.std.specs.Prelude.{◌≡◌, get_or};
ghost use Rattle.refusal.specs.Numbers.{number_of, values_of};

#[derive(Clone, Copy)]
pub enum Refusal {
    // The board.
    InvalidSize,
    InvalidCellSize,
    InvalidMarkerSizeRel,
    InvalidBorderBits,
    EmptyDictionary,
    BoardOutOfRange,
    NotEnoughDictionaryCodes { needed: u32, available: u32 },
    CodeOutOfRange,
    // Match.
    InvalidSettings,
    InvalidTable,
    NoCells,
    CellsOutOfRange,
    InvalidSample,
    ListTooShort,
    TranslationWindow,
    Margin { margin: f32 },
    NoMarkers,
    // Corner, link and cells entry points, the record.
    CornersOutOfRange,
    TooManyLinks,
    TooManyCells,
    InvalidRecord,
    // Document 02: the board, Match, and converters of records.
    CodesAlike,
    RepeatedPoint,
    ScoreListTooShort,
    EvenLegacyBoard,
}

impl Refusal {
    // The error number: the number of the question that failed.
    pub fn number(self) -> u32
        ensures { result ≡ number_of self }
    {
        match self {
            Refusal::InvalidSize => 1,
            Refusal::InvalidCellSize => 2,
            Refusal::InvalidMarkerSizeRel => 3,
            Refusal::InvalidBorderBits => 4,
            Refusal::EmptyDictionary => 5,
            Refusal::BoardOutOfRange => 6,
            Refusal::NotEnoughDictionaryCodes {
                needed: _,
                available: _,
            } => 7,
            Refusal::CodeOutOfRange => 8,
            Refusal::InvalidSettings => 9,
            Refusal::InvalidTable => 10,
            Refusal::NoCells => 11,
            Refusal::CellsOutOfRange => 12,
            Refusal::InvalidSample => 13,
            Refusal::ListTooShort => 14,
            Refusal::TranslationWindow => 15,
            Refusal::Margin { margin: _ } => 16,
            Refusal::NoMarkers => 17,
            Refusal::CornersOutOfRange => 18,
            Refusal::TooManyLinks => 19,
            Refusal::TooManyCells => 20,
            Refusal::InvalidRecord => 21,
            Refusal::CodesAlike => 22,
            Refusal::RepeatedPoint => 23,
            Refusal::ScoreListTooShort => 24,
            Refusal::EvenLegacyBoard => 25,
        }
    }

    // Value `k` of the error, 0 past the last.
    pub fn value(self, k: usize) -> u32
        ensures { result ≡ get_or (values_of self) k 0 }
    {
        match self {
            Refusal::NotEnoughDictionaryCodes { needed, available } => {
                if k == 0 {
                    return needed;
                }
                if k == 1 {
                    return available;
                }
                0
            }
            Refusal::Margin { margin } => {
                if k == 0 {
                    return floats::to_bits(margin);
                }
                0
            }
            _ => 0,
        }
    }
}
