// The refusal table of documents 01 and 02 as an enum, the limits that it names, and the test of one row. specs/Refusal.antt has the order
// of the rows, and specs/Outcome.antt what a refused call answers and leaves. Uses lists.
#![tactic(auto)]

ghost use Rattle.std.specs.Prelude.{◌≡◌};
ghost use Rattle.refusals.specs.Refusal.{number_of, record_too_long};
ghost use Rattle.refusals.specs.Outcome.{refused_if};

// Why a call is refused: a row of the table, with the number that C sees for it.
#[derive(Clone, Copy, Debug, PartialEq, Eq)]
pub enum Refusal {
    // No thresholds.
    NoThresholds = 1,
    // More than 3 thresholds.
    TooManyThresholds = 2,
    // The second threshold is above the first.
    XyAboveTotal = 3,
    // The third threshold is above the second.
    YxAboveXy = 4,
    // A read has no MI.
    NoMi = 5,
    // An MI does not end in /A or /B.
    NoStrand = 6,
    // An array of a strand or record, a sequence, or a length to pad to is over MAX_POSITIONS.
    TooLong = 7,
    // Arrays of one strand or of one record, or evidence and bases, differ in length.
    Ragged = 8,
    // A list has over MAX_READS reads.
    TooManyReads = 9,
    // A read's part leaves its byte buffer.
    PartOutside = 10,
    // Padding below the present length.
    BelowLength = 11,
    // A lent output is shorter than what goes there.
    OutputTooShort = 12,
    // Bytes that do not read as what they stand for: a broken tray, or a byte count that does not fit the width.
    Broken = 13,
    // The ceiling of qualities that a lab chooses is outside 3 to 93.
    CeilingOutside = 14,
    // An array of a strand is over the limit that a lab chooses, which may be below MAX_POSITIONS.
    OverLimit = 19,
}

impl Refusal {
    // The number of the row: those that C sees.
    pub fn number(self) -> u8
        ensures { result ≡ number_of self }
    {
        self as u8
    }
}

// The same for `?`, where a refusal is answered by its number.
impl From<Refusal> for u8 {
    ghost from_gives = { λ refusal number. number ≡ number_of refusal };

    fn from(refusal: Refusal) -> Self {
        refusal.number()
    }
}

// The most positions of a strand or a record.
pub const MAX_POSITIONS: usize = 1024;

// The most reads of a list.
pub const MAX_READS: usize = 1024;

// One test of a call: refused with the row where its condition is met. A call tests in the order of the table.
pub fn refuse(met: bool, refusal: Refusal) -> Result<(), Refusal>
    ensures { result ≡ refused_if met refusal }
{
    if met { Err(refusal) } else { Ok(()) }
}

// Row 7's condition for a record of so many positions, by how many elements an array of each strand has.
pub fn record_too_long(positions: usize, a: usize, b: usize) -> bool
    ensures { result ≡ record_too_long positions a b }
{
    (MAX_POSITIONS < positions) | ((MAX_POSITIONS < a) | (MAX_POSITIONS < b))
}
