// The refusals of the operations, as an error. `Refusal::number` is the number by which SPECIFICATION 9 knows each, and `number` what a C function
// answers.
#![tactic(auto)]

ghost use Rattle.std.specs.Prelude.{◌≡◌};
ghost use Rattle.refusals.specs.Numbers.{number_of, refusal_of};

use std::error::Error;
use std::fmt;

// What is wrong with what an operation was given.
#[derive(Clone, Copy, Debug, PartialEq, Eq)]
pub enum Refusal {
    // The connectivity is not 4, 6 or 8.
    Connectivity,
    // The width, the height or the pixels are beyond the grid.
    Grid,
    // The plate's length is not the pixels.
    PlateLength,
    // The limit is 0 or above the pixels.
    Limit,
    // An output is shorter than what it is to hold.
    OutputLength,
    // The work space is shorter than eight times the pixels, or an input is longer than what is read.
    WorkLength,
    // A plate file does not open with "P5" and a gap.
    Letters,
    // A gap or a number of a plate file's header is missing or malformed.
    GapOrNumber,
    // The greatest grey of a plate file is 0 or above 65,535.
    FileGreatest,
    // A raster is short.
    RasterShort,
    // Bytes follow a raster.
    RasterLong,
    // A record's bytes end inside a field.
    FieldUnended,
    // A record's field is not in the shortest form, or its number is too large.
    FieldMalformed,
    // A record's number is outside its range.
    FieldRange,
    // Bytes follow a record's last field.
    RecordLong,
    // A record is not that of its plate.
    RecordOther,
    // A roll has no plate of the number.
    PlateNumber,
    // The side is neither light nor dark.
    Side,
    // A pixel is above the greatest grey.
    GreyAbove,
    // The greatest grey is not 1 to 65,535.
    Greatest,
    // A record whose greatest grey is not 255 has no old form.
    Form,
}

impl Refusal {
    // The refusal's number.
    pub fn number(self) -> u32
        ensures { result ≡ number_of self }
    {
        match self {
            Refusal::Connectivity => 1,
            Refusal::Grid => 2,
            Refusal::PlateLength => 3,
            Refusal::Limit => 4,
            Refusal::OutputLength => 5,
            Refusal::WorkLength => 6,
            Refusal::Letters => 10,
            Refusal::GapOrNumber => 11,
            Refusal::FileGreatest => 12,
            Refusal::RasterShort => 14,
            Refusal::RasterLong => 15,
            Refusal::FieldUnended => 20,
            Refusal::FieldMalformed => 21,
            Refusal::FieldRange => 22,
            Refusal::RecordLong => 23,
            Refusal::RecordOther => 24,
            Refusal::PlateNumber => 25,
            Refusal::Side => 26,
            Refusal::GreyAbove => 28,
            Refusal::Greatest => 29,
            Refusal::Form => 30,
        }
    }
}

impl fmt::Display for Refusal {
    fn fmt<W: fmt::Write>(&self, f: &mut fmt::Formatter<W>) -> fmt::Result {
        write!(f, "refused {}", self.number())
    }
}

impl Error for Refusal {}

// The number of what an answer refuses, 0 where it refuses nothing.
pub fn number<T: Copy>(answer: Result<T, Refusal>) -> u32
    ensures { result ≡ refusal_of answer }
{
    match answer {
        Ok(_) => 0,
        Err(refusal) => refusal.number(),
    }
}
