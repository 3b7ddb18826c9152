// Reads a roll, plate files one after the other: SPECIFICATION 5. specs/Roll.antt has what a roll is, and what the operations answer.
#![tactic(auto)]

ghost use Rattle.std.specs.Prelude.{◌≡◌, ◌≤◌, length, drop};
ghost use Rattle.meaning.specs.Answers.{out_after};
ghost use Rattle.pgm.specs.File.{read_answer};
ghost use Rattle.pgm_header.specs.Grammar.{sound};
ghost use Rattle.pgm_roll.specs.Roll.{roll, count_of, count_answer, numbered, plate_read, after_header, place_of, place_answer, plate_at};
ghost use Rattle.pgm_roll.specs.Scan.{Scanned};

use pgm::PgmHead;
use refusals::Refusal;

// A plate that was found in a roll: its head, and the places where its raster begins and ends.
#[derive(Clone, Copy, Debug, PartialEq, Eq)]
pub struct FoundPlate {
    pub head: PgmHead,
    pub raster: usize,
    pub end: usize,
}

// What the C function that looks at the plate that begins at a place answers: 0 or the refusal, its sizes and greatest grey, and the places where
// its raster begins and ends, which are 0 where it refuses.
#[repr(C)]
#[derive(Clone, Copy, Debug, PartialEq, Eq)]
pub struct PlateAt {
    pub refusal: u32,
    pub width: u32,
    pub height: u32,
    pub greatest: u32,
    pub raster: usize,
    pub end: usize,
}

impl From<Result<FoundPlate, Refusal>> for PlateAt {
    ghost from_gives = { λ answer place. place ≡ place_answer answer };

    fn from(answer: Result<FoundPlate, Refusal>) -> PlateAt {
        match answer {
            Ok(plate) => PlateAt {
                refusal: 0,
                width: plate.head.width,
                height: plate.head.height,
                greatest: plate.head.greatest,
                raster: plate.raster,
                end: plate.end,
            },
            Err(refusal) => PlateAt {
                refusal: refusal.number(),
                width: 0,
                height: 0,
                greatest: 0,
                raster: 0,
                end: 0,
            },
        }
    }
}

// What the C function that counts the plates of a roll answers: 0 or the refusal, and the count, which is 0 where it refuses.
#[repr(C)]
#[derive(Clone, Copy, Debug, PartialEq, Eq)]
pub struct RollCount {
    pub refusal: u32,
    pub count: usize,
}

impl From<Result<usize, Refusal>> for RollCount {
    ghost from_gives = { λ answer counted. counted ≡ count_answer answer };

    fn from(answer: Result<usize, Refusal>) -> RollCount {
        match answer {
            Ok(count) => RollCount { refusal: 0, count },
            Err(refusal) => RollCount {
                refusal: refusal.number(),
                count: 0,
            },
        }
    }
}

// What a pass over a roll found: the number of plates, the pixels of the largest, and the plate that was looked for.
#[derive(Clone, Copy, Debug, PartialEq, Eq)]
pub struct RollScan {
    pub count: usize,
    pub largest: usize,
    pub chosen: Option<FoundPlate>,
}

// The plate whose raster begins at `at`, after a sound header.
fn raster_at(file: &[u8], at: usize, head: PgmHead) -> Result<FoundPlate, Refusal>
    requires { at ≤ length file.now }
    ensures { place_answer result
        ≡ place_of (length file.now) (after_header (sound head.width head.height head.greatest (drop at file.now))) }
{
    head.check_short(file.len() - at)?;
    let end = at + head.raster_bytes();
    if pgm::grey_above(&file[at..end], head.greatest) {
        return Err(Refusal::GreyAbove);
    }
    Ok(FoundPlate {
        head,
        raster: at,
        end,
    })
}

// The plate that begins at place `at` of a roll. None begins at the end and beyond.
pub fn plate_at(file: &[u8], at: usize) -> Result<FoundPlate, Refusal>
    ensures { place_answer result ≡ plate_at file.now at }
{
    let header = pgm_header::header_at(file, at)?;
    raster_at(file, header.raster.at, PgmHead::from(header))
}

// A pass over a roll, which looks for the plate of a number.
pub fn scan_roll(file: &[u8], number: usize) -> Result<RollScan, Refusal>
    ensures { Scanned file.now number result }
{
    let mut at = 0;
    let mut count = 0;
    let mut largest = 0;
    let mut chosen = None;
    while at < file.len() {
        let plate = plate_at(file, at)?;
        at = plate.end;
        largest = plate.head.pixels().max(largest);
        if count == number {
            chosen = Some(plate);
        }
        count += 1;
    }
    Ok(RollScan {
        count,
        largest,
        chosen,
    })
}

// The number of plates of a roll.
pub fn roll_count(file: &[u8]) -> Result<usize, Refusal>
    ensures { count_answer result ≡ count_of (roll file.now) }
{
    let scan = scan_roll(file, 0)?;
    Ok(scan.count)
}

// Reads the plate of a number, counted from 0, of a roll into the output. A refusal leaves the output as it was.
pub fn roll_plate(file: &[u8], number: usize, out: &mut [u16]) -> Result<PgmHead, Refusal>
    ensures value { read_answer result ≡ plate_read (roll file.now) number (length out.old) }
    ensures out_after { out.new ≡ out_after (plate_read (roll file.now) number (length out.old)).refusal
        (numbered (roll file.now) number).greys out.old }
{
    let scan = scan_roll(file, number)?;
    let Some(plate) = scan.chosen else {
        return Err(Refusal::PlateNumber);
    };
    plate_refusals::check_out(plate.head.pixels(), out.len())?;
    pgm::write_greys(&file[plate.raster..plate.end], plate.head.greatest, out);
    Ok(plate.head)
}
