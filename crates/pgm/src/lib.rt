// Reads a plate file, the binary form of Netpbm's PGM: SPECIFICATION 5. specs/File.antt has what reading a file answers, by the grammar of its
// header in crates/pgm_header, and specs/Examples.antt examples.
#![tactic(auto)]

ghost use Rattle.std.specs.Prelude.{◌≡◌, true, ◌*◌, ◌≤◌, ◌<◌, length};
ghost use Rattle.meaning.specs.Plate.{grid_fits, grey};
ghost use Rattle.meaning.specs.Answers.{any_above, over, out_after};
ghost use Rattle.refusals.specs.Numbers.{refusal_of};
ghost use Rattle.pgm.specs.File.{pixel_bytes, raster_bytes, greys_of, short_refusal, raster_refusal, head_of, read_answer};
ghost use Rattle.pgm.specs.File.{ReadPlate, read_pgm, plate_of};

use pgm_header::Header;
use refusals::Refusal;

// The sizes and the greatest grey of a plate file.
#[derive(Clone, Copy, Debug, PartialEq, Eq)]
pub struct PgmHead {
    pub width: u32,
    pub height: u32,
    pub greatest: u32,
}

impl From<Header> for PgmHead {
    ghost from_gives = { λ header head. head ≡ head_of header };

    fn from(header: Header) -> PgmHead {
        PgmHead {
            width: header.width,
            height: header.height,
            greatest: header.greatest,
        }
    }
}

// What the C function that reads a plate file answers: 0 or the refusal, and the sizes and the greatest grey, which are 0 where it refuses.
#[repr(C)]
#[derive(Clone, Copy, Debug, PartialEq, Eq)]
pub struct PgmRead {
    pub refusal: u32,
    pub width: u32,
    pub height: u32,
    pub greatest: u32,
}

impl From<Result<PgmHead, Refusal>> for PgmRead {
    ghost from_gives = { λ answer read. read ≡ read_answer answer };

    fn from(answer: Result<PgmHead, Refusal>) -> PgmRead {
        match answer {
            Ok(head) => PgmRead {
                refusal: 0,
                width: head.width,
                height: head.height,
                greatest: head.greatest,
            },
            Err(refusal) => PgmRead {
                refusal: refusal.number(),
                width: 0,
                height: 0,
                greatest: 0,
            },
        }
    }
}

// The greatest of the greatest greys whose pixels have one byte.
const BYTE_GREATEST: u32 = 255;

// How many bytes a pixel has.
pub fn pixel_bytes(greatest: u32) -> usize
    ensures { result ≡ pixel_bytes greatest }
{
    if greatest <= BYTE_GREATEST { 1 } else { 2 }
}

// How many pixels a raster has.
#[tactic(auto, using(crate::proofs::Raster::greys_count))]
fn pixel_count(raster: &[u8], greatest: u32) -> usize
    ensures { result ≡ length (greys_of greatest raster.now) }
{
    raster.len() / pixel_bytes(greatest)
}

// The grey of pixel p of a raster.
#[tactic(auto, using(crate::proofs::Raster::byte_within, crate::proofs::Raster::pair_within, crate::proofs::Raster::byte_grey, crate::proofs::Raster::pair_grey))]
fn grey_at(raster: &[u8], greatest: u32, p: usize) -> u16
    requires { p < length (greys_of greatest raster.now) }
    ensures { result ≡ grey (greys_of greatest raster.now) p }
{
    if pixel_bytes(greatest) == 1 {
        return u16::from(raster[p]);
    }
    let high = 2 * p;
    u16::from_be_bytes([raster[high], raster[high + 1]])
}

// Is a pixel of a raster above the greatest grey?
pub fn grey_above(raster: &[u8], greatest: u32) -> bool
    ensures { result ≡ any_above greatest (greys_of greatest raster.now) }
{
    (0..pixel_count(raster, greatest)).any(|p| greatest < u32::from(grey_at(raster, greatest, p)))
}

// Writes the greys of a raster from the output's first place on.
pub fn write_greys(raster: &[u8], greatest: u32, out: &mut [u16])
    requires { length (greys_of greatest raster.now) ≤ length out.old }
    ensures { out.new ≡ over (greys_of greatest raster.now) out.old }
{
    let pixels = pixel_count(raster, greatest);
    for (p, place) in out[..pixels].iter_mut().enumerate() {
        *place = grey_at(raster, greatest, p);
    }
}

impl PgmHead {
    // How many pixels the plate has.
    #[tactic(auto, using(crate::proofs::Raster::few_pixels))]
    pub fn pixels(self) -> usize
        requires { grid_fits self.width self.height ≡ true }
        ensures { result ≡ self.width * self.height }
    {
        (self.width * self.height) as usize
    }

    // How many bytes the raster of the plate has.
    #[tactic(auto, using(crate::proofs::Raster::few_pixels, crate::proofs::Raster::bytes_most))]
    pub fn raster_bytes(self) -> usize
        requires { grid_fits self.width self.height ≡ true }
        ensures { result ≡ raster_bytes self.width self.height self.greatest }
    {
        pixel_bytes(self.greatest) * self.pixels()
    }

    // 2, 12 and 14 after a sound header that so many bytes follow.
    pub fn check_short(self, follow: usize) -> Result<(), Refusal>
        ensures { refusal_of result ≡ short_refusal self.width self.height self.greatest follow 0 }
    {
        if !plate_refusals::grid_fits(self.width, self.height) {
            return Err(Refusal::Grid);
        }
        if !plate_refusals::greatest_fits(self.greatest) {
            return Err(Refusal::FileGreatest);
        }
        if follow < self.raster_bytes() {
            return Err(Refusal::RasterShort);
        }
        Ok(())
    }

    // The refusals after a sound header, where the output's length is `room`.
    #[tactic(auto, using(crate::proofs::Readable::raster_stopped), unfolding(crate::specs::File::raster_refusal))]
    fn check_raster(self, raster: &[u8], room: usize) -> Result<(), Refusal>
        ensures { refusal_of result ≡ raster_refusal self.width self.height self.greatest raster.now room }
    {
        self.check_short(raster.len())?;
        if self.raster_bytes() < raster.len() {
            return Err(Refusal::RasterLong);
        }
        if grey_above(raster, self.greatest) {
            return Err(Refusal::GreyAbove);
        }
        plate_refusals::check_out(self.pixels(), room)
    }

    // Reads the plate with this raster, after a sound header.
    #[tactic(auto, using(crate::proofs::Reading::plate_fits))]
    fn read_plate(self, raster: &[u8], out: &mut [u16]) -> Result<PgmHead, Refusal>
        ensures { ReadPlate self.width self.height self.greatest raster.now out.old (read_answer result) out.new }
    {
        self.check_raster(raster, out.len())?;
        write_greys(raster, self.greatest, out);
        Ok(self)
    }
}

// Reads a plate file into the output. A refusal leaves the output as it was.
pub fn read_pgm(file: &[u8], out: &mut [u16]) -> Result<PgmHead, Refusal>
    ensures value { read_answer result ≡ read_pgm file.now (length out.old) }
    ensures out_after { out.new ≡ out_after (read_pgm file.now (length out.old)).refusal (plate_of file.now)
        out.old }
{
    let header = pgm_header::header_at(file, 0)?;
    PgmHead::from(header).read_plate(&file[header.raster.at..], out)
}
