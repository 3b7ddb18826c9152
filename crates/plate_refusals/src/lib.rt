// The conditions that several operations share, and those of the operations on plates: each check gives the first condition that is met as an error.
#![tactic(auto)]

ghost use Rattle.std.specs.Prelude.{◌≡◌, ◌&&◌, ◌*◌, leb, IfOk};
ghost use Rattle.meaning.specs.Plate.{grid_fits, connectivity_fits, greatest_fits, max_extent};
ghost use Rattle.meaning.specs.Answers.{any_above, image_refusal, plate_refusal, limit_refusal, out_refusal, tables_refusal, work_refusal};
ghost use Rattle.meaning.specs.Answers.{filter_refusal, clean_refusal, maxima_refusal};
ghost use Rattle.refusals.specs.Numbers.{refusal_of};
ghost use Rattle.work_columns.specs.Layout.{shape_of};
ghost use Rattle.plate_refusals.specs.Sides.{Chooses, side_number};

use refusals::Refusal;
use work_columns::Shape;

// The greatest width and height, the most pixels, the greatest of all greatest greys.
const MAX_EXTENT: u32 = 32768;

const MAX_PIXELS: u32 = 16777216;

const MAX_GREATEST: u32 = 65535;

// What is said of a plate beside its pixels' greys: its width, its height, its greatest grey, its connectivity.
#[derive(Clone, Copy, Debug, PartialEq, Eq)]
pub struct PlateHead {
    pub width: u32,
    pub height: u32,
    pub greatest: u32,
    pub connectivity: u32,
}

impl PlateHead {
    // The shape of a plate with so many pixels.
    pub fn shape(self, pixels: usize) -> Shape
        ensures { result ≡ shape_of pixels self.width self.height self.greatest self.connectivity }
    {
        work_columns::shape_of(
            pixels,
            self.width,
            self.height,
            self.greatest,
            self.connectivity,
        )
    }
}

// The numbers of the sides, which cleaning takes.
pub const LIGHT: u32 = 1;

pub const DARK: u32 = 2;

// The sides on which a plate is cleaned.
#[derive(Clone, Copy, Debug, PartialEq, Eq)]
pub enum Side {
    Light,
    Dark,
}

impl TryFrom<u32> for Side {
    type Error = Refusal;

    ghost try_from_gives = { Chooses };

    fn try_from(number: u32) -> Result<Side, Refusal> {
        match number {
            LIGHT => Ok(Side::Light),
            DARK => Ok(Side::Dark),
            _ => Err(Refusal::Side),
        }
    }
}

// Is the connectivity 4, 6 or 8?
pub fn connectivity_fits(connectivity: u32) -> bool
    ensures { result ≡ connectivity_fits connectivity }
{
    connectivity == 4 || (connectivity == 6 || connectivity == 8)
}

// Is an extent, a width or a height, within the grid?
fn extent_fits(extent: u32) -> bool
    ensures { result ≡ (leb 1 extent && leb extent max_extent) }
{
    1 <= extent && extent <= MAX_EXTENT
}

// Are the width, the height and their product, the pixels, within the grid?
pub fn grid_fits(width: u32, height: u32) -> bool
    ensures { result ≡ grid_fits width height }
{
    extent_fits(width) && (extent_fits(height) && width * height <= MAX_PIXELS)
}

// Is the greatest grey from 1 to 65,535?
pub fn greatest_fits(greatest: u32) -> bool
    ensures { result ≡ greatest_fits greatest }
{
    1 <= greatest && greatest <= MAX_GREATEST
}

// Is a pixel above the greatest grey?
pub fn any_above(image: &[u16], greatest: u32) -> bool
    ensures { result ≡ any_above greatest image.now }
{
    image.iter().any(|grey| greatest < *grey as u32)
}

// Is a limit from 1 to the pixels?
fn limit_fits(limit: u32, pixels: usize) -> bool
    ensures { result ≡ (leb 1 limit && leb limit pixels) }
{
    1 <= limit && limit as usize <= pixels
}

// 2, 29, 3 and 28 of a plate.
pub fn check_image(width: u32, height: u32, greatest: u32, image: &[u16]) -> Result<(), Refusal>
    ensures { refusal_of result ≡ image_refusal width height greatest image.now 0 }
{
    if !grid_fits(width, height) {
        return Err(Refusal::Grid);
    }
    if !greatest_fits(greatest) {
        return Err(Refusal::Greatest);
    }
    if image.len() != (width * height) as usize {
        return Err(Refusal::PlateLength);
    }
    if any_above(image, greatest) {
        return Err(Refusal::GreyAbove);
    }
    Ok(())
}

// 1, 2, 29, 3 and 28 of a plate with its connectivity.
pub fn check_plate(image: &[u16], plate: PlateHead) -> Result<(), Refusal>
    ensures { refusal_of result ≡ plate_refusal plate.connectivity plate.width plate.height plate.greatest image.now 0 }
{
    if !connectivity_fits(plate.connectivity) {
        return Err(Refusal::Connectivity);
    }
    check_image(plate.width, plate.height, plate.greatest, image)
}

// 5 of an output with so many places.
pub fn check_out(needed: usize, places: usize) -> Result<(), Refusal>
    ensures { refusal_of result ≡ out_refusal needed places 0 }
{
    if places < needed {
        return Err(Refusal::OutputLength);
    }
    Ok(())
}

// 4 of a limit, and 5 of an output for the pixels.
pub fn check_cut(limit: u32, pixels: usize, places: usize) -> Result<(), Refusal>
    ensures { refusal_of result ≡ limit_refusal pixels limit (out_refusal pixels places 0) }
{
    if !limit_fits(limit, pixels) {
        return Err(Refusal::Limit);
    }
    check_out(pixels, places)
}

// 5 of the two tables of the size list.
pub fn check_tables(pixels: usize, counts: usize, losses: usize) -> Result<(), Refusal>
    ensures { refusal_of result ≡ tables_refusal pixels counts losses 0 }
{
    if pixels == 0 {
        return Ok(());
    }
    let needed = pixels - 1;
    check_out(needed, counts)?;
    check_out(needed, losses)
}

// 6 of a work space.
pub fn check_work(pixels: usize, work: usize) -> Result<(), Refusal>
    ensures { refusal_of result ≡ work_refusal pixels work 0 }
{
    if work / 8 < pixels {
        return Err(Refusal::WorkLength);
    }
    Ok(())
}

// The conditions of an operation with a plate, a limit and an output of as many pixels.
#[tactic(auto, using(crate::proofs::Refusals::filter_plate, crate::proofs::Refusals::filter_output, crate::proofs::Refusals::filter_space))]
fn check_filter(
    image: &[u16],
    plate: PlateHead,
    limit: u32,
    out: usize,
    work: usize,
) -> Result<(), Refusal>
    ensures { refusal_of result
        ≡ filter_refusal plate.connectivity plate.width plate.height plate.greatest limit image.now out work }
{
    check_plate(image, plate)?;
    let pixels = image.len();
    check_cut(limit, pixels, out)?;
    check_work(pixels, work)
}

// The conditions of cleaning; the side.
#[tactic(auto, using(crate::proofs::Refusals::clean_side))]
pub fn check_clean(
    side: u32,
    image: &[u16],
    plate: PlateHead,
    limit: u32,
    out: usize,
    work: usize,
) -> Result<Side, Refusal>
    ensures number { refusal_of result
        ≡ clean_refusal side plate.connectivity plate.width plate.height plate.greatest limit image.now out work }
    ensures chosen { IfOk result (λ s. side_number s ≡ side) }
{
    let chosen = Side::try_from(side)?;
    check_filter(image, plate, limit, out, work)?;
    Ok(chosen)
}

// The conditions of marking maxima.
#[tactic(auto, using(crate::proofs::Refusals::maxima_plate, crate::proofs::Refusals::maxima_output, crate::proofs::Refusals::maxima_space))]
pub fn check_maxima(image: &[u16], plate: PlateHead, out: usize, work: usize) -> Result<(), Refusal>
    ensures { refusal_of result ≡ maxima_refusal plate.connectivity plate.width plate.height plate.greatest image.now out work }
{
    check_plate(image, plate)?;
    let pixels = image.len();
    check_out(pixels, out)?;
    check_work(pixels, work)
}

// 1, 2, 29, 3, 28 and 6 of the node list and of writing a record, which precede any work.
pub fn check_tree(image: &[u16], plate: PlateHead, work: usize) -> Result<(), Refusal>
    ensures { refusal_of result
        ≡ plate_refusal plate.connectivity plate.width plate.height plate.greatest image.now (work_refusal (plate.width * plate.height) work 0) }
{
    check_plate(image, plate)?;
    check_work(image.len(), work)
}
