// Writes a plate file, in the one form without comments or leading zeros: SPECIFICATION 5. specs/Writing.antt has the file and what writing it
// answers.
#![tactic(auto)]

ghost use Rattle.std.specs.Prelude.{◌≡◌, false, ◌+◌, ◌*◌, ◌≤◌, length};
ghost use Rattle.meaning.specs.Plate.{byte_greatest};
ghost use Rattle.meaning.specs.Answers.{any_above, out_after};
ghost use Rattle.text_lines.specs.Lines.{PutText};
ghost use Rattle.pgm_write.specs.Writing.{header_lines, byte_pairs, raster_of, pgm_of, write_answer, write_pgm};

use pgm::PgmHead;
use refusals::Refusal;

// What the C function that writes a plate file answers: 0 or the refusal, and the file's length, which is 0 where it refuses.
#[repr(C)]
#[derive(Clone, Copy, Debug, PartialEq, Eq)]
pub struct PgmWritten {
    pub refusal: u32,
    pub length: usize,
}

impl From<Result<usize, Refusal>> for PgmWritten {
    ghost from_gives = { λ answer written. written ≡ write_answer answer };

    fn from(answer: Result<usize, Refusal>) -> PgmWritten {
        match answer {
            Ok(length) => PgmWritten { refusal: 0, length },
            Err(refusal) => PgmWritten {
                refusal: refusal.number(),
                length: 0,
            },
        }
    }
}

// Puts the header.
fn put_header(text: &mut [u8], head: PgmHead) -> usize
    requires { 66 ≤ length text.old }
    ensures put_text { PutText text.old 0 (header_lines head.width head.height head.greatest) text.new result }
    ensures upper_bound { result ≤ 66 }
{
    let letters = text_lines::put_word(text, 0, b"P5");
    let first = text_lines::put_end(text, letters);
    let extent = text_lines::put_decimal(text, first, u64::from(head.width));
    let extents = text_lines::put_field(text, extent, u64::from(head.height));
    let second = text_lines::put_end(text, extents);
    let third = text_lines::put_decimal(text, second, u64::from(head.greatest));
    text_lines::put_end(text, third)
}

// Puts greys as one byte each.
fn put_bytes(text: &mut [u8], at: usize, image: &[u16]) -> usize
    requires image_in_bounds { at + length image.now ≤ length text.old }
    requires image_value { any_above byte_greatest image.now ≡ false }
    ensures { PutText text.old at image.now text.new result }
{
    for (p, grey) in image.iter().enumerate() {
        text[at + p] = *grey as u8;
    }
    at + image.len()
}

// Puts greys as two bytes each, the high byte first.
fn put_pairs(text: &mut [u8], at: usize, image: &[u16]) -> usize
    requires { at + 2 * length image.now ≤ length text.old }
    ensures { PutText text.old at (byte_pairs image.now) text.new result }
{
    for (p, grey) in image.iter().enumerate() {
        let high = at + 2 * p;
        text[high..high + 2].copy_from_slice(&grey.to_be_bytes());
    }
    at + 2 * image.len()
}

// Puts the raster.
fn put_raster(text: &mut [u8], at: usize, image: &[u16], greatest: u32) -> usize
    requires image_in_bounds { at + length (raster_of greatest image.now) ≤ length text.old }
    requires image_value { any_above greatest image.now ≡ false }
    ensures { PutText text.old at (raster_of greatest image.now) text.new result }
{
    if pgm::pixel_bytes(greatest) == 1 {
        put_bytes(text, at, image)
    } else {
        put_pairs(text, at, image)
    }
}

// Writes the plate file of a plate into the output, and answers its length. A refusal leaves the output as it was.
pub fn write_pgm(image: &[u16], head: PgmHead, out: &mut [u8]) -> Result<usize, Refusal>
    ensures value { write_answer result ≡ write_pgm head.width head.height head.greatest image.now (length out.old) }
    ensures out_after { out.new ≡ out_after (write_pgm head.width head.height head.greatest image.now (length out.old)).refusal
        (pgm_of head.width head.height head.greatest image.now) out.old }
{
    plate_refusals::check_image(head.width, head.height, head.greatest, image)?;
    let mut header = [0u8; 66];
    let raster = put_header(&mut header, head);
    let length = raster + head.raster_bytes();
    plate_refusals::check_out(length, out.len())?;
    text_lines::put_word(out, 0, &header[..raster]);
    put_raster(out, raster, image, head.greatest);
    Ok(length)
}
