// The text that the program sizelist prints for a roll of plates.
#![tactic(auto)]

ghost use Rattle.std.specs.Prelude.{◌+◌, ◌≤◌, length, Ok};
ghost use Rattle.text_lines.specs.Pieces.{HasRoom, Puts};
ghost use Rattle.pgm_roll.specs.Roll.{place_answer, plates_of, roll};
ghost use Rattle.pgm_roll.specs.Scan.{greys_at};
ghost use Rattle.text_plate.specs.Text.{plate_text};
ghost use Rattle.text_plate.specs.Pieces.{plate_bytes};
ghost use Rattle.text_roll.specs.Text.{plates_text, size_text};
ghost use Rattle.text_roll.specs.Pieces.{text_places, SmallPlace, SmallRoll, Made};

use pgm_roll::FoundPlate;
use refusals::Refusal;
use text_lines::Text;
use text_plate::put_refused;

// The longest input, in bytes.
const INPUT_BYTES: usize = 4096;

// The most pixels of a plate.
const MOST_PIXELS: usize = 1024;

// Puts the text of a plate that stands in a file.
fn put_plate(text: &mut Text, file: &[u8], plate: FoundPlate)
    requires { SmallPlace file.now (place_answer (Ok plate)) text.old.bytes.now text.old.length }
    ensures puts { Puts text.old (plate_text plate.head.width plate.head.height plate.head.greatest
        (greys_at file.now (place_answer (Ok plate)))) text.new }
    ensures upper_bound { text.new.length ≤ text.old.length + plate_bytes (length (greys_at file.now (place_answer (Ok plate)))) }
{
    let head = plate.head;
    let mut greys = [0u16; MOST_PIXELS];
    pgm::write_greys(&file[plate.raster..plate.end], head.greatest, &mut greys);
    let image = &greys[..head.pixels()];
    text_plate::put_plate(text, image, head.width, head.height, head.greatest);
}

// Puts the texts of the plates of a roll, one after the other.
fn put_plates(text: &mut Text, file: &[u8])
    requires { SmallRoll file.now text.old }
    ensures { Puts text.old (plates_text (plates_of (roll file.now))) text.new }
{
    let mut at = 0;
    while at < file.len() {
        let plate = pgm_roll::plate_at(file, at).unwrap();
        at = plate.end;
        put_plate(text, file, plate);
    }
}

// Puts what sizelist prints for a file. No text is put before the last plate is judged.
fn put_text(text: &mut Text, file: &[u8])
    requires { HasRoom text.old text_places }
    ensures { Puts text.old (size_text file.now) text.new }
{
    if INPUT_BYTES < file.len() {
        return put_refused(text, Refusal::WorkLength);
    }
    match pgm_roll::scan_roll(file, 0) {
        Err(refusal) => put_refused(text, refusal),
        Ok(scan) if MOST_PIXELS < scan.largest => put_refused(text, Refusal::OutputLength),
        Ok(_) => put_plates(text, file),
    }
}

// Room for the longest text: 63 bytes for each byte of the input are enough.
pub fn text_buffer() -> [u8; 262144] {
    [0u8; 262144]
}

// Puts what sizelist prints for a file from the first place of the text on, and gives its length.
pub fn size_text(file: &[u8], text: &mut [u8; 262144]) -> usize
    ensures { Made (size_text file.now) text.old text.new result }
{
    let mut lines = Text::new(text, 0);
    put_text(&mut lines, file);
    lines.length
}
