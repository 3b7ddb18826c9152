// The texts that the program sizelist prints for a plate and for a refusal. It serves the crates `text_sizelist` and `text_roll`, which know that there is room.
#![tactic(auto)]

ghost use Rattle.std.specs.Prelude.{◌+◌, ◌*◌, ◌≤◌, ◌<◌, length, ◌≡◌, true};
ghost use Rattle.meaning.specs.Plate.{greatest_fits};
ghost use Rattle.meaning.specs.Sets.{gather};
ghost use Rattle.refusals.specs.Numbers.{number_of};
ghost use Rattle.text_lines.specs.Lines.{PutText};
ghost use Rattle.text_lines.specs.Pieces.{HasRoom, Puts};
ghost use Rattle.text_plate.specs.Text.{head_line, area_line, size_line, held_line, rest_line, plate_text, refused_text};
ghost use Rattle.text_plate.specs.Pieces.{plate_bytes, SmallPlate};

use plate_refusals::PlateHead;
use record::SizeList;
use refusals::Refusal;
use text_lines::Text;

// Puts the text of a refusal.
pub fn put_refused(text: &mut Text, refusal: Refusal)
    requires { HasRoom text.old 29 }
    ensures { Puts text.old (refused_text (number_of refusal)) text.new }
{
    text.put_word(b"refused");
    text.put_field(u64::from(refusal.number()));
    text.put_end();
}

// Puts the first line: the sizes, the connectivity and the number of nodes.
fn put_head(text: &mut Text, list: SizeList)
    requires { HasRoom text.old 89 }
    ensures puts { Puts text.old (head_line list.plate.width list.plate.height list.plate.connectivity list.nodes) text.new }
    ensures upper_bound { text.new.length ≤ text.old.length + 89 }
{
    text.put_word(b"size");
    text.put_field(u64::from(list.plate.width));
    text.put_field(u64::from(list.plate.height));
    text.put_field(u64::from(list.plate.connectivity));
    text.put_field(u64::from(list.nodes));
    text.put_end();
}

// Puts the line of an area, unless its count is 0.
fn put_size(text: &mut Text, area: u64, count: u32, lost: u64)
    requires { HasRoom text.old 63 }
    ensures puts { Puts text.old (area_line area count lost) text.new }
    ensures upper_bound { text.new.length ≤ text.old.length + 63 }
{
    if count == 0 {
        return;
    }
    text.put_decimal(area);
    text.put_field(u64::from(count));
    text.put_field(lost);
    text.put_end();
}

// Puts the lines of the areas up to `places`.
fn put_sizes(text: &mut Text, counts: &[u32], losses: &[u64], places: usize)
    requires room { HasRoom text.old (63 * places) }
    requires places_in_bounds { (places ≤ length counts.now) × (places ≤ length losses.now) }
    ensures puts { Puts text.old (gather places (size_line counts.now losses.now)) text.new }
    ensures upper_bound { text.new.length ≤ text.old.length + 63 * places }
{
    for i in 0..places {
        put_size(text, i as u64 + 1, counts[i], losses[i]);
    }
}

// Puts the line of the grey held.
fn put_held(text: &mut Text, held: u64)
    requires { HasRoom text.old 26 }
    ensures puts { Puts text.old (held_line held) text.new }
    ensures upper_bound { text.new.length ≤ text.old.length + 26 }
{
    text.put_word(b"held");
    text.put_field(held);
    text.put_end();
}

// Puts the last line: the darkest grey and its ink percentage, by the plate's greatest grey.
fn put_rest(text: &mut Text, darkest: u32, greatest: u32)
    requires room { HasRoom text.old 47 }
    requires greatest_value { (greatest_fits greatest ≡ true) × (darkest ≤ greatest) }
    ensures puts { Puts text.old (rest_line greatest darkest) text.new }
    ensures upper_bound { text.new.length ≤ text.old.length + 47 }
{
    let percentage = ink::ink_percentage(darkest as u16, greatest).unwrap();
    text.put_word(b"rest");
    text.put_field(u64::from(darkest));
    text.put_field(u64::from(percentage));
    text.put_end();
}

// Puts the text of a plate: its record is written, and the record's sizes are listed. A record of 1,024 pixels has at most 4,102 fields, each of
// at most five bytes.
pub fn put_plate(text: &mut Text, image: &[u16], width: u32, height: u32, greatest: u32)
    requires { SmallPlate width height greatest image.now text.old.bytes.now text.old.length }
    ensures puts { Puts text.old (plate_text width height greatest image.now) text.new }
    ensures upper_bound { text.new.length ≤ text.old.length + plate_bytes (length image.now) }
{
    let plate = PlateHead {
        width,
        height,
        greatest,
        connectivity: 4,
    };
    let mut bytes = [0u8; 20510];
    let mut work = [0u32; 8192];
    let size = record::write_record(image, plate, &mut bytes, &mut work).unwrap();
    let mut counts = [0u32; 1023];
    let mut losses = [0u64; 1023];
    let list = record::size_list(&bytes[..size], &mut counts, &mut losses, &mut work).unwrap();
    put_head(text, list);
    put_sizes(text, &counts, &losses, image.len() - 1);
    put_held(text, list.held);
    put_rest(text, list.darkest, list.plate.greatest);
}

// Puts the text of a plate, and gives the place after it.
pub fn plate_text(
    image: &[u16],
    width: u32,
    height: u32,
    greatest: u32,
    text: &mut [u8],
    at: usize,
) -> usize
    requires { SmallPlate width height greatest image.now text.old at }
    ensures put_text { PutText text.old at (plate_text width height greatest image.now) text.new result }
    ensures upper_bound { result ≤ at + plate_bytes (length image.now) }
{
    let mut lines = Text::new(text, at);
    put_plate(&mut lines, image, width, height, greatest);
    lines.length
}
