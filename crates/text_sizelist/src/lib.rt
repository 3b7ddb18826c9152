// The text that the program sizelist prints for a plate file.
#![tactic(auto)]

ghost use Rattle.text_lines.specs.Pieces.{HasRoom, Puts};
ghost use Rattle.text_sizelist.specs.Text.{size_text};
ghost use Rattle.text_sizelist.specs.Pieces.{text_places, Made};

use refusals::Refusal;
use text_lines::Text;

// The longest input, in bytes.
const INPUT_BYTES: usize = 4096;

// Puts what sizelist prints for a file.
fn put_text(text: &mut Text, file: &[u8])
    requires { HasRoom text.old text_places }
    ensures { Puts text.old (size_text file.now) text.new }
{
    if INPUT_BYTES < file.len() {
        return text_plate::put_refused(text, Refusal::WorkLength);
    }
    let mut plate = [0u16; 1024];
    match pgm::read_pgm(file, &mut plate) {
        Err(refusal) => text_plate::put_refused(text, refusal),
        Ok(head) => {
            let greys = &plate[..head.pixels()];
            text_plate::put_plate(text, greys, head.width, head.height, head.greatest);
        }
    }
}

// Puts what sizelist prints for a file from the first place of the text on, and gives its length.
pub fn size_text(file: &[u8], text: &mut [u8; 65536]) -> usize
    ensures { Made (size_text file.now) text.old text.new result }
{
    let mut lines = Text::new(text, 0);
    put_text(&mut lines, file);
    lines.length
}
