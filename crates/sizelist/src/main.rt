// Prints the size list of the plate file on standard input: `text_sizelist::size_text` makes the text.
#![tactic(auto)]

use std::io;
use std::io::Read;

fn main(rt: HostRuntime) -> io::Result<()> {
    // One byte more than the longest input, so that a longer one is seen to be.
    let mut file = Vec::new(rt.alloc());
    rt.stdin().take(4097).read_to_end(&mut file)?;
    let mut text = [0u8; 65536];
    let size = text_sizelist::size_text(&file, &mut text);
    rt.write_all(&text[..size])
}
