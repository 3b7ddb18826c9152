// Reads headers of four million bytes of comments and of blanks and prints the answers. A call for each comment, two million deep, would
// need more stack than a program has.
#![tactic(auto)]

use pgm::PgmRead;
use std::io;

const SIZE: usize = 4000000;

// The file: "P5", then LF and `filler` in turn, and at the end "1 1 255", LF and a pixel. The array goes by reference, not as a slice, so that no proof
// computes its four million elements.
fn fill(file: &mut [u8; SIZE], filler: u8) {
    for (i, byte) in file.iter_mut().enumerate() {
        *byte = if i % 2 == 0 { b'\n' } else { filler };
    }
    file[..2].copy_from_slice(b"P5");
    file[SIZE - 9..].copy_from_slice(b"1 1 255\na");
}

fn show(rt: &impl Print, file: &[u8; SIZE]) -> io::Result<()> {
    let mut out = [b'.' as u16; 1];
    let PgmRead {
        refusal,
        width,
        height,
        ..
    } = pgm::read_pgm(file, &mut out).into();
    print!(rt; "{refusal} {width} {height} ")?;
    // the greatest grey is 255, so the pixel is a byte
    let pixel = [(out[0] % 256) as u8];
    rt.write_all(&pixel)?;
    rt.write_all(b"\n")
}

fn main(rt: HostRuntime) -> io::Result<()> {
    let mut file = [0u8; SIZE];
    fill(&mut file, b'#');
    show(&rt, &file)?;
    fill(&mut file, b' ');
    show(&rt, &file)
}
