// Reads the header of a plate file, the binary form of Netpbm's PGM: SPECIFICATION 5. specs/Grammar.antt has its grammar on lists of bytes,
// specs/Steps.antt what the answers say in the grammar's terms.
#![tactic(auto)]

ghost use Rattle.std.specs.Prelude.{◌≡◌, ℕ, Bool, ◌+◌, ◌≤◌, length, drop};
ghost use Rattle.pgm_header.specs.Grammar.{blank, line_end, in_comment, is_digit, front, digits_value, mix, comment, gap, one_blank, number, opening, header};
ghost use Rattle.pgm_header.specs.Steps.{fault_number, Computes, GapStep, NumberStep, header_of, RasterWithin, IsNumber, Skipped};
ghost use Rattle.refusals.specs.Numbers.{number_of};

use refusals::Refusal;
use std::error::Error;
use std::fmt;

// How many comments `skip_blanks` and `skip_comment` skip before they hand the cursor back. It bounds the depth of their calls, and so the
// stack that they need: 16 bytes for each comment.
const TURNS: usize = 100;

// The most digits of a number.
const MAX_DIGITS: usize = 5;

// A place of a file: the number of a byte, counted from 0.
#[derive(Clone, Copy, Debug, PartialEq, Eq)]
pub struct Cursor {
    pub at: usize,
}

// What is wrong with a header.
#[derive(Clone, Copy, Debug, PartialEq, Eq)]
pub enum HeaderFault {
    // It does not open with "P5".
    Letters,
    // A gap or a number is missing or malformed, or the last blank is absent.
    GapOrNumber,
}

impl fmt::Display for HeaderFault {
    fn fmt<W: fmt::Write>(&self, f: &mut fmt::Formatter<W>) -> fmt::Result {
        f.write_str(match self {
            HeaderFault::Letters => "does not open with P5",
            HeaderFault::GapOrNumber => "a gap or number is missing or malformed",
        })
    }
}

impl Error for HeaderFault {}

impl From<HeaderFault> for Refusal {
    ghost from_gives = { λ fault refusal. number_of refusal ≡ fault_number fault };

    fn from(fault: HeaderFault) -> Refusal {
        match fault {
            HeaderFault::Letters => Refusal::Letters,
            HeaderFault::GapOrNumber => Refusal::GapOrNumber,
        }
    }
}

// How far skipping blanks and comments came. A comment's two calls hand it on in registers; a `Result<Skip, HeaderFault>` went through memory at each
// call, and took 1.3 times as long and three times the stack.
#[derive(Clone, Copy)]
pub enum Skip {
    // To the first byte after them.
    Past(Cursor),
    // To a comment, where the turns were used up.
    Paused(Cursor),
    // To the end of the file, in a comment.
    Unended,
}

// A header, with the cursor at the first byte of the raster.
#[derive(Clone, Copy, Debug, PartialEq, Eq)]
pub struct Header {
    pub width: u32,
    pub height: u32,
    pub greatest: u32,
    pub raster: Cursor,
}

#[tactic(auto, unfolding(crate::specs::Grammar::line_end))]
fn is_line_end(b: u8) -> bool
    ensures { result ≡ line_end b }
{
    b == b'\r' || b == b'\n'
}

#[tactic(auto, unfolding(crate::specs::Grammar::blank, crate::specs::Grammar::line_end))]
fn is_blank(b: u8) -> bool
    ensures { result ≡ blank b }
{
    b == b' ' || b == b'\t' || is_line_end(b)
}

// The place of the first byte from `at` on that fails the test, or the file's length. The loop counts i by hand: over a range, or the iterator of the
// slice from `at` on, a long comment took 1.5 to 3 times as long.
fn front_end<F: Fn(u8) -> bool>(file: &[u8], at: usize, test: F) -> usize
    requires callable { F.IsAlwaysCallable test }
    requires at_within { at ≤ length file.now }
    ensures within { (at ≤ result) × (result ≤ length file.now) }
    ensures counted { (p : ℕ → Bool) → Computes (F.post test) p → result ≡ at + front p (drop at file.now) }
{
    let mut i = at;
    while i < file.len() {
        if !test(file[i]) {
            return i;
        }
        i += 1;
    }
    i
}

// The number that one to five digits spell.
fn digits_value(digits: &[u8]) -> u32
    requires { IsNumber digits.now }
    ensures { result ≡ digits_value 0 digits.now }
{
    let mut v: u32 = 0;
    for b in digits {
        v = 10 * v + u32::from(*b - b'0');
    }
    v
}

impl Cursor {
    // Skips blanks and, where a comment follows them, that comment and what is after it.
    #[cycle(skip_blanks_skip_comment)]
    fn skip_blanks(self, file: &[u8], turns: usize) -> Skip
        requires { self.at ≤ length file.now }
        ensures { Skipped file.now self.at turns (mix (drop self.at file.now)) result }
    {
        let at = front_end(file, self.at, |b| is_blank(b));
        if at == file.len() || file[at] != b'#' {
            return Skip::Past(Cursor { at });
        }
        if turns == 0 {
            return Skip::Paused(Cursor { at });
        }
        Cursor { at: at + 1 }.skip_comment(file, turns - 1)
    }

    // Skips what is left of a comment, and the blanks and comments after it.
    #[cycle(skip_blanks_skip_comment)]
    fn skip_comment(self, file: &[u8], turns: usize) -> Skip
        requires { self.at ≤ length file.now }
        ensures { Skipped file.now self.at turns (comment (drop self.at file.now)) result }
    {
        let at = front_end(file, self.at, |b| !is_line_end(b));
        if at == file.len() {
            return Skip::Unended;
        }
        Cursor { at: at + 1 }.skip_blanks(file, turns)
    }

    // Any mix of blanks and comments, however long.
    fn mix(self, file: &[u8]) -> Result<Cursor, HeaderFault>
        requires { self.at ≤ length file.now }
        ensures { GapStep file.now (mix (drop self.at file.now)) result }
    {
        let mut from = self;
        loop {
            match from.skip_blanks(file, TURNS) {
                Skip::Past(end) => return Ok(end),
                Skip::Paused(next) => from = next,
                Skip::Unended => return Err(HeaderFault::GapOrNumber),
            }
        }
    }

    // One blank.
    fn blank(self, file: &[u8]) -> Result<Cursor, HeaderFault>
        ensures { GapStep file.now (one_blank (drop self.at file.now)) result }
    {
        match file.get(self.at) {
            Some(b) if is_blank(*b) => Ok(Cursor { at: self.at + 1 }),
            _ => Err(HeaderFault::GapOrNumber),
        }
    }

    // A blank, and then any mix of blanks and comments.
    fn gap(self, file: &[u8]) -> Result<Cursor, HeaderFault>
        ensures { GapStep file.now (gap (drop self.at file.now)) result }
    {
        self.blank(file)?.mix(file)
    }

    // A number of one to five digits.
    fn number(self, file: &[u8]) -> Result<(u32, Cursor), HeaderFault>
        ensures { NumberStep file.now (number (drop self.at file.now)) result }
    {
        let Some(rest) = file.get(self.at..) else {
            return Err(HeaderFault::GapOrNumber);
        };
        let n = front_end(rest, 0, |b| b.is_ascii_digit());
        if n < 1 || MAX_DIGITS < n {
            return Err(HeaderFault::GapOrNumber);
        }
        Ok((digits_value(&rest[..n]), Cursor { at: self.at + n }))
    }

    // "P5" and the gap after it.
    fn opening(self, file: &[u8]) -> Result<Cursor, HeaderFault>
        ensures { GapStep file.now (opening (drop self.at file.now)) result }
    {
        match file.get(self.at..) {
            Some(rest) if rest.starts_with(b"P5") => Cursor { at: self.at + 2 }.gap(file),
            _ => Err(HeaderFault::Letters),
        }
    }

    // The header that begins here.
    fn read_header(self, file: &[u8]) -> Result<Header, HeaderFault>
        ensures result_value { header_of file.now result ≡ header (drop self.at file.now) }
        ensures raster_within { RasterWithin file.now result }
    {
        let c1 = self.opening(file)?;
        let (width, c2) = c1.number(file)?;
        let c3 = c2.gap(file)?;
        let (height, c4) = c3.number(file)?;
        let c5 = c4.gap(file)?;
        let (greatest, c6) = c5.number(file)?;
        let raster = c6.blank(file)?;
        Ok(Header {
            width,
            height,
            greatest,
            raster,
        })
    }
}

// The header that begins at place `at` of a file. No header begins beyond the file's end: that is a fault of the letters.
pub fn header_at(file: &[u8], at: usize) -> Result<Header, HeaderFault>
    ensures result_value { header_of file.now result ≡ header (drop at file.now) }
    ensures raster_within { RasterWithin file.now result }
{
    Cursor { at }.read_header(file)
}
