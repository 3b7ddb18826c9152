// A case of the program `test_vectors`: a line taken apart. It is the operation's name and then fields, each a word and the numbers up to the next
// word, in decimal and parted by one space; `v*n` stands for n numbers v.
ghost use Rattle.std.specs.Prelude.{◌≡◌, ◌≤◌, ◌<◌, length, take, IfSome};
ghost use Rattle.test_case_lines.specs.Places.{Behind};

use plate_refusals::PlateHead;

// A number, whether a star follows it, and the place after the byte that follows.
#[derive(Clone, Copy)]
struct Number {
    value: u32,
    star: bool,
    next: usize,
}

// A number that stands some times in a row, and the place after it.
#[derive(Clone, Copy)]
struct Repeat {
    value: u16,
    count: u32,
    next: usize,
}

fn digit(b: u8) -> Option<u64>
    ensures { IfSome result (λ d. d < 10) }
{
    match b {
        b'0'..=b'9' => Some(u64::from(b - b'0')),
        _ => None,
    }
}

// The number that begins at `at`, modulo 2^32.
fn number_at(line: &[u8], at: usize) -> Number
    ensures { Behind at (length line.now) result.next }
{
    let mut value: u64 = 0;
    for i in at..line.len() {
        let b = line[i];
        let Some(d) = digit(b) else {
            return Number {
                value: value as u32,
                star: b == b'*',
                next: i + 1,
            };
        };
        value = (value * 10 + d) % 4294967296;
    }
    Number {
        value: value as u32,
        star: false,
        next: line.len().max(at),
    }
}

// The number at `at`, modulo 2^16, and how often it stands.
fn repeat_at(line: &[u8], at: usize) -> Repeat
    ensures { Behind at (length line.now) result.next }
{
    let v = number_at(line, at);
    let value = (v.value % 65536) as u16;
    if !v.star {
        return Repeat {
            value,
            count: 1,
            next: v.next,
        };
    }
    let n = number_at(line, v.next);
    Repeat {
        value,
        count: n.value,
        next: n.next,
    }
}

// Puts `count` greys from `from` on, as far as there is room, and gives the place after them.
fn put_run(greys: &mut [u16], from: usize, value: u16, count: u32) -> usize
    requires { from ≤ length greys.old }
    ensures { result ≤ length greys.old }
{
    let end = from.saturating_add(count as usize).min(greys.len());
    greys[from..end].fill(value);
    end
}

// The place after the word at `at` and the byte that follows, where that word is `name`, whole.
fn word_end(line: &[u8], at: usize, name: &[u8]) -> Option<usize>
    requires { at ≤ length line.now }
    ensures { IfSome result (λ end. end ≤ length line.now) }
{
    match line[at..].strip_prefix(name)? {
        [] => Some(line.len()),
        [b' ', rest @ ..] => Some(line.len() - rest.len()),
        _ => None,
    }
}

// Where the numbers of the field `name` begin.
fn field_at(line: &[u8], name: &[u8]) -> Option<usize> {
    for (i, b) in line.iter().enumerate() {
        if *b == b' ' {
            let end = word_end(line, i + 1, name);
            if end.is_some() {
                return end;
            }
        }
    }
    None
}

// The operation's name: what stands in front of the first space.
pub fn name(line: &[u8]) -> &[u8]
    ensures { result.now ≡ take (length result.now) line.now }
{
    match line.iter().position(|b| *b == b' ') {
        Some(end) => &line[..end],
        None => line,
    }
}

// The number of the field `name`; 0 where it is absent.
pub fn field(line: &[u8], name: &[u8]) -> u32 {
    match field_at(line, name) {
        Some(at) => number_at(line, at).value,
        None => 0,
    }
}

// The fields of a plate that are one number each.
pub fn plate_head(line: &[u8]) -> PlateHead {
    PlateHead {
        width: field(line, b"width"),
        height: field(line, b"height"),
        greatest: field(line, b"greatest"),
        connectivity: field(line, b"connectivity"),
    }
}

// As many places as the field `name` says, at most `most`.
pub fn places(line: &[u8], name: &[u8], most: usize) -> usize
    ensures { result ≤ most }
{
    most.min(field(line, name) as usize)
}

// Puts the greys of the field `name`, and gives their number.
pub fn list_greys(line: &[u8], name: &[u8], greys: &mut [u16]) -> usize
    ensures { result ≤ length greys.old }
{
    let Some(mut at) = field_at(line, name) else {
        return 0;
    };
    let mut n: usize = 0;
    while at < line.len() && digit(line[at]).is_some() {
        let repeat = repeat_at(line, at);
        n = put_run(greys, n, repeat.value, repeat.count);
        at = repeat.next;
    }
    n
}

// Puts the numbers, modulo 2^8, as far as there is room, and gives their number.
fn put_bytes(numbers: &[u16], bytes: &mut [u8]) -> usize
    ensures { result ≤ length bytes.old }
{
    for (byte, number) in bytes.iter_mut().zip(numbers) {
        *byte = (*number % 256) as u8;
    }
    bytes.len().min(numbers.len())
}

// Puts the bytes of the field `name`, at most 69000, and gives their number.
pub fn list_bytes(line: &[u8], name: &[u8], bytes: &mut [u8]) -> usize
    ensures { result ≤ length bytes.old }
{
    let mut numbers = [0u16; 69000];
    let n = list_greys(line, name, &mut numbers);
    put_bytes(&numbers[..n], bytes)
}

// The place of the first byte `stop` from `at` on, or the end.
pub fn end_at(bytes: &[u8], at: usize, stop: u8) -> usize
    requires { at ≤ length bytes.now }
    ensures { (at ≤ result) × (result ≤ length bytes.now) }
{
    match bytes[at..].iter().position(|b| *b == stop) {
        Some(i) => at + i,
        None => bytes.len(),
    }
}
