// One field of a record: an unsigned number in groups of seven bits, lowest group first (a varint, LEB128). Read, measure, write, compare.
#![tactic(auto)]

ghost use Rattle.std.specs.Prelude.{◌≡◌, ◌++◌, ◌+◌, ◌≤◌, ◌<◌, length, take, drop, MatchOption};
ghost use Rattle.meaning.specs.Record.{varint};
ghost use Rattle.record_varint.specs.Field.{continued, value, field_at, same_at, reading, comparison, Refuses};

use refusals::Refusal;
use std::error::Error;
use std::fmt;

// What is wrong with a field. `number_of` gives the specification's number.
#[derive(Clone, Copy, Debug, PartialEq, Eq)]
pub enum Fault {
    // The bytes end before one with its top bit clear.
    Unended,
    // The form is not the shortest, or the number is too large.
    Malformed,
    // The number is outside its range.
    OutOfRange,
}

impl fmt::Display for Fault {
    fn fmt<W: fmt::Write>(&self, f: &mut fmt::Formatter<W>) -> fmt::Result {
        f.write_str(match self {
            Fault::Unended => "the bytes end inside a field",
            Fault::Malformed => "a field is not in its shortest form, or its number is too large",
            Fault::OutOfRange => "a field's number is outside its range",
        })
    }
}

impl Error for Fault {}

impl From<Fault> for Refusal {
    ghost from_gives = { Refuses };

    fn from(fault: Fault) -> Refusal {
        match fault {
            Fault::Unended => Refusal::FieldUnended,
            Fault::Malformed => Refusal::FieldMalformed,
            Fault::OutOfRange => Refusal::FieldRange,
        }
    }
}

// The position of the first byte from `at` on whose top bit is clear.
#[tactic(auto, using(crate::proofs::Position::end_steps))]
fn find_end(s: &[u8], at: usize) -> Option<usize>
    ensures { MatchOption result (length s.now ≤ at + continued (drop at s.now))
        (λ end. (end ≡ at + continued (drop at s.now)) × (end < length s.now)) }
{
    for i in at..s.len() {
        if s[i] < 128 {
            return Some(i);
        }
    }
    None
}

// The number that the groups from `at` to `end` spell.
fn value_at(s: &[u8], at: usize, end: usize) -> u64
    requires { (end < length s.now) × (end ≡ at + continued (drop at s.now)) × (end ≤ at + 4) }
    ensures { result ≡ value (drop at s.now) }
{
    let mut v = u64::from(s[end]);
    for i in (at..end).rev() {
        v = v * 128 + (u64::from(s[i]) - 128);
    }
    v
}

// Reads the field at a position, whose range is lo to hi: the number, and the position after it.
pub fn read_field(s: &[u8], at: usize, lo: u32, hi: u32) -> Result<(u32, usize), Fault>
    ensures { reading result ≡ field_at s.now at lo hi }
{
    let Some(end) = find_end(s, at) else {
        return Err(Fault::Unended);
    };
    if 4 < end - at {
        return Err(Fault::Malformed);
    }
    if at < end && s[end] == 0 {
        return Err(Fault::Malformed);
    }
    let v = value_at(s, at, end);
    let Ok(x) = u32::try_from(v) else {
        return Err(Fault::Malformed);
    };
    if x < lo || hi < x {
        return Err(Fault::OutOfRange);
    }
    Ok((x, end + 1))
}

// How many bytes a number's form has.
#[tactic(auto, using(crate::proofs::Groups::sizes))]
pub fn field_size(v: u32) -> usize
    ensures { result ≡ length (varint v) }
{
    match v {
        0..=127 => 1,
        128..=16383 => 2,
        16384..=2097151 => 3,
        2097152..=268435455 => 4,
        _ => 5,
    }
}

// Writes a number's form at a position, and gives the position after it. For the crate `record_fields`, which measures before it writes;
// not for end users, so it may require the room.
pub fn put_field(out: &mut [u8], at: usize, v: u32) -> usize
    requires { at + length (varint v) ≤ length out.old }
    ensures value { result ≡ at + length (varint v) }
    ensures out_after { out.new ≡ take at out.old ++ varint v ++ drop (at + length (varint v)) out.old }
{
    // i and x go on together, until x is below 128: no range has these steps.
    let mut i = at;
    let mut x = v;
    while 127 < x {
        out[i] = (128 + x % 128) as u8;
        x /= 128;
        i += 1;
    }
    out[i] = x as u8;
    i + 1
}

// Compares the bytes from a position on with a number's form: the position after it, where they are that form.
pub fn same_field(s: &[u8], at: usize, v: u32) -> Option<usize>
    ensures { comparison v result ≡ same_at s.now at v }
{
    // i and x go on together, until x is below 128: no range has these steps.
    let mut i = at;
    let mut x = v;
    while 127 < x {
        if *s.get(i)? != (128 + x % 128) as u8 {
            return None;
        }
        x /= 128;
        i += 1;
    }
    if *s.get(i)? != x as u8 {
        return None;
    }
    Some(i + 1)
}
