// The operations, each run on a case of the program `test_vectors`: its answer is printed and then, after a bar each, every lent buffer as it was left.
#![tactic(auto)]

mod byte_outputs;
mod files;
mod grey_outputs;
mod tables;

use std::io;
use test_case_lines::cases::{name, places};
use test_case_lines::lists::{print_bar, print_number, print_numbers};

// A case: its line, and the bytes and greys that the line lists.
#[derive(Clone, Copy)]
pub struct Case<'a> {
    pub line: &'a [u8],
    pub bytes: &'a [u8],
    pub greys: &'a [u16],
}

// Prints the fields of an answer.
fn print_answer<T: Into<u64> + Copy>(rt: &impl Print, fields: &[T]) -> io::Result<()> {
    for field in fields {
        print_number(rt, *field)?;
    }
    Ok(())
}

// Prints a buffer after a bar.
fn print_buffer<T: Into<u64> + Copy>(rt: &impl Print, buffer: &[T]) -> io::Result<()> {
    print_bar(rt)?;
    print_numbers(rt, buffer)
}

// Lends of an output as many places as the case says to an operation that prints its answer, and prints them.
fn lend<T: Into<u64> + Copy, F: FnOnce(&mut [T]) -> io::Result<()>>(
    rt: &impl Print,
    case: Case,
    output: &mut [T],
    operation: F,
) -> io::Result<()>
    requires { F.IsAlwaysCallable operation }
{
    let n = places(case.line, b"out", output.len());
    let out = &mut output[..n];
    operation(out)?;
    print_buffer(rt, out)
}

// Runs the operation that the case names, if there is one.
pub fn run(rt: &impl Print, case: Case, work: &mut [u32]) -> io::Result<()> {
    match name(case.line) {
        b"clean" => grey_outputs::clean(rt, case, work),
        b"maxima" => grey_outputs::maxima(rt, case, work),
        b"read" => grey_outputs::read(rt, case, work),
        b"cut" => grey_outputs::cut(rt, case, work),
        b"seeded" => grey_outputs::seeded(rt, case),
        b"write" => byte_outputs::write(rt, case, work),
        b"old" => byte_outputs::old(rt, case, work),
        b"new" => byte_outputs::new(rt, case, work),
        b"pgm" => byte_outputs::pgm(rt, case),
        b"nodes" => tables::nodes(rt, case, work),
        b"entries" => tables::entries(rt, case, work),
        b"sizes" => tables::sizes(rt, case, work),
        b"joint" => tables::joint(rt, case, work),
        b"file" => files::file(rt, case),
        b"header" => files::header(rt, case),
        b"text" => files::text(rt, case),
        b"ink" => files::ink(rt, case),
        _ => Ok(()),
    }
}
