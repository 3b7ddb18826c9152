// Runs the cases on standard input and prints a line for each: the operation's name, its answer and, after a bar each, every lent buffer as it was
// left. A case is a line: the operation's name and then fields, each a word and the numbers up to the next word, in decimal and parted by one space;
// `v*n` stands for n numbers v. A number that is absent is 0. The fields of a plate are `width`, `height`, `greatest`, `connectivity` and `greys`; a
// record or a file is `bytes`. The fields of a lent buffer are its places. An output of bytes holds 170 before, an output of greys 43690, a table, a
// column or an entry 9, the work space 7.
//
//     clean              side, a plate, limit, out, work
//     maxima, write      a plate, out, work
//     nodes              a plate, levels, parents, areas, anchors, work
//     entries            a plate, at (the entry that is read), work; six entries are lent
//     joint              a plate, limit, record, out, counts, losses, work
//     read, old, new     a record, out, work: its plate; the record in the old form, in the new form
//     cut                a record, limit, out, work
//     sizes              a record, counts, losses, work
//     file               a file, out
//     pgm                a plate without its connectivity, out: its file
//     seeded             seed, width, height, out: its test plate
//     header             a file, at (where the header begins)
//     text               a file: what sizelist prints
//     ink                greatest, greys: refusal and percentage of each
#![tactic(auto)]

use std::io;
use std::io::Read;
use test_case_lines::cases;
use test_case_runs::Case;

// The work space is lent with as many places as the case says.
fn lend_work(rt: &impl Print, case: Case, work: &mut [u32]) -> io::Result<()> {
    let n = cases::places(case.line, b"work", work.len());
    test_case_runs::run(rt, case, &mut work[..n])
}

// The array goes by reference, not as a slice, so that no proof computes its elements.
fn whole_work(rt: &impl Print, case: Case, work: &mut [u32; 543000]) -> io::Result<()> {
    lend_work(rt, case, work)
}

fn run_case(rt: &impl Print, case: Case) -> io::Result<()> {
    let mut work = [7u32; 543000];
    whole_work(rt, case, &mut work)
}

fn run_bytes(rt: &impl Print, line: &[u8], bytes: &[u8]) -> io::Result<()> {
    let mut greys = [0u16; 69000];
    let n = cases::list_greys(line, b"greys", &mut greys);
    let case = Case {
        line,
        bytes,
        greys: &greys[..n],
    };
    run_case(rt, case)
}

// Runs the case of a line and prints its line.
fn run_line(rt: &impl Print, line: &[u8]) -> io::Result<()> {
    rt.write_all(cases::name(line))?;
    let mut bytes = [0u8; 69000];
    let n = cases::list_bytes(line, b"bytes", &mut bytes);
    run_bytes(rt, line, &bytes[..n])?;
    rt.write_all(b"\n")
}

fn run_lines(rt: &impl Print, file: &[u8]) -> io::Result<()> {
    for line in file.split_inclusive(|b| *b == b'\n') {
        run_line(rt, line.strip_suffix(b"\n").unwrap_or(line))?;
    }
    Ok(())
}

fn main(rt: HostRuntime) -> io::Result<()> {
    let mut file = Vec::new(rt.alloc());
    rt.stdin().take(1310720).read_to_end(&mut file)?;
    run_lines(&rt, &file)
}
