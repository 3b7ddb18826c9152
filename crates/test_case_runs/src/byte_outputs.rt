// The cases with an output of bytes; all but `pgm` have a work space.
use super::{Case, lend, print_buffer};
use pgm::PgmHead;
use refusals::Refusal;
use std::io;
use test_case_lines::cases::plate_head;
use test_case_lines::lists::print_number;

// An output before.
const OUTPUT: [u8; 69000] = [170; 69000];

fn print_written(rt: &impl Print, written: Result<usize, Refusal>) -> io::Result<()> {
    print_number(rt, refusals::number(written))?;
    print_number(rt, written.unwrap_or(0) as u64)
}

pub fn write(rt: &impl Print, case: Case, work: &mut [u32]) -> io::Result<()> {
    let mut output = OUTPUT;
    let plate = plate_head(case.line);
    lend(rt, case, &mut output, |out| {
        print_written(rt, record::write_record(case.greys, plate, out, work))
    })?;
    print_buffer(rt, work)
}

pub fn old(rt: &impl Print, case: Case, work: &mut [u32]) -> io::Result<()> {
    let mut output = OUTPUT;
    lend(rt, case, &mut output, |out| {
        print_written(rt, record_convert::to_old_form(case.bytes, out, work))
    })?;
    print_buffer(rt, work)
}

pub fn new(rt: &impl Print, case: Case, work: &mut [u32]) -> io::Result<()> {
    let mut output = OUTPUT;
    lend(rt, case, &mut output, |out| {
        print_written(rt, record_convert::to_new_form(case.bytes, out, work))
    })?;
    print_buffer(rt, work)
}

pub fn pgm(rt: &impl Print, case: Case) -> io::Result<()> {
    let mut output = OUTPUT;
    let plate = plate_head(case.line);
    let head = PgmHead {
        width: plate.width,
        height: plate.height,
        greatest: plate.greatest,
    };
    lend(rt, case, &mut output, |out| {
        print_written(rt, pgm_write::write_pgm(case.greys, head, out))
    })
}
