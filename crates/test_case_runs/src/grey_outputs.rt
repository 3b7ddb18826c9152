// The cases with an output of greys; all but `seeded` have a work space.
use super::{Case, lend, print_answer, print_buffer};
use std::io;
use test_case_lines::cases::{field, plate_head};
use test_case_lines::lists::print_number;

// An output before.
const OUTPUT: [u16; 69000] = [43690; 69000];

pub fn clean(rt: &impl Print, case: Case, work: &mut [u32]) -> io::Result<()> {
    let mut output = OUTPUT;
    let plate = plate_head(case.line);
    let side = field(case.line, b"side");
    let limit = field(case.line, b"limit");
    lend(rt, case, &mut output, |out| {
        let cleaned = plate_filter::clean(side, case.greys, plate, limit, out, work);
        print_number(rt, refusals::number(cleaned))
    })?;
    print_buffer(rt, work)
}

pub fn maxima(rt: &impl Print, case: Case, work: &mut [u32]) -> io::Result<()> {
    let mut output = OUTPUT;
    let plate = plate_head(case.line);
    lend(rt, case, &mut output, |out| {
        let marked = plate_filter::regional_maxima(case.greys, plate, out, work);
        print_number(rt, refusals::number(marked))
    })?;
    print_buffer(rt, work)
}

fn print_head(rt: &impl Print, head: record::Head) -> io::Result<()> {
    let fields = [
        head.refusal,
        head.width,
        head.height,
        head.greatest,
        head.connectivity,
    ];
    print_answer(rt, &fields)
}

pub fn read(rt: &impl Print, case: Case, work: &mut [u32]) -> io::Result<()> {
    let mut output = OUTPUT;
    lend(rt, case, &mut output, |out| {
        print_head(rt, record::read_record(case.bytes, out, work).into())
    })?;
    print_buffer(rt, work)
}

pub fn cut(rt: &impl Print, case: Case, work: &mut [u32]) -> io::Result<()> {
    let mut output = OUTPUT;
    let limit = field(case.line, b"limit");
    lend(rt, case, &mut output, |out| {
        print_head(rt, record::cut_record(case.bytes, limit, out, work).into())
    })?;
    print_buffer(rt, work)
}

pub fn seeded(rt: &impl Print, case: Case) -> io::Result<()> {
    let mut output = OUTPUT;
    let plate = plate_head(case.line);
    let seed = field(case.line, b"seed");
    lend(rt, case, &mut output, |out| {
        let made = seeded_plates::seeded_plate(seed, plate.width, plate.height, out);
        print_number(rt, refusals::number(made))
    })
}
