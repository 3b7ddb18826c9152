// The cases on plate files and greys.
use super::{Case, print_answer, print_buffer};
use ink::Ink;
use pgm::PgmRead;
use refusals::Refusal;
use std::io;
use test_case_lines::cases::{field, places};
use test_case_lines::lists::print_number;

fn read(rt: &impl Print, bytes: &[u8], out: &mut [u16]) -> io::Result<()> {
    let read = PgmRead::from(pgm::read_pgm(bytes, out));
    let fields = [read.refusal, read.width, read.height, read.greatest];
    print_answer(rt, &fields)?;
    print_buffer(rt, out)
}

pub fn file(rt: &impl Print, case: Case) -> io::Result<()> {
    let mut out = [43690u16; 200];
    let n = places(case.line, b"out", 200);
    read(rt, case.bytes, &mut out[..n])
}

fn print_header(rt: &impl Print, fields: &[u32], raster: usize) -> io::Result<()> {
    print_answer(rt, fields)?;
    print_number(rt, raster as u64)
}

pub fn header(rt: &impl Print, case: Case) -> io::Result<()> {
    let at = field(case.line, b"at") as usize;
    match pgm_header::header_at(case.bytes, at) {
        Ok(header) => print_header(
            rt,
            &[0, header.width, header.height, header.greatest],
            header.raster.at,
        ),
        Err(fault) => print_header(rt, &[Refusal::from(fault).number(), 0, 0, 0], 0),
    }
}

pub fn text(rt: &impl Print, case: Case) -> io::Result<()> {
    let mut text = [0u8; 65536];
    let size = text_sizelist::size_text(case.bytes, &mut text);
    print_number(rt, size as u64)?;
    print_buffer(rt, &text[..size])
}

pub fn ink(rt: &impl Print, case: Case) -> io::Result<()> {
    let greatest = field(case.line, b"greatest");
    for grey in case.greys {
        let ink = Ink::from(ink::ink_percentage(*grey, greatest));
        print_answer(rt, &[ink.refusal, ink.percentage])?;
    }
    Ok(())
}
