// The cases on node lists and size lists, and the joint operation.
use super::{Case, print_answer, print_buffer};
use std::io;
use test_case_lines::cases::{field, places, plate_head};
use test_case_lines::lists::print_number;

fn list_nodes(
    rt: &impl Print,
    case: Case,
    levels: &mut [u32],
    parents: &mut [u32],
    areas: &mut [u32],
    anchors: &mut [u32],
    work: &mut [u32],
) -> io::Result<()> {
    let plate = plate_head(case.line);
    let listed = plate_filter::node_list(case.greys, plate, levels, parents, areas, anchors, work);
    print_answer(rt, &[refusals::number(listed), listed.unwrap_or(0)])?;
    print_buffer(rt, levels)?;
    print_buffer(rt, parents)?;
    print_buffer(rt, areas)?;
    print_buffer(rt, anchors)?;
    print_buffer(rt, work)
}

pub fn nodes(rt: &impl Print, case: Case, work: &mut [u32]) -> io::Result<()> {
    let mut levels = [9u32; 200];
    let mut parents = [9u32; 200];
    let mut areas = [9u32; 200];
    let mut anchors = [9u32; 200];
    let a = places(case.line, b"levels", 200);
    let b = places(case.line, b"parents", 200);
    let c = places(case.line, b"areas", 200);
    let d = places(case.line, b"anchors", 200);
    list_nodes(
        rt,
        case,
        &mut levels[..a],
        &mut parents[..b],
        &mut areas[..c],
        &mut anchors[..d],
        work,
    )
}

pub fn entries(rt: &impl Print, case: Case, work: &mut [u32]) -> io::Result<()> {
    let plate = plate_head(case.line);
    let at = field(case.line, b"at") as usize;
    test_entries::list_plate(rt, case.greys, plate, work, at)?;
    print_buffer(rt, work)
}

fn print_size_head(rt: &impl Print, head: record::SizeHead) -> io::Result<()> {
    let fields = [
        head.refusal,
        head.width,
        head.height,
        head.greatest,
        head.connectivity,
        head.nodes,
        head.darkest,
    ];
    print_answer(rt, &fields)?;
    print_number(rt, head.held)
}

fn list_sizes(
    rt: &impl Print,
    bytes: &[u8],
    counts: &mut [u32],
    losses: &mut [u64],
    work: &mut [u32],
) -> io::Result<()> {
    print_size_head(rt, record::size_list(bytes, counts, losses, work).into())?;
    print_buffer(rt, counts)?;
    print_buffer(rt, losses)?;
    print_buffer(rt, work)
}

pub fn sizes(rt: &impl Print, case: Case, work: &mut [u32]) -> io::Result<()> {
    let mut counts = [9u32; 69000];
    let mut losses = [9u64; 69000];
    let a = places(case.line, b"counts", 69000);
    let b = places(case.line, b"losses", 69000);
    list_sizes(rt, case.bytes, &mut counts[..a], &mut losses[..b], work)
}

fn print_joint(rt: &impl Print, joint: record_write_cut_list::CutListed) -> io::Result<()> {
    print_number(rt, joint.refusal)?;
    print_number(rt, joint.length as u64)?;
    print_answer(rt, &[joint.nodes, joint.darkest])?;
    print_number(rt, joint.held)
}

fn join(
    rt: &impl Print,
    case: Case,
    record: &mut [u8],
    out: &mut [u16],
    counts: &mut [u32],
    losses: &mut [u64],
    work: &mut [u32],
) -> io::Result<()> {
    let plate = plate_head(case.line);
    let limit = field(case.line, b"limit");
    let joint = record_write_cut_list::write_cut_list(
        case.greys, plate, limit, record, out, counts, losses, work,
    );
    print_joint(rt, joint.into())?;
    print_buffer(rt, record)?;
    print_buffer(rt, out)?;
    print_buffer(rt, counts)?;
    print_buffer(rt, losses)?;
    print_buffer(rt, work)
}

pub fn joint(rt: &impl Print, case: Case, work: &mut [u32]) -> io::Result<()> {
    let mut record = [170u8; 1000];
    let mut out = [43690u16; 1000];
    let mut counts = [9u32; 200];
    let mut losses = [9u64; 200];
    let a = places(case.line, b"record", 1000);
    let b = places(case.line, b"out", 1000);
    let c = places(case.line, b"counts", 200);
    let d = places(case.line, b"losses", 200);
    join(
        rt,
        case,
        &mut record[..a],
        &mut out[..b],
        &mut counts[..c],
        &mut losses[..d],
        work,
    )
}
