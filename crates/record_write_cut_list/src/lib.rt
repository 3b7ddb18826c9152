// Demand 3 as code, at one limit: a plate's record, the cut of it and its size list, with the exact bytes passed on.
#![tactic(auto)]

ghost use Rattle.std.specs.Prelude.{◌≡◌, length};
ghost use Rattle.refusals.specs.Numbers.{refusal_of};
ghost use Rattle.record_write_cut_list.specs.Answers.{cut_list_answer};
ghost use Rattle.record_write_cut_list.specs.WriteCutList.{early_refusal, WrittenCutListed};

use plate_refusals::PlateHead;
use refusals::Refusal;

// What `write_cut_list` gives beside its outputs: the length of the record in bytes, the number of nodes, the darkest grey, the grey held.
#[derive(Clone, Copy, Debug, PartialEq, Eq)]
pub struct CutList {
    pub length: usize,
    pub nodes: u32,
    pub darkest: u32,
    pub held: u64,
}

// The same as the C function answers it, and as `WrittenCutListed` speaks of it: a refusal's number and zeros, or 0 and what is given.
#[repr(C)]
#[derive(Clone, Copy)]
pub struct CutListed {
    pub refusal: u32,
    pub length: usize,
    pub nodes: u32,
    pub darkest: u32,
    pub held: u64,
}

impl From<Result<CutList, Refusal>> for CutListed {
    ghost from_gives = { λ answer r. r ≡ cut_list_answer answer };

    fn from(answer: Result<CutList, Refusal>) -> CutListed {
        CutListed {
            refusal: refusals::number(answer),
            length: answer.map_or(0, |list| list.length),
            nodes: answer.map_or(0, |list| list.nodes),
            darkest: answer.map_or(0, |list| list.darkest),
            held: answer.map_or(0, |list| list.held),
        }
    }
}

// The conditions ahead of any work: those of a plate, a limit and an output, then 5 of a short table, then 6.
#[tactic(auto, using(crate::proofs::Conditions::early_conditions))]
fn check_early(
    image: &[u16],
    plate: PlateHead,
    limit: u32,
    out: usize,
    counts: usize,
    losses: usize,
    work: usize,
) -> Result<(), Refusal>
    ensures { refusal_of result
        ≡ early_refusal plate.connectivity plate.width plate.height plate.greatest limit image.now out counts losses work 0 }
{
    plate_refusals::check_plate(image, plate)?;
    let pixels = image.len();
    plate_refusals::check_cut(limit, pixels, out)?;
    plate_refusals::check_tables(pixels, counts, losses)?;
    plate_refusals::check_work(pixels, work)
}

// Writes the record of a plate, cuts it at a limit, and lists its sizes. A record that needs more bytes than were lent is refused by 5 after the work.
pub fn write_cut_list(
    image: &[u16],
    plate: PlateHead,
    limit: u32,
    bytes: &mut [u8],
    out: &mut [u16],
    counts: &mut [u32],
    losses: &mut [u64],
    work: &mut [u32],
) -> Result<CutList, Refusal>
    ensures { WrittenCutListed plate.connectivity plate.width plate.height plate.greatest limit image.now bytes.old bytes.new
        out.old out.new counts.old counts.new losses.old losses.new
        work.old work.new (cut_list_answer result) }
{
    check_early(
        image,
        plate,
        limit,
        out.len(),
        counts.len(),
        losses.len(),
        work.len(),
    )?;
    let length = record::write_record(image, plate, bytes, work)?;
    // The record of a plate that was checked, with the limit and the space, is refused by neither.
    let written = &bytes[..length];
    record::cut_record(written, limit, out, work).unwrap();
    let sizes = record::size_list(written, counts, losses, work).unwrap();
    Ok(CutList {
        length,
        nodes: sizes.nodes,
        darkest: sizes.darkest,
        held: sizes.held,
    })
}
