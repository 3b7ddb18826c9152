// The operations for programs in C and Rust: one exported function for each. It passes on what it gets, and its contract is the same equation as that of
// the function that it calls, on the answer laid out for C: a refusal's number, zeros elsewhere.
// A slice is passed as a pointer and a length. include/livukoe.h declares and describes the functions.
#![tactic(auto)]

ghost use Rattle.std.specs.Prelude.{◌≡◌, true, false, length};
ghost use Rattle.meaning.specs.Answers.{out_after};
ghost use Rattle.plate_filter.specs.Operations.{Cleaned, MaximaMarked, NodesListed, columns};
ghost use Rattle.record_parse.specs.Parse.{read_of};
ghost use Rattle.record.specs.Writing.{WrittenRecord};
ghost use Rattle.record.specs.Reading.{ReadRecord, CutRecord, ListedSizes};
ghost use Rattle.record_convert.specs.Converting.{Converted};
ghost use Rattle.plate_entries.specs.Entries.{EntriesListed};
ghost use Rattle.record_write_cut_list.specs.WriteCutList.{WrittenCutListed};
ghost use Rattle.pgm.specs.File.{read_pgm, plate_of};
ghost use Rattle.pgm_roll.specs.Roll.{roll, count_of, numbered, plate_read, plate_at};
ghost use Rattle.pgm_write.specs.Writing.{pgm_of, write_pgm};
ghost use Rattle.seeded_plates.specs.Sequence.{seeded_plate, seeded_refusal};
ghost use Rattle.ink.specs.Percentage.{Percentage};

use ink::Ink;
use pgm::{PgmHead, PgmRead};
use pgm_roll::{PlateAt, RollCount};
use pgm_write::PgmWritten;
use plate_entries::Node;
use plate_refusals::PlateHead;
use plate_tree::NodeList;
use record::{Head, SizeHead, Written};
use record_write_cut_list::CutListed;

// Cleans a plate at a limit on its light side or its dark side.
#[unsafe(no_mangle)]
pub extern "C" fn livukoe_clean(
    side: u32,
    image: &[u16],
    width: u32,
    height: u32,
    greatest: u32,
    connectivity: u32,
    limit: u32,
    out: &mut [u16],
    work: &mut [u32],
) -> u32
    ensures { Cleaned side connectivity width height greatest limit image.now
        out.old out.new work.old work.new result }
{
    let plate = PlateHead {
        width,
        height,
        greatest,
        connectivity,
    };
    refusals::number(plate_filter::clean(side, image, plate, limit, out, work))
}

// Marks the regional maxima of a plate: 1 inside one, 0 elsewhere.
#[unsafe(no_mangle)]
pub extern "C" fn livukoe_regional_maxima(
    image: &[u16],
    width: u32,
    height: u32,
    greatest: u32,
    connectivity: u32,
    out: &mut [u16],
    work: &mut [u32],
) -> u32
    ensures { MaximaMarked connectivity width height greatest image.now
        out.old out.new work.old work.new result }
{
    let plate = PlateHead {
        width,
        height,
        greatest,
        connectivity,
    };
    refusals::number(plate_filter::regional_maxima(image, plate, out, work))
}

// The nodes of a plate, one column for each of level, parent (0 for the root), area and anchor.
#[unsafe(no_mangle)]
pub extern "C" fn livukoe_node_list(
    image: &[u16],
    width: u32,
    height: u32,
    greatest: u32,
    connectivity: u32,
    levels: &mut [u32],
    parents: &mut [u32],
    areas: &mut [u32],
    anchors: &mut [u32],
    work: &mut [u32],
) -> NodeList
    ensures { NodesListed connectivity width height greatest image.now
        (columns levels.old parents.old areas.old anchors.old)
        (columns levels.new parents.new areas.new anchors.new)
        work.old work.new result.refusal result.count }
{
    let plate = PlateHead {
        width,
        height,
        greatest,
        connectivity,
    };
    NodeList::from(plate_filter::node_list(image, plate, levels, parents, areas, anchors, work))
}

// The nodes of a plate as entries of one list.
#[unsafe(no_mangle)]
pub extern "C" fn livukoe_node_entries(
    image: &[u16],
    width: u32,
    height: u32,
    greatest: u32,
    connectivity: u32,
    list: &mut [Node],
    work: &mut [u32],
) -> NodeList
    ensures { EntriesListed connectivity width height greatest image.now list.old list.new
        work.old work.new result.refusal result.count }
{
    let plate = PlateHead {
        width,
        height,
        greatest,
        connectivity,
    };
    NodeList::from(plate_entries::node_entries(image, plate, list, work))
}

// Reads a plate file into the output.
#[unsafe(no_mangle)]
pub extern "C" fn livukoe_read_pgm(file: &[u8], out: &mut [u16]) -> PgmRead
    ensures value { result ≡ read_pgm file.now (length out.old) }
    ensures out_after { out.new ≡ out_after (read_pgm file.now (length out.old)).refusal
        (plate_of file.now) out.old }
{
    PgmRead::from(pgm::read_pgm(file, out))
}

// The number of plates of a roll.
#[unsafe(no_mangle)]
pub extern "C" fn livukoe_roll_count(file: &[u8]) -> RollCount
    ensures { result ≡ count_of (roll file.now) }
{
    RollCount::from(pgm_roll::roll_count(file))
}

// Reads the plate of a number of a roll into the output.
#[unsafe(no_mangle)]
pub extern "C" fn livukoe_roll_plate(file: &[u8], number: usize, out: &mut [u16]) -> PgmRead
    ensures value { result ≡ plate_read (roll file.now) number (length out.old) }
    ensures out_after { out.new ≡ out_after (plate_read (roll file.now) number (length out.old)).refusal
        (numbered (roll file.now) number).greys out.old }
{
    PgmRead::from(pgm_roll::roll_plate(file, number, out))
}

// The plate that begins at a place of a roll.
#[unsafe(no_mangle)]
pub extern "C" fn livukoe_plate_at(file: &[u8], at: usize) -> PlateAt
    ensures { result ≡ plate_at file.now at }
{
    PlateAt::from(pgm_roll::plate_at(file, at))
}

// Writes the plate file of a plate into the output.
#[unsafe(no_mangle)]
pub extern "C" fn livukoe_write_pgm(
    image: &[u16],
    width: u32,
    height: u32,
    greatest: u32,
    out: &mut [u8],
) -> PgmWritten
    ensures value { result ≡ write_pgm width height greatest image.now (length out.old) }
    ensures out_after { out.new ≡ out_after (write_pgm width height greatest image.now (length out.old)).refusal
        (pgm_of width height greatest image.now) out.old }
{
    let head = PgmHead {
        width,
        height,
        greatest,
    };
    PgmWritten::from(pgm_write::write_pgm(image, head, out))
}

// Writes the test plate of a seed into the output.
#[unsafe(no_mangle)]
pub extern "C" fn livukoe_seeded_plate(seed: u32, width: u32, height: u32, out: &mut [u16]) -> u32
    ensures value { result ≡ seeded_refusal width height (length out.old) }
    ensures out_after { out.new ≡ out_after (seeded_refusal width height (length out.old))
        (seeded_plate seed width height) out.old }
{
    refusals::number(seeded_plates::seeded_plate(seed, width, height, out))
}

// The ink percentage of a grey.
#[unsafe(no_mangle)]
pub extern "C" fn livukoe_ink_percentage(grey: u16, greatest: u32) -> Ink
    ensures { Percentage greatest grey result }
{
    Ink::from(ink::ink_percentage(grey, greatest))
}

// Writes the record of a plate with its connectivity, in the new form.
#[unsafe(no_mangle)]
pub extern "C" fn livukoe_write_record(
    image: &[u16],
    width: u32,
    height: u32,
    greatest: u32,
    connectivity: u32,
    out: &mut [u8],
    work: &mut [u32],
) -> Written
    ensures { WrittenRecord connectivity width height greatest image.now out.old out.new
        work.old work.new result }
{
    let plate = PlateHead {
        width,
        height,
        greatest,
        connectivity,
    };
    Written::from(record::write_record(image, plate, out, work))
}

// Reads a record of either form: its plate.
#[unsafe(no_mangle)]
pub extern "C" fn livukoe_read_record(bytes: &[u8], out: &mut [u16], work: &mut [u32]) -> Head
    ensures { ReadRecord (read_of bytes.now (length work.old)) out.old out.new
        work.old work.new result }
{
    Head::from(record::read_record(bytes, out, work))
}

// Cuts a record at a limit.
#[unsafe(no_mangle)]
pub extern "C" fn livukoe_cut_record(
    bytes: &[u8],
    limit: u32,
    out: &mut [u16],
    work: &mut [u32],
) -> Head
    ensures { CutRecord (read_of bytes.now (length work.old)) limit out.old out.new
        work.old work.new result }
{
    Head::from(record::cut_record(bytes, limit, out, work))
}

// Lists the sizes of a record's nodes: by area, their number and the grey lost.
#[unsafe(no_mangle)]
pub extern "C" fn livukoe_size_list(
    bytes: &[u8],
    counts: &mut [u32],
    losses: &mut [u64],
    work: &mut [u32],
) -> SizeHead
    ensures { ListedSizes (read_of bytes.now (length work.old)) counts.old counts.new
        losses.old losses.new work.old work.new result }
{
    SizeHead::from(record::size_list(bytes, counts, losses, work))
}

// Converts a record to the old form. A record that is in it already comes back unchanged.
#[unsafe(no_mangle)]
pub extern "C" fn livukoe_record_to_old(bytes: &[u8], out: &mut [u8], work: &mut [u32]) -> Written
    ensures { Converted false (read_of bytes.now (length work.old)) out.old out.new
        work.old work.new result }
{
    Written::from(record_convert::to_old_form(bytes, out, work))
}

// Converts a record to the new form. A record that is in it already comes back unchanged.
#[unsafe(no_mangle)]
pub extern "C" fn livukoe_record_to_new(bytes: &[u8], out: &mut [u8], work: &mut [u32]) -> Written
    ensures { Converted true (read_of bytes.now (length work.old)) out.old out.new
        work.old work.new result }
{
    Written::from(record_convert::to_new_form(bytes, out, work))
}

// Writes the record of a plate, cuts it at a limit, and lists its sizes. A record that needs more bytes than were lent is refused by 5 after the work.
#[unsafe(no_mangle)]
pub extern "C" fn livukoe_write_cut_list(
    image: &[u16],
    width: u32,
    height: u32,
    greatest: u32,
    connectivity: u32,
    limit: u32,
    bytes: &mut [u8],
    out: &mut [u16],
    counts: &mut [u32],
    losses: &mut [u64],
    work: &mut [u32],
) -> CutListed
    ensures { WrittenCutListed connectivity width height greatest limit image.now bytes.old bytes.new
        out.old out.new counts.old counts.new losses.old losses.new
        work.old work.new result }
{
    let plate = PlateHead {
        width,
        height,
        greatest,
        connectivity,
    };
    CutListed::from(record_write_cut_list::write_cut_list(
        image, plate, limit, bytes, out, counts, losses, work,
    ))
}
