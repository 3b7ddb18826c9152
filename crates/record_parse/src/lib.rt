// The fields of a record taken one after another, each with its refusal, up to 23. The greys that they spell go into the work space.
#![tactic(auto)]

ghost use Rattle.std.specs.Prelude.{◌+◌, ◌*◌, ◌<◌, ◌≤◌, length};
ghost use Rattle.meaning.specs.Plate.{max_extent};
ghost use Rattle.work_columns.specs.Columns.{Room};
ghost use Rattle.record_parse.specs.Parse.{from_height, parse};
ghost use Rattle.record_parse.specs.Steps.{Spells, Known, NodeRead, NodesRead, GreysRead, TreeRead, RefusesEarly};

use plate_refusals::PlateHead;
use record_varint::{Fault, read_field};
use refusals::Refusal;
use std::error::Error;
use std::fmt;
use work_columns::{GREY, LEVEL};

// What a record says of its plate beside the greys, and whether it is in the new form.
#[derive(Clone, Copy, Debug, PartialEq, Eq)]
pub struct RecordHead {
    pub new: bool,
    pub plate: PlateHead,
}

// Why a record is not read.
#[derive(Clone, Copy, Debug, PartialEq, Eq)]
pub enum Unread {
    // Refused by 6 or ahead of it, so that no work has begun.
    Early(Refusal),
    // Refused after 6; the pixels.
    Late(Refusal, usize),
}

impl fmt::Display for Unread {
    fn fmt<W: fmt::Write>(&self, f: &mut fmt::Formatter<W>) -> fmt::Result {
        match self {
            Unread::Early(refusal) => write!(f, "{refusal}, ahead of any work"),
            Unread::Late(refusal, pixels) => write!(f, "{refusal}, after work on {pixels} pixels"),
        }
    }
}

impl Error for Unread {}

// A fault of a field ahead of 6.
impl From<Fault> for Unread {
    ghost from_gives = { RefusesEarly };

    fn from(fault: Fault) -> Unread {
        Unread::Early(Refusal::from(fault))
    }
}

// Reads node i, after the root, and stores its level: the position after it.
fn read_node(
    s: &[u8],
    at: usize,
    work: &mut [u32],
    n: usize,
    greatest: u32,
    i: usize,
) -> Result<usize, Refusal>
    requires { Known n greatest work.old i × (i < n) }
    ensures { NodeRead greatest s.now at n work.old work.new i result }
{
    let (back, at1) = read_field(s, at, 1, i as u32)?;
    let level = work_columns::get(work, n, LEVEL, i - back as usize);
    let (rise, at2) = read_field(s, at1, 1, greatest - level as u32)?;
    let (_, at3) = read_field(s, at2, 1, n as u32)?;
    work_columns::put(work, n, LEVEL, i, level + rise as usize);
    Ok(at3)
}

// Reads the nodes after the root, whose level is stored, and stores their levels: the position after them.
fn read_nodes(
    s: &[u8],
    start: usize,
    work: &mut [u32],
    n: usize,
    greatest: u32,
    count: usize,
) -> Result<usize, Refusal>
    requires { Known n greatest work.old 1 × ((1 ≤ count) × (count ≤ n)) }
    ensures { NodesRead greatest s.now start n work.old work.new count result }
{
    let mut at = start;
    for i in 1..count {
        at = read_node(s, at, work, n, greatest, i)?;
    }
    Ok(at)
}

// Reads the pixels' own nodes, whose levels are stored, and stores the greys: the position after them.
fn read_greys(
    s: &[u8],
    start: usize,
    work: &mut [u32],
    n: usize,
    count: usize,
) -> Result<usize, Refusal>
    requires { Room work.old n × ((1 ≤ count) × (count ≤ n)) }
    ensures { GreysRead s.now start n work.old work.new count result }
{
    let last = (count - 1) as u32;
    let mut at = start;
    for p in 0..n {
        let (own, next) = read_field(s, at, 0, last)?;
        let level = work_columns::get(work, n, LEVEL, own as usize);
        work_columns::put(work, n, GREY, p, level);
        at = next;
    }
    Ok(at)
}

// Reads what follows the node count: root level, root area, the other nodes, the own nodes, and the end.
fn read_tree_fields(
    s: &[u8],
    at: usize,
    work: &mut [u32],
    n: usize,
    greatest: u32,
    count: usize,
) -> Result<(), Refusal>
    requires { Room work.old n × ((1 ≤ count) × (count ≤ n)) }
    ensures { TreeRead greatest s.now at n work.old work.new count result }
{
    let (level, at1) = read_field(s, at, 0, greatest)?;
    let (_, at2) = read_field(s, at1, 1, n as u32)?;
    work_columns::put(work, n, LEVEL, 0, level as usize);
    let at3 = read_nodes(s, at2, work, n, greatest, count)?;
    let at4 = read_greys(s, at3, work, n, count)?;
    if at4 < s.len() {
        return Err(Refusal::RecordLong);
    }
    Ok(())
}

// Reads what follows the width, for a plate of greys up to `greatest`: height, connectivity, node count, and the tree's fields.
fn parse_plate(
    s: &[u8],
    at: usize,
    new: bool,
    greatest: u32,
    width: u32,
    work: &mut [u32],
) -> Result<RecordHead, Unread>
    requires { width ≤ max_extent }
    ensures { Spells (from_height new greatest s.now (length work.old) width at) work.old work.new result }
{
    let f1 = read_field(s, at, 1, 32768);
    let Ok((height, at1)) = f1 else {
        return Err(Unread::from(f1.unwrap_err()));
    };
    let pixels = width * height;
    if 16777216 < pixels {
        return Err(Unread::Early(Refusal::FieldRange));
    }
    let f2 = read_field(s, at1, 0, 4294967295);
    let Ok((connectivity, at2)) = f2 else {
        return Err(Unread::from(f2.unwrap_err()));
    };
    if !plate_refusals::connectivity_fits(connectivity) {
        return Err(Unread::Early(Refusal::FieldRange));
    }
    let f3 = read_field(s, at2, 1, pixels);
    let Ok((count, at3)) = f3 else {
        return Err(Unread::from(f3.unwrap_err()));
    };
    let n = pixels as usize;
    plate_refusals::check_work(n, work.len()).map_err(Unread::Early)?;
    if let Err(refusal) = read_tree_fields(s, at3, work, n, greatest, count as usize) {
        return Err(Unread::Late(refusal, n));
    }
    Ok(RecordHead {
        new,
        plate: PlateHead {
            width,
            height,
            greatest,
            connectivity,
        },
    })
}

// Parses a record up to refusal 23. The greys of the plate stand in the work space's first column.
pub fn parse_record(s: &[u8], work: &mut [u32]) -> Result<RecordHead, Unread>
    ensures { Spells (parse s.now (length work.old)) work.old work.new result }
{
    let f1 = read_field(s, 0, 0, 32768);
    let Ok((first, at1)) = f1 else {
        return Err(Unread::from(f1.unwrap_err()));
    };
    if first != 0 {
        return parse_plate(s, at1, false, 255, first, work);
    }
    let (_, at2) = read_field(s, at1, 2, 2)?;
    let (greatest, at3) = read_field(s, at2, 1, 65535)?;
    let f4 = read_field(s, at3, 1, 32768);
    let Ok((width, at4)) = f4 else {
        return Err(Unread::from(f4.unwrap_err()));
    };
    parse_plate(s, at4, true, greatest, width, work)
}
