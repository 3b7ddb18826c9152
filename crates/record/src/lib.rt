// Records: writing one, reading one, cutting one at a limit, the size list of one. Operations that callers use, and that require nothing.
#![tactic(auto)]

ghost use Rattle.std.specs.Prelude.{◌≡◌, length};
ghost use Rattle.maxtree_columns.specs.Tree.{TreeStands};
ghost use Rattle.record_parse.specs.Parse.{read_of};
ghost use Rattle.record.specs.Answers.{written_answer, read_answer, sizes_answer};
ghost use Rattle.record.specs.Standing.{TreeWritten, PlateWritten, CutWritten, TreeListed};
ghost use Rattle.record.specs.Writing.{WrittenRecord};
ghost use Rattle.record.specs.Reading.{ReadRecord, CutRecord, ListedSizes};

use maxtree_columns::TreeShape;
use plate_refusals::PlateHead;
use record_tree::FoundTree;
use refusals::Refusal;

// What the size list gives beside its tables: the plate, the number of nodes, the darkest grey and the grey held on the trim edge.
#[derive(Clone, Copy, Debug, PartialEq, Eq)]
pub struct SizeList {
    pub plate: PlateHead,
    pub nodes: u32,
    pub darkest: u32,
    pub held: u64,
}

// ---- the answers as the C functions give them, and as the definitions speak of them: a refusal's number and zeros, or 0 and what is given

// What writing answers: the length of the record, in bytes.
#[repr(C)]
#[derive(Clone, Copy)]
pub struct Written {
    pub refusal: u32,
    pub length: usize,
}

impl From<Result<usize, Refusal>> for Written {
    ghost from_gives = { λ answer r. r ≡ written_answer answer };

    fn from(answer: Result<usize, Refusal>) -> Written {
        Written {
            refusal: refusals::number(answer),
            length: answer.unwrap_or(0),
        }
    }
}

// What reading and cutting answer: the sizes, the greatest grey and the connectivity of the record's plate.
#[repr(C)]
#[derive(Clone, Copy)]
pub struct Head {
    pub refusal: u32,
    pub width: u32,
    pub height: u32,
    pub greatest: u32,
    pub connectivity: u32,
}

impl From<Result<PlateHead, Refusal>> for Head {
    ghost from_gives = { λ answer r. r ≡ read_answer answer };

    fn from(answer: Result<PlateHead, Refusal>) -> Head {
        let plate = answer.unwrap_or(PlateHead {
            width: 0,
            height: 0,
            greatest: 0,
            connectivity: 0,
        });
        Head {
            refusal: refusals::number(answer),
            width: plate.width,
            height: plate.height,
            greatest: plate.greatest,
            connectivity: plate.connectivity,
        }
    }
}

// What the size list answers: also the number of nodes, the darkest grey and the grey held on the trim edge.
#[repr(C)]
#[derive(Clone, Copy)]
pub struct SizeHead {
    pub refusal: u32,
    pub width: u32,
    pub height: u32,
    pub greatest: u32,
    pub connectivity: u32,
    pub nodes: u32,
    pub darkest: u32,
    pub held: u64,
}

impl From<Result<SizeList, Refusal>> for SizeHead {
    ghost from_gives = { λ answer r. r ≡ sizes_answer answer };

    fn from(answer: Result<SizeList, Refusal>) -> SizeHead {
        let head = Head::from(answer.map(|list| list.plate));
        SizeHead {
            refusal: head.refusal,
            width: head.width,
            height: head.height,
            greatest: head.greatest,
            connectivity: head.connectivity,
            nodes: answer.map_or(0, |list| list.nodes),
            darkest: answer.map_or(0, |list| list.darkest),
            held: answer.map_or(0, |list| list.held),
        }
    }
}

// ---- the operations. Each leaves the work space zeroed where its work began

// Writes the record of the tree in the work space; its length.
fn write_tree(work: &[u32], tree: TreeShape, out: &mut [u8]) -> Result<usize, Refusal>
    requires { TreeStands tree.shape work.now tree.count }
    ensures { TreeWritten tree.shape work.now out.old out.new result }
{
    let size = record_fields::measure(work, tree);
    plate_refusals::check_out(size, out.len())?;
    record_fields::write(work, tree, out);
    Ok(size)
}

// Writes the record of a plate with its connectivity, in the new form; its length in bytes.
pub fn write_record(
    image: &[u16],
    plate: PlateHead,
    out: &mut [u8],
    work: &mut [u32],
) -> Result<usize, Refusal>
    ensures { WrittenRecord plate.connectivity plate.width plate.height plate.greatest image.now
        out.old out.new work.old work.new (written_answer result) }
{
    plate_refusals::check_tree(image, plate, work.len())?;
    let pixels = image.len();
    let tree = plate_tree::plate_tree(image, false, plate.shape(pixels), work);
    let written = write_tree(work, tree, out);
    work_columns::clear(work, pixels);
    written
}

// Writes the plate whose tree is in the work space.
fn write_plate(work: &[u32], found: FoundTree, out: &mut [u16]) -> Result<PlateHead, Refusal>
    requires { TreeStands found.tree.shape work.now found.tree.count }
    ensures { PlateWritten found work.now out.old out.new result }
{
    let pixels = found.tree.shape.pixels;
    plate_refusals::check_out(pixels, out.len())?;
    record_tree::write_greys(work, pixels, out);
    Ok(found.plate)
}

// Reads a record of either form: its plate.
pub fn read_record(bytes: &[u8], out: &mut [u16], work: &mut [u32]) -> Result<PlateHead, Refusal>
    ensures { ReadRecord (read_of bytes.now (length work.old))
        out.old out.new work.old work.new (read_answer result) }
{
    let found = record_tree::read_tree(bytes, work)?;
    let read = write_plate(work, found, out);
    work_columns::clear(work, found.tree.shape.pixels);
    read
}

// Writes the cut, at a limit, of the plate whose tree is in the work space.
fn write_cut(
    work: &mut [u32],
    found: FoundTree,
    limit: u32,
    out: &mut [u16],
) -> Result<PlateHead, Refusal>
    requires { TreeStands found.tree.shape work.old found.tree.count }
    ensures { CutWritten found limit work.old work.new out.old out.new result }
{
    let shape = found.tree.shape;
    plate_refusals::check_cut(limit, shape.pixels, out.len())?;
    maxtree_values::cut_values(work, found.tree, limit as usize);
    maxtree_values::write_values(work, shape.pixels, false, shape.greatest, out);
    Ok(found.plate)
}

// Cuts a record at a limit.
pub fn cut_record(
    bytes: &[u8],
    limit: u32,
    out: &mut [u16],
    work: &mut [u32],
) -> Result<PlateHead, Refusal>
    ensures { CutRecord (read_of bytes.now (length work.old)) limit
        out.old out.new work.old work.new (read_answer result) }
{
    let found = record_tree::read_tree(bytes, work)?;
    let cut = write_cut(work, found, limit, out);
    work_columns::clear(work, found.tree.shape.pixels);
    cut
}

// Lists the sizes of the nodes, off the trim edge, of the tree in the work space.
fn list_tree(
    work: &mut [u32],
    found: FoundTree,
    counts: &mut [u32],
    losses: &mut [u64],
) -> Result<SizeList, Refusal>
    requires { TreeStands found.tree.shape work.old found.tree.count }
    ensures { TreeListed found work.old work.new counts.old counts.new losses.old losses.new result }
{
    let tree = found.tree;
    plate_refusals::check_tables(tree.shape.pixels, counts.len(), losses.len())?;
    let darkest = record_sizes::darkest_of(work, tree);
    let held = record_sizes::list_sizes(work, tree, counts, losses);
    Ok(SizeList {
        plate: found.plate,
        nodes: tree.count as u32,
        darkest,
        held,
    })
}

// Lists the sizes of a record's nodes off the trim edge: by area, their number and the grey lost.
pub fn size_list(
    bytes: &[u8],
    counts: &mut [u32],
    losses: &mut [u64],
    work: &mut [u32],
) -> Result<SizeList, Refusal>
    ensures { ListedSizes (read_of bytes.now (length work.old))
        counts.old counts.new losses.old losses.new work.old work.new (sizes_answer result) }
{
    let found = record_tree::read_tree(bytes, work)?;
    let listed = list_tree(work, found, counts, losses);
    work_columns::clear(work, found.tree.shape.pixels);
    listed
}
