// A record read up to 24: the tree of its plate stands in the work space, or the record is refused.
#![tactic(auto)]

ghost use Rattle.std.specs.Prelude.{◌≡◌, length};
ghost use Rattle.meaning.specs.Answers.{over};
ghost use Rattle.work_columns.specs.Layout.{greys_in};
ghost use Rattle.record_parse.specs.Parse.{read_of};
ghost use Rattle.record_tree.specs.Found.{Finds, Reads, GreysStand};

use maxtree_columns::TreeShape;
use plate_refusals::PlateHead;
use record_parse::{RecordHead, Unread};
use refusals::Refusal;
use work_columns::GREY;

// A plate whose tree stands in the work space, and whether its record is in the new form.
#[derive(Clone, Copy)]
pub struct FoundTree {
    pub new: bool,
    pub plate: PlateHead,
    pub tree: TreeShape,
}

// Reads a record up to 24, and says of a refusal whether work had begun, on how many pixels. Where it is refused the work space is left as it then is.
pub fn find_tree(bytes: &[u8], work: &mut [u32]) -> Result<FoundTree, Unread>
    ensures { Finds (read_of bytes.now (length work.old)) work.old work.new result }
{
    let RecordHead { new, plate } = record_parse::parse_record(bytes, work)?;
    let pixels = (plate.width * plate.height) as usize;
    let shape = plate.shape(pixels);
    let count = maxtree::build_tree(work, shape);
    let tree = TreeShape { shape, count };
    if !record_fields::same(work, tree, new, bytes) {
        return Err(Unread::Late(Refusal::RecordOther, pixels));
    }
    Ok(FoundTree { new, plate, tree })
}

// Reads a record up to 24. The tree of its plate then stands in the work space, which is zeroed where the record is refused after the work began.
pub fn read_tree(bytes: &[u8], work: &mut [u32]) -> Result<FoundTree, Refusal>
    ensures { Reads (read_of bytes.now (length work.old)) work.old work.new result }
{
    match find_tree(bytes, work) {
        Ok(found) => Ok(found),
        Err(Unread::Early(refusal)) => Err(refusal),
        Err(Unread::Late(refusal, pixels)) => {
            work_columns::clear(work, pixels);
            Err(refusal)
        }
    }
}

// Writes the greys in the work space.
pub fn write_greys(w: &[u32], n: usize, out: &mut [u16])
    requires { GreysStand n w.now out.old }
    ensures { out.new ≡ over (greys_in n w.now) out.old }
{
    for p in 0..n {
        out[p] = work_columns::get(w, n, GREY, p) as u16;
    }
}
