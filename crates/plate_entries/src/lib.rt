// The node list as one lent list of node entries: `fill` and `node_entries` write it, `node_at` reads it.
#![tactic(auto)]

ghost use Rattle.std.specs.Prelude.{◌≡◌, ◌<◌, get_or};
ghost use Rattle.meaning.specs.Sets.{table};
ghost use Rattle.refusals.specs.Numbers.{refusal_of};
ghost use Rattle.work_columns.specs.Columns.{Room};
ghost use Rattle.plate_tree.specs.Listing.{count_of};
ghost use Rattle.plate_entries.specs.Entries.{EntriesListed, Fillable, none, over_nodes, standing};

use plate_refusals::PlateHead;
use refusals::Refusal;
use work_columns::{ANCHOR, AREA, LEVEL, PARENT};

// A node: its level, its parent's number (0 for the root), its area and its anchor.
#[repr(C)]
#[derive(Clone, Copy, Default)]
pub struct Node {
    pub level: u32,
    pub parent: u32,
    pub area: u32,
    pub anchor: u32,
}

// The entry of node i, from the columns of the work space.
#[tactic(auto, unfolding(crate::specs::Entries::standing))]
fn standing(work: &[u32], n: usize, i: usize) -> Node
    requires { Room work.now n × (i < n) }
    ensures { result ≡ standing n work.now i }
{
    Node {
        level: work_columns::get(work, n, LEVEL, i) as u32,
        parent: work_columns::get(work, n, PARENT, i) as u32,
        area: work_columns::get(work, n, AREA, i) as u32,
        anchor: work_columns::get(work, n, ANCHOR, i) as u32,
    }
}

// Writes the entries of the first `count` nodes of the work space.
#[tactic(auto, using(crate::proofs::Lists::filled_none, crate::proofs::Lists::filled_more))]
fn fill(list: &mut [Node], work: &[u32], n: usize, count: usize)
    requires { Fillable n count work.now list.old }
    ensures { list.new ≡ over_nodes (table count (standing n work.now)) list.old }
{
    for i in 0..count {
        list[i] = standing(work, n, i);
    }
}

// The nodes of a plate as entries of one list. The number of nodes.
pub fn node_entries(
    image: &[u16],
    plate: PlateHead,
    list: &mut [Node],
    work: &mut [u32],
) -> Result<u32, Refusal>
    ensures { EntriesListed plate.connectivity plate.width plate.height plate.greatest image.now list.old list.new
        work.old work.new (refusal_of result) (count_of result) }
{
    let count = plate_tree::start_list(image, plate, list.len(), work)?;
    let n = image.len();
    fill(list, work, n, count as usize);
    work_columns::clear(work, n);
    Ok(count)
}

// The entry at a place of the list; all zeros beyond its end.
pub fn node_at(list: &[Node], at: usize) -> Node
    ensures { result ≡ get_or list.now at none }
{
    list.get(at).copied().unwrap_or_default()
}
