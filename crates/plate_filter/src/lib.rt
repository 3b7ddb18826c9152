// Cleaning, regional maxima, and the node list of a plate: operations that callers use, and that require nothing.
#![tactic(auto)]

ghost use Rattle.refusals.specs.Numbers.{refusal_of};
ghost use Rattle.plate_tree.specs.Listing.{count_of};
ghost use Rattle.plate_filter.specs.Operations.{Cleaned, MaximaMarked, NodesListed, columns, Lent, ColumnsWritten};

use plate_refusals::{PlateHead, Side};
use refusals::Refusal;
use work_columns::{ANCHOR, AREA, LEVEL, PARENT};

// Cleans a plate at a limit on its light side or its dark side.
pub fn clean(
    side: u32,
    image: &[u16],
    plate: PlateHead,
    limit: u32,
    out: &mut [u16],
    work: &mut [u32],
) -> Result<(), Refusal>
    ensures { Cleaned side plate.connectivity plate.width plate.height plate.greatest limit image.now
        out.old out.new work.old work.new (refusal_of result) }
{
    let chosen = plate_refusals::check_clean(side, image, plate, limit, out.len(), work.len())?;
    let n = image.len();
    let negated = chosen == Side::Dark;
    let tree = plate_tree::plate_tree(image, negated, plate.shape(n), work);
    maxtree_values::cut_values(work, tree, limit as usize);
    maxtree_values::deliver(work, n, negated, tree.shape.greatest, out);
    Ok(())
}

// Marks the regional maxima of a plate: 1 inside one, 0 elsewhere.
pub fn regional_maxima(
    image: &[u16],
    plate: PlateHead,
    out: &mut [u16],
    work: &mut [u32],
) -> Result<(), Refusal>
    ensures { MaximaMarked plate.connectivity plate.width plate.height plate.greatest image.now
        out.old out.new work.old work.new (refusal_of result) }
{
    plate_refusals::check_maxima(image, plate, out.len(), work.len())?;
    let n = image.len();
    let tree = plate_tree::plate_tree(image, false, plate.shape(n), work);
    maxtree_values::mark_leaves(work, tree);
    maxtree_values::deliver(work, n, false, tree.shape.greatest, out);
    Ok(())
}

// Writes the columns of the nodes. A struct of the four lent slices is no plainer: its clauses read `out.entry.levels.now` and `out.exit.0.now`.
fn write_nodes(
    work: &[u32],
    n: usize,
    count: usize,
    levels: &mut [u32],
    parents: &mut [u32],
    areas: &mut [u32],
    anchors: &mut [u32],
)
    requires { Lent n count work.now (columns levels.old parents.old areas.old anchors.old) }
    ensures { ColumnsWritten n count work.now
        (columns levels.old parents.old areas.old anchors.old)
        (columns levels.new parents.new areas.new anchors.new) }
{
    maxtree_values::write_column(work, n, LEVEL, count, levels);
    maxtree_values::write_column(work, n, PARENT, count, parents);
    maxtree_values::write_column(work, n, AREA, count, areas);
    maxtree_values::write_column(work, n, ANCHOR, count, anchors);
}

// The nodes of a plate, one column for each of level, parent (0 for the root), area and anchor. The number of nodes.
pub fn node_list(
    image: &[u16],
    plate: PlateHead,
    levels: &mut [u32],
    parents: &mut [u32],
    areas: &mut [u32],
    anchors: &mut [u32],
    work: &mut [u32],
) -> Result<u32, Refusal>
    ensures { NodesListed plate.connectivity plate.width plate.height plate.greatest image.now
        (columns levels.old parents.old areas.old anchors.old)
        (columns levels.new parents.new areas.new anchors.new)
        work.old work.new (refusal_of result) (count_of result) }
{
    let places = levels
        .len()
        .min(parents.len())
        .min(areas.len())
        .min(anchors.len());
    let count = plate_tree::start_list(image, plate, places, work)?;
    let n = image.len();
    write_nodes(work, n, count as usize, levels, parents, areas, anchors);
    work_columns::clear(work, n);
    Ok(count)
}
