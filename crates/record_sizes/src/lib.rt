// The size list, the grey held and the darkest grey of the plate whose component tree stands in the work space. These functions serve the operations
// on records, which build the tree first.
#![tactic(auto)]

ghost use Rattle.std.specs.Prelude.{◌≡◌, ◌+◌, ◌≤◌, ◌<◌, length};
ghost use Rattle.meaning.specs.Answers.{over};
ghost use Rattle.meaning.specs.Cut.{darkest, held};
ghost use Rattle.work_columns.specs.Layout.{greys_in};
ghost use Rattle.maxtree_columns.specs.Tree.{AttributedStands, TreeStands};
ghost use Rattle.record_sizes.specs.Sizes.{SizesListed, SizesWritten, TableOf, TablesFit, by_attribute, held_of, loss_of, most_lost, ones, zeros};

use maxtree_columns::TreeShape;
use work_columns::{AREA, ATTRIBUTE, LEVEL, PARENT};

// Sets the first m entries of both tables to zero.
fn clear_tables(counts: &mut [u32], losses: &mut [u64], m: usize)
    requires { (m ≤ length counts.old) × (m ≤ length losses.old) }
    ensures counts_after { counts.new ≡ over (zeros m) counts.old }
    ensures losses_after { losses.new ≡ over (zeros m) losses.old }
{
    counts[..m].fill(0);
    losses[..m].fill(0);
}

// The grey lost with node j: its area times its rise above its parent's level.
#[tactic(auto, using(crate::proofs::Listing::few_steps))]
fn loss_of(w: &[u32], t: TreeShape, j: usize) -> usize
    requires tree_stands { TreeStands t.shape w.now t.count }
    requires j_nonzero { (0 < j) × (j < t.count) }
    ensures { (result ≡ loss_of t.shape.pixels w.now j) × (result ≤ most_lost) }
{
    let n = t.shape.pixels;
    let parent = work_columns::get(w, n, PARENT, j);
    let area = work_columns::get(w, n, AREA, j);
    let level = work_columns::get(w, n, LEVEL, j);
    let below = work_columns::get(w, n, LEVEL, parent);
    area * (level - below)
}

// Counts node j at its attribute, and adds the grey lost with it there, where that is less than the pixels.
#[tactic(auto, using(crate::proofs::Listing::few_steps))]
fn list_node(w: &[u32], t: TreeShape, j: usize, counts: &mut [u32], losses: &mut [u64])
    requires attributed_stands { AttributedStands t.shape w.now t.count × (j < t.count) }
    requires counts_of { TableOf t.shape.pixels w.now ones j counts.old }
    requires losses_of { TableOf t.shape.pixels w.now (loss_of t.shape.pixels w.now) j losses.old }
    ensures counted { counts.new ≡ over (by_attribute t.shape.pixels w.now ones (j + 1)) counts.old }
    ensures lost { losses.new
        ≡ over (by_attribute t.shape.pixels w.now (loss_of t.shape.pixels w.now) (j + 1)) losses.old }
{
    let size = work_columns::get(w, t.shape.pixels, ATTRIBUTE, j);
    if t.shape.pixels <= size {
        return;
    }
    let loss = loss_of(w, t, j) as u64;
    let place = size - 1;
    counts[place] += 1;
    losses[place] += loss;
}

// Counts the nodes of each attribute from 1 to the pixels less one, and adds up the grey lost with them, in tables that are zero there.
fn list_nodes(w: &[u32], t: TreeShape, counts: &mut [u32], losses: &mut [u64])
    requires attributed_stands { AttributedStands t.shape w.now t.count }
    requires counts_of { TableOf t.shape.pixels w.now ones 0 counts.old }
    requires losses_of { TableOf t.shape.pixels w.now (loss_of t.shape.pixels w.now) 0 losses.old }
    ensures counted { counts.new ≡ over (by_attribute t.shape.pixels w.now ones t.count) counts.old }
    ensures lost { losses.new
        ≡ over (by_attribute t.shape.pixels w.now (loss_of t.shape.pixels w.now) t.count) losses.old }
{
    for j in 0..t.count {
        list_node(w, t, j, counts, losses);
    }
}

// The grey held with node j: its area times its rise above its parent's level where its attribute is all the pixels, else 0.
#[tactic(auto, using(crate::proofs::Listing::few_steps))]
fn held_with(w: &[u32], t: TreeShape, j: usize) -> u64
    requires attributed_stands { AttributedStands t.shape w.now t.count }
    requires j_nonzero { (0 < j) × (j < t.count) }
    ensures { (result ≡ held_of t.shape.pixels w.now j) × (result ≤ most_lost) }
{
    let attribute = work_columns::get(w, t.shape.pixels, ATTRIBUTE, j);
    if attribute < t.shape.pixels {
        return 0;
    }
    loss_of(w, t, j) as u64
}

// The grey held on the trim edge: the sum over the nodes after the root.
#[tactic(auto, using(crate::proofs::Listing::few_steps))]
fn sum_held(w: &[u32], t: TreeShape) -> u64
    requires { AttributedStands t.shape w.now t.count }
    ensures { result ≡ held t.shape.connectivity t.shape.width t.shape.height (greys_in t.shape.pixels w.now) }
{
    let mut sum = 0;
    for j in 1..t.count {
        sum += held_with(w, t, j);
    }
    sum
}

// Writes the size list of the plate where the attributes of its nodes stand; the result is the grey held.
#[tactic(auto, using(crate::proofs::Listing::few_steps))]
fn list_attributed(w: &[u32], t: TreeShape, counts: &mut [u32], losses: &mut [u64]) -> u64
    requires attributed_stands { AttributedStands t.shape w.now t.count }
    requires tables_fit { TablesFit t.shape.pixels counts.old losses.old }
    ensures { SizesListed t.shape (greys_in t.shape.pixels w.now) counts.old counts.new losses.old
        losses.new result }
{
    let end = t.shape.pixels - 1;
    clear_tables(counts, losses, end);
    list_nodes(w, t, counts, losses);
    sum_held(w, t)
}

// Writes the size list of the plate: by attribute, the number of nodes and the grey lost. The result is the grey held. It fills the column ATTRIBUTE.
pub fn list_sizes(w: &mut [u32], t: TreeShape, counts: &mut [u32], losses: &mut [u64]) -> u64
    requires tree_stands { TreeStands t.shape w.old t.count }
    requires tables_fit { TablesFit t.shape.pixels counts.old losses.old }
    ensures { SizesWritten t.shape w.old w.new counts.old counts.new losses.old
        losses.new result }
{
    maxtree_attribute::set_attributes(w, t);
    list_attributed(w, t, counts, losses)
}

// The plate's darkest grey, the root's level.
#[tactic(auto, using(crate::proofs::Listing::few_steps))]
pub fn darkest_of(w: &[u32], t: TreeShape) -> u32
    requires { TreeStands t.shape w.now t.count }
    ensures { result ≡ darkest (greys_in t.shape.pixels w.now) }
{
    work_columns::get(w, t.shape.pixels, LEVEL, 0) as u32
}
