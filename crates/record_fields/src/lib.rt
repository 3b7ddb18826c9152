// The fields of the record of the plate whose tree stands in the work space: measured and written in the new form, compared in either. These functions
// serve the crates above, whose work space has the tree.
#![tactic(auto)]

ghost use Rattle.std.specs.Prelude.{◌≡◌, ◌+◌, ◌*◌, ◌≤◌, ◌<◌, length};
ghost use Rattle.meaning.specs.Plate.{max_pixels};
ghost use Rattle.meaning.specs.Sets.{nth};
ghost use Rattle.meaning.specs.Record.{record_in, record_of};
ghost use Rattle.meaning.specs.Answers.{over};
ghost use Rattle.work_columns.specs.Layout.{greys_in};
ghost use Rattle.maxtree_columns.specs.Tree.{TreeStands};
ghost use Rattle.record_parse.specs.Parse.{same_bytes};
ghost use Rattle.record_fields.specs.Fields.{node_columns, column_fields, first_field};

use maxtree_columns::TreeShape;
use work_columns::{AREA, LEVEL, OWN, PARENT};

// Of node i, after the root: 0 the step back to its parent's number, 1 its rise above the parent's level, 2 its area.
#[tactic(auto, using(crate::proofs::Fields::small), unfolding(crate::specs::Fields::node_columns))]
fn node_field(w: &[u32], t: TreeShape, i: usize, part: usize) -> usize
    requires tree_stands { TreeStands t.shape w.now t.count }
    requires i_nonzero { (0 < i) × ((i < t.count) × (part < 3)) }
    ensures { (result ≡ nth (node_columns t.shape w.now i) part) × (result < 4294967296) }
{
    let n = t.shape.pixels;
    let parent = work_columns::get(w, n, PARENT, i);
    match part {
        0 => i - parent,
        1 => work_columns::get(w, n, LEVEL, i) - work_columns::get(w, n, LEVEL, parent),
        _ => work_columns::get(w, n, AREA, i),
    }
}

// One of the fields ahead of the nodes: the three that mark the new form (0, 2, greatest grey), width, height, connectivity, node count, root level,
// root area.
#[tactic(auto, using(crate::proofs::Fields::small), unfolding(crate::specs::Fields::column_fields))]
fn head_field(w: &[u32], t: TreeShape, i: usize) -> u32
    requires tree_stands { TreeStands t.shape w.now t.count }
    requires i_bound { i < 9 }
    ensures { result ≡ nth (column_fields t.shape w.now t.count) i }
{
    let g = t.shape;
    match i {
        0 => 0,
        1 => 2,
        2 => g.greatest as u32,
        3 => g.width as u32,
        4 => g.height as u32,
        5 => g.connectivity as u32,
        6 => t.count as u32,
        7 => work_columns::get(w, g.pixels, LEVEL, 0) as u32,
        _ => work_columns::get(w, g.pixels, AREA, 0) as u32,
    }
}

// Field i.
#[tactic(auto, using(crate::proofs::Fields::fields_at))]
fn field_at(w: &[u32], t: TreeShape, i: usize) -> u32
    requires tree_stands { TreeStands t.shape w.now t.count }
    requires i_bound { i < 3 * t.count + 6 + t.shape.pixels }
    ensures { result ≡ nth (column_fields t.shape w.now t.count) i }
{
    if i < 9 {
        return head_field(w, t, i);
    }
    let front = 3 * t.count + 6;
    if i < front {
        let at = i - 9;
        return node_field(w, t, at / 3 + 1, at % 3) as u32;
    }
    work_columns::get(w, t.shape.pixels, OWN, i - front) as u32
}

// How many fields the record has, in the new form: the head's, three of each node after the root, one of each pixel.
fn field_count(t: TreeShape) -> usize
    requires { (1 ≤ t.count) × ((t.count ≤ t.shape.pixels) × (t.shape.pixels ≤ max_pixels)) }
    ensures { result ≡ 3 * t.count + 6 + t.shape.pixels }
{
    9 + 3 * (t.count - 1) + t.shape.pixels
}

// How many bytes the record has, in the new form.
#[tactic(auto, using(crate::proofs::Fields::small))]
pub fn measure(w: &[u32], t: TreeShape) -> usize
    requires { TreeStands t.shape w.now t.count }
    ensures { result ≡ length (record_of t.shape.connectivity t.shape.width t.shape.height t.shape.greatest (greys_in t.shape.pixels w.now)) }
{
    let mut size = 0;
    for i in 0..field_count(t) {
        size += record_varint::field_size(field_at(w, t, i));
    }
    size
}

// Writes the record, in the new form.
#[tactic(auto, using(crate::proofs::Fields::small))]
pub fn write(w: &[u32], t: TreeShape, out: &mut [u8])
    requires tree_stands { TreeStands t.shape w.now t.count }
    requires w_in_bounds { length (record_of t.shape.connectivity t.shape.width t.shape.height t.shape.greatest (greys_in t.shape.pixels w.now))
        ≤ length out.old }
    ensures { out.new
        ≡ over (record_of t.shape.connectivity t.shape.width t.shape.height t.shape.greatest (greys_in t.shape.pixels w.now)) out.old }
{
    let mut at = 0;
    for i in 0..field_count(t) {
        at = record_varint::put_field(out, at, field_at(w, t, i));
    }
}

// Which field of the new form is the first of the record in the new form, or in the old one.
fn first_field(new: bool) -> usize
    ensures { result ≡ first_field new }
{
    if new { 0 } else { 3 }
}

// Whether the bytes are the record in the new form, or in the old one.
#[tactic(auto, using(crate::proofs::Fields::small))]
pub fn same(w: &[u32], t: TreeShape, new: bool, s: &[u8]) -> bool
    requires { TreeStands t.shape w.now t.count }
    ensures { result
        ≡ same_bytes s.now (record_in new t.shape.connectivity t.shape.width t.shape.height t.shape.greatest (greys_in t.shape.pixels w.now)) }
{
    let mut at = 0;
    for i in first_field(new)..field_count(t) {
        let Some(next) = record_varint::same_field(s, at, field_at(w, t, i)) else {
            return false;
        };
        at = next;
    }
    at == s.len()
}
