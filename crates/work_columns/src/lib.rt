// The work space: eight columns of n numbers in one lent slice. These functions serve the crates above; their callers keep within the columns.
#![tactic(auto)]

ghost use Rattle.std.specs.Prelude.{◌≡◌, ◌++◌, ◌+◌, ◌*◌, ◌≤◌, ◌<◌, drop, replicate};
ghost use Rattle.work_columns.specs.Columns.{cell, col, CellStored, Filled, Room, Stored};
ghost use Rattle.work_columns.specs.Layout.{shape_of};

// The shape of a plate: its pixels, its width and height, its greatest grey, its connectivity.
#[derive(Clone, Copy)]
pub struct Shape {
    pub pixels: usize,
    pub width: usize,
    pub height: usize,
    pub greatest: usize,
    pub connectivity: usize,
}

// The grid of a plate's pixels, for the engine: their number, width and height, connectivity.
#[derive(Clone, Copy)]
pub struct PixelGrid {
    pub pixels: usize,
    pub width: usize,
    pub height: usize,
    pub connectivity: usize,
}

// The shape of a plate from its numbers.
pub fn shape_of(pixels: usize, width: u32, height: u32, greatest: u32, connectivity: u32) -> Shape
    ensures { result ≡ shape_of pixels width height greatest connectivity }
{
    Shape {
        pixels,
        width: width as usize,
        height: height as usize,
        greatest: greatest as usize,
        connectivity: connectivity as usize,
    }
}

// ---- the columns, as specs/Layout.antt names them: column c begins at entry c * n, so a column is its number, and has a name for each stage

// By pixel: its grey; its node (while flooding, n plus its level where it has none yet).
pub const GREY: usize = 0;

pub const OWN: usize = 1;

// While flooding, the pixels to visit; by node: its anchor, its level.
pub const STACK: usize = 2;

pub const ANCHOR: usize = 2;

pub const LEVEL: usize = 3;

// By node in the order of flooding: its parent, its area; its number, in the place of its area.
pub const FLOOD_PARENT: usize = 3;

pub const FLOOD_AREA: usize = 4;

pub const NUMBER: usize = 4;

// While flooding, by level: the node of an open level plus one, 0 where the level is not open; the top and the start of its stack.
pub const NAME: usize = 5;

pub const TOP: usize = 6;

pub const START: usize = 7;

// When numbering, by level: the number that its next node gets.
pub const PLACE: usize = 6;

// By node: its parent, its area; for an operation, what is held against the limit, and a free column.
pub const PARENT: usize = 5;

pub const AREA: usize = 7;

pub const ATTRIBUTE: usize = 6;

pub const VALUE: usize = 4;

// The entry i of column c.
#[tactic(auto, using(crate::proofs::Columns::col_in))]
pub fn get(w: &[u32], n: usize, c: usize, i: usize) -> usize
    requires room { Room w.now n }
    requires c_bound { (c < 8) × (i < n) }
    ensures { (result ≡ col c n w.now i) × (result < 4294967296) }
{
    w[c * n + i] as usize
}

// Sets the entry i of column c.
pub fn put(w: &mut [u32], n: usize, c: usize, i: usize, v: usize)
    requires room { Room w.old n }
    requires c_bound { (c < 8) × ((i < n) × (v < 4294967296)) }
    ensures { Stored w.old w.new n c i v }
{
    w[c * n + i] = v as u32;
}

// Sets the first `count` entries of column c to v.
pub fn fill(w: &mut [u32], n: usize, c: usize, count: usize, v: usize)
    requires room { Room w.old n }
    requires c_bound { (c < 8) × ((count ≤ n) × (v < 4294967296)) }
    ensures { Filled w.old w.new n c count v }
{
    let start = c * n;
    w[start..start + count].fill(v as u32);
}

// The entry i of column c, 5 or 6, where the two stand side by side: entry i of 6, then entry i of 5.
#[tactic(auto, using(crate::proofs::Columns::pair_entry))]
pub fn get_pair(w: &[u32], n: usize, c: usize, i: usize) -> usize
    requires room { Room w.now n }
    requires lt_c { (4 < c) × ((c < 7) × (i < n)) }
    ensures { (result ≡ cell c n w.now i) × (result < 4294967296) }
{
    w[5 * n + (2 * i + (6 - c))] as usize
}

// Sets it.
pub fn put_pair(w: &mut [u32], n: usize, c: usize, i: usize, v: usize)
    requires room { Room w.old n }
    requires lt_c { (4 < c) × ((c < 7) × ((i < n) × (v < 4294967296))) }
    ensures { CellStored w.old w.new n c i v }
{
    w[5 * n + (2 * i + (6 - c))] = v as u32;
}

// Sets the eight columns to zero.
pub fn clear(w: &mut [u32], n: usize)
    requires { Room w.old n }
    ensures { w.new ≡ replicate (8 * n) 0 ++ drop (8 * n) w.old }
{
    w[..8 * n].fill(0);
}
