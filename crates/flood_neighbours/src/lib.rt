// The neighbours of a pixel, looked at until the flood rises.
#![tactic(auto)]

ghost use Rattle.std.specs.Prelude.{◌≡◌, ◌⊎◌, ◌+◌, ◌*◌, ◌/◌, ◌%◌, ◌<◌, ◌≤◌, IfSome, MatchOption};
ghost use Rattle.std.specs.Option.{unwrap_or};
ghost use Rattle.flood_directions.specs.Directions.{Leads};
ghost use Rattle.flood_neighbours.specs.Steps.{places};
ghost use Rattle.flood_laws.specs.Functions.{InDirection, Looked, Looking, Neighbour, NewLevel, Toward, Visited};

use Step::{Back, On, Stay};
use work_columns::{NAME, OWN, PixelGrid, get, get_pair};

// The directions, which a const parameter names by a number: in the order of flood_directions, so that a connectivity is the number of its directions.
const RIGHT: usize = 0;

const LEFT: usize = 1;

const LOWER: usize = 2;

const UPPER: usize = 3;

const UPPER_LEFT: usize = 4;

const LOWER_RIGHT: usize = 5;

const UPPER_RIGHT: usize = 6;

const LOWER_LEFT: usize = 7;

// A step along a row or a column.
#[derive(Clone, Copy)]
enum Step {
    Back,
    Stay,
    On,
}

// By direction, the step along the row and the step along the column.
const ACROSS: [Step; 8] = [On, Back, Stay, Stay, Back, On, On, Back];

const DOWN: [Step; 8] = [Stay, Stay, On, Back, Back, On, Back, On];

// The pixel in column x of row y.
#[derive(Clone, Copy)]
pub struct Pixel {
    pub x: usize,
    pub y: usize,
}

impl Pixel {
    // The pixel of an entry of the stacks.
    pub fn of_entry(e: usize) -> Pixel
        ensures column { result.x ≡ e % 65536 }
        ensures row { result.y ≡ e / 65536 }
    {
        Pixel {
            x: e % 65536,
            y: e / 65536,
        }
    }

    // Its entry of the stacks.
    fn entry(self) -> usize
        requires { (self.x < 65536) × (self.y < 65536) }
        ensures { result ≡ self.y * 65536 + self.x }
    {
        self.y * 65536 + self.x
    }

    // Its place in the columns of the work space.
    fn place(self, g: PixelGrid) -> usize
        requires { self.y * g.width + self.x < g.pixels }
        ensures { result ≡ self.y * g.width + self.x }
    {
        self.y * g.width + self.x
    }

    // The pixel next to it in direction D, None where the grid has none there.
    fn neighbour<const D: usize>(self, g: PixelGrid) -> Option<Pixel>
        requires direction { D < 8 }
        requires inside { (self.x < g.width) × (self.y < g.height) }
        ensures { MatchOption result (Leads g.width g.height D self.x self.y → ⊥)
            (λ to. InDirection g D self.x self.y to.x to.y) }
    {
        Some(Pixel {
            x: moved(self.x, ACROSS[D], g.width)?,
            y: moved(self.y, DOWN[D], g.height)?,
        })
    }
}

// The place one step from i, None where that is not from 0 to the end. One formula for the three steps tests both borders at each, and took up to 1.3
// times as long.
fn moved(i: usize, step: Step, end: usize) -> Option<usize>
    requires { i < end }
    ensures { MatchOption result ((1 ≤ i + places step → ⊥) ⊎ (i + places step ≤ end → ⊥)) (λ k. (k + 1 ≡ i + places step) × (k < end)) }
{
    match step {
        Back => i.checked_sub(1),
        Stay => Some(i),
        On => {
            if end <= i + 1 {
                return None;
            }
            Some(i + 1)
        }
    }
}

// The pixel `to`, not seen, which touches the current pixel, `at`, opens the level m. The level to which the flood has risen, where it has; then
// `at` is back on its stack.
fn rise(
    w: &mut [u32],
    s: &mut [u64],
    g: PixelGrid,
    at: Pixel,
    to: Pixel,
    m: usize,
    h: usize,
) -> Option<usize>
    requires looking { Looking g w.old s.old h at.x at.y × Toward g at.x at.y to.x to.y }
    requires new_level { NewLevel g w.old to.x to.y m }
    ensures looked { Looked g w.old w.new s.old s.new h at.x at.y (λ q. q ≡ to.y * g.width + to.x) (unwrap_or result h) }
    ensures lighter { IfSome result (λ l. h < l) }
{
    let n = g.pixels;
    flood_levels::open_node(w, s, n, to.place(g), m, to.entry());
    if m <= h {
        return None;
    }
    flood_levels::place(w, n, h, at.entry());
    Some(m)
}

// Looks at the pixel `to`, which touches the current pixel, `at`: a new pixel, which holds n plus its level, is pushed. The level to which the
// flood has risen, where it has; then `at` is back on its stack. Left out of line it takes 1.5 times as long.
#[inline(always)]
fn look(w: &mut [u32], s: &mut [u64], g: PixelGrid, at: Pixel, to: Pixel, h: usize) -> Option<usize>
    requires looking { Looking g w.old s.old h at.x at.y }
    requires toward { Toward g at.x at.y to.x to.y }
    ensures looked { Looked g w.old w.new s.old s.new h at.x at.y (λ q. q ≡ to.y * g.width + to.x) (unwrap_or result h) }
    ensures lighter { IfSome result (λ l. h < l) }
{
    let n = g.pixels;
    let q = to.place(g);
    let o = get(w, n, OWN, q);
    if o < n {
        return None;
    }
    let m = o - n;
    let a = get_pair(w, n, NAME, m);
    if a == 0 {
        return rise(w, s, g, at, to, m, h);
    }
    flood_levels::join(w, n, q, m, a - 1, to.entry());
    None
}

// Looks at the neighbour of `at` in direction D, where the connectivity C has that direction and the grid that pixel.
fn look_in<const D: usize, const C: usize>(
    w: &mut [u32],
    s: &mut [u64],
    g: PixelGrid,
    at: Pixel,
    h: usize,
) -> Option<usize>
    requires looking { Looking g w.old s.old h at.x at.y }
    requires connectivity_value { g.connectivity ≡ C }
    ensures looked { Looked g w.old w.new s.old s.new h at.x at.y (Neighbour g D (at.y * g.width + at.x)) (unwrap_or result h) }
    ensures lighter { IfSome result (λ l. h < l) }
{
    if C <= D {
        return None;
    }
    let to = at.neighbour::<D>(g)?;
    look(w, s, g, at, to, h)
}

// Looks at the neighbours of `at`, a pixel of the lightest open level h, with the connectivity C, row by row, until the flood rises: the level
// to which it has risen.
pub fn look_around<const C: usize>(
    w: &mut [u32],
    s: &mut [u64],
    g: PixelGrid,
    at: Pixel,
    h: usize,
) -> Option<usize>
    requires looking { Looking g w.old s.old h at.x at.y }
    requires connectivity_value { g.connectivity ≡ C }
    ensures { Visited g w.old w.new s.old s.new (unwrap_or result h) }
{
    if let Some(l) = look_in::<UPPER, C>(w, s, g, at, h) {
        return Some(l);
    }
    if let Some(l) = look_in::<UPPER_LEFT, C>(w, s, g, at, h) {
        return Some(l);
    }
    if let Some(l) = look_in::<UPPER_RIGHT, C>(w, s, g, at, h) {
        return Some(l);
    }
    if let Some(l) = look_in::<LOWER, C>(w, s, g, at, h) {
        return Some(l);
    }
    if let Some(l) = look_in::<LOWER_RIGHT, C>(w, s, g, at, h) {
        return Some(l);
    }
    if let Some(l) = look_in::<LOWER_LEFT, C>(w, s, g, at, h) {
        return Some(l);
    }
    if let Some(l) = look_in::<LEFT, C>(w, s, g, at, h) {
        return Some(l);
    }
    look_in::<RIGHT, C>(w, s, g, at, h)
}
