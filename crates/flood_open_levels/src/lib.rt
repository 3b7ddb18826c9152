// The set of open levels of a flood, levels below 65,536, as three layers of bits in one lent slice: opening a level, shutting the lightest.
#![tactic(auto)]

ghost use Rattle.std.specs.Prelude.{◌+◌, ◌<◌};
ghost use Rattle.meaning.specs.Sets.{nth};
ghost use Rattle.flood_open_levels.specs.Levels.{Layers, Openable, Changed, Shuttable, Shut, next_of};
ghost use Rattle.flood_open_levels.specs.Words.{BitIs, Added, Removed, Nonempty, Highest, LightestUpTo};

// The members that a word holds.
const BITS: usize = u64::BITS as usize;

// The first words of the three layers (specs/Levels.antt).
const WORDS: usize = 0;

const MIDDLE: usize = 1024;

const ROOT: usize = 1040;

// Adds j, which is not a member, to the layer that begins at word b; whether j's word was 0.
#[tactic(auto, using(crate::proofs::Bits::shifted, crate::proofs::Bits::added_fits))]
fn add(s: &mut [u64], b: usize, j: usize) -> bool
    requires { BitIs s.old b j 0 }
    ensures { Added s.old s.new b j result }
{
    let a = b + j / BITS;
    let x = s[a];
    s[a] = x + (1u64 << (j % BITS));
    x == 0
}

// Removes j, which is a member, from the layer that begins at word b; whether j's word is 0 now.
#[tactic(auto, using(crate::proofs::Bits::shifted, crate::proofs::Bits::bit_at_least))]
fn remove(s: &mut [u64], b: usize, j: usize) -> bool
    requires { BitIs s.old b j 1 }
    ensures { Removed s.old s.new b j result }
{
    let a = b + j / BITS;
    let x = s[a] - (1u64 << (j % BITS));
    s[a] = x;
    x == 0
}

// The greatest member in word a, which is not 0, of the layer that begins at word b.
fn greatest(s: &[u64], b: usize, a: usize) -> usize
    requires { Nonempty s.now b a }
    ensures { Highest (nth s.now (b + a)) a result }
{
    BITS * a + s[b + a].ilog2() as usize
}

// The lightest open level below 4096 (b + 1), where word b of the middle layer is not 0.
fn lightest(s: &[u64], b: usize) -> usize
    requires { Layers s.now × ((b < 16) × (0 < nth s.now (1024 + b))) }
    ensures { LightestUpTo s.now b result }
{
    let a = greatest(s, MIDDLE, b);
    greatest(s, WORDS, a)
}

// Opens the level m, which is not open.
pub fn open_level(s: &mut [u64], m: usize)
    requires { Openable s.old m }
    ensures { Changed s.old s.new m 1 }
{
    let a = m / BITS;
    if add(s, WORDS, m) && add(s, MIDDLE, a) {
        add(s, ROOT, a / BITS);
    }
}

// Shuts the lightest open level h; the lightest that is left, if there is one.
pub fn shut_level(s: &mut [u64], h: usize) -> Option<usize>
    requires { Shuttable s.old h }
    ensures { Shut s.old s.new h (next_of result) }
{
    let a = h / BITS;
    if !remove(s, WORDS, h) {
        return Some(greatest(s, WORDS, a));
    }
    let b = a / BITS;
    if !remove(s, MIDDLE, a) {
        return Some(lightest(s, b));
    }
    if remove(s, ROOT, b) {
        return None;
    }
    let d = greatest(s, ROOT, 0);
    Some(lightest(s, d))
}
