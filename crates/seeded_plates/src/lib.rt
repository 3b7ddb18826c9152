// Test plates from a seed: SPECIFICATION 5. specs/Sequence.antt has the plate and what generating it answers.
#![tactic(auto)]

ghost use Rattle.std.specs.Prelude.{◌≡◌, ◌*◌, ◌%◌, ◌^◌, ◌≤◌, length};
ghost use Rattle.meaning.specs.Answers.{over, out_after};
ghost use Rattle.refusals.specs.Numbers.{refusal_of};
ghost use Rattle.seeded_plates.specs.Sequence.{next_state, top_eight, greys_from, seeded_plate, seeded_refusal};

use refusals::Refusal;

const MULTIPLIER: u32 = 1664525;

const INCREMENT: u32 = 1013904223;

// a * b, modulo 2^32. An own function for the product, and `wrapping_add_u32` for the sum, are forms that this project must keep.
fn wrapping_mul(a: u32, b: u32) -> u32
    ensures { result ≡ (a * b) % 2 ^ 32 }
{
    (a as u64 * b as u64 % 4294967296) as u32
}

// The state after one step.
fn next_state(state: u32) -> u32
    ensures { result ≡ next_state state }
{
    std::num::wrapping_add_u32(wrapping_mul(state, MULTIPLIER), INCREMENT)
}

// The top eight bits of a state.
#[tactic(auto, unfolding(crate::specs::Sequence::top_eight))]
fn top_eight(state: u32) -> u16
    ensures { result ≡ top_eight state }
{
    (state >> 24) as u16
}

// Writes so many greys of the sequence from the output's first place on.
fn write_greys(seed: u32, pixels: usize, out: &mut [u16])
    requires { pixels ≤ length out.old }
    ensures { out.new ≡ over (greys_from pixels seed) out.old }
{
    let mut state = seed;
    for place in out[..pixels].iter_mut() {
        state = next_state(state);
        *place = top_eight(state);
    }
}

// Writes the test plate of a seed, whose greatest grey is 255, into the output. A refusal leaves the output as it was.
pub fn seeded_plate(seed: u32, width: u32, height: u32, out: &mut [u16]) -> Result<(), Refusal>
    ensures value { refusal_of result ≡ seeded_refusal width height (length out.old) }
    ensures out_after { out.new ≡ out_after (seeded_refusal width height (length out.old))
        (seeded_plate seed width height) out.old }
{
    if !plate_refusals::grid_fits(width, height) {
        return Err(Refusal::Grid);
    }
    let pixels = (width * height) as usize;
    plate_refusals::check_out(pixels, out.len())?;
    write_greys(seed, pixels, out);
    Ok(())
}
