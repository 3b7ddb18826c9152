// The ink percentage of a grey, by its formula: SPECIFICATION 8.
#![tactic(auto)]

ghost use Rattle.std.specs.Prelude.{◌≡◌, ◌+◌, ◌/◌, ◌≤◌, ◌<◌};
ghost use Rattle.meaning.specs.Plate.{max_greatest};
ghost use Rattle.meaning.specs.Ink.{rounded, ink_of};
ghost use Rattle.meaning.specs.Answers.{ink_refusal};
ghost use Rattle.refusals.specs.Numbers.{refusal_of};
ghost use Rattle.ink.specs.Percentage.{Percentage, ink_answer};

use refusals::Refusal;

// What the C function answers: 0 or the refusal, and the percentage, which is 0 where it refuses.
#[repr(C)]
#[derive(Clone, Copy, Debug, PartialEq, Eq)]
pub struct Ink {
    pub refusal: u32,
    pub percentage: u32,
}

impl From<Result<u32, Refusal>> for Ink {
    ghost from_gives = { λ answer ink. ink ≡ ink_answer answer };

    fn from(answer: Result<u32, Refusal>) -> Ink {
        match answer {
            Ok(percentage) => Ink {
                refusal: 0,
                percentage,
            },
            Err(refusal) => Ink {
                refusal: refusal.number(),
                percentage: 0,
            },
        }
    }
}

// The whole number nearest to a quotient, halves up.
#[tactic(auto, unfolding(meaning::specs::Ink::rounded))]
fn rounded(dividend: u32, divisor: u32) -> u32
    requires { (0 < divisor) × (dividend + divisor / 2 < 4294967296) }
    ensures { result ≡ rounded dividend divisor }
{
    (dividend + divisor / 2) / divisor
}

// The ink percentage of a grey of which `greatest` is the greatest.
#[tactic(auto, unfolding(meaning::specs::Ink::ink_of))]
fn ink_of(greatest: u32, grey: u32) -> u32
    requires { (0 < greatest) × (greatest ≤ max_greatest) × (grey ≤ greatest) }
    ensures { result ≡ ink_of greatest grey }
{
    rounded((greatest - grey) * 100, greatest)
}

// 29 of a greatest grey, and 28 of a grey.
#[tactic(auto, unfolding(meaning::specs::Answers::ink_refusal))]
fn check_ink(greatest: u32, grey: u32) -> Result<(), Refusal>
    ensures { refusal_of result ≡ ink_refusal greatest grey }
{
    if !plate_refusals::greatest_fits(greatest) {
        return Err(Refusal::Greatest);
    }
    if greatest < grey {
        return Err(Refusal::GreyAbove);
    }
    Ok(())
}

// The ink percentage of a grey of which `greatest` is the greatest, or the refusal.
pub fn ink_percentage(grey: u16, greatest: u32) -> Result<u32, Refusal>
    ensures { Percentage greatest grey (ink_answer result) }
{
    let grey = u32::from(grey);
    check_ink(greatest, grey)?;
    Ok(ink_of(greatest, grey))
}
