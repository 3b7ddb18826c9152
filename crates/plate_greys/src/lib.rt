// The greys of a plate, or of its negative, are copied into the work space.
#![tactic(auto)]

ghost use Rattle.std.specs.Prelude.{◌≡◌, ◌≤◌};
ghost use Rattle.plate_greys.specs.Sides.{side_grey};
ghost use Rattle.plate_greys.specs.Loading.{Loadable, Loaded};

use work_columns::GREY;

// A grey, or its negative.
// No struct of `negated` and `greatest`: a caller has the greatest grey in the plate's shape, and would hold it twice.
pub fn side_grey(negated: bool, greatest: usize, grey: usize) -> usize
    requires { grey ≤ greatest }
    ensures { (result ≡ side_grey negated greatest grey) × (result ≤ greatest) }
{
    if negated { greatest - grey } else { grey }
}

// Copies the greys of a plate, or of its negative, into the work space.
pub fn load(image: &[u16], negated: bool, greatest: usize, work: &mut [u32])
    requires { Loadable greatest image.now work.old }
    ensures { Loaded negated greatest image.now work.old work.new }
{
    let n = image.len();
    for (p, &grey) in image.iter().enumerate() {
        let g = side_grey(negated, greatest, grey as usize);
        work_columns::put(work, n, GREY, p, g);
    }
}
