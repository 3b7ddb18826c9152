// The component tree of a plate, from the plate to the columns of the work space, and the start of a node list from it.
#![tactic(auto)]

ghost use Rattle.std.specs.Prelude.{◌≡◌};
ghost use Rattle.refusals.specs.Numbers.{refusal_of};
ghost use Rattle.plate_tree.specs.PlateTree.{PlateReady, PlateTree};
ghost use Rattle.plate_tree.specs.Listing.{Answers, Started, count_of};

use maxtree_columns::TreeShape;
use plate_refusals::PlateHead;
use refusals::Refusal;
use work_columns::Shape;

// Builds the component tree of a plate, or of its negative, in the work space.
#[tactic(auto, using(crate::proofs::Building::ready_loadable, crate::proofs::Building::ready_buildable))]
pub fn plate_tree(image: &[u16], negated: bool, g: Shape, work: &mut [u32]) -> TreeShape
    requires { PlateReady g image.now work.old }
    ensures shape { result.shape ≡ g }
    ensures tree { PlateTree negated g image.now work.old work.new result.count }
{
    plate_greys::load(image, negated, g.greatest, work);
    let count = maxtree::build_tree(work, g);
    TreeShape { shape: g, count }
}

// What the node list answers to C: its refusal, or 0 and the number of nodes.
#[repr(C)]
#[derive(Clone, Copy)]
pub struct NodeList {
    pub refusal: u32,
    pub count: u32,
}

// A refusal gives its number, and zeros elsewhere.
impl From<Result<u32, Refusal>> for NodeList {
    ghost from_gives = { Answers };

    fn from(answer: Result<u32, Refusal>) -> NodeList {
        NodeList {
            refusal: refusals::number(answer),
            count: answer.unwrap_or(0),
        }
    }
}

// Starts a node list with so many places, of a plate: its component tree stands in the work space, or the list is refused. The number of nodes.
pub fn start_list(
    image: &[u16],
    plate: PlateHead,
    places: usize,
    work: &mut [u32],
) -> Result<u32, Refusal>
    ensures { Started plate.connectivity plate.width plate.height plate.greatest image.now places
        work.old work.new (refusal_of result) (count_of result) }
{
    plate_refusals::check_tree(image, plate, work.len())?;
    let n = image.len();
    let count = plate_tree(image, false, plate.shape(n), work).count;
    if let Err(refusal) = plate_refusals::check_out(count, places) {
        work_columns::clear(work, n);
        return Err(refusal);
    }
    Ok(count as u32)
}
