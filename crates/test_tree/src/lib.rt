// The component tree of a plate, left in the work space: the engine by itself, for the benchmarks.
#![tactic(auto)]

ghost use Rattle.std.specs.Prelude.{length};
ghost use Rattle.plate_tree.specs.Listing.{Started, node_list_refusal};

use plate_refusals::PlateHead;

// The component tree of a plate, in the work space; the number of its nodes, 0 where the plate is refused.
#[unsafe(no_mangle)]
pub extern "C" fn livukoe_test_tree(
    image: &[u16],
    width: u32,
    height: u32,
    greatest: u32,
    connectivity: u32,
    work: &mut [u32],
) -> u32
    ensures { Started connectivity width height greatest image.now (length image.now) work.old work.new
        (node_list_refusal connectivity width height greatest image.now (length image.now) (length work.old)) result }
{
    let plate = PlateHead {
        width,
        height,
        greatest,
        connectivity,
    };
    plate_tree::start_list(image, plate, image.len(), work).unwrap_or(0)
}
