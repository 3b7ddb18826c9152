// The component tree of a plate in the work space, and the laws of its columns.
#![tactic(auto)]

use work_columns::Shape;

// The plate's shape and the number of nodes of its tree, which stands in a work space.
#[derive(Clone, Copy)]
pub struct TreeShape {
    pub shape: Shape,
    pub count: usize,
}
