//! A plan, lawful for as long as it exists.

ghost use Rattle.std.specs.Prelude.{◌≡◌, true, length};
ghost use Rattle.plan.specs.Shapes.{every, parent_ok, rank_ok, sizes_ok, thresholds_ok};

use crate::shape::Shape;

pub mod homes;
pub mod make;
pub mod tree;

/// The numbers, the parent of each element above 1, and the element of each rank.
// The tree stays the list of parents that callers and orders give: it is only climbed.
#[derive(Drop)]
pub struct Plan {
    shape: Shape,
    parents: Vec<u16>,
    rank_elements: Vec<u16>,
    ghost sized: { sizes_ok shape parents.items rank_elements.items ≡ true },
    ghost bounded: { thresholds_ok shape ≡ true },
    ghost rooted: { every (parent_ok shape parents.items) (length parents.items) ≡ true },
    ghost hung: { every (rank_ok shape parents.items rank_elements.items)
        (length rank_elements.items) ≡ true },
}
