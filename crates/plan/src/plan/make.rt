//! Plans are made here and nowhere else, from parts that are tested in the order of the refusals.

ghost use Rattle.std.specs.Prelude.{◌≡◌, ◌<◌, length};
ghost use Rattle.plan.specs.Shapes.{
  every,
  level_threshold_ok,
  parent_ok,
  rank_ok,
  seat_ok,
  sizes_ok,
  thresholds_ok,
};
ghost use Rattle.plan.specs.Trees.{planned, tree, tree_result};

use crate::plan::Plan;
use crate::plan::tree::level_in_tree;
use crate::shape::{MOST_ELEMENTS, MOST_RANKS, Shape};
use refusal::Refusal;

// The threshold of one level, 2 to 4.
fn level_threshold_fits(shape: &Shape, level: u8, threshold: u16) -> bool
    ensures { result ≡ level_threshold_ok shape.now level threshold }
{
    if level <= shape.levels {
        (1..=1000).contains(&threshold)
    } else {
        threshold == 0
    }
}

fn thresholds_fit(shape: &Shape) -> bool
    ensures { result ≡ thresholds_ok shape.now }
{
    (1..=1000000).contains(&shape.reader_threshold)
        && (1..=1000).contains(&shape.writer_threshold)
        && level_threshold_fits(shape, 2, shape.level2_threshold)
        && level_threshold_fits(shape, 3, shape.level3_threshold)
        && level_threshold_fits(shape, 4, shape.level4_threshold)
}

// The parts of a plan that is to be made, lent for the tests.
#[derive(Clone, Copy)]
struct Parts<'a> {
    shape: &'a Shape,
    parents: &'a [u16],
    rank_elements: &'a [u16],
}

impl<'a> Parts<'a> {
    // How many there are of each thing, and the lengths of the lists.
    fn sizes_fit(&self) -> bool
        ensures { result ≡
            sizes_ok self.now.shape.now self.now.parents.now self.now.rank_elements.now }
    {
        (1..=MOST_RANKS).contains(&(self.shape.ranks as usize))
            && (1..=MOST_ELEMENTS).contains(&(self.shape.elements as usize))
            && (1..=4).contains(&self.shape.levels)
            && (1..=self.shape.ranks).contains(&self.shape.spacing)
            && self.parents.len() == self.shape.elements as usize - 1
            && self.rank_elements.len() == self.shape.ranks as usize
    }

    // The parent of element j + 2. By index, since which parents are lawful depends on the place.
    fn parent_fits(&self, j: usize) -> bool
        requires { j < length self.now.parents.now }
        ensures { result ≡ parent_ok self.now.shape.now self.now.parents.now j }
    {
        (1..=j + 1).contains(&(self.parents[j] as usize))
            && level_in_tree(self.parents, j + 2) <= self.shape.levels
    }

    fn parents_fit(&self) -> bool
        ensures { result ≡
            every (parent_ok self.now.shape.now self.now.parents.now) (length self.now.parents.now) }
    {
        (0..self.parents.len()).all(|j| self.parent_fits(j))
    }

    // The element of a rank.
    fn rank_fits(&self, element: u16) -> bool
        ensures { result ≡ seat_ok self.now.shape.now self.now.parents.now element }
    {
        (1..=self.shape.elements).contains(&element)
            && level_in_tree(self.parents, element as usize) == self.shape.levels
    }

    fn ranks_fit(&self) -> bool
        ensures { result ≡
            every (rank_ok self.now.shape.now self.now.parents.now self.now.rank_elements.now)
            (length self.now.rank_elements.now) }
    {
        self.rank_elements
            .iter()
            .all(|element| self.rank_fits(*element))
    }
}

impl Plan {
    /// The plan with exactly these parts, or the first fault: 1 sizes, 2 thresholds, 3 parents, 4 ranks.
    pub fn new(shape: Shape, parents: Vec<u16>, rank_elements: Vec<u16>) -> Result<Plan, Refusal>
        ensures { tree_result result ≡ planned (tree shape parents.items rank_elements.items) }
    {
        let parts = Parts {
            shape: &shape,
            parents: &parents,
            rank_elements: &rank_elements,
        };
        if !parts.sizes_fit() {
            return Err(Refusal::PlanSize);
        }
        if !thresholds_fit(&shape) {
            return Err(Refusal::PlanThreshold);
        }
        if !parts.parents_fit() {
            return Err(Refusal::PlanParent);
        }
        if !parts.ranks_fit() {
            return Err(Refusal::PlanRank);
        }
        Ok(Plan {
            shape,
            parents,
            rank_elements,
        })
    }
}
