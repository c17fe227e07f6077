//! Where everything lives. These methods are total: the lock asks them of ranks that it has checked.
//! For a number that names nothing they answer what the definition says; `questions` refuses it. Elements and levels are
//! numbered from 1, so 0 stands where there is none: homes are compared with the memory's words, which say it so, and
//! with an `Option` in some answers there would be two forms of none.

ghost use Rattle.std.specs.Prelude.{◌≡◌, ◌<◌, ◌≤◌, T, length, nat_lt};
ghost use Rattle.plan.specs.Trees.{
  counter_home,
  counters,
  element_at,
  element_home,
  has_element,
  has_rank,
  homes,
  level_of,
  level_threshold,
  node_home,
  own_counter,
  own_counter_home,
  own_element,
  own_level,
  parent_of,
  queue_home,
  threshold,
  tree_of,
};

use crate::plan::Plan;
use crate::plan::tree::{at_or_zero, climb, level_in_tree};
use crate::shape::Shape;

// The threshold of a level, 2 to 4, and 0 at any other, as a plan holds it. A `match`, since the thresholds are fields.
fn threshold_of_level(shape: &Shape, level: u8) -> u16
    ensures { result ≡ level_threshold shape.now level }
{
    match level {
        2 => shape.level2_threshold,
        3 => shape.level3_threshold,
        4 => shape.level4_threshold,
        _ => 0,
    }
}

impl Plan {
    /// The numbers of the plan.
    pub fn shape(&self) -> Shape
        ensures { result ≡ (tree_of self.now).shape }
    {
        let Plan { shape, .. } = self;
        *shape
    }

    /// The parents of elements 2, 3, ..
    pub fn parents(&self) -> &[u16]
        ensures value { result.now ≡ (tree_of self.now).parents }
        ensures few { length result.now < 256 }
    {
        self.parents.as_slice()
    }

    /// The elements of ranks 1, 2, ..
    pub fn rank_elements(&self) -> &[u16]
        ensures value { result.now ≡ (tree_of self.now).seats }
        ensures few { length result.now < 1025 }
    {
        self.rank_elements.as_slice()
    }

    /// Whether the plan has a rank of this number.
    pub fn has_rank(&self, rank: u16) -> bool
        ensures { result ≡ has_rank (tree_of self.now) rank }
    {
        (1..=self.shape.ranks).contains(&rank)
    }

    /// Whether the plan has an element of this number.
    // Not one function with `has_rank`: what is left to share is the library's call.
    pub fn has_element(&self, element: u16) -> bool
        ensures { result ≡ has_element (tree_of self.now) element }
    {
        (1..=self.shape.elements).contains(&element)
    }

    /// The parent of an element; 0 for element 1, and for a number that is no element.
    pub fn parent(&self, element: u16) -> u16
        ensures { result ≡ parent_of (tree_of self.now) element }
    {
        if element <= 1 {
            0
        } else {
            at_or_zero(self.parents(), element as usize - 2)
        }
    }

    /// The level of an element, or 0 for a number that is no element.
    pub fn level(&self, element: u16) -> u8
        ensures value { result ≡ level_of (tree_of self.now) element }
        ensures bound { result ≤ 5 }
    {
        if self.has_element(element) {
            level_in_tree(self.parents(), element as usize)
        } else {
            0
        }
    }

    /// How often an element hands on before it lets its parent go; 0 for element 1.
    pub fn threshold(&self, element: u16) -> u16
        ensures { result ≡ threshold (tree_of self.now) element }
    {
        threshold_of_level(&self.shape, self.level(element))
    }

    /// The home of an element.
    pub fn element_home(&self, element: u16) -> u64
        ensures { result ≡ element_home (tree_of self.now) element }
    {
        self.shape.ranks as u64 + element as u64
    }

    /// How many homes the lock uses: one for each rank, then one for each element.
    pub fn homes(&self) -> u64
        ensures { result ≡ homes (tree_of self.now) }
    {
        self.shape.ranks as u64 + self.shape.elements as u64
    }

    /// The element on which a rank hangs.
    pub fn own_element(&self, rank: u16) -> u16
        ensures { result ≡ own_element (tree_of self.now) rank }
    {
        at_or_zero(self.rank_elements(), rank.saturating_sub(1) as usize)
    }

    /// The level of that element, or 0 for a number that is no rank.
    pub fn own_level(&self, rank: u16) -> u8
        ensures value { result ≡ own_level (tree_of self.now) rank }
        ensures bound { result ≤ 5 }
    {
        if self.has_rank(rank) {
            level_in_tree(self.parents(), self.own_element(rank) as usize)
        } else {
            0
        }
    }

    /// The element at a level above a rank, or at its own.
    pub fn element_at(&self, rank: u16, level: u8) -> u16
        ensures { result ≡ element_at (tree_of self.now) rank level }
    {
        climb(
            self.parents(),
            self.own_level(rank).saturating_sub(level),
            self.own_element(rank),
        )
    }

    /// The home whose queue a rank joins at a level.
    pub fn queue_home(&self, rank: u16, level: u8) -> u64
        ensures { result ≡ queue_home (tree_of self.now) rank level }
    {
        self.element_home(self.element_at(rank, level))
    }

    /// Whether a level lies above a rank's own.
    pub fn is_inner(&self, rank: u16, level: u8) -> bool
        ensures value { result ≡ nat_lt level (own_level (tree_of self.now) rank) }
        ensures bound { T result → level < 255 }
    {
        level < self.own_level(rank)
    }

    /// The home that stands for a rank in that queue.
    pub fn node_home(&self, rank: u16, level: u8) -> u64
        ensures { result ≡ node_home (tree_of self.now) rank level }
    {
        if self.is_inner(rank, level) {
            self.queue_home(rank, level + 1)
        } else {
            rank as u64
        }
    }

    /// How many counters there are.
    pub fn counters(&self) -> u16
        ensures { result ≡ counters (tree_of self.now) }
    {
        self.shape.ranks.div_ceil(self.shape.spacing)
    }

    /// The home of a counter; counters are numbered from 0.
    pub fn counter_home(&self, counter: u16) -> u64
        ensures { result ≡ counter_home (tree_of self.now) counter }
    {
        counter as u64 * self.shape.spacing as u64 + 1
    }

    /// The counter of a rank.
    pub fn own_counter(&self, rank: u16) -> u16
        ensures { result ≡ own_counter (tree_of self.now) rank }
    {
        rank.saturating_sub(1) / self.shape.spacing
    }

    /// The home of a rank's counter.
    pub fn own_counter_home(&self, rank: u16) -> u64
        ensures { result ≡ own_counter_home (tree_of self.now) rank }
    {
        self.counter_home(self.own_counter(rank))
    }
}
