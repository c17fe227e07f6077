//! The tree of elements as a list of parents: the way up, and levels. Total: 0 stands where there is none. Each function
//! asks one thing of the list, for the element whose number is told beside it.

ghost use Rattle.std.specs.Prelude.{◌≡◌, ◌≤◌, slice_index};
ghost use Rattle.plan.specs.Shapes.{level, parent};
ghost use Rattle.plan.specs.Trees.{above};

// What stands at a place of a list, or 0 past its end: a name for the library's call.
pub(crate) fn at_or_zero(list: &[u16], j: usize) -> u16
    ensures { result ≡ slice_index list.now j }
{
    list.get(j).copied().unwrap_or(0)
}

// The parent of element k above 1.
fn parent_in_tree(parents: &[u16], k: usize) -> u16
    ensures { result ≡ parent parents.now k }
{
    at_or_zero(parents, k.saturating_sub(2))
}

// The level of element k: 1 to 4, or 5 where it lies deeper. Elements are named by number, as orders and callers do.
pub(crate) fn level_in_tree(parents: &[u16], k: usize) -> u8
    ensures value { result ≡ level parents.now k }
    ensures bound { result ≤ 5 }
{
    let mut element = k;
    for reached in 1..5 {
        if element <= 1 {
            return reached;
        }
        element = parent_in_tree(parents, element) as usize;
    }
    5
}

// The element d levels above element k.
pub(crate) fn climb(parents: &[u16], d: u8, k: u16) -> u16
    ensures { result ≡ above parents.now d k }
{
    (0..d).fold(k, |element, _| parent_in_tree(parents, element as usize))
}
