//! Texts by number, and all of them one behind the other: the one loop of a listing.

ghost use Rattle.std.specs.Prelude.{◌≡◌, ℕ, ◌+◌, ◌<◌, ◌≤◌, List, IfOk, string_bytes};
ghost use Rattle.listing.specs.Lines.{texts};

use std::alloc::{AllocError, Global};

// The texts of `count` numbers from `first` on, where `text` makes the one of each.
pub(crate) fn all_texts<F: Fn(u16) -> Result<String, AllocError>>(
    heap: Global,
    first: u16,
    count: u16,
    text: F,
) -> Result<String, AllocError>
    requires fits { first + count ≤ 65535 }
    requires callable { F.IsAlwaysCallable text }
    ensures { (says : ℕ → List ℕ)
        → ((n : ℕ) (r : _) → n < 65536 → F.post text n r → IfOk r (λ s. string_bytes s ≡ says n))
        → IfOk result (λ s. string_bytes s ≡ texts says first count) }
{
    let mut all = String::new(heap);
    for n in first..first + count {
        let one = text(n)?;
        all.push_str(one.as_str())?;
    }
    Ok(all)
}
