//! Where the word of a home and an offset stands in a row of words, five to a home.

ghost use Rattle.std.specs.Prelude.{◌≡◌, ◌<◌, ◌≤◌, IfOk, Ok, Err};
ghost use Rattle.memory.specs.Layout.{place_of};
ghost use Rattle.memory.specs.Words.{refusing};

use crate::offsets::{DEPART, HOME_WORDS};
use refusal::Refusal;

/// The place of a word in the row of a memory of `count` homes, or the refusal.
pub(crate) fn place(count: u64, home: u64, offset: u64) -> Result<u64, Refusal>
    requires { count ≤ 4096 }
    ensures value { result ≡ refusing count home offset Err (Ok (place_of home offset)) }
    ensures inside { IfOk result
        (λ at. (0 < home) × (home ≤ count) × (offset ≤ 4) × (at ≡ place_of home offset)) }
{
    if home == 0 || home > count {
        return Err(Refusal::UnknownHome);
    }
    if offset > DEPART {
        return Err(Refusal::UnknownOffset);
    }
    Ok((home - 1) * HOME_WORDS + offset)
}
