//! The refusal sheet: every reason for which a call is refused, and its number.
#![tactic(auto)]

ghost use Rattle.std.specs.Prelude.{◌≡◌};
ghost use Rattle.refusal.specs.Numbers.{number_of};
ghost use Rattle.refusal.specs.declared.Refusal.TheVariants.{OutOfMemory};

use std::alloc::{AllocError, AllocFailed};

/// Why a call was refused, with the reason's number on the sheet.
///
/// Where several reasons hold, the one with the lowest number is answered.
#[derive(Clone, Copy, PartialEq, Eq, Debug)]
pub enum Refusal {
    /// The number of ranks, elements or levels, the counter spacing or a list's length is wrong.
    PlanSize = 1,
    /// The reader, writer or a level's threshold is out of range.
    PlanThreshold = 2,
    /// A parent is 0 or not below its element, or an element lies too deep.
    PlanParent = 3,
    /// A rank's element is missing or not at the lowest level.
    PlanRank = 4,
    /// Too few records, or too few homes in the memory.
    TooShort = 5,
    /// The plan has no such rank.
    UnknownRank = 6,
    /// The rank's record is spoiled.
    Spoiled = 7,
    /// An ask by a rank that is not idle.
    NotIdle = 8,
    /// A step by a rank that is idle or in.
    NotUnderWay = 9,
    /// A leave by a rank that is not in.
    NotIn = 10,
    /// Home 0, or a home above the memory's last.
    UnknownHome = 11,
    /// An offset above 4.
    UnknownOffset = 12,
    /// The order ends before its G, or inside a command.
    Cut = 13,
    /// An unknown command, or one that is not due.
    Misplaced = 14,
    /// The output buffer is too small.
    BufferTooSmall = 15,
    /// The order has more than 65,535 bytes.
    OrderTooLong = 16,
    /// The machine has no memory left to give. This reason is not on the sheet.
    OutOfMemory,
}

impl Refusal {
    /// The number on the sheet, 1 to 16; none for want of memory.
    pub fn number(self) -> Option<u8>
        ensures { result ≡ number_of self }
    {
        match self {
            Refusal::OutOfMemory => None,
            listed => Some(listed as u8),
        }
    }
}

/// Want of memory becomes a refusal, so that `?` passes it on.
impl From<AllocError> for Refusal {
    ghost from_gives = { λ _ r. r ≡ OutOfMemory };

    fn from(_lack: AllocError) -> Refusal {
        Self::OutOfMemory
    }
}

/// The same where the value that found no place comes back; it is let go.
impl<T: Drop> From<AllocFailed<T>> for Refusal {
    ghost from_gives = { λ _ r. r ≡ OutOfMemory };

    fn from(_back: AllocFailed<T>) -> Refusal {
        Refusal::OutOfMemory
    }
}
