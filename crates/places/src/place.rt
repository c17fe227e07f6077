//! The places of a rank: the rows of the table, and the two ways to be in.

ghost use Rattle.std.specs.Prelude.{◌≡◌};
ghost use Rattle.places.specs.Standings.{standing_at};

/// A rank's place, with just the fields that the place uses.
#[derive(Clone, Copy)]
pub enum Place {
    Idle,
    // W: asks to write, level by level up to level 1, then counter by counter
    W1 { level: u8 },
    W2 { level: u8 },
    W3 { level: u8 },
    W4 { level: u8, home: u64 },
    W5 { level: u8 },
    W6 { level: u8 },
    W7 { counter: u16 },
    W8 { counter: u16 },
    W9 { counter: u16, number: u64 },
    // U: a writer leaves, up to the level where it hands over, then down again
    U1 { level: u8 },
    U2 { level: u8, number: u64 },
    U3 { level: u8, home: u64, number: u64 },
    U4,
    U5 { number: u64 },
    U6 { counter: u16 },
    U7 { counter: u16, number: u64 },
    U8 { level: u8 },
    U9 { level: u8, home: u64 },
    U10 { level: u8 },
    // R: asks to read, and a reader leaves
    R1,
    R2,
    R3,
    R4,
    R5,
    R6 { number: u64 },
    R7,
    /// In as writer.
    Writer,
    /// In as reader.
    Reader,
}

/// What a rank is doing, whatever the row.
#[derive(Clone, Copy, PartialEq, Eq, Debug)]
pub enum Standing {
    Resting,
    UnderWay,
    Writing,
    Reading,
}

impl Place {
    /// What a rank at this place is doing.
    pub fn standing(self) -> Standing
        ensures { result ≡ standing_at self }
    {
        match self {
            Place::Idle => Standing::Resting,
            Place::Writer => Standing::Writing,
            Place::Reader => Standing::Reading,
            _ => Standing::UnderWay,
        }
    }
}
