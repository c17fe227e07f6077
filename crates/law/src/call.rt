//! The calls of a job, each for any rank number.

ghost use Rattle.std.specs.Prelude.{◌≡◌, ◌<◌};
ghost use Rattle.law.specs.CallParts.{letter, rank};

/// One call of a job.
// Data and no closure: calls stand in orders and in tables.
#[derive(Clone, Copy)]
pub enum Call {
    AskWrite { rank: u16 },
    AskRead { rank: u16 },
    Step { rank: u16 },
    Leave { rank: u16 },
}

impl Call {
    /// The letter of the call: W, R, S or L.
    pub fn letter(self) -> char
        ensures value { result ≡ letter self }
        ensures ascii { result < 128 }
    {
        match self {
            Call::AskWrite { .. } => 'W',
            Call::AskRead { .. } => 'R',
            Call::Step { .. } => 'S',
            Call::Leave { .. } => 'L',
        }
    }

    /// The rank that makes the call.
    pub fn rank(self) -> u16
        ensures { result ≡ rank self }
    {
        match self {
            Call::AskWrite { rank }
            | Call::AskRead { rank }
            | Call::Step { rank }
            | Call::Leave { rank } => rank,
        }
    }
}
