//! What a call answers.

/// An accepted call's answer.
#[derive(Clone, Copy, PartialEq, Eq, Debug)]
pub enum Answer {
    /// An ask was taken.
    Asked,
    /// A leave was taken.
    Leaving,
    /// The rank came in.
    Entered,
    /// The rank became idle.
    Free,
    /// The rank waits: nothing came of the step.
    Waiting,
    /// The rank went on.
    Moved,
}
