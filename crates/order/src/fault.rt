//! What is wrong with an order, and where.

ghost use Rattle.std.specs.Prelude.{◌≡◌};
ghost use Rattle.order.specs.Commands.{bad};

use refusal::Refusal;

/// The refusal, and the offset of the command at which the order is bad.
#[derive(Clone, Copy, PartialEq, Eq, Debug)]
pub struct Fault {
    pub refusal: Refusal,
    pub offset: usize,
}

impl Fault {
    /// A refusal at an offset.
    pub fn new(refusal: Refusal, offset: usize) -> Fault
        ensures { result ≡ bad refusal offset }
    {
        Fault { refusal, offset }
    }
}
