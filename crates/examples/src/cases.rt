//! The table of worked cases. All speak of plan A: ranks 1 to 3 on element 2, ranks 4 and 5 on element 3,
//! both below element 1; counter spacing 2, reader and writer threshold 2, level 2's threshold 1.

ghost use Rattle.std.specs.Prelude.{◌≡◌, true};
ghost use Rattle.examples.specs.Cases.{all_hold, cases};

/// One case: a question about plan A, or a change of it, and the answer.
// Each answer is a number, as in the table's definition: 0 where nothing is refused, 1 for a hand-over.
#[derive(Clone, Copy)]
pub enum Case {
    /// A rank, and the home of its counter.
    CounterHome(u16, u64),
    /// A rank, a level, and the home of the rank's node there.
    Node(u16, u8, u64),
    /// A rank, a level, and the home of the queue that the rank joins there.
    Queue(u16, u8, u64),
    /// So many ranks, those from the fourth on on element 3, and the refusal's number, or 0 if accepted.
    Ranks(u16, u8),
    /// Another threshold of level 2, and the refusal's number.
    Level2Threshold(u16, u8),
    /// Another parent of element 2, and the refusal's number.
    Parent(u16, u8),
    /// A rank that is alone and asks to write, and which of its steps enters.
    WriterEnters(u16, u64),
    /// The same rank after its leave, and which of its steps answers free.
    WriterFree(u16, u64),
    /// The same rank when it is idle again, a home, and its tail.
    TailAfterWriter(u16, u64, u64),
    /// Ranks 1 and 2 read, rank 1 goes out and asks again: which of its steps enters.
    ReaderReturns(u64),
    /// After that a counter, its ARRIVE and its DEPART.
    CounterAfterReaders(u16, u64, u64),
    /// Rank 1 leaves as writer at U2 with a successor and this count, and 1 if it hands on.
    HandsOnAtLevel2(u64, u64),
    /// The same at U5.
    HandsOnAtLevel1(u64, u64),
}

/// The table. Each case holds of the definitions.
pub fn table() -> [Case; 25]
    ensures same { result ≡ cases }
    ensures holds { all_hold cases ≡ true }
{
    [
        Case::CounterHome(1, 1),
        Case::CounterHome(2, 1),
        Case::CounterHome(3, 3),
        Case::CounterHome(4, 3),
        Case::CounterHome(5, 5),
        Case::Node(4, 2, 4),
        Case::Node(4, 1, 8),
        Case::Queue(4, 2, 8),
        Case::Queue(4, 1, 6),
        Case::Ranks(5, 0),
        Case::Ranks(1024, 0),
        Case::Ranks(1025, 1),
        Case::Level2Threshold(0, 2),
        Case::Parent(1, 0),
        Case::Parent(2, 3),
        Case::WriterEnters(1, 17),
        Case::WriterFree(1, 14),
        Case::TailAfterWriter(1, 6, 0),
        Case::TailAfterWriter(1, 7, 0),
        Case::ReaderReturns(8),
        Case::CounterAfterReaders(0, 2, 0),
        Case::HandsOnAtLevel2(0, 1),
        Case::HandsOnAtLevel2(1, 0),
        Case::HandsOnAtLevel1(0, 1),
        Case::HandsOnAtLevel1(1, 0),
    ]
}
