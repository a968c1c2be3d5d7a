// The refusals: the order in which causes are tested, and the number and the status of each (01, "Refusal numbers, in
// order of test"). Definitions, laws and a type; no function.
#![tactic(auto)]

// The causes of refusals, each with its number.
#[derive(Clone, Copy, PartialEq, Eq)]
pub enum Refusal {
    SeatAbove = 1,
    TableMalformed = 2,
    CatalogueMalformed = 3,
    BufferShort = 4,
    MessageSize = 5,
    NotServed = 6,
    Connection = 7,
    ChecksumWrong = 8,
    BodyMalformed = 9,
    HandleClosed = 10,
    Unbound = 11,
    BindingsUnfit = 12,
    SeekNotServed = 13,
    HandlesTaken = 14,
    RowUnfit = 15,
    TreeMalformed = 16,
}
