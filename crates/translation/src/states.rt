// What is known of a point code: it can be reached and its SCCP works; the message transfer
// to it is down; or messages reach it and its SCCP is down.
#[derive(Clone, Copy, PartialEq, Eq, Debug)]
pub enum CodeState {
    Up,
    TransferDown,
    SccpDown,
}

// What is known of a subsystem at a point code: it works; it is there and has failed; or the
// code has no such subsystem.
#[derive(Clone, Copy, PartialEq, Eq, Debug)]
pub enum SubsystemState {
    Working,
    Failed,
    Unequipped,
}
