// The cell line: a ring of 274-octet cells, each of which holds one message.
#![tactic(auto)]

pub mod cells;
pub mod ring;

pub use cells::CellLine;
