// The packed line: messages end to end from the front of an area, with an index at its end.
#![tactic(auto)]

pub mod packed;
pub mod packing;
mod store;

pub use packed::PackedLine;
