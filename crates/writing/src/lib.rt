// Messages of the connectionless service written into a buffer: UDT, UDTS, XUDT and XUDTS
// behind their routing label.
#![tactic(auto)]

pub mod layout;
pub mod refusals;
pub mod writing;

pub use refusals::WriteRefusal;
pub use writing::write;
