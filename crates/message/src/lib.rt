// Messages of the connectionless service: UDT, UDTS, XUDT and XUDTS, behind their routing
// label, read from the octets of a line.
#![tactic(auto)]

pub mod behind_label;
pub mod faults;
pub mod messages;
pub mod parts_of_options;
pub mod reading;
pub mod scanning;

pub use faults::{Fault, ReadFault};
pub use messages::{Form, Message, Parts};
pub use parts_of_options::{OptionPart, Options, Segmentation};
pub use reading::read;
