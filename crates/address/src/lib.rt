// The parts of a signalling message that name places: the routing label, addresses,
// and the global titles in addresses.
#![tactic(auto)]

pub mod addresses;
pub mod buffers;
pub mod codes;
pub mod digits;
pub mod labels;
pub mod point_codes;
pub mod rewriting;
pub mod titles;

pub use addresses::Address;
pub use buffers::AddressBuffer;
pub use codes::PointCode;
pub use digits::Digits;
pub use labels::Label;
pub use rewriting::CodeChange;
pub use titles::Title;
