// Where a message goes: one that was received, and one that a station sends or returns.
#![tactic(auto)]

pub mod deliveries;
pub mod networks;
pub mod nodes;
pub mod targets;
pub mod ways;

pub use deliveries::{Delivery, delivery_of};
pub use networks::{Network, Tables};
pub use nodes::Node;
pub use targets::{Target, code_of};
pub use ways::Way;
