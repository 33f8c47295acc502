// The parts that slots are made of: settings, refusals, what a slot keeps of its unit, the store, and what a piece does.
#![tactic(auto)]

pub mod deciding;
pub mod layout;
pub mod load;
pub mod making;
pub mod piece_size;
pub mod refusals;
pub mod settings;
pub mod store;
