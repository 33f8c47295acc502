// Slots used alone, with receipts of theirs that are not spent yet. Each of these can be spent, so that a use can always be ended.
#![tactic(auto)]

pub mod answers;
pub mod held;
pub mod keeping;

pub use answers::{KeptAnswer, Whole};
pub use held::KeptReceipts;
