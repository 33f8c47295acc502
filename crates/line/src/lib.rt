// Lines of messages: what any line means, its calls and their refusals.
#![tactic(auto)]

pub mod area;
pub mod checks;
pub mod pair;
pub mod queue;
pub mod refusal;

pub use area::InArea;
pub use queue::Line;
pub use refusal::LineRefusal;
