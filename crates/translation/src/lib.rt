// Where a message with a global title goes: the rules for titles, what is known of the
// codes and subsystems of the network, and translating an address with both.
#![tactic(auto)]

pub mod causes;
pub mod finding;
pub mod meanings;
pub mod routes;
pub mod rules;
pub mod states;
pub mod translating;
pub mod trials;

pub use causes::Cause;
pub use finding::{rule_for, selector_of};
pub use meanings::{Availability, Translator};
pub use routes::{Route, route_by};
pub use rules::{Destination, Routing, Rule, Selector};
pub use states::{CodeState, SubsystemState};
pub use translating::{Translation, route_for, translate};
pub use trials::{code_trial, subsystem_trial, trial};
