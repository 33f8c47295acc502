// Two ways to tell what is known of the network: a list of exceptions over lent entries, and
// a map of the states of codes over lent octets.
#![tactic(auto)]

pub mod exceptions;
pub mod state_maps;

pub use exceptions::{Exception, ExceptionList};
pub use state_maps::StateMap;
