// Two translators: a list of prefixes over lent entries, and the plan of a test bench.
#![tactic(auto)]

pub mod bench_plans;
pub mod digits;
pub mod entries;
pub mod lists;

pub use bench_plans::BenchPlan;
pub use entries::{EntryDestination, PrefixEntry};
pub use lists::PrefixList;
