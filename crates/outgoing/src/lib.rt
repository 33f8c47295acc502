// Messages that go out: put on a line, passed on, returned, and a unit in one message or in pieces.
#![tactic(auto)]

pub mod addressing;
pub mod classes;
pub mod labelling;
pub mod passing;
pub mod putting;
pub mod references;
pub mod returning;
pub mod units;

pub use addressing::{calling_for, or_given};
pub use classes::Class;
pub use passing::pass_on;
pub use putting::put_message;
pub use references::UnitReference;
pub use returning::{Givenback, give_back};
pub use units::{Outgoing, put_one, put_pieces};
