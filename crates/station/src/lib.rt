// The station: send, receive, tick, copy and release, over lent memory.
#![tactic(auto)]

pub mod answers;
pub mod calls;
pub mod held;
pub mod opening;
pub mod receiving;
pub mod refusals;
pub mod requests;
pub mod sending;

// What a user of a station names.
pub use address::{Address, PointCode};
pub use answers::{Received, Sent};
pub use held::Station;
pub use line::Line;
pub use message::{Message, Parts, ReadFault, read};
pub use refusals::{ReceiveRefusal, SendRefusal};
pub use requests::UnitDataRequest;
pub use routing::{Network, Tables};
pub use slots::{
    CopyRefusal, Entry, Load, Receipt, Reference, ReleaseRefusal, Settings, SettingsRefusal,
    StationMark,
};
pub use translation::{Availability, Cause, Translator};
