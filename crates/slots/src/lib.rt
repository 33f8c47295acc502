// Slots: pieces of units put together in lent memory, under any kind of mark.
#![tactic(auto)]

pub mod alone;
pub mod answers;
pub mod calls;
pub mod opening;
pub mod pieces;
pub mod receipt;

// What a user of slots names.
pub use alone::Slots;
pub use answers::PieceAnswer;
pub use receipt::Receipt;
pub use slot_parts::load::Load;
pub use slot_parts::refusals::{CopyRefusal, PieceRefusal, ReleaseRefusal, SettingsRefusal};
pub use slot_parts::settings::Settings;
pub use timed_table::entry::Entry;
pub use timed_table::mark::Mark;
pub use timed_table::reference::Reference;
pub use timed_table::station_mark::StationMark;
