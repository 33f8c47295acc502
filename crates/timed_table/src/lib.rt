// Marks, and the timed table: entries in lent memory, each free, timed under a mark, or held.
#![tactic(auto)]

pub mod entry;
pub mod finding;
pub mod lent;
pub mod mark;
pub mod marks;
pub mod reference;
pub mod station_mark;
pub mod table;
