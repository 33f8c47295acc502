use outgoing::UnitReference;
use slots::Slots;
use timed_table::lent::TimedTable;
use timed_table::reference::Reference;
use timed_table::station_mark::StationMark;

// A station over lent records, reference entries and store, which belong to it until it is let go: the slots in which units are
// put together, with its settings; the references that are frozen; and the last reference that it gave.
#[derive(Drop)]
pub struct Station<'a> {
    pub(crate) slots: Slots<'a, StationMark>,
    pub(crate) references: TimedTable<'a, Reference, ()>,
    pub(crate) last: UnitReference,
}
