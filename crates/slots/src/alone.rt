ghost use Rattle.slots.specs.Sound.{Sound};

use slot_parts::load::Load;
use slot_parts::settings::Settings;
use slot_parts::store::Store;
use timed_table::lent::TimedTable;

// Slots over lent records and a lent store, which belong to them until they are let go.
// Entry i of the table has the stretch of 3,952 octets of the store that begins at 3,952 × i.
// Stays: records and store side by side as they are lent, since slots take no memory of their own.
#[derive(Drop)]
pub struct Slots<'a, K> {
    pub(crate) settings: Settings,
    pub(crate) table: TimedTable<'a, K, Load>,
    pub(crate) store: Store<'a>,
    ghost sound: { Sound table.entries.now store.octets.now },
}
