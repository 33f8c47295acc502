use crate::entry::Entry;

// A timed table over lent entries: those that it uses, and those beyond, which it never touches.
// The same table serves slots by mark and frozen references by number.
#[derive(Drop)]
pub struct TimedTable<'a, K, V> {
    pub entries: &'a mut [Entry<K, V>],
    pub beyond: &'a mut [Entry<K, V>],
}
