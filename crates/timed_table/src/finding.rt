ghost use Rattle.std.specs.Prelude.{◌≡◌, ◌<◌, map, length, IfSome, count_by, position, slice_index_or};
ghost use Rattle.timed_table.specs.Table.{IsLast, timed_as, is_free, is_timed, ticked, lapses, timed_load, held_load};
ghost use Rattle.timed_table.specs.declared.entry.Entry.TheVariants.{Free};

use crate::entry::{Entry, is_timed_as, tick_entry};
use crate::mark::Mark;

// The first entry that is timed under a mark, found alike for every kind of mark.
// Stays: one search over a lent slice, for every kind of mark, is a form that was asked for.
pub(crate) fn find<K: Mark, V>(entries: &[Entry<K, V>], key: &K) -> Option<usize>
    ensures value { result ≡ position (timed_as K.numbers (K.numbers key.now)) entries.now }
    ensures bound { IfSome result (λ i. i < length entries.now) }
{
    entries.iter().position(|e| is_timed_as(e, key))
}

// The highest-numbered free entry.
pub(crate) fn last_free<K, V>(entries: &[Entry<K, V>]) -> Option<usize>
    ensures { IsLast is_free Free entries.now result }
{
    entries.iter().rposition(|e| e.is_free())
}

// How many entries are timed, counted from the entries themselves.
// Stays: a `for` loop that counts the open entries is a form that was asked for.
pub(crate) fn count_timed<K, V>(entries: &[Entry<K, V>]) -> usize
    ensures { result ≡ count_by is_timed entries.now }
{
    let mut n = 0;
    for e in entries {
        if e.is_timed() {
            n += 1;
        }
    }
    n
}

// One tick of every entry; how many lapsed.
// Stays: a filter that also ticks what it counts would be a loop with a hidden change, and no plainer.
pub(crate) fn tick_all<K: Drop, V: Drop>(entries: &mut [Entry<K, V>]) -> usize
    ensures after { entries.new ≡ map ticked entries.old }
    ensures value { result ≡ count_by lapses entries.old }
{
    let mut n = 0;
    for e in entries.iter_mut() {
        if tick_entry(e) {
            n += 1;
        }
    }
    n
}

// Every entry is free.
pub(crate) fn free_all<K: Drop, V: Drop>(entries: &mut [Entry<K, V>])
    ensures { entries.new ≡ map (λ _. Free) entries.old }
{
    entries.fill_with(|| Entry::Free);
}
