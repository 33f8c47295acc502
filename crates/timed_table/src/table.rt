ghost use Rattle.std.specs.Prelude.{◌≡◌, ◌<◌, ◌≤◌, min, map, length, take, drop, IfSome, Some, None, count_by, slice_index_or, slice_set};
ghost use Rattle.timed_table.specs.Table.{first_from, last_from, timed_as, is_free, is_timed, ticked, lapses, opened, reloaded, timed_load, held_load};
ghost use Rattle.timed_table.specs.Tables.{Kept};
ghost use Rattle.timed_table.specs.declared.entry.Entry.TheVariants.{Free, Timed};

use crate::entry::{Entry, reload_entry};
use crate::finding::{count_timed, find, free_all, last_free, tick_all};
use crate::lent::TimedTable;
use crate::mark::Mark;

impl<'a, K: Drop, V: Drop> TimedTable<'a, K, V> {
    // A table of the first `most` entries at most, all free. Those beyond stay as they are.
    pub fn over(entries: &'a mut [Entry<K, V>], most: usize) -> TimedTable<'a, K, V>
        ensures table { result.entries.now ≡ map (λ _. Free) (take (min (length entries.old) most) entries.old) }
        ensures beyond { result.beyond.now ≡ drop (min (length entries.old) most) entries.old }
        ensures len { length result.entries.now ≡ min (length entries.old) most }
    {
        let n = entries.len().min(most);
        let (used, beyond) = entries.split_at_mut(n);
        free_all(used);
        TimedTable {
            entries: used,
            beyond,
        }
    }

    // How many entries there are.
    pub fn len(&self) -> usize
        ensures { result ≡ length self.now.entries.now }
    {
        self.entries.len()
    }

    // How many entries are timed.
    pub fn count(&self) -> usize
        ensures { result ≡ count_by is_timed self.now.entries.now }
    {
        count_timed(self.entries)
    }

    // One tick: takes one from every timed entry, and frees those at 0. Answers how many.
    pub fn tick(&mut self) -> usize
        ensures after { Kept self.old self.new (map ticked self.old.entries.now) }
        ensures value { result ≡ count_by lapses self.old.entries.now }
    {
        tick_all(self.entries)
    }

    // The highest-numbered free entry.
    #[tactic(auto, using(crate::proofs::Places::last_is))]
    pub fn last_free(&self) -> Option<usize>
        ensures value { result ≡ last_from is_free 0 None self.now.entries.now }
        ensures bound { IfSome result (λ i. i < length self.now.entries.now) }
    {
        last_free(self.entries)
    }

    // The load of entry i, if it is timed. For the crate above, which knows that there is an entry i; so are those that follow.
    pub fn load_at(&self, i: usize) -> Option<V>
    where
        V: Copy,
        requires { i < length self.now.entries.now }
        ensures { result ≡ timed_load (slice_index_or self.now.entries.now i Free) }
    {
        let entries = &*self.entries;
        entries[i].timed_load()
    }

    // The load of entry i, if it is held.
    pub fn held_at(&self, i: usize) -> Option<V>
    where
        V: Copy,
        requires { i < length self.now.entries.now }
        ensures { result ≡ held_load (slice_index_or self.now.entries.now i Free) }
    {
        let entries = &*self.entries;
        entries[i].held_load()
    }

    // Writes entry i.
    pub fn put(&mut self, i: usize, entry: Entry<K, V>)
        requires { i < length self.old.entries.now }
        ensures { Kept self.old self.new (slice_set self.old.entries.now i entry) }
    {
        self.entries[i] = entry;
    }

    // Gives a timed entry another load.
    pub fn reload(&mut self, i: usize, load: V)
        requires { i < length self.old.entries.now }
        ensures { Kept self.old self.new (slice_set self.old.entries.now i (reloaded load (slice_index_or self.old.entries.now i Free))) }
    {
        reload_entry(&mut self.entries[i], load);
    }

    // Takes the highest-numbered free entry, if there is one.
    pub fn take_free(&mut self, key: K, ticks: u8, load: V) -> Option<usize>
        ensures value { result ≡ last_from is_free 0 None self.old.entries.now }
        ensures after { Kept self.old self.new (opened result (Timed key ticks load) self.old.entries.now) }
    {
        let i = self.last_free()?;
        self.entries[i] = Entry::Timed { key, ticks, load };
        Some(i)
    }
}

impl<'a, K: Mark + Drop, V: Drop> TimedTable<'a, K, V> {
    // The first entry that is timed under a mark.
    #[tactic(auto, using(crate::proofs::Places::first_is))]
    pub fn find(&self, key: &K) -> Option<usize>
        ensures value { result ≡ first_from (timed_as K.numbers (K.numbers key.now)) 0 self.now.entries.now }
        ensures bound { IfSome result (λ i. i < length self.now.entries.now) }
    {
        find(self.entries, key)
    }
}
