ghost use Rattle.std.specs.Prelude.{◌≡◌};
ghost use Rattle.timed_table.specs.Table.{timed_as, is_free, is_timed, ticked, lapses, reloaded, timed_load, held_load};

use crate::mark::Mark;

// An entry of a timed table is free; timed under a mark, with the ticks that it has left and a load; or held, with a load and for
// as long as it takes. A tick is a unit of time.
#[derive(Drop)]
pub enum Entry<K, V> {
    Free,
    Timed { key: K, ticks: u8, load: V },
    Held { load: V },
}

impl<K, V> Entry<K, V> {
    pub(crate) fn is_free(&self) -> bool
        ensures { result ≡ is_free self.now }
    {
        matches!(self, Entry::Free)
    }

    pub(crate) fn is_timed(&self) -> bool
        ensures { result ≡ is_timed self.now }
    {
        matches!(self, Entry::Timed { .. })
    }

    // The load of a timed entry.
    // Stays: two kinds of entry, two definitions; one function for both would need a closure.
    pub(crate) fn timed_load(&self) -> Option<V>
    where
        V: Copy,
        ensures { result ≡ timed_load self.now }
    {
        match self {
            Entry::Timed { load, .. } => Some(*load),
            _ => None,
        }
    }

    // The load of a held entry.
    pub(crate) fn held_load(&self) -> Option<V>
    where
        V: Copy,
        ensures { result ≡ held_load self.now }
    {
        match self {
            Entry::Held { load } => Some(*load),
            _ => None,
        }
    }
}

// Whether an entry is timed under a mark that is the same as `key`.
pub(crate) fn is_timed_as<K: Mark, V>(entry: &Entry<K, V>, key: &K) -> bool
    ensures { result ≡ timed_as K.numbers (K.numbers key.now) entry.now }
{
    matches!(entry, Entry::Timed { key: held, .. } if held.same(key))
}

// One tick of one entry; whether it lapsed.
pub(crate) fn tick_entry<K: Drop, V: Drop>(entry: &mut Entry<K, V>) -> bool
    ensures after { entry.new ≡ ticked entry.old }
    ensures value { result ≡ lapses entry.old }
{
    let Entry::Timed { ticks, .. } = entry else {
        return false;
    };
    if *ticks > 1 {
        *ticks -= 1;
        return false;
    }
    *entry = Entry::Free;
    true
}

// Another load for a timed entry.
pub(crate) fn reload_entry<K, V: Drop>(entry: &mut Entry<K, V>, load: V)
    ensures { entry.new ≡ reloaded load entry.old }
{
    if let Entry::Timed { load: old, .. } = entry {
        *old = load;
    }
}
