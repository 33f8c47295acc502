ghost use Rattle.std.specs.Prelude.{◌≡◌, [], map, length, take, drop};
ghost use Rattle.slot_laws.specs.Uses.{slots_after, OneSender, Kept, ArrivesEntire, Account, NoOpeningOutlives, DeclinedAltersNothing, StrangeReceipts, OneOpenEach};
ghost use Rattle.timed_table.specs.declared.entry.Entry.TheVariants.{Free};
ghost use Rattle.slots.specs.Opened.{use_of};
ghost use Rattle.slots.specs.Pieces.{slots_of};
ghost use Rattle.slots.specs.View.{view};

use crate::alone::Slots;
use slot_parts::layout::most_slots;
use slot_parts::load::Load;
use slot_parts::settings::Settings;
use slot_parts::store::Store;
use timed_table::entry::Entry;
use timed_table::lent::TimedTable;
use timed_table::mark::Mark;

impl<'a, K: Mark + Drop> Slots<'a, K> {
    // Slots over lent records and a lent store: as many as the least of the records, of the stretches of 3,952 octets in the store,
    // and of 16, all free. Records beyond them stay as they are, and no octet of the store is written. Every use that begins here has
    // the laws, whatever is called with whatever is given.
    #[tactic(auto, using(slot_laws::proofs::Conserve::account, slot_laws::proofs::Time::no_opening_outlives, slot_laws::proofs::Keep::one_sender, slot_laws::proofs::Keep::kept, slot_laws::proofs::Arrive::arrives_entire, slot_laws::proofs::Single::one_open_each))]
    pub fn open(
        settings: Settings,
        records: &'a mut [Entry<K, Load>],
        store: &'a mut [u8],
    ) -> Slots<'a, K>
        ensures settings { result.settings ≡ settings }
        ensures records { result.table.entries.now ≡ map (λ _. Free) (take (slots_of (length records.old) (length store.old)) records.old) }
        ensures beyond { result.table.beyond.now ≡ drop (slots_of (length records.old) (length store.old)) records.old }
        ensures store { result.store.octets.now ≡ store.old }
        ensures seen { view K.numbers result ≡ slots_after (use_of settings records.old store.old) [] }
        ensures one_sender { OneSender (use_of settings records.old store.old) }
        ensures kept { Kept (use_of settings records.old store.old) }
        ensures arrives_entire { ArrivesEntire (use_of settings records.old store.old) }
        ensures account { Account (use_of settings records.old store.old) }
        ensures no_opening_outlives { NoOpeningOutlives (use_of settings records.old store.old) }
        ensures declined_alters_nothing { DeclinedAltersNothing (use_of settings records.old store.old) }
        ensures strange_receipts { StrangeReceipts (use_of settings records.old store.old) }
        ensures one_open_each { OneOpenEach (use_of settings records.old store.old) }
    {
        let table = TimedTable::over(records, most_slots(store.len()));
        Slots {
            settings,
            table,
            store: Store { octets: store },
        }
    }

    // The station's code and T.
    pub fn settings(&self) -> Settings
        ensures { result ≡ self.now.settings }
    {
        self.settings
    }
}
