ghost use Rattle.std.specs.Prelude.{◌≡◌, min, List, [], map, length, take, drop};
ghost use Rattle.timed_table.specs.declared.entry.Entry.TheVariants.{Free};
ghost use Rattle.slots.specs.Pieces.{slots_of};
ghost use Rattle.station_laws.specs.Figures.{HopOnTitle, HopOnSubsystem};
ghost use Rattle.station_laws.specs.Laws.{Account, NoOpeningOutlives, OneSender, Kept, ArrivesEntire, SentInPieces, NeverShared, DeclinedAltersNothing, FromStationToStation};
ghost use Rattle.station_laws.specs.Uses.{Use, after};
ghost use Rattle.station.specs.Views.{seen, use_of};

use crate::held::Station;
use outgoing::UnitReference;
use slots::{Entry, Load, Reference, Settings, Slots, StationMark};
use timed_table::lent::TimedTable;

// A station has at most so many reference entries.
pub const REFERENCES_MOST: usize = 64;

impl<'a> Station<'a> {
    // A station over lent records, reference entries and store: as many slots as the least of the records, of the stretches of
    // 3,952 octets in the store, and of 16; as many reference entries as the least of those given and 64; all free. Every use
    // that begins here has the laws, whatever is called with whatever is given.
    pub fn open(
        settings: Settings,
        records: &'a mut [Entry<StationMark, Load>],
        references: &'a mut [Entry<Reference, ()>],
        store: &'a mut [u8],
    ) -> Station<'a>
        ensures settings { result.slots.settings ≡ settings }
        ensures records { result.slots.table.entries.now ≡ map (λ _. Free) (take (slots_of (length records.old) (length store.old)) records.old) }
        ensures beyond { result.slots.table.beyond.now ≡ drop (slots_of (length records.old) (length store.old)) records.old }
        ensures store { result.slots.store.octets.now ≡ store.old }
        ensures references { result.references.entries.now ≡ map (λ _. Free) (take (min (length references.old) 64) references.old) }
        ensures references_beyond { result.references.beyond.now ≡ drop (min (length references.old) 64) references.old }
        ensures seen { seen result ≡ after (use_of settings records.old references.old store.old) [] }
        ensures one_sender { OneSender (use_of settings records.old references.old store.old) }
        ensures kept { Kept (use_of settings records.old references.old store.old) }
        ensures arrives_entire { ArrivesEntire (use_of settings records.old references.old store.old) }
        ensures account { Account (use_of settings records.old references.old store.old) }
        ensures no_opening_outlives { NoOpeningOutlives (use_of settings records.old references.old store.old) }
        ensures declined_alters_nothing { DeclinedAltersNothing (use_of settings records.old references.old store.old) }
        ensures sent_in_pieces { SentInPieces (use_of settings records.old references.old store.old) }
        ensures never_shared { NeverShared (use_of settings records.old references.old store.old) }
        ensures from_station_to_station { (other : Use) → FromStationToStation (use_of settings records.old references.old store.old) other }
        ensures hop_on_title { HopOnTitle }
        ensures hop_on_subsystem { HopOnSubsystem }
    {
        Station {
            slots: Slots::open(settings, records, store),
            references: TimedTable::over(references, REFERENCES_MOST),
            last: UnitReference::zero(),
        }
    }
}
