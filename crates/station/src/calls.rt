ghost use Rattle.std.specs.Prelude.{◌≡◌, ◌<◌, map, length, IfErr, count_by};
ghost use Rattle.address.specs.Code.{code_number};
ghost use Rattle.slot_laws.specs.Machine.{named, open_count, lapses as lapses_answer};
ghost use Rattle.timed_table.specs.Table.{is_timed, ticked, lapses};
ghost use Rattle.timed_table.specs.Tables.{Kept};
ghost use Rattle.slots.specs.Answers.{receipt_of, copy_reply, release_reply};
ghost use Rattle.slots.specs.Became.{Became};
ghost use Rattle.slots.specs.Pieces.{release_entries};
ghost use Rattle.slots.specs.View.{copy_told, copy_out};
ghost use Rattle.station_laws.specs.Station.{by_slots, tick as tick_event, copy as copy_event, release as release_event};
ghost use Rattle.station.specs.Views.{seen, step_of};

use crate::held::Station;
use address::PointCode;
use routing::Node;
use slots::{CopyRefusal, Receipt, ReleaseRefusal, Settings};

impl<'a> Station<'a> {
    // The station's place in its network.
    pub(crate) fn node<'n, N>(&self, network: &'n N) -> Node<'n, N>
        ensures code { code_number result.code ≡ self.now.slots.settings.code }
        ensures network { result.network.now ≡ network.now }
    {
        Node {
            code: PointCode::of_bits(self.settings().code()),
            network,
        }
    }

    pub fn settings(&self) -> Settings
        ensures { result ≡ self.now.slots.settings }
    {
        self.slots.settings()
    }

    // One tick: takes one from every open slot and every frozen reference; those at 0 are free. Answers how many slots lapsed.
    pub fn tick(&mut self) -> usize
        ensures answer { by_slots (lapses_answer result) ≡ (step_of self.old tick_event).reply }
        ensures seen { seen self.new ≡ (step_of self.old tick_event).after }
        ensures value { result ≡ count_by lapses self.old.slots.table.entries.now }
        ensures slots { Became self.old.slots self.new.slots (map ticked self.old.slots.table.entries.now) self.old.slots.store.octets.now }
        ensures references { Kept self.old.references self.new.references (map ticked self.old.references.entries.now) }
        ensures settings { self.new.slots.settings ≡ self.old.slots.settings }
    {
        let _ = self.references.tick();
        self.slots.tick()
    }

    // Copies the unit of a receipt to the front of the buffer, and answers its length.
    pub fn copy(&self, receipt: &Receipt, buffer: &mut [u8]) -> Result<usize, CopyRefusal>
        ensures value { result ≡ copy_told (named self.now.slots.settings.code (seen self.now).slots (receipt_of receipt.now)) (length buffer.old) }
        ensures filled { buffer.new ≡ copy_out (named self.now.slots.settings.code (seen self.now).slots (receipt_of receipt.now)) result buffer.old }
        ensures answer { by_slots (copy_reply result buffer.new) ≡ (step_of self.now (copy_event (receipt_of receipt.now) (length buffer.old))).reply }
    {
        self.slots.copy(receipt, buffer)
    }

    // Frees the slot of a receipt. A declined call gives the receipt back.
    pub fn release(&mut self, receipt: Receipt) -> Result<(), (ReleaseRefusal, Receipt)>
        ensures answer { by_slots (release_reply receipt.slot result) ≡ (step_of self.old (release_event (receipt_of receipt))).reply }
        ensures seen { seen self.new ≡ (step_of self.old (release_event (receipt_of receipt))).after }
        ensures slots { Became self.old.slots self.new.slots (release_entries self.old.slots.settings.code (receipt_of receipt) self.old.slots.table.entries.now) self.old.slots.store.octets.now }
        ensures references { self.new.references ≡ self.old.references }
        ensures settings { self.new.slots.settings ≡ self.old.slots.settings }
        ensures idle { IfErr result (λ e. (e.1 ≡ receipt) × (self.new ≡ self.old)) }
    {
        self.slots.release(receipt)
    }

    // How many slots are open, counted from the records.
    pub fn open_slots(&self) -> usize
        ensures value { result ≡ count_by is_timed self.now.slots.table.entries.now }
        ensures seen { result ≡ open_count (seen self.now).slots }
    {
        self.slots.open_slots()
    }

    // How many references are frozen.
    pub fn frozen_references(&self) -> usize
        ensures { result ≡ count_by is_timed (seen self.now).frozen }
    {
        self.references.count()
    }

    // The last reference that was given; 0 before the first.
    pub fn last_reference(&self) -> u32
        ensures { result ≡ (seen self.now).last }
    {
        self.last.number()
    }
}
