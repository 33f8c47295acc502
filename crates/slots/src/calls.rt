ghost use Rattle.std.specs.Prelude.{◌≡◌, ◌<◌, map, length, IfErr, count_by, OnSome};
ghost use Rattle.slot_laws.specs.Machine.{tick as tick_event, copy as copy_event, release as release_event, lapses as lapses_answer, open_count, named};
ghost use Rattle.timed_table.specs.Table.{is_timed, ticked, lapses};
ghost use Rattle.slots.specs.Answers.{receipt_of, copy_reply, release_reply};
ghost use Rattle.slots.specs.Became.{Became};
ghost use Rattle.slots.specs.Opened.{step_of};
ghost use Rattle.slots.specs.Pieces.{named_load, release_entries};
ghost use Rattle.slots.specs.View.{view, copy_told, copy_out};

use crate::alone::Slots;
use crate::receipt::Receipt;
use slot_parts::deciding::UNIT_MOST;
use slot_parts::load::Load;
use slot_parts::refusals::{CopyRefusal, ReleaseRefusal};
use timed_table::entry::Entry;
use timed_table::mark::Mark;

impl<'a, K: Mark + Drop> Slots<'a, K> {
    // One tick: takes one from every open slot and frees those at 0. Answers how many lapsed.
    #[tactic(auto, using(crate::proofs::Rest::lapse_counted, crate::proofs::Rest::aged))]
    pub fn tick(&mut self) -> usize
        ensures answer { lapses_answer result ≡ (step_of K.numbers self.old tick_event).1 }
        ensures seen { view K.numbers self.new ≡ (step_of K.numbers self.old tick_event).0 }
        ensures value { result ≡ count_by lapses self.old.table.entries.now }
        ensures after { Became self.old self.new (map ticked self.old.table.entries.now) self.old.store.octets.now }
    {
        self.table.tick()
    }

    // How many slots are open, counted from the records.
    #[tactic(auto, using(crate::proofs::Rest::counted))]
    pub fn open_slots(&self) -> usize
        ensures value { result ≡ count_by is_timed self.now.table.entries.now }
        ensures seen { result ≡ open_count (view K.numbers self.now) }
    {
        self.table.count()
    }

    // What is kept of the whole slot that a receipt names; none where the receipt is of another code, or its slot is not whole.
    pub(crate) fn whole_at(&self, receipt: &Receipt) -> Option<Load>
        ensures value { result ≡ named_load self.now.settings.code (receipt_of receipt.now) self.now.table.entries.now }
        ensures bound { OnSome result (receipt.now.slot < length self.now.table.entries.now) }
    {
        if receipt.code != self.settings.code() || receipt.slot >= self.table.len() {
            return None;
        }
        self.table.held_at(receipt.slot)
    }

    // Copies the unit of a receipt to the front of the buffer, and answers its length.
    pub fn copy(&self, receipt: &Receipt, buffer: &mut [u8]) -> Result<usize, CopyRefusal>
        ensures value { result ≡ copy_told (named self.now.settings.code (view K.numbers self.now) (receipt_of receipt.now)) (length buffer.old) }
        ensures filled { buffer.new ≡ copy_out (named self.now.settings.code (view K.numbers self.now) (receipt_of receipt.now)) result buffer.old }
        ensures answer { copy_reply result buffer.new ≡ (step_of K.numbers self.now (copy_event (receipt_of receipt.now) (length buffer.old))).1 }
    {
        let load = self.whole_at(receipt).ok_or(CopyRefusal::NotWhole)?;
        let n = load.len as usize;
        if buffer.len() < n {
            return Err(CopyRefusal::BufferShort);
        }
        self.store.read(receipt.slot * UNIT_MOST, n, buffer);
        Ok(n)
    }

    // Frees the slot of a receipt. A declined call gives the receipt back.
    pub fn release(&mut self, receipt: Receipt) -> Result<(), (ReleaseRefusal, Receipt)>
        ensures answer { release_reply receipt.slot result ≡ (step_of K.numbers self.old (release_event (receipt_of receipt))).1 }
        ensures seen { view K.numbers self.new ≡ (step_of K.numbers self.old (release_event (receipt_of receipt))).0 }
        ensures after { Became self.old self.new (release_entries self.old.settings.code (receipt_of receipt) self.old.table.entries.now) self.old.store.octets.now }
        ensures idle { IfErr result (λ e. (e.1 ≡ receipt) × (self.new ≡ self.old)) }
    {
        if self.whole_at(&receipt).is_none() {
            return Err((ReleaseRefusal::NotWhole, receipt));
        }
        let Receipt {
            code: _,
            slot,
            len: _,
        } = receipt;
        self.put_entry(slot, Entry::Free);
        Ok(())
    }
}
