ghost use Rattle.std.specs.Prelude.{◌≡◌, ◌≢◌, is_ok, false, Some, [], ◌<◌, ◌+◌, IfOk, IfSome, IsSome, None, ◌↔◌, OnErr, IfErr, count_by, map, take, drop, ◌==◌, length, position, remove, slice_get, slice_set, vec_len};
ghost use Rattle.slot_laws.specs.Machine.{piece as piece_event, tick as tick_event, copy as copy_event, release as release_event, lapses as lapses_answer, open_count, named, free};
ghost use Rattle.slot_laws.specs.Uses.{slots_after, OneSender, Kept, ArrivesEntire, Account, NoOpeningOutlives, DeclinedAltersNothing, StrangeReceipts, OneOpenEach};
ghost use Rattle.timed_table.specs.declared.entry.Entry.TheVariants.{Free};
ghost use Rattle.slot_parts.specs.Numbers.{release_number};
ghost use Rattle.slots.specs.Answers.{receipt_of, copy_reply};
ghost use Rattle.timed_table.specs.Table.{is_timed, ticked, lapses};
ghost use Rattle.slots.specs.Became.{Became};
ghost use Rattle.slots.specs.Pieces.{slots_of, piece_entries, piece_octets, release_entries};
ghost use Rattle.slots.specs.View.{view, copy_told, copy_out};
ghost use Rattle.slots.specs.Opened.{use_of, step_of};
ghost use Rattle.kept_receipts.specs.Replies.{piece_told, receipts_with, offer_told, offered, slot_named};

use crate::answers;
use crate::answers::KeptAnswer;
use crate::held::KeptReceipts;
use slots::{
    CopyRefusal, Entry, Load, Mark, PieceRefusal, Receipt, ReleaseRefusal, Settings, Slots,
};
use std::alloc::{AllocError, Global};

impl<'a, K: Mark + Drop> KeptReceipts<'a, K> {
    // Slots over lent records and a lent store, with no receipt yet.
    #[tactic(auto, using(crate::proofs::Calls::none_kept))]
    pub fn open(
        heap: Global,
        settings: Settings,
        records: &'a mut [Entry<K, Load>],
        store: &'a mut [u8],
    ) -> KeptReceipts<'a, K>
        ensures settings { result.slots.settings ≡ settings }
        ensures records { result.slots.table.entries.now ≡ map (λ _. Free) (take (slots_of (length records.old) (length store.old)) records.old) }
        ensures beyond { result.slots.table.beyond.now ≡ drop (slots_of (length records.old) (length store.old)) records.old }
        ensures store { result.slots.store.octets.now ≡ store.old }
        ensures seen { view K.numbers result.slots ≡ slots_after (use_of settings records.old store.old) [] }
        ensures one_sender { OneSender (use_of settings records.old store.old) }
        ensures kept { Kept (use_of settings records.old store.old) }
        ensures arrives_entire { ArrivesEntire (use_of settings records.old store.old) }
        ensures account { Account (use_of settings records.old store.old) }
        ensures no_opening_outlives { NoOpeningOutlives (use_of settings records.old store.old) }
        ensures declined_alters_nothing { DeclinedAltersNothing (use_of settings records.old store.old) }
        ensures strange_receipts { StrangeReceipts (use_of settings records.old store.old) }
        ensures one_open_each { OneOpenEach (use_of settings records.old store.old) }
        ensures none { result.receipts.items ≡ [] }
    {
        KeptReceipts {
            slots: Slots::open(settings, records, store),
            receipts: Vec::new(heap),
        }
    }

    // Takes in a piece; a receipt that is given for it is kept, as the newest. Want of memory for one is found before the call, which
    // is then not made.
    // Stays: want of memory says that the call was not made, a refusal that the slots declined it, so one Result is in the other.
    pub fn piece<'d>(
        &mut self,
        key: K,
        first: bool,
        remaining: u8,
        contents: &'d [u8],
    ) -> Result<Result<KeptAnswer<'d>, PieceRefusal>, AllocError>
        ensures answer { IfOk result (λ r. piece_told self.old.slots.settings.code r ≡ (step_of K.numbers self.old.slots (piece_event (K.numbers key) first remaining contents.now)).1) }
        ensures seen { IfOk result (λ _. view K.numbers self.new.slots ≡ (step_of K.numbers self.old.slots (piece_event (K.numbers key) first remaining contents.now)).0) }
        ensures after { IfOk result (λ _. Became self.old.slots self.new.slots
            (piece_entries K.numbers key first remaining contents.now self.old.slots.table.entries.now self.old.slots.settings.ticks)
            (piece_octets K.numbers key first remaining contents.now self.old.slots.table.entries.now self.old.slots.store.octets.now)) }
        ensures receipts { IfOk result (λ r. self.new.receipts.items ≡ receipts_with self.old.slots.settings.code self.old.receipts.items r) }
        ensures declined { IfOk result (λ r. OnErr r (self.new.slots ≡ self.old.slots)) }
        ensures idle { OnErr result ((self.new.slots ≡ self.old.slots) × (self.new.receipts.items ≡ self.old.receipts.items)) }
        ensures settings { self.new.slots.settings ≡ self.old.slots.settings }
    {
        self.receipts.reserve(1)?;
        // Stays: `map` would lend the receipts to a closure, and the proof then loses them where it is not called.
        match self.slots.piece(key, first, remaining, contents) {
            Ok(answer) => Ok(Ok(answers::told(answer, &mut self.receipts))),
            Err(why) => Ok(Err(why)),
        }
    }

    // One tick of the slots; answers how many lapsed.
    pub fn tick(&mut self) -> usize
        ensures answer { lapses_answer result ≡ (step_of K.numbers self.old.slots tick_event).1 }
        ensures seen { view K.numbers self.new.slots ≡ (step_of K.numbers self.old.slots tick_event).0 }
        ensures value { result ≡ count_by lapses self.old.slots.table.entries.now }
        ensures after { Became self.old.slots self.new.slots (map ticked self.old.slots.table.entries.now) self.old.slots.store.octets.now }
        ensures kept { self.new.receipts ≡ self.old.receipts }
        ensures settings { self.new.slots.settings ≡ self.old.slots.settings }
    {
        self.slots.tick()
    }

    // How many receipts are kept.
    pub fn count(&self) -> usize
        ensures { result ≡ vec_len self.now.receipts }
    {
        self.receipts.len()
    }

    // The place of the receipt of a slot.
    pub fn place_of(&self, slot: usize) -> Option<usize>
        ensures { result ≡ position (λ r. r.slot == slot) self.now.receipts.items }
    {
        self.receipts.iter().position(|r| r.slot() == slot)
    }

    // The receipt at a place.
    pub fn receipt(&self, place: usize) -> Option<&Receipt>
        ensures some { IsSome result ↔ (place < vec_len self.now.receipts) }
        ensures value { IfSome result (λ r. slice_get self.now.receipts.items place ≡ Some r.now) }
    {
        self.receipts.get(place)
    }

    // Copies the unit of a receipt, also of one that others keep.
    pub fn copy(&self, receipt: &Receipt, buffer: &mut [u8]) -> Result<usize, CopyRefusal>
        ensures value { result ≡ copy_told (named self.now.slots.settings.code (view K.numbers self.now.slots) (receipt_of receipt.now)) (length buffer.old) }
        ensures filled { buffer.new ≡ copy_out (named self.now.slots.settings.code (view K.numbers self.now.slots) (receipt_of receipt.now)) result buffer.old }
        ensures answer { copy_reply result buffer.new ≡ (step_of K.numbers self.now.slots (copy_event (receipt_of receipt.now) (length buffer.old))).1 }
    {
        self.slots.copy(receipt, buffer)
    }

    // Spends the receipt at a place, and answers the slot that is then free; none where there is no receipt.
    pub fn release(&mut self, place: usize) -> Option<usize>
        ensures value { result ≡ slot_named (slice_get self.old.receipts.items place) }
        ensures seen { IfSome result (λ s. view K.numbers self.new.slots ≡ slice_set (view K.numbers self.old.slots) s free) }
        ensures after { IfSome result (λ _. IfSome (slice_get self.old.receipts.items place) (λ r. Became self.old.slots self.new.slots (release_entries self.old.slots.settings.code (receipt_of r) self.old.slots.table.entries.now) self.old.slots.store.octets.now)) }
        ensures receipts { IfSome result (λ _. self.new.receipts.items ≡ remove self.old.receipts.items place) }
        ensures less { IfSome result (λ _. vec_len self.new.receipts + 1 ≡ vec_len self.old.receipts) }
        ensures settings { self.new.slots.settings ≡ self.old.slots.settings }
        ensures idle { result ≡ None → self.new ≡ self.old }
    {
        if place >= self.receipts.len() {
            return None;
        }
        let receipt = self.receipts.remove(place);
        let slot = receipt.slot();
        // Stays: a kept receipt can be spent, so the other arm is a goal of the proof and no answer.
        match self.slots.release(receipt) {
            Ok(()) => Some(slot),
            Err((_why, _back)) => unreachable!(),
        }
    }

    // Offers the receipt at a place to other slots, as a stranger would. A declined one comes back, as the newest; none where there is
    // no receipt. Slots of another code decline it and stay as they are. Slots of the same code can take it: its unit then stays here,
    // in a slot that nothing frees any more.
    pub fn offer(
        &mut self,
        place: usize,
        other: &mut Slots<'_, K>,
    ) -> Option<Result<(), ReleaseRefusal>>
        ensures some { IsSome result ↔ (place < vec_len self.old.receipts) }
        ensures answer { IfSome result (λ a. IfSome (slice_get self.old.receipts.items place) (λ r. offer_told r.slot a ≡ (step_of K.numbers other.old (release_event (receipt_of r))).1)) }
        ensures seen { IfSome result (λ _. IfSome (slice_get self.old.receipts.items place) (λ r. view K.numbers other.new ≡ (step_of K.numbers other.old (release_event (receipt_of r))).0)) }
        ensures receipts { self.new.receipts.items ≡ offered self.old.receipts.items place result }
        ensures declined { self.old.slots.settings.code ≢ other.old.settings.code → IfSome result (λ r. is_ok r ≡ false) × (other.new ≡ other.old) }
        ensures after { IfSome result (λ _. IfSome (slice_get self.old.receipts.items place) (λ r. Became other.old other.new (release_entries other.old.settings.code (receipt_of r) other.old.table.entries.now) other.old.store.octets.now)) }
        ensures untaken { IfSome result (λ r. OnErr r (other.new ≡ other.old)) }
        ensures idle { result ≡ None → other.new ≡ other.old }
        ensures settings { other.new.settings ≡ other.old.settings }
        ensures slots { self.new.slots ≡ self.old.slots }
    {
        if place >= self.receipts.len() {
            return None;
        }
        let receipt = self.receipts.remove(place);
        // Stays: `map_err` would lend the receipts to a closure, and the proof then loses them where it is not called.
        match other.release(receipt) {
            Ok(()) => Some(Ok(())),
            Err((why, back)) => {
                self.receipts.push_reserved(back);
                Some(Err(why))
            }
        }
    }

    // The same with the slots of others that keep their receipts; none too where both are of one code, since then it could be spent in
    // the place of one of theirs.
    pub fn offer_to(
        &mut self,
        place: usize,
        other: &mut KeptReceipts<'_, K>,
    ) -> Option<Result<(), ReleaseRefusal>>
        ensures some { IsSome result ↔ ((self.old.slots.settings.code ≢ other.old.slots.settings.code) × (place < vec_len self.old.receipts)) }
        ensures declined { IfSome result (λ r. IfErr r (λ e. release_number e ≡ 51) × (is_ok r ≡ false)) }
        ensures receipts { self.new.receipts.items ≡ offered self.old.receipts.items place result }
        ensures slots { self.new.slots ≡ self.old.slots }
        ensures other { other.new.slots ≡ other.old.slots }
        ensures other_receipts { other.new.receipts ≡ other.old.receipts }
    {
        if self.slots.settings().code() == other.slots.settings().code() {
            return None;
        }
        self.offer(place, &mut other.slots)
    }

    // How many slots are open, counted from the records.
    pub fn open_slots(&self) -> usize
        ensures value { result ≡ count_by is_timed self.now.slots.table.entries.now }
        ensures seen { result ≡ open_count (view K.numbers self.now.slots) }
    {
        self.slots.open_slots()
    }

    // Ends the use: spends every receipt that is left, and answers how many these were.
    pub fn close(mut self) -> usize
        ensures { result ≡ vec_len self.entry.receipts }
    {
        let spent = self.receipts.len();
        while self.release(0).is_some() {}
        let KeptReceipts { slots: _, receipts } = self;
        receipts.destroy_empty();
        spent
    }
}
