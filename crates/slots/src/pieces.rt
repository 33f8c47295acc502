ghost use Rattle.std.specs.Prelude.{◌≡◌, ◌+◌, ◌-◌, ◌*◌, ◌<◌, ◌≤◌, true, length, None, OnErr, slice_index_or, slice_set};
ghost use Rattle.slot_laws.specs.Machine.{piece as piece_event};
ghost use Rattle.timed_table.specs.Table.{first_from, last_from, is_free, timed_as, reloaded};
ghost use Rattle.timed_table.specs.declared.entry.Entry.TheVariants.{Free};
ghost use Rattle.slot_parts.specs.Copies.{overwritten};
ghost use Rattle.slot_parts.specs.Deciding.{Within, Below, Fit};
ghost use Rattle.slot_parts.specs.Loads.{load_ok};
ghost use Rattle.slots.specs.Answers.{answered, piece_reply};
ghost use Rattle.slots.specs.Became.{Became};
ghost use Rattle.slots.specs.Loads.{entry_ok};
ghost use Rattle.slots.specs.Pieces.{found_of, answer_of, entries_after, octets_after, piece_entries, piece_octets};
ghost use Rattle.slots.specs.Opened.{step_of};
ghost use Rattle.slots.specs.View.{view};

use crate::alone::Slots;
use crate::answers::PieceAnswer;
use crate::receipt::Receipt;
use slot_parts::deciding::{OpenSlot, Step, decide};
use slot_parts::layout::offset;
use slot_parts::load::Load;
use slot_parts::piece_size::PieceSize;
use slot_parts::refusals::PieceRefusal;
use timed_table::entry::Entry;
use timed_table::mark::Mark;

impl<'a, K: Mark + Drop> Slots<'a, K> {
    // The slot that is open under a mark.
    #[tactic(auto, using(crate::proofs::Loads::found_within))]
    pub(crate) fn find_open(&self, key: &K) -> Option<OpenSlot>
        ensures value { result ≡ found_of (first_from (timed_as K.numbers (K.numbers key.now)) 0 self.now.table.entries.now) self.now.table.entries.now }
        ensures within { Within result }
        ensures bound { Below result (length self.now.table.entries.now) }
    {
        let slot = self.table.find(key)?;
        let load = self.table.load_at(slot)?;
        Some(OpenSlot { slot, load })
    }

    // Data into the stretch of a slot, from offset `at` on.
    pub(crate) fn fill(&mut self, slot: usize, at: usize, contents: &[u8])
        requires { (slot < length self.old.table.entries.now) × (at + length contents.now ≤ 3952) }
        ensures { Became self.old self.new
            self.old.table.entries.now
            (overwritten (slot * 3952 + at) contents.now self.old.store.octets.now) }
    {
        let place = offset(slot, at);
        self.store.write(place, contents);
    }

    pub(crate) fn put_entry(&mut self, slot: usize, entry: Entry<K, Load>)
        requires { (slot < length self.old.table.entries.now) × (entry_ok entry ≡ true) }
        ensures { Became self.old self.new
            (slice_set self.old.table.entries.now slot entry)
            self.old.store.octets.now }
    {
        self.table.put(slot, entry);
    }

    pub(crate) fn reload_slot(&mut self, slot: usize, load: Load)
        requires { (slot < length self.old.table.entries.now) × (load_ok load ≡ true) }
        ensures { Became self.old self.new
            (slice_set self.old.table.entries.now slot (reloaded load (slice_index_or self.old.table.entries.now slot Free)))
            self.old.store.octets.now }
    {
        self.table.reload(slot, load);
    }

    // Does what was decided.
    // Stays: a step is a value that the definitions name, which a closure in its place would hide.
    fn act<'d>(&mut self, step: Step, key: K, contents: &'d [u8]) -> PieceAnswer<'d>
        requires { Fit step (length contents.now) (length self.old.table.entries.now) }
        ensures value { answered result ≡ answer_of self.old.settings.code step (last_from is_free 0 None self.old.table.entries.now) self.old.table.entries.now contents.now }
        ensures after { Became self.old self.new
            (entries_after step (last_from is_free 0 None self.old.table.entries.now) key self.old.settings.ticks self.old.table.entries.now)
            (octets_after step (last_from is_free 0 None self.old.table.entries.now) contents.now self.old.store.octets.now) }
    {
        let ticks = self.settings.ticks();
        match step {
            Step::Alone => PieceAnswer::Alone { unit: contents },
            Step::Stray => PieceAnswer::Stray,
            Step::Break { slot } => {
                self.put_entry(slot, Entry::Free);
                PieceAnswer::Broken { slot }
            }
            Step::Open { load } => match self.table.last_free() {
                Some(slot) => {
                    self.fill(slot, 0, contents);
                    self.put_entry(slot, Entry::Timed { key, ticks, load });
                    PieceAnswer::Opened { slot }
                }
                None if self.table.len() == 0 => PieceAnswer::NoSlots,
                None => PieceAnswer::NoneFree,
            },
            Step::Restart { slot, load } => {
                self.fill(slot, 0, contents);
                self.put_entry(slot, Entry::Timed { key, ticks, load });
                PieceAnswer::Restarted { slot }
            }
            Step::Hold { slot, load } => {
                self.fill(slot, load.len as usize - contents.len(), contents);
                self.reload_slot(slot, load);
                PieceAnswer::Held { slot }
            }
            Step::Finish { slot, load } => {
                self.fill(slot, load.len as usize - contents.len(), contents);
                self.put_entry(slot, Entry::Held { load });
                let receipt = Receipt::of(self.settings, slot, load.len);
                PieceAnswer::HandedUp { receipt }
            }
        }
    }

    // Takes in a piece: its mark, whether it has the first bit, the number of pieces that remain after it, and its data.
    // Stays: a struct of first, remaining and contents would be taken apart at once here, and the clauses name each.
    pub fn piece<'d>(
        &mut self,
        key: K,
        first: bool,
        remaining: u8,
        contents: &'d [u8],
    ) -> Result<PieceAnswer<'d>, PieceRefusal>
        ensures answer { piece_reply result ≡ (step_of K.numbers self.old (piece_event (K.numbers key) first remaining contents.now)).1 }
        ensures seen { view K.numbers self.new ≡ (step_of K.numbers self.old (piece_event (K.numbers key) first remaining contents.now)).0 }
        ensures after { Became self.old self.new
            (piece_entries K.numbers key first remaining contents.now self.old.table.entries.now self.old.settings.ticks)
            (piece_octets K.numbers key first remaining contents.now self.old.table.entries.now self.old.store.octets.now) }
        ensures idle { OnErr result (self.new ≡ self.old) }
    {
        if contents.is_empty() {
            return Err(PieceRefusal::OutOfRange);
        }
        let size = PieceSize::new(remaining, contents.len())?;
        let step = decide(self.find_open(&key), first, size);
        Ok(self.act(step, key, contents))
    }
}
