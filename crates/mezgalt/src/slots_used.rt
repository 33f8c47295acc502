// The commands on slots used alone: `slots` opens them, and until the script ends or opens
// others, `piece`, `tick`, `copy`, `release` and `account` are theirs.
use crate::list_marks::ListMark;
use crate::scripts::Desk;
use crate::stops::Stop;
use crate::words;
use crate::words::BadLine;
use kept_receipts::{KeptAnswer, KeptReceipts, Whole};
use slot_parts::deciding::UNIT_MOST;
use slot_parts::layout::most_slots;
use slots::{Entry, Load, Settings};
use std::alloc::Global;

// What the answers of a use add up to.
#[derive(Default, Drop)]
struct Account {
    opened: u64,
    handed_up: u64,
    broken: u64,
    lapsed: u64,
}

// Slots that are open, with the account of their use.
struct Use<'a> {
    slots: KeptReceipts<'a, ListMark>,
    account: Account,
}

// What a `piece` line gives.
#[derive(Drop)]
struct Given {
    mark: ListMark,
    first: bool,
    remaining: u8,
    unit: Vec<u8>,
}

// What a `slots` line asks for: settings, and memory.
#[derive(Drop)]
struct Wanted {
    settings: Settings,
    records: Vec<Entry<ListMark, Load>>,
    store: Vec<u8>,
}

impl Account {
    // Counts what the answer to a piece tells.
    fn count(&mut self, answer: &KeptAnswer) {
        if matches!(
            answer,
            KeptAnswer::Opened { .. } | KeptAnswer::Restarted { .. }
        ) {
            self.opened = self.opened.saturating_add(1);
        }
        if matches!(
            answer,
            KeptAnswer::Broken { .. } | KeptAnswer::Restarted { .. }
        ) {
            self.broken = self.broken.saturating_add(1);
        }
        if matches!(answer, KeptAnswer::HandedUp { .. }) {
            self.handed_up = self.handed_up.saturating_add(1);
        }
    }
}

impl Given {
    fn read(heap: Global, rest: &str) -> Result<Given, BadLine> {
        words::only_keys(rest, &["mark", "first", "remaining", "data"])?;
        Ok(Given {
            mark: ListMark::of_word(words::value(rest, "mark")?)?,
            first: words::yes_or_no(words::value(rest, "first")?)?,
            remaining: words::number(words::value(rest, "remaining")?)?,
            unit: words::octets(heap, words::value(rest, "data")?)?,
        })
    }
}

// So many free records.
fn free_records(heap: Global, n: usize) -> Result<Vec<Entry<ListMark, Load>>, BadLine> {
    Ok((0..n).map(|_| Entry::Free).collect(heap)?)
}

impl Wanted {
    fn read(heap: Global, rest: &str) -> Result<Wanted, Stop> {
        words::only_keys(rest, &["code", "ticks", "records", "store"])?;
        let code = words::number(words::value(rest, "code")?)?;
        let ticks = words::number(words::value(rest, "ticks")?)?;
        let records = words::number(words::value(rest, "records")?)?;
        let store = words::number(words::value(rest, "store")?)?;
        Ok(Wanted {
            settings: Settings::new(code, ticks)?,
            records: free_records(heap, records)?,
            store: words::zeros(heap, store)?,
        })
    }

    // How many slots there is memory for.
    fn slots(&self) -> usize {
        self.records.len().min(most_slots(self.store.len()))
    }

    // Opens the slots and plays lines with them.
    fn play(mut self, rt: &HostRuntime, desk: &mut Desk, lines: &[&str]) -> Result<(), Stop> {
        println!(rt;
            "slots: code {}, T {}, {} slots",
            self.settings.code(),
            self.settings.ticks(),
            self.slots()
        )?;
        let slots = KeptReceipts::open(
            rt.alloc(),
            self.settings,
            self.records.as_mut_slice(),
            self.store.as_mut_slice(),
        );
        let mut open = Use {
            slots,
            account: Account::default(),
        };
        let ended = open.play(rt, desk, lines);
        let Use { slots, account: _ } = open;
        slots.close();
        ended
    }
}

fn tell_answer(rt: &HostRuntime, answer: KeptAnswer) -> Result<(), Stop> {
    match answer {
        KeptAnswer::Alone { unit } => println!(rt;
            "piece: handed up, data={}",
            hexadecimal::text_of(rt.alloc(), unit)?
        )?,
        KeptAnswer::NoSlots => println!(rt;
            "piece: cause 10: there are no slots to put pieces together in"
        )?,
        KeptAnswer::NoneFree => println!(rt; "piece: cause 6: no slot is free")?,
        KeptAnswer::Opened { slot } => println!(rt; "piece: opened slot {slot}")?,
        KeptAnswer::Restarted { slot } => println!(rt; "piece: restarted slot {slot}")?,
        KeptAnswer::Stray => println!(rt; "piece: stray")?,
        KeptAnswer::Broken { slot } => println!(rt; "piece: broken slot {slot}")?,
        KeptAnswer::Held { slot } => println!(rt; "piece: held slot {slot}")?,
        KeptAnswer::HandedUp {
            receipt: Whole { slot, length },
        } => println!(rt; "piece: handed up from pieces, slot {slot}, {length} octets")?,
    }
    Ok(())
}

// How often a `tick` line ticks.
fn times(rest: &str) -> Result<usize, BadLine> {
    if rest.trim().is_empty() {
        Ok(1)
    } else {
        words::number_behind(rest)
    }
}

// The slot and perhaps the size of a buffer behind `copy`.
fn slot_and_size(rest: &str) -> Result<(usize, usize), BadLine> {
    let (slot, size) = words::parted(rest);
    if slot.is_empty() {
        return Err(BadLine::NeedsNumber);
    }
    let size = if size.is_empty() {
        UNIT_MOST
    } else {
        words::number_behind(size)?
    };
    Ok((words::number(slot)?, size))
}

impl Use<'_> {
    fn piece(&mut self, rt: &HostRuntime, rest: &str) -> Result<(), Stop> {
        let Given {
            mark,
            first,
            remaining,
            unit,
        } = Given::read(rt.alloc(), rest)?;
        let answer = self.slots.piece(mark, first, remaining, unit.as_slice())??;
        self.account.count(&answer);
        tell_answer(rt, answer)
    }

    fn tick(&mut self, rt: &HostRuntime, rest: &str) -> Result<(), Stop> {
        let times = times(rest)?;
        let mut lapsed = 0usize;
        // Stays: a map that ticks would hide the change.
        for _ in 0..times {
            lapsed = lapsed.saturating_add(self.slots.tick());
        }
        self.account.lapsed = self.account.lapsed.saturating_add(lapsed as u64);
        let ticks = if times == 1 { "tick" } else { "ticks" };
        println!(rt; "tick: {times} {ticks}, {lapsed} lapsed")?;
        Ok(())
    }

    fn copy(&self, rt: &HostRuntime, rest: &str) -> Result<(), Stop> {
        let (slot, size) = slot_and_size(rest)?;
        let receipt = self
            .slots
            .place_of(slot)
            .and_then(|place| self.slots.receipt(place))
            .ok_or(BadLine::NoReceipt)?;
        let mut buffer = vec![in rt.alloc(); 0u8; size]?;
        let n = self.slots.copy(receipt, buffer.as_mut_slice())?;
        buffer.truncate(n);
        let text = hexadecimal::text_of(rt.alloc(), buffer.as_slice())?;
        println!(rt; "copy: {n} octets, data={text}")?;
        Ok(())
    }

    fn release(&mut self, rt: &HostRuntime, rest: &str) -> Result<(), Stop> {
        let slot = words::number_behind(rest)?;
        let place = self.slots.place_of(slot).ok_or(BadLine::NoReceipt)?;
        let slot = self.slots.release(place).ok_or(BadLine::NoReceipt)?;
        println!(rt; "release: slot {slot} free")?;
        Ok(())
    }

    fn tell_account(&self, rt: &HostRuntime, rest: &str) -> Result<(), Stop> {
        words::no_words(rest)?;
        println!(rt;
            "account: opened={} handed-up={} broken={} lapsed={} open={}",
            self.account.opened,
            self.account.handed_up,
            self.account.broken,
            self.account.lapsed,
            self.slots.open_slots()
        )?;
        Ok(())
    }

    // Plays lines while the slots are open.
    fn play(&mut self, rt: &HostRuntime, desk: &mut Desk, lines: &[&str]) -> Result<(), Stop> {
        // Stays: an arm a command, as the help lists them.
        desk.play(rt, lines, |desk, word, rest| match word {
            "piece" => self.piece(rt, rest),
            "tick" => self.tick(rt, rest),
            "copy" => self.copy(rt, rest),
            "release" => self.release(rt, rest),
            "account" => self.tell_account(rt, rest),
            _ => desk.carry_out(rt, word, rest),
        })
    }
}

// Plays a `slots` line and the lines behind it, to which its slots are open, if it opens any.
pub fn play(rt: &HostRuntime, desk: &mut Desk, line: &str, behind: &[&str]) -> Result<(), Stop> {
    desk.begin();
    let (word, rest) = words::command(line);
    match Wanted::read(rt.alloc(), rest) {
        Ok(wanted) => wanted.play(rt, desk, behind),
        Err(stop) => {
            desk.end(rt, word, Err(stop))?;
            desk.play_alone(rt, behind)
        }
    }
}
