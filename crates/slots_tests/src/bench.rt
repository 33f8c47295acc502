// Calls of slots used alone, each answered by a line. The receipts that are given are kept, and are named by their place.
use anyhow::anyhow;
use kept_receipts::{KeptAnswer, KeptReceipts, Whole};
use slots::{CopyRefusal, Entry, Load, Receipt, Reference, ReleaseRefusal};
use std::alloc::Global;
use std::fmt;

// A piece is given by mark, remaining, length and an octet, of which all its data consists.
#[derive(Clone, Copy)]
pub enum Call {
    First(u32, u8, usize, u8),
    Later(u32, u8, usize, u8),
    // so many ticks
    Tick(u8),
    // the unit of the receipt at a place, into a buffer of so many octets
    Copy(usize, usize),
    // the receipt at a place
    Release(usize),
    Count,
}

// A refusal, by its number and in words.
pub fn say_refused<E: fmt::Display>(rt: &HostRuntime, number: u8, why: &E) -> anyhow::Result<()> {
    println!(rt; "refused {number}: {why}")?;
    Ok(())
}

// How often an octet that is the same as the next stands there: 3 of A1 is written A1*3.
fn say_octets(rt: &HostRuntime, octets: &[u8]) -> anyhow::Result<()> {
    for run in octets.chunk_by(|a, b| a == b) {
        if let [b, ..] = run {
            let n = run.len();
            print!(rt; " {b:02X}*{n}")?;
        }
    }
    println!(rt; "")?;
    Ok(())
}

fn piece(
    rt: &HostRuntime,
    slots: &mut KeptReceipts<'_, Reference>,
    mark: u32,
    first: bool,
    remaining: u8,
    unit: &[u8],
) -> anyhow::Result<()> {
    match slots.piece(Reference { number: mark }, first, remaining, unit)? {
        Ok(KeptAnswer::Alone { unit }) => {
            print!(rt; "handed up:")?;
            say_octets(rt, unit)?
        }
        Ok(KeptAnswer::NoSlots) => println!(rt; "cause 10")?,
        Ok(KeptAnswer::NoneFree) => println!(rt; "cause 6")?,
        Ok(KeptAnswer::Opened { slot }) => println!(rt; "opened slot {slot}")?,
        Ok(KeptAnswer::Restarted { slot }) => println!(rt; "restarted slot {slot}")?,
        Ok(KeptAnswer::Stray) => println!(rt; "stray")?,
        Ok(KeptAnswer::Broken { slot }) => println!(rt; "broken slot {slot}")?,
        Ok(KeptAnswer::Held { slot }) => println!(rt; "held slot {slot}")?,
        Ok(
            KeptAnswer::HandedUp {
                receipt: Whole { slot, length },
            },
        ) => println!(rt; "handed up from pieces, slot {slot}, {length} octets")?,
        Err(why) => say_refused(rt, why.number(), &why)?,
    }
    Ok(())
}

fn tick(
    rt: &HostRuntime,
    slots: &mut KeptReceipts<'_, Reference>,
    times: u8,
) -> anyhow::Result<()> {
    let mut lapsed = 0usize;
    // Stays: a map that ticks would hide the change.
    for _ in 0..times {
        lapsed = lapsed.saturating_add(slots.tick());
    }
    println!(rt; "{times} ticks, {lapsed} lapsed")?;
    Ok(())
}

// A copy of the unit of a receipt, which `copy` makes, into a buffer of `room` octets, all CC before: what it answered, and what the
// buffer then holds.
pub fn copy<F: Fn(&Receipt, &mut [u8]) -> Result<usize, CopyRefusal>>(
    rt: &HostRuntime,
    receipt: Option<&Receipt>,
    room: usize,
    copy: F,
) -> anyhow::Result<()>
    requires { F.IsAlwaysCallable copy }
{
    let Some(receipt) = receipt else {
        return Err(anyhow!("no such receipt"));
    };
    let mut buffer = vec![in rt.alloc(); 0xCCu8; room]?;
    match copy(receipt, buffer.as_mut_slice()) {
        Ok(n) => {
            print!(rt; "copied {n}:")?;
            say_octets(rt, buffer.as_slice())
        }
        Err(why) => say_refused(rt, why.number(), &why),
    }
}

// What an offer of a receipt was answered.
pub fn say_offered(
    rt: &HostRuntime,
    offered: Option<Result<(), ReleaseRefusal>>,
) -> anyhow::Result<()> {
    match offered {
        Some(Ok(())) => println!(rt; "released")?,
        Some(Err(why)) => say_refused(rt, why.number(), &why)?,
        None => return Err(anyhow!("no such receipt")),
    }
    Ok(())
}

// The receipt at a place is spent, and the later ones move down.
pub fn release(
    rt: &HostRuntime,
    slots: &mut KeptReceipts<'_, Reference>,
    place: usize,
) -> anyhow::Result<()> {
    slots
        .release(place)
        .ok_or_else(|| anyhow!("no such receipt"))?;
    println!(rt; "released")?;
    Ok(())
}

fn one(
    rt: &HostRuntime,
    slots: &mut KeptReceipts<'_, Reference>,
    call: Call,
) -> anyhow::Result<()> {
    // Stays: a case is a list of calls, as test data.
    match call {
        Call::First(mark, remaining, len, fill) | Call::Later(mark, remaining, len, fill) => {
            let first = matches!(call, Call::First(..));
            let octets = vec![in rt.alloc(); fill; len]?;
            piece(rt, slots, mark, first, remaining, octets.as_slice())
        }
        Call::Tick(times) => tick(rt, slots, times),
        Call::Copy(place, room) => copy(rt, slots.receipt(place), room, |r, to| slots.copy(r, to)),
        Call::Release(place) => release(rt, slots, place),
        Call::Count => {
            let n = slots.open_slots();
            println!(rt; "{n} open")?;
            Ok(())
        }
    }
}

pub fn run(
    rt: &HostRuntime,
    slots: &mut KeptReceipts<'_, Reference>,
    calls: &[Call],
) -> anyhow::Result<()> {
    for call in calls {
        one(rt, slots, *call)?;
    }
    Ok(())
}

// So many free records.
pub fn records(heap: Global, n: usize) -> anyhow::Result<Vec<Entry<Reference, Load>>> {
    Ok((0..n).map(|_| Entry::Free).collect(heap)?)
}

// A store of so many octets.
pub fn octets(heap: Global, n: usize) -> anyhow::Result<Vec<u8>> {
    let made = vec![in heap; 0u8; n]?;
    Ok(made)
}
