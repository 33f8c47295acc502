// Receipts of another station, and of a slot that is not whole.
use crate::bench;
use crate::bench::Call;
use kept_receipts::KeptReceipts;
use slots::{Entry, Load, Reference, Settings, Slots};

// `here` gives a receipt, `there` has another code and gives one too, and `empty` has the code of `here` and no whole slot.
fn calls(
    rt: &HostRuntime,
    here: &mut KeptReceipts<'_, Reference>,
    there: &mut KeptReceipts<'_, Reference>,
    empty: &mut Slots<'_, Reference>,
) -> anyhow::Result<()> {
    bench::run(
        rt,
        here,
        &[Call::First(1, 1, 1, 0xA1), Call::Later(1, 0, 1, 0xA2)],
    )?;
    bench::copy(rt, here.receipt(0), 2, |r, to| there.copy(r, to))?;
    bench::say_offered(rt, here.offer_to(0, there))?;
    bench::copy(rt, here.receipt(0), 2, |r, to| empty.copy(r, to))?;
    bench::say_offered(rt, here.offer(0, empty))?;
    bench::run(
        rt,
        there,
        &[Call::First(1, 1, 1, 0xB1), Call::Later(1, 0, 1, 0xB2)],
    )?;
    bench::copy(rt, here.receipt(0), 2, |r, to| there.copy(r, to))?;
    bench::copy(rt, there.receipt(0), 2, |r, to| here.copy(r, to))?;
    bench::say_offered(rt, there.offer_to(0, here))?;
    bench::copy(rt, here.receipt(0), 2, |r, to| here.copy(r, to))?;
    bench::copy(rt, there.receipt(0), 2, |r, to| there.copy(r, to))?;
    bench::release(rt, here, 0)
}

// The three stations have one slot each.
pub fn receipts(rt: &HostRuntime, settings: Settings) -> anyhow::Result<()> {
    let mut one = bench::octets(rt.alloc(), 3952)?;
    let mut two = bench::octets(rt.alloc(), 3952)?;
    let mut three = bench::octets(rt.alloc(), 3952)?;
    let other = Settings::new(8, 10)?;
    let mut records: [Entry<Reference, Load>; 1] = [Entry::Free];
    let mut more: [Entry<Reference, Load>; 1] = [Entry::Free];
    let mut last: [Entry<Reference, Load>; 1] = [Entry::Free];
    let mut here = KeptReceipts::open(rt.alloc(), settings, &mut records, one.as_mut_slice());
    let mut there = KeptReceipts::open(rt.alloc(), other, &mut more, two.as_mut_slice());
    let mut empty = Slots::open(settings, &mut last, three.as_mut_slice());
    let ran = calls(rt, &mut here, &mut there, &mut empty);
    here.close();
    there.close();
    ran
}
