// Calls of slots of several sizes.
use crate::bench;
use crate::bench::Call;
use kept_receipts::KeptReceipts;
use slots::Settings;

// Opens slots of so many records and a store of so many octets, makes the calls, and releases what is left.
fn tried(
    rt: &HostRuntime,
    settings: Settings,
    records: usize,
    store: usize,
    calls: &[Call],
) -> anyhow::Result<()> {
    let mut memory = bench::records(rt.alloc(), records)?;
    let mut octets = bench::octets(rt.alloc(), store)?;
    let mut slots = KeptReceipts::open(
        rt.alloc(),
        settings,
        memory.as_mut_slice(),
        octets.as_mut_slice(),
    );
    let ran = bench::run(rt, &mut slots, calls);
    slots.close();
    ran
}

// One slot: time, the limit, copies, and a whole slot.
const ONE_SLOT: [Call; 20] = [
    Call::First(5, 1, 4, 0xA1),
    Call::Count,
    Call::Tick(9),
    Call::Later(5, 0, 4, 0xB2),
    Call::Count,
    Call::Copy(0, 8),
    Call::Copy(0, 10),
    Call::Copy(0, 7),
    Call::Tick(20),
    Call::Copy(0, 8),
    Call::First(6, 1, 4, 0xC3),
    Call::Release(0),
    Call::First(5, 1, 4, 0xA1),
    Call::Tick(10),
    Call::Later(5, 0, 4, 0xB2),
    Call::Count,
    Call::First(5, 1, 4, 0xA1),
    Call::Later(5, 0, 5, 0xB2),
    Call::Later(5, 0, 4, 0xB2),
    Call::Count,
];

// Two slots, of three records and a store of two stretches and some: broken, stray, restarted, alone, and none free.
const TWO_SLOTS: [Call; 23] = [
    Call::First(1, 2, 3, 0x11),
    Call::First(2, 1, 3, 0x22),
    Call::First(3, 1, 3, 0x33),
    Call::Later(1, 0, 3, 0x12),
    Call::Later(1, 0, 3, 0x12),
    Call::First(3, 1, 3, 0x33),
    Call::First(2, 1, 2, 0x24),
    Call::Later(2, 0, 2, 0x25),
    Call::First(3, 0, 9, 0x39),
    Call::Count,
    Call::Later(3, 0, 3, 0x34),
    Call::First(4, 1, 1, 0x44),
    Call::Later(2, 0, 2, 0x26),
    Call::Copy(0, 4),
    Call::Copy(1, 6),
    Call::Release(0),
    Call::First(4, 1, 1, 0x44),
    Call::Copy(0, 6),
    Call::First(3, 1, 1, 0x55),
    Call::Count,
    Call::Release(0),
    Call::Tick(10),
    Call::Count,
];

// Four slots: two senders mixed, and slots that serve again.
const MIXED: [Call; 16] = [
    Call::First(1, 2, 2, 0xA0),
    Call::First(2, 2, 2, 0xB0),
    Call::Later(1, 1, 2, 0xA1),
    Call::Later(2, 1, 1, 0xB1),
    Call::Count,
    Call::Later(2, 0, 2, 0xB2),
    Call::Later(1, 0, 2, 0xA2),
    Call::First(1, 1, 3, 0xA5),
    Call::Copy(0, 5),
    Call::Copy(1, 6),
    Call::Release(1),
    Call::First(3, 1, 1, 0xC0),
    Call::Count,
    Call::Release(0),
    Call::Later(3, 0, 1, 0xC1),
    Call::Copy(0, 3),
];

// A store one octet short of a stretch gives no slots.
const NO_SLOTS: [Call; 5] = [
    Call::First(1, 1, 1, 0x01),
    Call::Later(1, 0, 1, 0x01),
    Call::First(1, 0, 1, 0x07),
    Call::Tick(3),
    Call::Count,
];

// Pieces out of range are declined and alter nothing.
const RANGES: [Call; 12] = [
    Call::First(1, 16, 1, 0x01),
    Call::First(1, 15, 0, 0x01),
    Call::First(1, 15, 256, 0x01),
    Call::Later(1, 16, 1, 0x01),
    Call::First(1, 0, 256, 0x01),
    Call::First(1, 15, 255, 0x0F),
    Call::Later(1, 14, 255, 0x0E),
    Call::Later(1, 13, 256, 0x01),
    Call::Later(1, 13, 0, 0x01),
    Call::Later(1, 16, 1, 0x01),
    Call::Later(1, 13, 255, 0x0D),
    Call::Count,
];

// There are at most 16 slots.
const SIXTEEN: [Call; 3] = [
    Call::First(1, 1, 1, 0x01),
    Call::First(2, 1, 1, 0x01),
    Call::Count,
];

// The longest unit: 16 pieces of 247.
const LONGEST: [Call; 19] = [
    Call::First(1, 15, 247, 0x10),
    Call::Later(1, 14, 247, 0x11),
    Call::Later(1, 13, 247, 0x12),
    Call::Later(1, 12, 247, 0x13),
    Call::Later(1, 11, 247, 0x14),
    Call::Later(1, 10, 247, 0x15),
    Call::Later(1, 9, 247, 0x16),
    Call::Later(1, 8, 247, 0x17),
    Call::Later(1, 7, 247, 0x18),
    Call::Later(1, 6, 247, 0x19),
    Call::Later(1, 5, 247, 0x1A),
    Call::Later(1, 4, 247, 0x1B),
    Call::Later(1, 3, 247, 0x1C),
    Call::Later(1, 2, 247, 0x1D),
    Call::Later(1, 1, 247, 0x1E),
    Call::Later(1, 0, 247, 0x1F),
    Call::Copy(0, 3951),
    Call::Copy(0, 3952),
    Call::Release(0),
];

// A unit of 16 pieces of 255 would be longer than a stretch: up to 3,952 octets are taken, one more is broken.
const TOO_LONG: [Call; 34] = [
    Call::First(1, 15, 255, 0x10),
    Call::Later(1, 14, 255, 0x10),
    Call::Later(1, 13, 255, 0x10),
    Call::Later(1, 12, 255, 0x10),
    Call::Later(1, 11, 255, 0x10),
    Call::Later(1, 10, 255, 0x10),
    Call::Later(1, 9, 255, 0x10),
    Call::Later(1, 8, 255, 0x10),
    Call::Later(1, 7, 255, 0x10),
    Call::Later(1, 6, 255, 0x10),
    Call::Later(1, 5, 255, 0x10),
    Call::Later(1, 4, 255, 0x10),
    Call::Later(1, 3, 255, 0x10),
    Call::Later(1, 2, 255, 0x10),
    Call::Later(1, 1, 255, 0x10),
    Call::Later(1, 0, 127, 0x1F),
    Call::Release(0),
    Call::First(1, 15, 255, 0x10),
    Call::Later(1, 14, 255, 0x10),
    Call::Later(1, 13, 255, 0x10),
    Call::Later(1, 12, 255, 0x10),
    Call::Later(1, 11, 255, 0x10),
    Call::Later(1, 10, 255, 0x10),
    Call::Later(1, 9, 255, 0x10),
    Call::Later(1, 8, 255, 0x10),
    Call::Later(1, 7, 255, 0x10),
    Call::Later(1, 6, 255, 0x10),
    Call::Later(1, 5, 255, 0x10),
    Call::Later(1, 4, 255, 0x10),
    Call::Later(1, 3, 255, 0x10),
    Call::Later(1, 2, 255, 0x10),
    Call::Later(1, 1, 255, 0x10),
    Call::Later(1, 0, 128, 0x1F),
    Call::Count,
];

// A restart gives the time anew, and a piece that is held does not.
const RENEWED: [Call; 14] = [
    Call::First(1, 1, 4, 0xA1),
    Call::Tick(9),
    Call::First(1, 2, 3, 0xB1),
    Call::Tick(9),
    Call::Later(1, 1, 3, 0xB2),
    Call::Later(1, 0, 3, 0xB3),
    Call::Copy(0, 9),
    Call::Release(0),
    Call::First(1, 2, 3, 0xB1),
    Call::Tick(5),
    Call::Later(1, 1, 3, 0xB2),
    Call::Tick(4),
    Call::Tick(1),
    Call::Later(1, 0, 3, 0xB3),
];

// The limit is by the first piece: later ones may be longer while the sum is within.
const SHORT_LATER: [Call; 11] = [
    Call::First(1, 2, 4, 0x01),
    Call::Later(1, 1, 8, 0x02),
    Call::Later(1, 0, 1, 0x03),
    Call::First(1, 2, 4, 0x01),
    Call::Later(1, 1, 7, 0x02),
    Call::Later(1, 0, 1, 0x03),
    Call::Copy(0, 12),
    Call::First(2, 1, 4, 0x09),
    Call::Release(0),
    Call::First(2, 1, 4, 0x09),
    Call::Later(2, 1, 4, 0x09),
];

// Each case with its records and its store.
pub fn all(rt: &HostRuntime, settings: Settings) -> anyhow::Result<()> {
    tried(rt, settings, 1, 3952, &ONE_SLOT)?;
    tried(rt, settings, 3, 8004, &TWO_SLOTS)?;
    tried(rt, settings, 4, 15808, &MIXED)?;
    tried(rt, settings, 1, 3951, &NO_SLOTS)?;
    tried(rt, settings, 1, 3952, &RANGES)?;
    tried(rt, settings, 18, 67184, &SIXTEEN)?;
    tried(rt, settings, 1, 3952, &LONGEST)?;
    tried(rt, settings, 1, 3952, &TOO_LONG)?;
    tried(rt, settings, 1, 3952, &RENEWED)?;
    tried(rt, settings, 1, 3952, &SHORT_LATER)
}
