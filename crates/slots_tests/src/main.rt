// Cases of slots used alone: the rules of pieces, ticks, copies, releases and receipts, of settings, marks and the timed table.
// What it must write stands in the file stdout.
#![tactic(auto)]

mod bench;
mod cases;
mod parts;
mod strange;

use slots::Settings;

const CODE: u16 = 9;

const T: u8 = 10;

fn main(rt: HostRuntime) -> anyhow::Result<()> {
    parts::all(&rt)?;
    let settings = Settings::new(CODE, T)?;
    cases::all(&rt, settings)?;
    strange::receipts(&rt, settings)
}
