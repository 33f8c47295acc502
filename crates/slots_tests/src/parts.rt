// Settings, marks, and the timed table at references.
use crate::bench::say_refused;
use slots::{Mark, Reference, Settings, StationMark};
use timed_table::entry::Entry;
use timed_table::lent::TimedTable;

fn settings(rt: &HostRuntime, code: u16, ticks: u8) -> anyhow::Result<()> {
    match Settings::new(code, ticks) {
        Ok(s) => {
            let code = s.code();
            let ticks = s.ticks();
            println!(rt; "settings {code} {ticks}")?
        }
        Err(why) => say_refused(rt, why.number(), &why)?,
    }
    Ok(())
}

fn same(rt: &HostRuntime, a: Option<StationMark>, b: Option<StationMark>) -> anyhow::Result<()> {
    let (Some(a), Some(b)) = (a, b) else {
        println!(rt; "no mark")?;
        return Ok(());
    };
    let same = a.same(&b);
    println!(rt; "same {same}")?;
    Ok(())
}

fn marks(rt: &HostRuntime) -> anyhow::Result<()> {
    let long = [0x42u8; 33];
    let one = StationMark::new(1, 8, b"\x42\x06", 7);
    let longest = StationMark::new(1, 8, &long[0..32], 7);
    same(rt, one, one)?;
    same(rt, one, StationMark::new(2, 8, b"\x42\x06", 7))?;
    same(rt, one, StationMark::new(1, 9, b"\x42\x06", 7))?;
    same(rt, one, StationMark::new(1, 8, b"\x42\x07", 7))?;
    same(rt, one, StationMark::new(1, 8, b"\x42\x06\x00", 7))?;
    same(rt, one, StationMark::new(1, 8, b"\x42\x06", 8))?;
    same(rt, longest, longest)?;
    same(rt, StationMark::new(1, 8, &long, 7), one)?;
    same(rt, one, StationMark::new(1, 8, b"\x42", 7))?;
    let one = Reference { number: 7 };
    let again = one.same(&Reference { number: 7 });
    let other = one.same(&Reference { number: 8 });
    println!(rt; "references {again} {other}")?;
    Ok(())
}

fn place(rt: &HostRuntime, what: &str, found: Option<usize>) -> anyhow::Result<()> {
    match found {
        Some(i) => println!(rt; "{what} {i}")?,
        None => println!(rt; "{what} none")?,
    }
    Ok(())
}

// Frozen references: three entries lent, two used.
fn references(rt: &HostRuntime) -> anyhow::Result<()> {
    let mut entries: [Entry<Reference, ()>; 3] = [
        Entry::Free,
        Entry::Held { load: () },
        Entry::Held { load: () },
    ];
    let mut table = TimedTable::over(&mut entries, 2);
    place(
        rt,
        "taken",
        table.take_free(Reference { number: 70 }, 2, ()),
    )?;
    place(
        rt,
        "taken",
        table.take_free(Reference { number: 71 }, 1, ()),
    )?;
    place(
        rt,
        "taken",
        table.take_free(Reference { number: 72 }, 1, ()),
    )?;
    place(rt, "found", table.find(&Reference { number: 70 }))?;
    place(rt, "found", table.find(&Reference { number: 71 }))?;
    place(rt, "found", table.find(&Reference { number: 72 }))?;
    let n = table.count();
    let lapsed = table.tick();
    let left = table.count();
    println!(rt; "{n} timed, {lapsed} lapsed, {left} left")?;
    place(rt, "found", table.find(&Reference { number: 71 }))?;
    place(rt, "free", table.last_free())?;
    let lapsed = table.tick();
    println!(rt; "{lapsed} lapsed")?;
    place(rt, "free", table.last_free())?;
    let lapsed = table.tick();
    println!(rt; "{lapsed} lapsed")?;
    Ok(())
}

pub fn all(rt: &HostRuntime) -> anyhow::Result<()> {
    settings(rt, 0, 10)?;
    settings(rt, 16383, 20)?;
    settings(rt, 16384, 10)?;
    settings(rt, 16384, 9)?;
    settings(rt, 16383, 9)?;
    settings(rt, 16383, 21)?;
    marks(rt)?;
    references(rt)
}
