// The commands on a line: `line`, `put`, `take`, `places`.
use crate::any_lines::AnyLine;
use crate::stops::Stop;
use crate::words;
use crate::words::BadLine;
use cell_line::CellLine;
use line::queue::MESSAGE_MOST;
use line::{InArea, Line};
use packed_line::PackedLine;

// Opens a line of a kind in the place of the one that was open.
fn open_kind<L: InArea + Into<AnyLine>>(
    rt: &HostRuntime,
    held: &mut Option<AnyLine>,
    name: &str,
    size: &str,
) -> Result<(), Stop> {
    let octets = words::number_behind(size)?;
    let line = L::new(words::zeros(rt.alloc(), octets)?).map_err(|(why, _)| why)?;
    let line = line.into();
    println!(rt; "line: {name} of {octets} octets, {} places", line.places())?;
    *held = Some(line);
    Ok(())
}

pub fn open(rt: &HostRuntime, held: &mut Option<AnyLine>, rest: &str) -> Result<(), Stop> {
    let (kind, size) = words::parted(rest);
    match kind {
        "cell" => open_kind::<CellLine>(rt, held, "cell line", size),
        "packed" => open_kind::<PackedLine>(rt, held, "packed line", size),
        _ => Err(BadLine::LineKind.into()),
    }
}

pub fn put(rt: &HostRuntime, held: &mut Option<AnyLine>, rest: &str) -> Result<(), Stop> {
    let message = words::octets_behind(rt.alloc(), rest)?;
    let line = held.as_mut().ok_or(BadLine::NoLine)?;
    line.put(message.as_slice())?;
    println!(rt;
        "put: {} octets, {} places left",
        message.len(),
        line.places()
    )?;
    Ok(())
}

// Takes the oldest message.
pub fn take(rt: &HostRuntime, held: &mut Option<AnyLine>, rest: &str) -> Result<(), Stop> {
    words::no_words(rest)?;
    let line = held.as_mut().ok_or(BadLine::NoLine)?;
    let mut buffer = [0u8; MESSAGE_MOST];
    let n = line.take(&mut buffer)?;
    let text = hexadecimal::text_of(rt.alloc(), &buffer[..n])?;
    println!(rt; "take: {text}")?;
    Ok(())
}

pub fn places(rt: &HostRuntime, held: &Option<AnyLine>, rest: &str) -> Result<(), Stop> {
    words::no_words(rest)?;
    let line = held.as_ref().ok_or(BadLine::NoLine)?;
    println!(rt; "places: {}", line.places())?;
    Ok(())
}
