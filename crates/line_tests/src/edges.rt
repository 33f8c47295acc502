// Every refusal at its boundary.
use crate::beside::{FILL, check, message, number_of};
use cell_line::CellLine;
use line::{InArea, Line, LineRefusal};
use packed_line::PackedLine;
use std::alloc::Global;
use std::test::Fail;

// Puts a message of n octets; answers the number of the refusal, or 0.
fn put_some<L: Line>(heap: Global, line: &mut L, n: usize) -> Result<u8, Fail> {
    let m = message(heap, n, 3)?;
    Ok(number_of(&line.put(&m)))
}

// Takes into a buffer of some size; answers the number of the refusal, or 0, and the length.
fn take_some<L: Line>(heap: Global, line: &mut L, size: usize) -> Result<(u8, usize), Fail> {
    let mut buffer = vec![in heap; FILL; size]?;
    let got = line.take(&mut buffer);
    Ok((number_of(&got), got.unwrap_or(0)))
}

// Puts messages of some lengths, of which each is accepted or refused with a number.
fn put_each<L: Line>(heap: Global, line: &mut L, cases: &[(usize, u8)]) -> Result<(), Fail> {
    for (n, number) in cases {
        check(put_some(heap, line, *n)? == *number)?;
    }
    Ok(())
}

// With messages of 5 and 272 octets waiting, buffers of 271 and 272.
fn take_edges<L: Line>(heap: Global, line: &mut L) -> Result<(), Fail> {
    for (size, taken) in [
        (271, (64, 0)),
        (272, (0, 5)),
        (271, (64, 0)),
        (272, (0, 272)),
    ] {
        check(take_some(heap, line, size)? == taken)?;
    }
    Ok(())
}

// An empty line, in an area of so many octets and with so many places.
fn empty<L: InArea + Drop>(heap: Global, octets: usize) -> Result<L, Fail> {
    Ok(L::new(vec![in heap; 0u8; octets]?)?)
}

// An empty line in an area with so many places: nothing to take, and the edges of put and take.
fn edges<L: InArea + Drop>(heap: Global, octets: usize, places: usize) -> Result<(), Fail> {
    let mut line = empty::<L>(heap, octets)?;
    check(line.places() == places)?;
    check(take_some(heap, &mut line, 271)? == (63, 0))?;
    put_each(heap, &mut line, &[(4, 61), (273, 61), (5, 0), (272, 0)])?;
    take_edges(heap, &mut line)?;
    check(take_some(heap, &mut line, 272)? == (63, 0))?;
    check(line.places() == places)
}

// Fills an empty line with messages of n octets and answers how many it took; a wrong length is named before a full line is.
fn fill<L: InArea + Drop>(heap: Global, octets: usize, n: usize) -> Result<usize, Fail> {
    let mut line = empty::<L>(heap, octets)?;
    let m = message(heap, n, 3)?;
    let count = (0..20000).filter(|_| line.put(&m).is_ok()).count();
    check(line.places() == 0)?;
    put_each(heap, &mut line, &[(n, 62), (4, 61), (273, 61)])?;
    Ok(count)
}

// An area of 4,415 octets is refused and given back.
fn small<L: InArea + Drop>(heap: Global) -> Result<(), Fail> {
    let (refusal, area) = L::new(message(heap, 4415, 7)?)
        .err()
        .ok_or("an area of 4,415 octets is not refused")?;
    check(refusal.number() == 60)?;
    check(area == message(heap, 4415, 7)?)
}

#[test]
fn cell_edges(rt: HostRuntime) -> Result<(), Fail> {
    for (octets, places) in [(4416, 16), (4657, 16), (4658, 17), (274000, 1000)] {
        edges::<CellLine>(rt.alloc(), octets, places)?;
    }
    Ok(())
}

#[test]
fn packed_edges(rt: HostRuntime) -> Result<(), Fail> {
    for (octets, places) in [
        (4416, 16),
        (4691, 16),
        (4692, 17),
        (65536, 237),
        (100000, 237),
    ] {
        edges::<PackedLine>(rt.alloc(), octets, places)?;
    }
    Ok(())
}

// Areas, lengths of messages and how many a line takes until it is full.
#[test]
fn cell_full(rt: HostRuntime) -> Result<(), Fail> {
    for (octets, n, count) in [(4416, 5, 16), (4416, 272, 16), (5480, 100, 20)] {
        assert_eq!(rt; fill::<CellLine>(rt.alloc(), octets, n)?, count);
    }
    Ok(())
}

#[test]
fn packed_full(rt: HostRuntime) -> Result<(), Fail> {
    for (octets, n, count) in [(4416, 272, 16), (4416, 5, 461), (100000, 272, 237)] {
        assert_eq!(rt; fill::<PackedLine>(rt.alloc(), octets, n)?, count);
    }
    Ok(())
}

#[test]
fn cell_small(rt: HostRuntime) -> Result<(), Fail> {
    small::<CellLine>(rt.alloc())
}

#[test]
fn packed_small(rt: HostRuntime) -> Result<(), Fail> {
    small::<PackedLine>(rt.alloc())
}

#[test]
fn refusals_in_words(rt: HostRuntime) -> Result<(), Fail> {
    let text = LineRefusal::NoPlace.to_string(rt.alloc())?;
    assert_eq!(rt; text.as_str(), "the line has no place left");
    Ok(())
}
