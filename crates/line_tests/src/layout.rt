// The octets of an area after a few calls, written out by hand.
use crate::beside::check;
use cell_line::CellLine;
use line::InArea;
use packed_line::PackedLine;
use std::alloc::Global;
use std::test::Fail;

// What an area holds before.
const BLANK: u8 = 0xA5;

const FIRST: [u8; 5] = [1, 2, 3, 4, 5];

const SECOND: [u8; 6] = [9, 8, 7, 6, 5, 4];

// A blank area of 4,416 octets.
fn blank(heap: Global) -> Result<Vec<u8>, Fail> {
    Ok(vec![in heap; BLANK; 4416]?)
}

// What a line leaves of a blank area: two messages in and the first one out.
fn three_calls<L: InArea + Drop>(heap: Global) -> Result<Vec<u8>, Fail> {
    let mut line = L::new(blank(heap)?)?;
    line.put(&FIRST)?;
    line.put(&SECOND)?;
    check(line.take(&mut [0u8; 272])? == 5)?;
    Ok(line.close())
}

// A blank area with octets written at some places.
fn expected(heap: Global, parts: &[(usize, &[u8])]) -> Result<Vec<u8>, Fail> {
    let mut area = blank(heap)?;
    for (at, octets) in parts {
        let (_, behind) = area
            .split_at_mut_checked(*at)
            .ok_or("the place is past the area")?;
        check(octets.len() <= behind.len())?;
        behind[..octets.len()].copy_from_slice(octets);
    }
    Ok(area)
}

#[test]
fn cell_octets(rt: HostRuntime) -> Result<(), Fail> {
    let heap = rt.alloc();
    assert_eq!(rt;
        three_calls::<CellLine>(heap)?,
        expected(
            heap,
            &[(0, &[5, 0]), (2, &FIRST), (274, &[6, 0]), (276, &SECOND)],
        )?
    );
    Ok(())
}

#[test]
fn packed_octets(rt: HostRuntime) -> Result<(), Fail> {
    let heap = rt.alloc();
    assert_eq!(rt;
        three_calls::<PackedLine>(heap)?,
        expected(
            heap,
            &[
                (0, &SECOND),
                (6, &[8, 7, 6, 5, 4]),
                (4408, &[5, 0, 6, 0]),
                (4412, &[0, 0, 6, 0]),
            ],
        )?
    );
    Ok(())
}
