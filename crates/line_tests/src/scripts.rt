// The same scripts of puts and takes for every line, past several turns of its memory.
use crate::beside::{Beside, check, message};
use cell_line::CellLine;
use line::InArea;
use packed_line::PackedLine;
use std::alloc::Global;
use std::test::Fail;

// How a script goes: messages of some lengths, and how many of eight steps put.
#[derive(Clone, Copy)]
struct Script {
    steps: u32,
    seed: u32,
    least: usize,
    spread: u32,
}

fn next(x: u32) -> u32 {
    x.wrapping_mul(1664525).wrapping_add(1013904223)
}

// Long stretches of puts and of takes in turn, so that the line is full and empty again and again.
fn puts_now(i: u32, x: u32) -> bool {
    let most = if (i / 60) % 2 == 0 { 6 } else { 2 };
    (x >> 24) % 8 < most
}

// Runs a script on an empty line in an area of so many octets, beside a plain list, and then takes all that waits. Answers how many messages were accepted.
fn run<L: InArea + Drop, P: Fn(&[Vec<u8>]) -> usize + Drop>(
    heap: Global,
    octets: usize,
    places: P,
    script: Script,
) -> Result<usize, Fail>
    requires { (count : P) (list : _) → P.pre count list }
{
    let line = L::new(vec![in heap; 0xA5u8; octets]?)?;
    let mut beside = Beside::new(heap, line, places);
    let mut accepted = 0usize;
    let mut x = script.seed;
    for i in 0..script.steps {
        x = next(x);
        if puts_now(i, x) {
            let n = script
                .least
                .saturating_add(((x >> 8) % script.spread.max(1)) as usize);
            if beside.put(message(heap, n, (x >> 24) as u8)?)? {
                accepted = accepted.saturating_add(1);
            }
        } else {
            beside.take(heap, 290)?;
        }
    }
    for _ in 0..accepted {
        beside.take(heap, 272)?;
    }
    check(beside.emptied()?.close().len() == octets)?;
    Ok(accepted)
}

const SHORT: Script = Script {
    steps: 1500,
    seed: 1,
    least: 5,
    spread: 40,
};

const LONG: Script = Script {
    steps: 1500,
    seed: 7,
    least: 240,
    spread: 33,
};

const ANY: Script = Script {
    steps: 2000,
    seed: 99,
    least: 0,
    spread: 280,
};

// A line of cells has a place for each cell without a message.
fn cell_run(heap: Global, octets: usize, script: Script) -> Result<usize, Fail> {
    run::<CellLine, _>(
        heap,
        octets,
        |list: &[Vec<u8>]| (octets / 274).saturating_sub(list.len()),
        script,
    )
}

// The octets that messages use on a packed line: their own, and four for each.
fn used(list: &[Vec<u8>]) -> usize {
    list.iter().fold(
        0usize,
        |sum, m| sum.saturating_add(m.len()).saturating_add(4),
    )
}

// A packed line has a place for each 276 octets that messages do not use.
fn packed_run(heap: Global, octets: usize, script: Script) -> Result<usize, Fail> {
    run::<PackedLine, _>(
        heap,
        octets,
        |list: &[Vec<u8>]| octets.min(65536).saturating_sub(used(list)) / 276,
        script,
    )
}

#[test]
fn cell_least(rt: HostRuntime) -> Result<(), Fail> {
    for script in [SHORT, LONG, ANY] {
        assert!(rt; cell_run(rt.alloc(), 4416, script)? > 200);
    }
    Ok(())
}

#[test]
fn cell_odd(rt: HostRuntime) -> Result<(), Fail> {
    assert!(rt; cell_run(rt.alloc(), 5753, ANY)? > 200);
    Ok(())
}

#[test]
fn packed_least(rt: HostRuntime) -> Result<(), Fail> {
    for script in [SHORT, LONG, ANY] {
        assert!(rt; packed_run(rt.alloc(), 4416, script)? > 200);
    }
    Ok(())
}

#[test]
fn packed_more(rt: HostRuntime) -> Result<(), Fail> {
    assert!(rt; packed_run(rt.alloc(), 9000, ANY)? > 200);
    assert!(rt; packed_run(rt.alloc(), 70000, LONG)? > 200);
    Ok(())
}
