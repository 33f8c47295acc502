// A line beside a plain list of the messages that should wait on it.
ghost use Rattle.std.specs.Prelude.{◌≡◌, is_ok};

use line::{Line, LineRefusal};
use std::alloc::Global;
use std::test::Fail;

// A test fails where this does not hold.
pub(crate) fn check(holds: bool) -> Result<(), Fail>
    ensures { is_ok result ≡ holds }
{
    if holds {
        Ok(())
    } else {
        Err(Fail::new("a check of a line does not hold"))
    }
}

// What fills a buffer before a take.
pub const FILL: u8 = 0xEE;

// The number of a refusal, or 0 where there is none.
// Stays: 0 stands for no refusal in the cases as they were worked out.
pub(crate) fn number_of<T: Drop>(r: &Result<T, LineRefusal>) -> u8 {
    r.as_ref().err().map_or(0, |e| e.number())
}

// A message of n octets, of which each tells its place and a seed.
pub(crate) fn message(heap: Global, n: usize, seed: u8) -> Result<Vec<u8>, Fail> {
    Ok(
        (0..n)
            .map(|i| ((i % 251) as u8).wrapping_add(seed))
            .collect(heap)?,
    )
}

fn put_number(places: usize, n: usize) -> u8 {
    match n {
        5..=272 if places == 0 => 62,
        5..=272 => 0,
        _ => 61,
    }
}

fn take_number(count: usize, size: usize) -> u8 {
    if count == 0 {
        63
    } else if size < 272 {
        64
    } else {
        0
    }
}

fn all_fill(part: &[u8]) -> bool {
    part.iter().all(|b| *b == FILL)
}

// The buffer holds the message at its front and nothing else new.
fn check_buffer(buffer: &[u8], n: usize, m: &[u8]) -> Result<(), Fail> {
    check(n == m.len())?;
    check(n <= buffer.len())?;
    check(&buffer[..n] == m)?;
    check(all_fill(&buffer[n..]))
}

// A line, the messages that should wait on it, and how many places it should have beside them.
#[derive(Drop)]
pub(crate) struct Beside<L, P> {
    line: L,
    list: Vec<Vec<u8>>,
    places: P,
}

impl<L: Line + Drop, P: Fn(&[Vec<u8>]) -> usize + Drop> Beside<L, P> {
    // Beside a line that should be empty.
    pub(crate) fn new(heap: Global, line: L, places: P) -> Beside<L, P> {
        Beside {
            line,
            list: Vec::new(heap),
            places,
        }
    }

    fn check_places(&self) -> Result<(), Fail>
        requires { (count : P) (list : _) → P.pre count list }
    {
        check(self.line.places() == (self.places)(&self.list))
    }

    // Puts a message on the line and into the list, if it should be accepted; tells whether it was.
    pub(crate) fn put(&mut self, m: Vec<u8>) -> Result<bool, Fail>
        requires { (count : P) (list : _) → P.pre count list }
    {
        self.check_places()?;
        let expected = put_number((self.places)(&self.list), m.len());
        let got = self.line.put(&m);
        check(number_of(&got) == expected)?;
        if expected == 0 {
            self.list.push(m)?;
        }
        self.check_places()?;
        Ok(expected == 0)
    }

    // Takes a message from the line and from the list into a buffer of some size.
    pub(crate) fn take(&mut self, heap: Global, size: usize) -> Result<(), Fail>
        requires { (count : P) (list : _) → P.pre count list }
    {
        let expected = take_number(self.list.len(), size);
        let mut buffer = vec![in heap; FILL; size]?;
        let got = self.line.take(&mut buffer);
        check(number_of(&got) == expected)?;
        if let Ok(n) = got {
            check(!self.list.is_empty())?;
            check_buffer(&buffer, n, &self.list.remove(0))?;
        } else {
            check(all_fill(&buffer))?;
        }
        self.check_places()
    }

    // The line again, on which nothing should wait.
    pub(crate) fn emptied(self) -> Result<L, Fail> {
        let Beside { line, list, .. } = self;
        check(list.is_empty())?;
        Ok(line)
    }
}
