ghost use Rattle.std.specs.Prelude.{◌≡◌, ◌+◌, ◌-◌, ◌*◌, ◌/◌, ◌<◌, ◌≤◌, false, [], ◌++◌, length, is_ok, IfOk, vec_len, vec_capacity, MatchResult};
ghost use Rattle.line.specs.Meaning.{least_octets, most_octets, oldest, put_answer, put_after, take_answer, take_after, take_buffer};
ghost use Rattle.octets.specs.Over.{over};
ghost use Rattle.line.specs.Written.{two, two_octets};
ghost use Rattle.cell_line.specs.Ring.{cell_octets, messages, wrap};
ghost use Rattle.cell_line.specs.State.{area_of, waiting_in, places_in, put_area, take_head};
ghost use Rattle.std.proofs.Common.{arith};
ghost use Rattle.cell_line.specs.Rings.{ring_fits};

use crate::cells::CellLine;
use line::area::{AREA_LEAST, InArea};
use line::checks::{may_put, may_take};
use line::pair::{read_two, write_two};
use line::queue::Line;
use line::refusal::LineRefusal;
use octets::put;

// The octets of a cell: two of the length and the longest message.
const CELL: usize = 274;

// Writes a message into the cell that begins at a place, behind its length.
#[tactic(auto, using(octets::proofs::Over::over_more))]
fn write_cell(area: &mut [u8], at: usize, message: &[u8])
    requires { (at + cell_octets ≤ length area.old) × (length message.now ≤ most_octets) }
    ensures { area.new ≡ over area.old at (two_octets (length message.now) ++ message.now) }
{
    write_two(area, at, message.len());
    put(area, at + 2, message);
}

impl CellLine {
    // The number of the cell i places after head.
    fn wrapped(&self, i: usize) -> usize
        requires { i ≤ self.now.cells }
        ensures value { result ≡ wrap self.now.cells self.now.head i }
        ensures inside { result < self.now.cells }
    {
        if i < self.cells - self.head {
            self.head + i
        } else {
            i - (self.cells - self.head)
        }
    }

    // The oldest message.
    #[tactic(auto, using(crate::specs::Rings::oldest_is))]
    fn oldest(&self) -> &[u8]
        requires { 0 < self.now.count }
        ensures value { result.now ≡ oldest (waiting_in self.now) }
        ensures bounds { (least_octets ≤ length result.now) × (length result.now ≤ most_octets) }
    {
        let at = CELL * self.head;
        let n = read_two(&self.area, at);
        &self.area[at + 2..at + 2 + n]
    }
}

impl Line for CellLine {
    ghost waiting = { waiting_in };

    ghost places = { places_in };

    ghost roomy = { Prim.grind arith };

    ghost fitting = { λ s.
        let inside : cell_octets * s.cells ≤ length s.area.items = omega (arith, s.whole, s.area.ok.0) in
        ring_fits s.area.items s.cells s.head s.count inside s.headin s.countin s.held };

    #[tactic(auto, using(crate::specs::Rings::ring_length))]
    fn put(&mut self, message: &[u8]) -> Result<(), LineRefusal>
        ensures answer { result ≡ put_answer (places_in self.old) (length message.now) }
        ensures messages { waiting_in self.new ≡ put_after result (waiting_in self.old) message.now }
        ensures least { places_in self.old ≤ places_in self.new + 1 }
        ensures most { places_in self.new ≤ places_in self.old }
        ensures declined { is_ok result ≡ false → self.new ≡ self.old }
        ensures area { area_of self.new ≡ put_area result self.old message.now }
        ensures memory { vec_capacity self.new.area ≡ vec_capacity self.old.area }
        ensures ring { (self.new.cells ≡ self.old.cells) × (self.new.head ≡ self.old.head) }
    {
        may_put(self.places(), message.len())?;
        let at = CELL * self.wrapped(self.count);
        write_cell(&mut self.area, at, message);
        self.count += 1;
        Ok(())
    }

    #[tactic(auto, using(crate::specs::Rings::ring_length, crate::specs::Rings::others_are))]
    fn take(&mut self, buffer: &mut [u8]) -> Result<usize, LineRefusal>
        ensures answer { result ≡ take_answer (waiting_in self.old) (length buffer.old) }
        ensures bounds { IfOk result (λ n. (least_octets ≤ n) × (n ≤ most_octets) × (most_octets ≤ length buffer.old)) }
        ensures messages { waiting_in self.new ≡ take_after result (waiting_in self.old) }
        ensures octets { buffer.new ≡ take_buffer result (waiting_in self.old) buffer.old }
        ensures least { places_in self.old ≤ places_in self.new }
        ensures declined { is_ok result ≡ false → self.new ≡ self.old }
        ensures area { self.new.area ≡ self.old.area }
        ensures ring { (self.new.cells ≡ self.old.cells) × (self.new.head ≡ take_head result self.old) }
    {
        may_take(self.count, buffer.len())?;
        let message = self.oldest();
        let n = message.len();
        buffer[..n].copy_from_slice(message);
        self.head = self.wrapped(1);
        self.count -= 1;
        Ok(n)
    }

    fn places(&self) -> usize
        ensures value { result ≡ places_in self.now }
        ensures unused { result ≡ vec_len self.now.area / cell_octets - length (waiting_in self.now) }
    {
        self.cells - self.count
    }
}

// A line in an area is made and closed by its own name; code for any line in an area has the same by the trait.
impl CellLine {
    // An empty line in the area given; an area under 4,416 octets is given back.
    // Stays: each line tests its area by itself, in two lines of a crate of its own.
    #[tactic(auto, unfolding(crate::specs::Ring::messages))]
    pub fn new(area: Vec<u8>) -> Result<CellLine, (LineRefusal, Vec<u8>)>
        ensures { MatchResult result (λ s. (s.area ≡ area) × (waiting_in s ≡ []) × (places_in s ≡ vec_len area / cell_octets) × (s.head ≡ 0) × (4416 ≤ vec_len area)) (λ e. (e ≡ (LineRefusal.AreaTooSmall, area)) × (vec_len area < 4416)) }
    {
        if area.len() < AREA_LEAST {
            return Err((LineRefusal::AreaTooSmall, area));
        }
        Ok(CellLine {
            cells: area.len() / CELL,
            head: 0,
            count: 0,
            area,
        })
    }

    // Ends the line and gives the area back, as the calls left it.
    pub fn close(self) -> Vec<u8>
        ensures { result ≡ self.area }
    {
        let CellLine { area, .. } = self;
        area
    }
}

impl InArea for CellLine {
    ghost memory = { λ s. s.area };

    ghost empty_places = { λ n. n / cell_octets };

    ghost emptied = { Prim.grind arith };

    fn new(area: Vec<u8>) -> Result<CellLine, (LineRefusal, Vec<u8>)>
        ensures { MatchResult result (λ s. (s.area ≡ area) × (waiting_in s ≡ []) × (places_in s ≡ vec_len area / cell_octets) × (s.head ≡ 0) × (4416 ≤ vec_len area)) (λ e. (e ≡ (LineRefusal.AreaTooSmall, area)) × (vec_len area < 4416)) }
    {
        CellLine::new(area)
    }

    fn close(self) -> Vec<u8>
        ensures { result ≡ self.area }
    {
        CellLine::close(self)
    }
}
