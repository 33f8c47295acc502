ghost use Rattle.std.specs.Prelude.{◌≡◌, ◌+◌, ◌-◌, ◌*◌, ◌/◌, ◌<◌, ◌≤◌, min, false, [], length, is_ok, IfOk, vec_len, vec_capacity, MatchResult};
ghost use Rattle.line.specs.Meaning.{least_octets, most_octets, oldest, put_answer, put_after, take_answer, take_after, take_buffer};
ghost use Rattle.packed_line.specs.Pack.{messages, octets_of, places_beside, uses};
ghost use Rattle.packed_line.specs.State.{area_of, waiting_in, places_in, put_area, take_area};
ghost use Rattle.std.proofs.Common.{arith};
ghost use Rattle.packed_line.specs.Lines.{pack_fits};

use crate::packed::PackedLine;
use crate::store::{ENTRY, lower_index, write_entry};
use line::area::{AREA_LEAST, InArea};
use line::checks::{may_put, may_take};
use line::pair::read_two;
use line::queue::Line;
use line::refusal::LineRefusal;
use octets::put;

// The octets of an area that a line uses at most: every offset has two octets.
const AREA_MOST: usize = 65536;

// The octets of a place: the longest message and its entry.
const PLACE: usize = 276;

impl PackedLine {
    // The oldest message.
    #[tactic(auto, using(crate::specs::Lines::oldest_is, crate::specs::Lines::oldest_within))]
    fn oldest(&self) -> &[u8]
        requires { 0 < self.now.count }
        ensures value { result.now ≡ oldest (waiting_in self.now) }
        ensures bounds { (least_octets ≤ length result.now) × (length result.now ≤ most_octets) }
        ensures inside { length result.now ≤ self.now.used }
    {
        let at = read_two(&self.area, self.total - ENTRY);
        let n = read_two(&self.area, self.total - ENTRY + 2);
        &self.area[at..at + n]
    }
}

impl Line for PackedLine {
    ghost waiting = { waiting_in };

    ghost places = { places_in };

    ghost roomy = { Prim.grind arith };

    ghost fitting = { λ s.
        let inside : s.total ≤ length s.area.items = omega (arith, s.whole, s.area.ok.0) in
        pack_fits s.area.items s.total s.used s.count inside s.room s.ends s.placed s.held };

    #[tactic(auto, using(crate::specs::Lines::pack_length))]
    fn put(&mut self, message: &[u8]) -> Result<(), LineRefusal>
        ensures answer { result ≡ put_answer (places_in self.old) (length message.now) }
        ensures messages { waiting_in self.new ≡ put_after result (waiting_in self.old) message.now }
        ensures least { places_in self.old ≤ places_in self.new + 1 }
        ensures most { places_in self.new ≤ places_in self.old }
        ensures declined { is_ok result ≡ false → self.new ≡ self.old }
        ensures area { area_of self.new ≡ put_area result self.old message.now }
        ensures memory { vec_capacity self.new.area ≡ vec_capacity self.old.area }
    {
        may_put(self.places(), message.len())?;
        let entry = self.total - ENTRY * (self.count + 1);
        put(&mut self.area, self.used, message);
        write_entry(&mut self.area, entry, self.used, message.len());
        self.used += message.len();
        self.count += 1;
        Ok(())
    }

    #[tactic(auto, using(crate::specs::Lines::pack_length))]
    fn take(&mut self, buffer: &mut [u8]) -> Result<usize, LineRefusal>
        ensures answer { result ≡ take_answer (waiting_in self.old) (length buffer.old) }
        ensures bounds { IfOk result (λ n. (least_octets ≤ n) × (n ≤ most_octets) × (most_octets ≤ length buffer.old)) }
        ensures messages { waiting_in self.new ≡ take_after result (waiting_in self.old) }
        ensures octets { buffer.new ≡ take_buffer result (waiting_in self.old) buffer.old }
        ensures least { places_in self.old ≤ places_in self.new }
        ensures declined { is_ok result ≡ false → self.new ≡ self.old }
        ensures area { area_of self.new ≡ take_area result self.old }
        ensures memory { vec_capacity self.new.area ≡ vec_capacity self.old.area }
    {
        may_take(self.count, buffer.len())?;
        let message = self.oldest();
        let n = message.len();
        buffer[..n].copy_from_slice(message);
        self.area.copy_within(n..self.used, 0);
        lower_index(&mut self.area, self.total, self.count, n);
        self.used -= n;
        self.count -= 1;
        Ok(n)
    }

    fn places(&self) -> usize
        ensures value { result ≡ places_in self.now }
        ensures unused { result ≡ places_beside (min (vec_len self.now.area) 65536) (uses (waiting_in self.now)) }
    {
        (self.total - self.used - ENTRY * self.count) / PLACE
    }
}

// A line in an area is made and closed by its own name; code for any line in an area has the same by the trait.
impl PackedLine {
    // An empty line in the first 65,536 octets of the area given, at most; an area under 4,416 octets is given back.
    // Stays: each line tests its area by itself, in two lines of a crate of its own.
    #[tactic(auto, unfolding(crate::specs::Pack::messages, crate::specs::Pack::octets_of))]
    pub fn new(area: Vec<u8>) -> Result<PackedLine, (LineRefusal, Vec<u8>)>
        ensures { MatchResult result (λ s. (s.area ≡ area) × (waiting_in s ≡ []) × (places_in s ≡ places_beside (min (vec_len area) 65536) 0) × (s.used ≡ 0) × (4416 ≤ vec_len area)) (λ e. (e ≡ (LineRefusal.AreaTooSmall, area)) × (vec_len area < 4416)) }
    {
        if area.len() < AREA_LEAST {
            return Err((LineRefusal::AreaTooSmall, area));
        }
        Ok(PackedLine {
            total: area.len().min(AREA_MOST),
            used: 0,
            count: 0,
            area,
        })
    }

    // Ends the line and gives the area back, as the calls left it.
    pub fn close(self) -> Vec<u8>
        ensures { result ≡ self.area }
    {
        let PackedLine { area, .. } = self;
        area
    }
}

impl InArea for PackedLine {
    ghost memory = { λ s. s.area };

    ghost empty_places = { λ n. places_beside (min n 65536) 0 };

    ghost emptied = { Prim.grind arith };

    fn new(area: Vec<u8>) -> Result<PackedLine, (LineRefusal, Vec<u8>)>
        ensures { MatchResult result (λ s. (s.area ≡ area) × (waiting_in s ≡ []) × (places_in s ≡ places_beside (min (vec_len area) 65536) 0) × (s.used ≡ 0) × (4416 ≤ vec_len area)) (λ e. (e ≡ (LineRefusal.AreaTooSmall, area)) × (vec_len area < 4416)) }
    {
        PackedLine::new(area)
    }

    fn close(self) -> Vec<u8>
        ensures { result ≡ self.area }
    {
        PackedLine::close(self)
    }
}
