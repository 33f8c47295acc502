ghost use Rattle.std.specs.Prelude.{◌≡◌, ◌<◌, ◌≤◌, not, ◌||◌, [], ◌∷◌, ◌++◌, length, is_some, IfSome, nat_lt};
ghost use Rattle.timed_table.specs.Marks.{same_numbers, SameMeansEqual};
ghost use Rattle.timed_table.specs.StationMarks.{reference_numbers, station_numbers, MarksTell};

use crate::mark::Mark;
use crate::reference::Reference;
use crate::station_mark::{ADDRESS_LEAST, StationMark};
use octets::ShortOctets;

// Whether two references are the same, and the octets before them.
#[tactic(auto, using(crate::proofs::Ends::same_ends))]
fn same_ends(a: &[u8], b: &[u8], p: u32, q: u32) -> bool
    ensures { result ≡ same_numbers (a.now ++ (p ∷ [])) (b.now ++ (q ∷ [])) }
{
    p == q && a == b
}

impl Mark for Reference {
    ghost numbers = { reference_numbers };

    fn same(&self, other: &Reference) -> bool {
        self == other
    }
}

impl StationMark {
    // The mark of a unit's pieces; none where the calling address has not 2 to 32 octets.
    // Stays: a test with one way to fail; a TryFrom would add an error that says no more.
    pub fn new(opc: u16, subsystem: u8, calling: &[u8], reference: u32) -> Option<StationMark>
        ensures some { is_some result ≡ not (nat_lt (length calling.now) 2 || nat_lt 32 (length calling.now)) }
        ensures value { IfSome result (λ m. station_numbers m ≡ opc ∷ subsystem ∷ (calling.now ++ (reference ∷ []))) }
    {
        if calling.len() < ADDRESS_LEAST {
            return None;
        }
        let calling = ShortOctets::new(calling)?;
        Some(StationMark {
            opc,
            subsystem,
            calling,
            reference,
        })
    }
}

impl Mark for StationMark {
    ghost numbers = { station_numbers };

    fn same(&self, other: &StationMark) -> bool {
        self.opc == other.opc
            && self.subsystem == other.subsystem
            && same_ends(
                self.calling.octets(),
                other.calling.octets(),
                self.reference,
                other.reference,
            )
    }
}

// What the two kinds of mark mean: lists compare as equal exactly if they are, and each kind's list tells every part of the mark.
pub fn marks_mean()
    ensures equal { SameMeansEqual }
    ensures tell { MarksTell }
{}
