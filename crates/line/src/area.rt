// Lines in an area of memory that is theirs until they are closed. Code above that makes lines is written once for all of them.
ghost use Rattle.std.specs.Prelude.{◌≡◌, ℕ, ◌<◌, ◌≤◌, [], vec_len, MatchResult, Vec};
ghost use Rattle.std.specs.Global.{Global};
ghost use Rattle.line.specs.Meaning.{least_area};

use crate::queue::Line;
use crate::refusal::LineRefusal;

// The fewest octets of an area that a line is made in.
pub const AREA_LEAST: usize = 4416;

pub trait InArea: Line {
    // The area that the line holds.
    ghost memory: { Self → Vec ℕ Global };

    // How many places an empty line has in an area of so many octets.
    ghost empty_places: { ℕ → ℕ };

    // An empty line in the area given; an area under 4,416 octets is given back.
    fn new(area: Vec<u8>) -> Result<Self, (LineRefusal, Vec<u8>)>
        ensures { MatchResult result (λ s. (memory s ≡ area) × (Self.waiting s ≡ []) × (least_area ≤ vec_len area)) (λ e. (e ≡ (LineRefusal.AreaTooSmall, area)) × (vec_len area < least_area)) };

    // Ends the line and gives the area back, as the calls left it.
    fn close(self) -> Vec<u8>
        ensures { result ≡ memory self };

    // The area tells the places of a line on which nothing waits.
    ghost emptied: { (s : Self) → Self.waiting s ≡ [] → Self.places s ≡ empty_places (vec_len (memory s)) };
}
