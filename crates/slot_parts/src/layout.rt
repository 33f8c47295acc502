ghost use Rattle.std.specs.Prelude.{◌≡◌, ◌+◌, ◌*◌, ◌/◌, ◌<◌, ◌≤◌, min};

use crate::deciding::UNIT_MOST;

// There are at most so many slots.
pub const SLOTS_MOST: usize = 16;

// The most slots that a store of so many octets gives: one for each whole stretch, and 16 at most.
pub fn most_slots(octets: usize) -> usize
    ensures { result ≡ min (octets / 3952) 16 }
{
    (octets / UNIT_MOST).min(SLOTS_MOST)
}

// Where the octet `at` of a slot's stretch lies in the store. For slots, which know that there is such a slot.
pub fn offset(slot: usize, at: usize) -> usize
    requires { (slot < 16) × (at ≤ 3952) }
    ensures { result ≡ slot * 3952 + at }
{
    slot * UNIT_MOST + at
}
