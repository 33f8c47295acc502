ghost use Rattle.std.specs.Prelude.{◌≡◌, ◌+◌, ◌≤◌, not, ◌||◌, is_ok, IfOk, nat_lt};
ghost use Rattle.slot_parts.specs.Deciding.{load_limit, first_load, load_follows, grown_load, decided, Within};

use crate::load::Load;
use crate::piece_size::PieceSize;
use crate::refusals::PieceRefusal;

// The most octets that a unit has: 16 pieces of 247. A slot's stretch of the store is as long.
pub const UNIT_MOST: usize = 3952;

// The most pieces that may remain after one.
pub const REMAINING_MOST: u8 = 15;

// The most octets of data in a piece.
pub const DATA_MOST: usize = 255;

// A slot that is open under a piece's mark.
#[derive(Clone, Copy)]
pub struct OpenSlot {
    pub slot: usize,
    pub load: Load,
}

// What a piece does: it is a unit alone; it opens a slot; it restarts, breaks, is held in, or finishes the slot of its mark; or it is stray.
#[derive(Clone, Copy)]
pub enum Step {
    Alone,
    Open { load: Load },
    Restart { slot: usize, load: Load },
    Stray,
    Break { slot: usize },
    Hold { slot: usize, load: Load },
    Finish { slot: usize, load: Load },
}

impl PieceSize {
    // The size of a piece, or why it is declined: too many remain, or its data is too long.
    pub fn new(remaining: u8, len: usize) -> Result<PieceSize, PieceRefusal>
        ensures some { is_ok result ≡ not (nat_lt 15 remaining || nat_lt 255 len) }
        ensures value { IfOk result (λ s. (s.remaining ≡ remaining) × (s.len ≡ len)) }
    {
        if remaining > REMAINING_MOST || len > DATA_MOST {
            return Err(PieceRefusal::OutOfRange);
        }
        Ok(PieceSize { remaining, len })
    }

    // The limit of a unit whose first piece is of this size.
    fn limit(self) -> u16
        ensures { result ≡ load_limit self.remaining self.len }
    {
        let whole = (self.remaining as usize + 1) * self.len;
        whole.min(UNIT_MOST) as u16
    }

    // What a slot keeps after a first piece.
    fn first_load(self) -> Load
        ensures { result ≡ first_load self.remaining self.len }
    {
        Load {
            remaining: self.remaining,
            limit: self.limit(),
            len: self.len as u16,
        }
    }

    // Whether a later piece follows on what its slot has: one less remains, and the sum is within the limit.
    fn follows_on(self, load: Load) -> bool
        ensures { result ≡ load_follows load self.remaining self.len }
    {
        self.remaining as usize + 1 == load.remaining as usize
            && load.len as usize + self.len <= load.limit as usize
    }

    // What a slot keeps after a piece that follows on. For `decide`.
    fn grown(self, load: Load) -> Load
        requires { (load.len + self.len ≤ load.limit) × (load.limit ≤ 3952) }
        ensures { result ≡ grown_load load self.remaining self.len }
    {
        Load {
            remaining: self.remaining,
            limit: load.limit,
            len: (load.len as usize + self.len) as u16,
        }
    }
}

// The state of the slot and the arriving piece decide together. For slots, which keep their loads within bounds.
// Stays: one match on slot state and piece together is a form that was asked for.
pub fn decide(found: Option<OpenSlot>, first: bool, size: PieceSize) -> Step
    requires { Within found }
    ensures { result ≡ decided found first size.remaining size.len }
{
    match (found, first, size.remaining) {
        (_, true, 0) => Step::Alone,
        (None, true, _) => Step::Open {
            load: size.first_load(),
        },
        (Some(OpenSlot { slot, .. }), true, _) => Step::Restart {
            slot,
            load: size.first_load(),
        },
        (None, false, _) => Step::Stray,
        (Some(OpenSlot { slot, load }), false, _) if !size.follows_on(load) => Step::Break { slot },
        (Some(OpenSlot { slot, load }), false, 0) => Step::Finish {
            slot,
            load: size.grown(load),
        },
        (Some(OpenSlot { slot, load }), false, _) => Step::Hold {
            slot,
            load: size.grown(load),
        },
    }
}
