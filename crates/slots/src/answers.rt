ghost use Rattle.std.specs.Prelude.{◌≡◌};
ghost use Rattle.slots.specs.Answers.{cause_of};

use crate::receipt::Receipt;

// What became of a piece. Of a unit that is handed up from pieces it has a receipt, or what is told in the place of one.
#[derive(Drop)]
pub enum PieceAnswer<'d, R = Receipt> {
    // It is a unit alone, and is handed up as it is.
    Alone { unit: &'d [u8] },
    // There are no slots.
    NoSlots,
    // No slot is free.
    NoneFree,
    Opened { slot: usize },
    Restarted { slot: usize },
    Stray,
    Broken { slot: usize },
    Held { slot: usize },
    // Its unit is whole, and is handed up from pieces.
    HandedUp { receipt: R },
}

impl<'d, R> PieceAnswer<'d, R> {
    // The return cause of a piece that no slot takes in: 10 where there are none, 6 where none is free.
    // Stays: a cause by its number, since its names are crate translation's, on which slots do not stand.
    pub fn cause(&self) -> Option<u8>
        ensures { result ≡ cause_of self.now }
    {
        match self {
            PieceAnswer::NoSlots => Some(10),
            PieceAnswer::NoneFree => Some(6),
            _ => None,
        }
    }
}
