ghost use Rattle.std.specs.Prelude.{◌≡◌, ◌+◌, ◌<◌, ◌≤◌, vec_len, vec_capacity};
ghost use Rattle.slots.specs.Answers.{answered};
ghost use Rattle.kept_receipts.specs.Replies.{told_as, added, code_in, with_receipt};

use slots::{PieceAnswer, Receipt};

// What is told of a unit that was handed up from pieces, in the place of its receipt, which is kept.
#[derive(Clone, Copy, PartialEq, Eq, Debug)]
pub struct Whole {
    pub slot: usize,
    pub length: usize,
}

// What became of a piece: as slots answer it, but for the receipt.
pub type KeptAnswer<'d> = PieceAnswer<'d, Whole>;

// The answer of slots, told; a receipt goes behind those that are kept.
// Stays: of a closure that borrows the receipts and is not called, as in a `map`, no proof tells that it left them as they were.
pub(crate) fn told<'d>(answer: PieceAnswer<'d>, receipts: &mut Vec<Receipt>) -> KeptAnswer<'d>
    requires { vec_len receipts.old + 1 ≤ vec_capacity receipts.old }
    ensures told { told_as (code_in answer.entry) result ≡ answered answer.entry }
    ensures kept { receipts.new.items ≡ added receipts.old.items answer.entry }
    ensures newest { receipts.new.items ≡ with_receipt (code_in answer.entry) receipts.old.items result }
{
    match answer {
        PieceAnswer::Alone { unit } => PieceAnswer::Alone { unit },
        PieceAnswer::NoSlots => PieceAnswer::NoSlots,
        PieceAnswer::NoneFree => PieceAnswer::NoneFree,
        PieceAnswer::Opened { slot } => PieceAnswer::Opened { slot },
        PieceAnswer::Restarted { slot } => PieceAnswer::Restarted { slot },
        PieceAnswer::Stray => PieceAnswer::Stray,
        PieceAnswer::Broken { slot } => PieceAnswer::Broken { slot },
        PieceAnswer::Held { slot } => PieceAnswer::Held { slot },
        PieceAnswer::HandedUp { receipt } => {
            let slot = receipt.slot();
            let length = receipt.length();
            receipts.push_reserved(receipt);
            PieceAnswer::HandedUp {
                receipt: Whole { slot, length },
            }
        }
    }
}
