ghost use Rattle.kept_receipts.specs.Receipts.{Kept};

use slots::{Receipt, Slots};

// Slots, and receipts of their code that are not spent yet, oldest first: each names a whole slot, and no two the same, so that each
// can be spent.
pub struct KeptReceipts<'a, K> {
    pub(crate) slots: Slots<'a, K>,
    pub(crate) receipts: Vec<Receipt>,
    ghost kept: { Kept slots receipts.items },
}
