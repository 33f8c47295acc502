// The laws of a use of slots. The slots over lists, and what the laws say, stand in specs/.
#![tactic(auto)]

ghost use Rattle.std.specs.Prelude.{◌≤◌};
ghost use Rattle.slot_laws.specs.Figures.{AfterNineTicks, AfterTenTicks, FourMore, FiveMore};
ghost use Rattle.slot_laws.specs.Uses.{Use, OneSender, Kept, ArrivesEntire, Account, NoOpeningOutlives, DeclinedAltersNothing, StrangeReceipts, OneOpenEach};

// Names the laws, so that each of them is checked. Any number of slots, any code, and any ticks (1 or more for the law of time).
#[tactic(auto, using(crate::proofs::Conserve::account, crate::proofs::Time::no_opening_outlives, crate::proofs::Keep::one_sender, crate::proofs::Keep::kept, crate::proofs::Arrive::arrives_entire, crate::proofs::Single::one_open_each))]
pub fn laws_hold()
    ensures sender { (u : Use) → OneSender u }
    ensures kept { (u : Use) → Kept u }
    ensures entire { (u : Use) → ArrivesEntire u }
    ensures account { (u : Use) → Account u }
    ensures timely { (u : Use) → 1 ≤ u.ticks → NoOpeningOutlives u }
    ensures idle { (u : Use) → DeclinedAltersNothing u }
    ensures strange { (u : Use) → StrangeReceipts u }
    ensures single { (u : Use) → OneOpenEach u }
{}

// Figures: with T 10 the last piece after nine ticks is handed up, after ten it is stray; after a first piece of 4 octets with
// remaining 1, 4 more are handed up and 5 more are broken.
pub fn figures_hold()
    ensures nine { AfterNineTicks }
    ensures ten { AfterTenTicks }
    ensures four { FourMore }
    ensures five { FiveMore }
{}
