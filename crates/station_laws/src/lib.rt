// The laws of a use of a station. The station over lists, and what the laws say, stand in specs/.
#![tactic(auto)]

ghost use Rattle.std.specs.Prelude.{◌≤◌};
ghost use Rattle.station_laws.specs.Figures.{HopOnTitle, HopOnSubsystem};
ghost use Rattle.station_laws.specs.Uses.{Use};
ghost use Rattle.station_laws.specs.Laws.{Account, NoOpeningOutlives, OneSender, Kept, ArrivesEntire, SentInPieces, NeverShared, DeclinedAltersNothing, FromStationToStation};

// Names the laws on what is received, so that each of them is checked: any number of slots and entries, any code, and any ticks (1 or more for the law of time).
pub fn receiving_laws()
    ensures sender { (u : Use) → OneSender u }
    ensures kept { (u : Use) → Kept u }
    ensures entire { (u : Use) → ArrivesEntire u }
    ensures account { (u : Use) → Account u }
    ensures timely { (u : Use) → 1 ≤ u.ticks → NoOpeningOutlives u }
    ensures idle { (u : Use) → DeclinedAltersNothing u }
{}

// Names the laws on what is sent.
pub fn sending_laws()
    ensures cut { (u : Use) → SentInPieces u }
    ensures unshared { (u : Use) → NeverShared u }
    ensures between { (a b : Use) → FromStationToStation a b }
{}

// Figures: a message with hop 1 on title has cause 12, and on subsystem it is handed up.
pub fn figures_hold()
    ensures title { HopOnTitle }
    ensures subsystem { HopOnSubsystem }
{}
