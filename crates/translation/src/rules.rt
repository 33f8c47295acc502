use address::PointCode;

// Which titles a translator takes together: the kind of title, its translation type,
// numbering plan and nature of address. What a kind of title does not have is 0.
#[derive(Clone, Copy, PartialEq, Eq, Debug)]
pub struct Selector {
    // Stays: a number and no enum, since an entry of a lent table may hold any.
    pub kind: u8,
    pub translation_type: u8,
    // Stays: plan and nature are not narrower for the same reason; out of range they fit nothing.
    pub numbering_plan: u8,
    pub nature: u8,
}

// How a message is routed at the code that it is sent to: translated again by its title, or
// brought to a subsystem.
#[derive(Clone, Copy, PartialEq, Eq, Debug)]
pub enum Routing {
    OnTitle,
    OnSubsystem,
}

// A point code that a rule names, with a subsystem; without one the subsystem of the address
// is taken.
#[derive(Clone, Copy)]
pub struct Destination {
    pub code: PointCode,
    pub subsystem: Option<u8>,
}

// Where titles go: to the primary destination, or, where that fails, to the backup.
#[derive(Clone, Copy)]
pub struct Rule {
    pub routing: Routing,
    pub primary: Destination,
    pub backup: Option<Destination>,
}
