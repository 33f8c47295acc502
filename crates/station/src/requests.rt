use address::Address;

// What is to be sent: to the called address, from the calling one, 1 to 3,952 octets of data, in protocol class 0 or 1, perhaps
// with the wish that it returns where it cannot be brought there. Units of class 1 with the same sequence number take the same
// link.
#[derive(Clone, Copy)]
pub struct UnitDataRequest<'d> {
    pub called: Address<'d>,
    pub calling: Address<'d>,
    pub data: &'d [u8],
    // Stays: a class of its own type would ask more of callers; a number that is no class is refused.
    pub class: u8,
    pub return_option: bool,
    pub sequence: u32,
}
