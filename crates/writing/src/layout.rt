use address::Label;
use message::Form;

// A message as it is written: its parts as octets, and no options in UDT and UDTS.
// Stays: beside a message's parts, since options are left out where the form has none and lengths are those of octets.
#[derive(Clone, Copy)]
pub struct Slices<'a> {
    pub(crate) label: Label,
    pub(crate) form: Form,
    pub(crate) called: &'a [u8],
    pub(crate) calling: &'a [u8],
    pub(crate) data: &'a [u8],
    pub(crate) options: &'a [u8],
}

// How many octets the parts of a message have, length octets not counted.
#[derive(Clone, Copy)]
pub struct Lengths {
    pub(crate) called: usize,
    pub(crate) calling: usize,
    pub(crate) data: usize,
    pub(crate) options: usize,
}
