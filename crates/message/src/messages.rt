ghost use Rattle.std.specs.Prelude.{◌≡◌};
ghost use Rattle.message.specs.Forms.{class_of, asks_return, cause_of, hop_of};

use crate::parts_of_options::Options;
use address::{Address, Label};

// The type of a message, with the octets that stand before its pointers. UDT and XUDT have
// the class octet (protocol class in bits 1 to 4, bit 8 asks for return); UDTS and XUDTS,
// which carry returned data, have the return cause in its place; XUDT and XUDTS have a hop
// counter.
// Stays: class and cause are octets as they came, since bits without a use are kept and any cause is carried.
#[derive(Clone, Copy, PartialEq, Eq, Debug)]
pub enum Form {
    Udt { class: u8 },
    Udts { cause: u8 },
    Xudt { class: u8, hop: u8 },
    Xudts { cause: u8, hop: u8 },
}

// What a message says. Addresses, data and options are parts of the octets that were read.
#[derive(Clone, Copy)]
pub struct Parts<'a> {
    pub label: Label,
    pub form: Form,
    pub called: Address<'a>,
    pub calling: Address<'a>,
    pub data: &'a [u8],
    pub options: Options<'a>,
}

// A message that was read. Only `read` makes one, and it is moved: it can be neither copied
// nor read into being twice, so that what is routed was read, and is routed once.
#[derive(Drop)]
pub struct Message<'a> {
    pub(crate) parts: Parts<'a>,
}

impl Form {
    // The protocol class, 0 or 1 in a message that was read; none where it has a cause.
    pub fn class(self) -> Option<u8>
        ensures { result ≡ class_of self }
    {
        match self {
            Form::Udt { class } | Form::Xudt { class, .. } => Some(class % 16),
            Form::Udts { .. } | Form::Xudts { .. } => None,
        }
    }

    // Whether the message asks to be returned where it cannot be delivered.
    pub fn asks_return(self) -> bool
        ensures { result ≡ asks_return self }
    {
        matches!(self, Form::Udt { class } | Form::Xudt { class, .. } if class >= 128)
    }

    // The cause for which data was returned.
    pub fn cause(self) -> Option<u8>
        ensures { result ≡ cause_of self }
    {
        match self {
            Form::Udts { cause } | Form::Xudts { cause, .. } => Some(cause),
            Form::Udt { .. } | Form::Xudt { .. } => None,
        }
    }

    // The hop counter: how many translations the message may still pass.
    pub fn hop(self) -> Option<u8>
        ensures { result ≡ hop_of self }
    {
        match self {
            Form::Xudt { hop, .. } | Form::Xudts { hop, .. } => Some(hop),
            Form::Udt { .. } | Form::Udts { .. } => None,
        }
    }
}

impl<'a> Message<'a> {
    pub fn parts(&self) -> Parts<'a>
        ensures { result ≡ self.now.parts }
    {
        self.parts
    }
}
