ghost use Rattle.std.specs.Prelude.{◌≡◌};
ghost use Rattle.message.specs.Faults.{fault_number};

use thiserror::Error;

// What is wrong with octets that are not a message.
#[derive(Clone, Copy, PartialEq, Eq, Debug, Error)]
pub enum Fault {
    #[error("the length is not 5 to 272 octets")]
    Length = 11,
    #[error("the message type is none of UDT, UDTS, XUDT and XUDTS")]
    MessageType = 12,
    #[error("the message ends before its pointers do")]
    PointersCutOff = 13,
    #[error("the protocol class is not 0 or 1, or the hop counter not 1 to 15")]
    ClassOrHop = 14,
    #[error("a pointer names a place past the message or before the end of the part before it")]
    Pointer = 15,
    #[error("the address is not as its indicator tells")]
    Address = 16,
    #[error("the data is empty or cut off")]
    Data = 17,
    #[error("an option is cut off or wrong, or the end of the options is lacking")]
    Options = 18,
}

// The first fault of octets that are not a message, with its offset from the type octet.
#[derive(Clone, Copy, PartialEq, Eq, Debug, Error)]
#[error("{fault} at {offset}")]
pub struct ReadFault {
    pub fault: Fault,
    pub offset: usize,
}

impl Fault {
    pub fn number(self) -> u8
        ensures { result ≡ fault_number self }
    {
        self as u8
    }

    pub(crate) fn at(self, offset: usize) -> ReadFault
        ensures { result ≡ record { fault = self; offset = offset } }
    {
        ReadFault {
            fault: self,
            offset,
        }
    }
}
