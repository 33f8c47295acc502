ghost use Rattle.std.specs.Prelude.{◌≡◌};
ghost use Rattle.station.specs.declared.refusals.ReceiveRefusal.TheVariants.{Unread as UnreadBy};
ghost use Rattle.station.specs.Numbers.{receive_number, send_number};

use message::ReadFault;
use thiserror::Error;
use translation::Cause;

// Why octets are not received: they do not read, or they are not for this station's code.
#[derive(Clone, Copy, PartialEq, Eq, Debug, Error)]
pub enum ReceiveRefusal {
    #[error("the octets are not a message")]
    Unread { fault: ReadFault },
    #[error("the message is for another code")]
    NotOurs,
}

// Why a unit is not sent.
#[derive(Clone, Copy, PartialEq, Eq, Debug, Error)]
pub enum SendRefusal {
    #[error("the called address is bad or empty")]
    CalledAddress,
    #[error("the calling address is bad or empty")]
    CallingAddress,
    #[error("the data has not 1 to 3952 octets")]
    DataLength,
    #[error("the protocol class is not 0 or 1")]
    ProtocolClass,
    #[error("the called address leads nowhere")]
    NoWay { cause: Cause },
    #[error("the unit would need more than 16 pieces")]
    TooManyPieces,
    #[error("no reference entry is free")]
    NoFreeReference,
    #[error("the line has too few places")]
    TooFewPlaces,
}

impl From<ReadFault> for ReceiveRefusal {
    ghost from_gives = { λ fault e. e ≡ UnreadBy fault };

    fn from(fault: ReadFault) -> ReceiveRefusal {
        ReceiveRefusal::Unread { fault }
    }
}

impl ReceiveRefusal {
    pub fn number(&self) -> u8
        ensures { result ≡ receive_number self.now }
    {
        // Stays: where a variant has a field, no variant has a number that a cast could read.
        match self {
            ReceiveRefusal::Unread { .. } => 41,
            ReceiveRefusal::NotOurs => 42,
        }
    }
}

impl SendRefusal {
    pub fn number(&self) -> u8
        ensures { result ≡ send_number self.now }
    {
        // Stays: where a variant has a field, no variant has a number that a cast could read.
        match self {
            SendRefusal::CalledAddress => 31,
            SendRefusal::CallingAddress => 32,
            SendRefusal::DataLength => 33,
            SendRefusal::ProtocolClass => 34,
            SendRefusal::NoWay { .. } => 35,
            SendRefusal::TooManyPieces => 36,
            SendRefusal::NoFreeReference => 37,
            SendRefusal::TooFewPlaces => 38,
        }
    }
}
