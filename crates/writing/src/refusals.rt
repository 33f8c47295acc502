use thiserror::Error;

// Why a message is not written.
#[derive(Clone, Copy, PartialEq, Eq, Debug, Error)]
pub enum WriteRefusal {
    #[error("the message would be longer than 272 octets, or an address or the data than 255")]
    TooLong,
    #[error("a pointer would be above 255")]
    PointerTooFar,
    #[error("the buffer has fewer octets than the message")]
    ShortBuffer,
}
