use message::Parts;
use slots::Receipt;
use translation::Cause;

// What became of a message that was received. The subsystem is one here, and the parts are the message's own, as it came.
pub enum Received<'m> {
    HandedUp {
        subsystem: u8,
        parts: Parts<'m>,
    },
    // Data that was sent from here and returned.
    Notice {
        subsystem: u8,
        parts: Parts<'m>,
    },
    // A piece, with its slot.
    Opened {
        slot: usize,
    },
    Restarted {
        slot: usize,
    },
    Held {
        slot: usize,
    },
    Broken {
        slot: usize,
    },
    Stray,
    // A unit that is whole, with the receipt by which it is copied and released.
    FromPieces {
        subsystem: u8,
        receipt: Receipt,
    },
    PassedOn {
        code: u16,
    },
    // It could not be brought to where its called address says: it was returned to a code, is told to a subsystem here as data
    // that returns, or was discarded.
    Returned {
        cause: Cause,
        code: u16,
    },
    ToldHere {
        cause: Cause,
        subsystem: u8,
        parts: Parts<'m>,
    },
    Discarded {
        cause: Cause,
    },
}

// What became of a unit that was sent: it is handed up to a subsystem here, or went out to a code in one message or in pieces,
// which share a reference.
pub enum Sent<'d> {
    Here {
        subsystem: u8,
        data: &'d [u8],
    },
    Message {
        code: u16,
        sls: u8,
    },
    Pieces {
        code: u16,
        count: usize,
        reference: u32,
        sls: u8,
    },
}
