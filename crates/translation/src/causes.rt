ghost use Rattle.std.specs.Prelude.{◌≡◌};
ghost use Rattle.translation.specs.Causes.{cause_number};

use thiserror::Error;

// Why a message cannot be brought to where its called address says: the return cause, with the
// number that stands for it in a message that returns.
#[derive(Clone, Copy, PartialEq, Eq, Debug, Error)]
pub enum Cause {
    #[error("no translation for an address of such nature")]
    NoTranslationOfNature = 0,
    #[error("no translation for this specific address")]
    NoTranslation = 1,
    #[error("subsystem failure")]
    SubsystemFailure = 3,
    #[error("unequipped user")]
    UnequippedUser = 4,
    #[error("message transfer failure")]
    TransferFailure = 5,
    #[error("network congestion")]
    NetworkCongestion = 6,
    #[error("unqualified")]
    Unqualified = 7,
    #[error("destination cannot perform reassembly")]
    NoReassembly = 10,
    #[error("SCCP failure")]
    SccpFailure = 11,
    #[error("hop counter violation")]
    HopCounterViolation = 12,
}

impl Cause {
    // The number that stands for the cause in a message that returns.
    pub fn number(self) -> u8
        ensures { result ≡ cause_number self }
    {
        self as u8
    }
}
