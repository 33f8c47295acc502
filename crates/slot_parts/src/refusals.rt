ghost use Rattle.std.specs.Prelude.{◌≡◌};
ghost use Rattle.slot_parts.specs.Numbers.{settings_number, piece_number, copy_number, release_number};

use thiserror::Error;

// Each refusal stands for its number.

// Why settings are refused.
#[derive(Clone, Copy, PartialEq, Eq, Debug, Error)]
pub enum SettingsRefusal {
    #[error("the code is above 16383")]
    CodeTooLarge = 1,
    #[error("the ticks are not 10 to 20")]
    TicksOutOfRange = 2,
}

// Why a piece is declined.
#[derive(Clone, Copy, PartialEq, Eq, Debug, Error)]
pub enum PieceRefusal {
    #[error("remaining is above 15, or the data has not 1 to 255 octets")]
    OutOfRange = 43,
}

// Why a copy is declined.
#[derive(Clone, Copy, PartialEq, Eq, Debug, Error)]
pub enum CopyRefusal {
    #[error("the receipt is of another station, or its slot is not whole")]
    NotWhole = 51, // the same as a release's
    #[error("the buffer is shorter than the unit")]
    BufferShort = 52,
}

// Why a release is declined.
#[derive(Clone, Copy, PartialEq, Eq, Debug, Error)]
pub enum ReleaseRefusal {
    #[error("the receipt is of another station, or its slot is not whole")]
    NotWhole = 51, // the same as a copy's
}

impl SettingsRefusal {
    pub fn number(&self) -> u8
        ensures { result ≡ settings_number self.now }
    {
        *self as u8 // 1 or 2
    }
}

impl PieceRefusal {
    pub fn number(&self) -> u8
        ensures { result ≡ piece_number self.now }
    {
        *self as u8
    }
}

impl CopyRefusal {
    pub fn number(&self) -> u8
        ensures { result ≡ copy_number self.now }
    {
        *self as u8 // 51 or 52
    }
}

impl ReleaseRefusal {
    pub fn number(&self) -> u8
        ensures { result ≡ release_number self.now }
    {
        *self as u8
    }
}
