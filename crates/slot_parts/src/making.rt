ghost use Rattle.std.specs.Prelude.{◌≡◌};
ghost use Rattle.slot_parts.specs.Settings.{Made};

use crate::refusals::SettingsRefusal;
use crate::settings::Settings;

// Point codes have 14 bits.
pub const CODE_MOST: u16 = 16383;

// The range of T.
pub const TICKS_LEAST: u8 = 10;

pub const TICKS_MOST: u8 = 20;

impl Settings {
    // Settings of this code and T, or why not: the code first.
    pub fn new(code: u16, ticks: u8) -> Result<Settings, SettingsRefusal>
        ensures { Made code ticks result }
    {
        if code > CODE_MOST {
            return Err(SettingsRefusal::CodeTooLarge);
        }
        if ticks < TICKS_LEAST || ticks > TICKS_MOST {
            return Err(SettingsRefusal::TicksOutOfRange);
        }
        Ok(Settings { code, ticks })
    }

    pub fn code(&self) -> u16
        ensures { result ≡ self.now.code }
    {
        self.code
    }

    pub fn ticks(&self) -> u8
        ensures { result ≡ self.now.ticks }
    {
        self.ticks
    }
}
