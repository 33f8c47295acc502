ghost use Rattle.std.specs.Prelude.{◌≡◌};

use slot_parts::settings::Settings;

// A receipt is given for each unit that is handed up from pieces: it names the station by its code, the slot, and the unit's length.
// No Drop, no Copy, no Clone: it is spent by a release, and by nothing else.
pub struct Receipt {
    pub(crate) code: u16,
    pub(crate) slot: usize,
    pub(crate) len: u16,
}

impl Receipt {
    // The receipt of a unit in a slot.
    pub(crate) fn of(settings: Settings, slot: usize, len: u16) -> Receipt
        ensures code { result.code ≡ settings.code }
        ensures slot { result.slot ≡ slot }
        ensures len { result.len ≡ len }
    {
        Receipt {
            code: settings.code(),
            slot,
            len,
        }
    }

    pub fn slot(&self) -> usize
        ensures { result ≡ self.now.slot }
    {
        self.slot
    }

    pub fn length(&self) -> usize
        ensures { result ≡ self.now.len }
    {
        self.len as usize
    }
}
