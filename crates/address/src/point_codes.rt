ghost use Rattle.std.specs.Prelude.{◌≡◌, ◌%◌};
ghost use Rattle.address.specs.Code.{code_number, code_made};

use crate::codes::PointCode;

const CODES: u16 = 16_384;

impl PointCode {
    // The point code of a number; none above 16,383.
    // Stays: a test with one way to fail, as NonZeroU16::new; a TryFrom would add an error that says no more.
    pub fn new(number: u16) -> Option<PointCode>
        ensures { code_made number result }
    {
        if number < CODES {
            Some(PointCode { value: number })
        } else {
            None
        }
    }

    // The point code in the low 14 bits of a number.
    pub fn of_bits(number: u16) -> PointCode
        ensures { code_number result ≡ number % 16384 }
    {
        PointCode {
            value: number % CODES,
        }
    }

    pub fn number(self) -> u16
        ensures { result ≡ code_number self }
    {
        self.value
    }
}
