ghost use Rattle.std.specs.Prelude.{◌≡◌, ◌+◌, ◌%◌, ◌<◌, is_some, IfSome, nat_lt};

const REFERENCES: u32 = 16_777_216;

// The reference that the pieces of a unit share: 24 bits.
// Stays: 24 bits by its type, where a reference that is a mark may be any number.
#[derive(Clone, Copy, PartialEq, Eq, Debug)]
pub struct UnitReference {
    number: u32,
    ghost fits: { number < 16777216 },
}

impl UnitReference {
    // The reference of a number; none above 24 bits.
    // Stays: a test with one way to fail; a TryFrom would add an error that says no more.
    pub fn new(number: u32) -> Option<UnitReference>
        ensures some { is_some result ≡ nat_lt number 16777216 }
        ensures value { IfSome result (λ r. r.number ≡ number) }
    {
        if number < REFERENCES {
            Some(UnitReference { number })
        } else {
            None
        }
    }

    // What stands before the first.
    pub fn zero() -> UnitReference
        ensures { result.number ≡ 0 }
    {
        UnitReference { number: 0 }
    }

    pub fn number(self) -> u32
        ensures { result ≡ self.number }
    {
        self.number
    }

    // The one after it; after the last comes 0 again.
    pub fn next(self) -> UnitReference
        ensures { result.number ≡ (self.number + 1) % 16777216 }
    {
        UnitReference {
            number: (self.number + 1) % REFERENCES,
        }
    }
}
