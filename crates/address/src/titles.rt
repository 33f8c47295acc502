ghost use Rattle.std.specs.Prelude.{◌≡◌, ◌-◌, ◌*◌, ◌≤◌, length, if◌then◌else◌};
ghost use Rattle.address.specs.Address.{title_found};
ghost use Rattle.address.specs.Title.{title_seen, title_of, title_digits, digits_of, digits_held, digits_seen, DigitFigure};

use crate::digits::Digits;

const MOST_DIGIT_OCTETS: usize = 28;

const ODD: u8 = 1;

const EVEN: u8 = 2;

// A global title: what stands in an address in the place of a point code. Titles of kind 2
// and 4 have digits, whose octets are borrowed from the address; others are only carried.
// Stays: a kind is its number, 1 to 15, since titles of kinds without a meaning here are carried as they came.
#[derive(Clone, Copy)]
pub enum Title<'a> {
    Kind2 {
        translation_type: u8,
        digits: &'a [u8],
    },
    Kind4 {
        translation_type: u8,
        numbering_plan: u8,
        encoding: u8,
        nature: u8,
        digits: &'a [u8],
    },
    Other {
        kind: u8,
        octets: &'a [u8],
    },
}

// The digits of octets, low half first; of an odd number the last half is not used.
#[tactic(auto, using(crate::proofs::Turns::ended))]
fn read_digits(octets: &[u8], odd: bool) -> Digits
    requires { length octets.now ≤ 28 }
    ensures { digits_held result ≡ digits_of odd octets.now }
{
    let mut values = [0u8; 56];
    // Stays: chunks_exact_mut would name each pair, but no proof knows what is written through it.
    for (i, x) in octets.iter().enumerate() {
        values[2 * i] = *x % 16;
        values[2 * i + 1] = *x / 16;
    }
    Digits::of_front(values, (2 * octets.len()).saturating_sub(odd as usize))
}

// A title of a kind other than 0 by its octets; none where they cannot hold a digit.
pub fn title_of<'a>(kind: u8, octets: &'a [u8]) -> Option<Title<'a>>
    ensures { title_found result ≡ title_of kind octets.now }
{
    match (kind, octets) {
        (2, [translation_type, digits @ ..]) if !digits.is_empty() => Some(Title::Kind2 {
            translation_type: *translation_type,
            digits,
        }),
        (4, [translation_type, plan, nature, digits @ ..]) if !digits.is_empty() => Some(
            Title::Kind4 {
                translation_type: *translation_type,
                numbering_plan: *plan / 16,
                encoding: *plan % 16,
                nature: *nature % 128,
                digits,
            },
        ),
        (2 | 4, _) | (_, []) => None,
        _ => Some(Title::Other { kind, octets }),
    }
}

impl<'a> Title<'a> {
    // The digits, where the title has them and tells in a known way how many there are.
    pub fn digits(&self) -> Option<Digits>
        ensures value { digits_seen result ≡ title_digits (title_seen self.now) }
        ensures figure { DigitFigure }
    {
        match *self {
            Title::Kind2 { digits, .. } if digits.len() <= MOST_DIGIT_OCTETS => {
                Some(read_digits(digits, false))
            }
            Title::Kind4 {
                encoding: encoding @ (ODD | EVEN),
                digits,
                ..
            } if digits.len() <= MOST_DIGIT_OCTETS => Some(read_digits(digits, encoding == ODD)),
            _ => None,
        }
    }
}
