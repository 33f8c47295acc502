ghost use Rattle.std.specs.Prelude.{◌≡◌};
ghost use Rattle.address.specs.Address.{address_ok, address_empty, on_subsystem_of, title_place, least_title, title_length_ok, code_of, subsystem_of, has_title, title_in, title_found};

use crate::titles;
use crate::titles::Title;

pub(crate) const LEAST: usize = 2;

const MOST: usize = 32;

const MOST_TITLE: usize = 28;

// The octets of a called or a calling address: an indicator octet, then a point code, a
// subsystem and a global title where the indicator tells them. The octets may be any;
// `is_good` says whether they are an address.
#[derive(Clone, Copy)]
pub struct Address<'a> {
    pub(crate) octets: &'a [u8],
}

// Where the title begins, behind indicator, code and subsystem.
pub(crate) fn title_place(indicator: u8) -> usize
    ensures { result ≡ title_place indicator }
{
    1 + 2 * (indicator % 2) as usize + (indicator / 2 % 2) as usize
}

// The fewest octets of a title of a kind other than 0.
fn least_title(kind: u8) -> usize
    ensures { result ≡ least_title kind }
{
    match kind {
        2 => 2,
        4 => 4,
        _ => 1,
    }
}

// Whether a title of a kind may have so many octets.
fn title_length_ok(kind: u8, length: usize) -> bool
    ensures { result ≡ title_length_ok kind length }
{
    match kind {
        0 => length == 0,
        _ => (least_title(kind)..=MOST_TITLE).contains(&length),
    }
}

impl<'a> Address<'a> {
    pub fn new(octets: &'a [u8]) -> Address<'a>
        ensures { result.octets.now ≡ octets.now }
    {
        Address { octets }
    }

    pub fn octets(self) -> &'a [u8]
        ensures { result.now ≡ self.entry.octets.now }
    {
        self.octets
    }

    // Whether the octets are an address: what the indicator tells, and nothing else.
    #[tactic(auto, unfolding(crate::specs::Address::address_ok))]
    pub fn is_good(self) -> bool
        ensures { result ≡ address_ok self.entry.octets.now }
    {
        let [indicator, ..] = self.octets else {
            return false;
        };
        let n = self.octets.len();
        let place = title_place(*indicator);
        (LEAST..=MOST).contains(&n) && place <= n && title_length_ok(*indicator / 4 % 16, n - place)
    }

    // The empty address: a lone octet with bits 1 to 7 zero.
    pub fn is_empty(self) -> bool
        ensures { result ≡ address_empty self.entry.octets.now }
    {
        matches!(self.octets, [indicator] if *indicator % 128 == 0)
    }

    // Whether routing is on the subsystem, and not on the title.
    pub fn on_subsystem(self) -> bool
        ensures { result ≡ on_subsystem_of self.entry.octets.now }
    {
        matches!(self.octets, [indicator, ..] if *indicator / 64 % 2 == 1)
    }

    // The point code, where the address has one.
    pub fn code(self) -> Option<u16>
        ensures { result ≡ code_of self.entry.octets.now }
    {
        match self.octets {
            [indicator, low, high, ..] if *indicator % 2 == 1 => Some(
                u16::from_le_bytes([*low, *high]) % 16_384,
            ),
            _ => None,
        }
    }

    // The subsystem number, where the address has one.
    pub fn subsystem(self) -> Option<u8>
        ensures { result ≡ subsystem_of self.entry.octets.now }
    {
        match self.octets {
            [indicator, _, _, subsystem, ..] if *indicator % 4 == 3 => Some(*subsystem),
            [indicator, subsystem, ..] if *indicator % 4 == 2 => Some(*subsystem),
            _ => None,
        }
    }

    // Whether the indicator tells a global title.
    pub fn has_title(self) -> bool
        ensures { result ≡ has_title self.entry.octets.now }
    {
        matches!(self.octets, [indicator, ..] if *indicator / 4 % 16 != 0)
    }

    // The global title, where the address has one.
    #[tactic(auto, unfolding(crate::specs::Address::title_in))]
    pub fn title(self) -> Option<Title<'a>>
        ensures { title_found result ≡ title_in self.entry.octets.now }
    {
        let [indicator, ..] = self.octets else {
            return None;
        };
        match *indicator / 4 % 16 {
            0 => None,
            kind => titles::title_of(kind, self.octets.get(title_place(*indicator)..)?),
        }
    }
}
