ghost use Rattle.std.specs.Prelude.{◌≡◌, Option};
ghost use Rattle.message.specs.Options.{part_seen, first_option, behind_option, segmentation_of, segmentation_found};

pub const SEGMENTATION: u8 = 0x10;

pub const SEGMENTATION_LENGTH: u8 = 4;

pub const END: u8 = 0x00;

// Which piece of a unit a message carries: whether it is the first, the protocol class that
// the user asked for, how many pieces come after it, and the reference that they share.
// Stays: the class is a number, and a narrower type would ask more of whoever makes one.
#[derive(Clone, Copy, PartialEq, Eq, Debug)]
pub struct Segmentation {
    pub first: bool,
    pub class: u8,
    pub remaining: u8,
    pub reference: u32,
}

// One option of a message. The contents are a part of the message's own octets.
// Stays: an enum of these three cases is a form that was asked for.
#[derive(Clone, Copy)]
pub enum OptionPart<'a> {
    Segmented(Segmentation),
    Other { name: u8, contents: &'a [u8] },
    End,
}

// The options of a message as they stand in its octets, end mark included: no octets where
// it has none. `next_part` hands out one after the other.
#[derive(Clone, Copy)]
pub struct Options<'a> {
    octets: &'a [u8],
}

impl From<[u8; 4]> for Segmentation {
    ghost from_gives = { λ octets s. s ≡ segmentation_of octets };

    fn from(octets: [u8; 4]) -> Segmentation
        ensures { result ≡ segmentation_of octets }
    {
        let [about, low, middle, high] = octets;
        Segmentation {
            first: about >= 128,
            class: about / 64 % 2,
            remaining: about % 16,
            reference: u32::from_le_bytes([low, middle, high, 0]),
        }
    }
}

// The option at the front of the octets.
fn first_part<'a>(octets: &'a [u8]) -> OptionPart<'a>
    ensures { part_seen result ≡ first_option octets.now }
{
    match octets {
        &[
            SEGMENTATION,
            SEGMENTATION_LENGTH,
            about,
            low,
            middle,
            high,
            ..
        ] => { OptionPart::Segmented(Segmentation::from([about, low, middle, high])) }
        [name, length, rest @ ..] if *name != END && *length as usize <= rest.len() =>
            OptionPart::Other {
                name: *name,
                contents: &rest[..*length as usize],
            },
        _ => OptionPart::End,
    }
}

// The octets behind the option at the front; none behind the end.
fn behind_part<'a>(octets: &'a [u8]) -> &'a [u8]
    ensures { result.now ≡ behind_option octets.now }
{
    match octets {
        [name, length, rest @ ..] if *name != END && *length as usize <= rest.len() =>
            &rest[*length as usize..],
        _ => &[],
    }
}

impl<'a> Options<'a> {
    pub fn new(octets: &'a [u8]) -> Options<'a>
        ensures { result.octets.now ≡ octets.now }
    {
        Options { octets }
    }

    pub fn octets(self) -> &'a [u8]
        ensures { result.now ≡ self.entry.octets.now }
    {
        let Options { octets } = self;
        octets
    }

    // The first option that is left, which is then passed.
    pub fn next_part(&mut self) -> OptionPart<'a>
        ensures value { part_seen result ≡ first_option self.old.octets.now }
        ensures after { self.new.octets.now ≡ behind_option self.old.octets.now }
    {
        let octets = self.octets;
        self.octets = behind_part(octets);
        first_part(octets)
    }

    // The segmentation among the options, if there is one.
    pub fn segmentation(mut self) -> Option<Segmentation>
        ensures { result ≡ segmentation_found self.entry.octets.now }
    {
        loop {
            match self.next_part() {
                OptionPart::Segmented(s) => return Some(s),
                OptionPart::Other { .. } => {}
                OptionPart::End => return None,
            }
        }
    }
}
