// Why a call of a line is declined.
ghost use Rattle.std.specs.Prelude.{◌≡◌, Some};
ghost use Rattle.line.specs.Refusals.{refusal_number, refusal_words};

use std::error::Error;
use std::fmt;

#[derive(Clone, Copy, PartialEq, Eq, Debug)]
pub enum LineRefusal {
    // the area given for a line has fewer than 4,416 octets
    AreaTooSmall = 60,
    // a message to put has fewer than 5 or more than 272 octets
    BadLength = 61,
    // the line has no place left
    NoPlace = 62,
    // nothing waits on the line
    NothingWaiting = 63,
    // the buffer to take into has fewer than 272 octets
    ShortBuffer = 64,
}

impl LineRefusal {
    // The number by which the refusal is known.
    pub fn number(&self) -> u8
        ensures { result ≡ refusal_number self.now }
    {
        *self as u8
    }

    // What the refusal means, in words.
    fn words(&self) -> &'static str
        ensures { result.now ≡ refusal_words self.now }
    {
        match self {
            LineRefusal::AreaTooSmall => "the area is too small for a line",
            LineRefusal::BadLength => "a message has 5 to 272 octets",
            LineRefusal::NoPlace => "the line has no place left",
            LineRefusal::NothingWaiting => "nothing waits on the line",
            LineRefusal::ShortBuffer => "the buffer is shorter than 272 octets",
        }
    }
}

// Stays: written by hand, since it promises its words and a derive promises none.
impl fmt::Display for LineRefusal {
    ghost output = { λ x. Some (refusal_words x) };

    fn fmt<W: fmt::Write>(&self, f: &mut fmt::Formatter<W>) -> fmt::Result {
        f.write_str(self.words())
    }
}

impl Error for LineRefusal {}
