ghost use Rattle.std.specs.Prelude.{◌≡◌, ◌≤◌, length, IfOk};
ghost use Rattle.message.specs.Options.{option_span, SpanInside};

use crate::behind_label::Body;
use crate::faults::{Fault, ReadFault};
use crate::parts_of_options::{END, SEGMENTATION, SEGMENTATION_LENGTH};

// Where the options of a message stand, end mark included, and whether segmentation is
// among them; start and end are 0 where it has none.
// Stays: 0 to 0 is an empty stretch, so a message without options needs no case of its own.
#[derive(Clone, Copy)]
pub struct OptionSpan {
    pub(crate) start: usize,
    pub(crate) end: usize,
    pub(crate) segmented: bool,
}

impl Body<'_> {
    // The options that begin at a place in the message.
    pub(crate) fn scan_options(self, start: usize) -> Result<OptionSpan, ReadFault>
        requires { start ≤ length self.octets.now }
        ensures value { result ≡ option_span self.entry.octets.now start }
        ensures bound { IfOk result (SpanInside self.entry.octets.now) }
    {
        // Stays: the offset is what is answered; told from what is left instead, the goals did not close.
        let mut offset = start;
        let mut segmented = false;
        loop {
            match &self.octets[offset..] {
                [END, ..] => {
                    return Ok(OptionSpan {
                        start,
                        end: offset + 1,
                        segmented,
                    });
                }
                [SEGMENTATION, SEGMENTATION_LENGTH, _, _, _, _, ..] if !segmented => {
                    segmented = true;
                    offset += 6;
                }
                [name, length, behind @ ..]
                    if *name != SEGMENTATION && *length as usize <= behind.len() => {
                    offset += 2 + *length as usize;
                }
                _ => return Err(Fault::Options.at(offset)),
            }
        }
    }
}
