ghost use Rattle.std.specs.Prelude.{◌≡◌, ◌-◌, ◌<◌, ◌≤◌, length, slice_index, IfOk, Ok};
ghost use Rattle.message.specs.Figures.{UdtFigure, PieceFigure};
ghost use Rattle.message.specs.Faults.{FaultPlace};
ghost use Rattle.message.specs.FirstFault.{FirstFault};
ghost use Rattle.message.specs.Inside.{PartsInside};
ghost use Rattle.message.specs.Options.{SpanInside};
ghost use Rattle.message.specs.Read.{meaning, trio_seen, places_body, options_place, span_at, parts_body, body, message_body, parse, check, class_ok, hop_ok, data_place, Placed, OptionInside};

use crate::behind_label::Body;
use crate::faults::{Fault, ReadFault};
use crate::messages::{Form, Message, Parts};
use crate::parts_of_options::Options;
use crate::scanning::OptionSpan;
use address::{Address, Label};

pub const MOST: usize = 272;

pub const UDT: u8 = 0x09;

pub const UDTS: u8 = 0x0A;

pub const XUDT: u8 = 0x11;

pub const XUDTS: u8 = 0x12;

const MOST_HOPS: u8 = 15;

// The pointers of a message: the offset of the first, where they end, and their values. A
// pointer of value p at offset i names the offset i + p. The pointer to options is 0 where
// there are none.
#[derive(Clone, Copy)]
pub struct Pointers {
    at: usize,
    start: usize,
    called: u8,
    calling: u8,
    data: u8,
    options: u8,
}

// The offsets of the length octets of addresses and data.
#[derive(Clone, Copy)]
pub struct Places {
    called: usize,
    calling: usize,
    data: usize,
}

#[derive(Clone, Copy)]
pub struct Trio<'a> {
    called: Address<'a>,
    calling: Address<'a>,
    data: &'a [u8],
}

impl<'a> Body<'a> {
    // A UDT or UDTS, whose three pointers end where the rest begins.
    // Stays: two heads, of three pointers and of four; one function for both would be told which by three more values.
    fn short(octets: &'a [u8], rest: &[u8], values: [u8; 3]) -> Body<'a>
        requires { (length octets.now ≤ 268) × (length rest.now ≤ length octets.now) }
        ensures octets { result.octets.now ≡ octets.entry.now }
        ensures pointers { result.pointers ≡ record { at = 2; start = length octets.entry.now - length rest.now; called = slice_index values 0; calling = slice_index values 1; «data» = slice_index values 2; options = 0 } }
    {
        let [called, calling, data] = values;
        let pointers = Pointers {
            at: 2,
            start: octets.len() - rest.len(),
            called,
            calling,
            data,
            options: 0,
        };
        Body { octets, pointers }
    }

    // An XUDT or XUDTS, whose four pointers end where the rest begins.
    fn long(octets: &'a [u8], rest: &[u8], values: [u8; 4]) -> Body<'a>
        requires { (length octets.now ≤ 268) × (length rest.now ≤ length octets.now) }
        ensures octets { result.octets.now ≡ octets.entry.now }
        ensures pointers { result.pointers ≡ record { at = 3; start = length octets.entry.now - length rest.now; called = slice_index values 0; calling = slice_index values 1; «data» = slice_index values 2; options = slice_index values 3 } }
    {
        let [called, calling, data, options] = values;
        let pointers = Pointers {
            at: 3,
            start: octets.len() - rest.len(),
            called,
            calling,
            data,
            options,
        };
        Body { octets, pointers }
    }

    // The places that the first three pointers name.
    fn places(self) -> Result<Places, ReadFault>
        ensures value { result ≡ places_body self.entry.octets.now self.entry.pointers }
        ensures bound { IfOk result (Placed self.entry.octets.now) }
    {
        let message = self.octets;
        let p = self.pointers;
        let n = message.len();
        let called = p.at + p.called as usize;
        if called < p.start || called >= n {
            return Err(Fault::Pointer.at(p.at));
        }
        let calling = p.at + 1 + p.calling as usize;
        if calling < called + 1 + message[called] as usize || calling >= n {
            return Err(Fault::Pointer.at(p.at + 1));
        }
        let data = p.at + 2 + p.data as usize;
        if data < calling + 1 + message[calling] as usize || data >= n {
            return Err(Fault::Pointer.at(p.at + 2));
        }
        Ok(Places {
            called,
            calling,
            data,
        })
    }

    // Where the options begin, if there are any.
    fn options_place(self, data: usize) -> Result<Option<usize>, ReadFault>
        requires { («data» ≡ data_place self.pointers) × («data» < length self.octets.now) }
        ensures value { result ≡ options_place self.entry.octets.now self.entry.pointers }
        ensures bound { IfOk result (OptionInside self.entry.octets.now) }
    {
        let p = self.pointers;
        if p.options == 0 {
            return Ok(None);
        }
        let place = p.at + 3 + p.options as usize;
        if place < data + 1 + self.octets[data] as usize || place >= self.octets.len() {
            return Err(Fault::Pointer.at(p.at + 3));
        }
        Ok(Some(place))
    }

    // The options at their place.
    fn options_span(self, place: Option<usize>) -> Result<OptionSpan, ReadFault>
        requires { OptionInside self.octets.now place }
        ensures value { result ≡ span_at self.entry.octets.now place }
        ensures bound { IfOk result (SpanInside self.entry.octets.now) }
    {
        match place {
            None => Ok(OptionSpan {
                start: 0,
                end: 0,
                segmented: false,
            }),
            Some(start) => self.scan_options(start),
        }
    }

    // Addresses and data at their places.
    fn trio(self, q: Places, segmented: bool) -> Result<Trio<'a>, ReadFault>
        requires { Placed self.octets.now q }
        ensures { trio_seen result ≡ parts_body self.entry.octets.now q segmented }
    {
        let message = self.octets;
        let a = message[q.called] as usize;
        let called = Address::new(&message[q.called + 1..q.called + 1 + a]);
        if !called.is_good() {
            return Err(Fault::Address.at(q.called));
        }
        let b = message[q.calling] as usize;
        let calling = Address::new(&message[q.calling + 1..q.calling + 1 + b]);
        if !calling.is_good() && (segmented || !calling.is_empty()) {
            return Err(Fault::Address.at(q.calling));
        }
        let d = message[q.data] as usize;
        if d == 0 || q.data + 1 + d > message.len() {
            return Err(Fault::Data.at(q.data));
        }
        Ok(Trio {
            called,
            calling,
            data: &message[q.data + 1..q.data + 1 + d],
        })
    }

    // What the pointers of the message name.
    #[tactic(auto, unfolding(crate::specs::Read::body))]
    fn read(self, label: Label, form: Form) -> Result<Message<'a>, ReadFault>
        ensures { meaning result ≡ body label form self.entry.octets.now self.entry.pointers }
    {
        let q = self.places()?;
        let place = self.options_place(q.data)?;
        let span = self.options_span(place);
        let trio = self.trio(q, span.is_ok_and(|s| s.segmented))?;
        let OptionSpan { start, end, .. } = span?;
        let parts = Parts {
            label,
            form,
            called: trio.called,
            calling: trio.calling,
            data: trio.data,
            options: Options::new(&self.octets[start..end]),
        };
        Ok(Message { parts })
    }
}

fn check_class(class: u8) -> Result<(), ReadFault>
    ensures { result ≡ check (class_ok class) Fault.ClassOrHop 1 (Ok tt) }
{
    if class % 16 > 1 {
        return Err(Fault::ClassOrHop.at(1));
    }
    Ok(())
}

fn check_hop(hop: u8) -> Result<(), ReadFault>
    ensures { result ≡ check (hop_ok hop) Fault.ClassOrHop 2 (Ok tt) }
{
    if hop == 0 || hop > MOST_HOPS {
        return Err(Fault::ClassOrHop.at(2));
    }
    Ok(())
}

// A message of 1 to 268 octets behind its label.
fn read_message<'a>(label: Label, message: &'a [u8]) -> Result<Message<'a>, ReadFault>
    requires { length message.now ≤ 268 }
    ensures { meaning result ≡ message_body label message.now }
{
    match message {
        [UDT, class, called, calling, data, rest @ ..] => {
            let class = *class;
            check_class(class)?;
            Body::short(message, rest, [*called, *calling, *data]).read(label, Form::Udt { class })
        }
        [UDTS, cause, called, calling, data, rest @ ..] => {
            let cause = *cause;
            Body::short(message, rest, [*called, *calling, *data]).read(label, Form::Udts { cause })
        }
        [XUDT, class, hop, called, calling, data, options, rest @ ..] => {
            let (class, hop) = (*class, *hop);
            check_class(class)?;
            check_hop(hop)?;
            Body::long(message, rest, [*called, *calling, *data, *options]).read(
                label,
                Form::Xudt { class, hop },
            )
        }
        [XUDTS, cause, hop, called, calling, data, options, rest @ ..] => {
            let (cause, hop) = (*cause, *hop);
            check_hop(hop)?;
            Body::long(message, rest, [*called, *calling, *data, *options]).read(
                label,
                Form::Xudts { cause, hop },
            )
        }
        [UDT | UDTS | XUDT | XUDTS, ..] => Err(Fault::PointersCutOff.at(0)),
        _ => Err(Fault::MessageType.at(0)),
    }
}

// Reads a line message, its label first. The answer is the message, whose parts are parts
// of the octets, or the first fault: the one of the least number, and of equal numbers the
// one of the lowest offset.
pub fn read<'a>(octets: &'a [u8]) -> Result<Message<'a>, ReadFault>
    ensures value { meaning result ≡ parse octets.now }
    ensures place { FaultPlace result }
    ensures first_fault { FirstFault octets.now (meaning result) }
    ensures parts_inside { PartsInside octets.now (meaning result) }
    ensures figures { UdtFigure × PieceFigure }
{
    match octets {
        &[a, b, c, d, ref message @ ..] if !message.is_empty() && octets.len() <= MOST =>
            read_message(Label::from([a, b, c, d]), message),
        _ => Err(Fault::Length.at(0)),
    }
}
