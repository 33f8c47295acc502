ghost use Rattle.std.specs.Prelude.{◌≡◌, ◌+◌, ◌≤◌, ◌++◌, length, drop, IfOk};
ghost use Rattle.octets.specs.Over.{over};
ghost use Rattle.message.specs.Read.{seen};
ghost use Rattle.writing.specs.Write.{sized, options_in, kept, slices_seen, lengths_of, pointer_count, to_options, head, head_size, laid, size_of, Fitting, measured, write_answer, buffer_after};
ghost use Rattle.writing.specs.RoundTrip.{ReadsBack, WrittenReadsBack, ReadWritesBack, ReadIsMessage, RewrittenReadsSame};

use crate::layout::{Lengths, Slices};
use crate::refusals::WriteRefusal;
use message::reading::{MOST, UDT, UDTS, XUDT, XUDTS};
use message::{Form, Parts};

const MOST_OF_OCTET: usize = 255;

const LABEL: usize = 4;

// The length octets of called and calling address and data.
const LENGTH_OCTETS: usize = 3;

const SHORT_HEAD: usize = 5;

const LONG_HEAD: usize = 7;

const SHORT_POINTERS: usize = 3;

const LONG_POINTERS: usize = 4;

// The options that are written: UDT and UDTS have none.
fn options_in<'a>(form: Form, options: &'a [u8]) -> &'a [u8]
    ensures { result.now ≡ options_in form options.now }
{
    match form {
        Form::Udt { .. } | Form::Udts { .. } => &[],
        Form::Xudt { .. } | Form::Xudts { .. } => options,
    }
}

// The octets of the parts that are written.
impl<'a> From<Parts<'a>> for Slices<'a> {
    ghost from_gives = { λ parts slices. slices_seen slices ≡ kept (seen parts) };

    fn from(parts: Parts<'a>) -> Slices<'a>
        ensures { slices_seen result ≡ kept (seen parts.entry) }
    {
        Slices {
            label: parts.label,
            form: parts.form,
            called: parts.called.octets(),
            calling: parts.calling.octets(),
            data: parts.data,
            options: options_in(parts.form, parts.options.octets()),
        }
    }
}

impl Slices<'_> {
    fn lengths(self) -> Lengths
        ensures { result ≡ lengths_of (slices_seen self.entry) }
    {
        Lengths {
            called: self.called.len(),
            calling: self.calling.len(),
            data: self.data.len(),
            options: self.options.len(),
        }
    }
}

// The octets between the label and the called address.
// Stays: two numbers of a form, each told as the format tells it; one function for both would only move them to its calls.
fn head_size(form: Form) -> usize
    ensures { result ≡ head_size form }
{
    match form {
        Form::Udt { .. } | Form::Udts { .. } => SHORT_HEAD,
        Form::Xudt { .. } | Form::Xudts { .. } => LONG_HEAD,
    }
}

// UDT and UDTS have no pointer to options.
fn pointer_count(form: Form) -> usize
    ensures value { result ≡ pointer_count form }
    ensures bound { result ≤ 4 }
{
    match form {
        Form::Udt { .. } | Form::Udts { .. } => SHORT_POINTERS,
        Form::Xudt { .. } | Form::Xudts { .. } => LONG_POINTERS,
    }
}

// The pointer to options, 0 where there are none.
fn to_options(pointers: usize, n: Lengths) -> usize
    requires { (pointers ≤ 4) × ((n.called ≤ 272) × ((n.calling ≤ 272) × (n.«data» ≤ 272))) }
    ensures { result ≡ to_options pointers n }
{
    if n.options == 0 {
        0
    } else {
        pointers + n.called + n.calling + n.data
    }
}

// The size of a message whose parts have these lengths. They may be any: each is tested before
// they are added up.
// Stays: a struct of form and lengths with Fitting as its ghost field would ask each caller to say of which message it is.
fn measure(form: Form, n: Lengths) -> Result<usize, WriteRefusal>
    ensures value { result ≡ measured form n }
    ensures bound { IfOk result (λ k. (k ≡ size_of form n) × Fitting form n) }
{
    if n.called > MOST_OF_OCTET
        || n.calling > MOST_OF_OCTET
        || n.data > MOST_OF_OCTET
        || n.options > MOST
    {
        return Err(WriteRefusal::TooLong);
    }
    let size = LABEL + head_size(form) + LENGTH_OCTETS + n.called + n.calling + n.data + n.options;
    if size > MOST {
        return Err(WriteRefusal::TooLong);
    }
    let pointers = pointer_count(form);
    if pointers + n.called + n.calling > MOST_OF_OCTET || to_options(pointers, n) > MOST_OF_OCTET {
        return Err(WriteRefusal::PointerTooFar);
    }
    Ok(size)
}

// Writes a length octet and the part behind it.
fn put_part(out: &mut [u8], at: usize, part: &[u8])
    requires { (at + 1 + length part.now ≤ length out.old) × (length part.now ≤ 255) }
    ensures { out.new ≡ over out.old at (sized part.now) }
{
    out[at] = part.len() as u8;
    octets::put(out, at + 1, part);
}

// Writes what stands between the label and the called address.
fn put_head(out: &mut [u8], form: Form, n: Lengths)
    requires { (Fitting form n) × (size_of form n ≤ length out.old) }
    ensures { out.new ≡ over out.old 4 (head form n) }
{
    let pointers = pointer_count(form);
    let called = pointers as u8;
    let calling = (pointers + n.called) as u8;
    let data = (pointers + n.called + n.calling) as u8;
    let options = to_options(pointers, n) as u8;
    match form {
        Form::Udt { class } => octets::put(out, LABEL, &[UDT, class, called, calling, data]),
        Form::Udts { cause } => octets::put(out, LABEL, &[UDTS, cause, called, calling, data]),
        Form::Xudt { class, hop } => octets::put(
            out,
            LABEL,
            &[XUDT, class, hop, called, calling, data, options],
        ),
        Form::Xudts { cause, hop } => octets::put(
            out,
            LABEL,
            &[XUDTS, cause, hop, called, calling, data, options],
        ),
    }
}

// Writes a message that fits.
fn fill(s: Slices, n: Lengths, out: &mut [u8])
    requires lengths { n ≡ lengths_of (slices_seen s) }
    requires fits { Fitting s.form n }
    requires room { size_of s.form n ≤ length out.old }
    ensures { out.new ≡ laid (slices_seen s.entry) ++ drop (size_of s.entry.form n) out.old }
{
    octets::put(out, 0, &<[u8; 4]>::from(s.label));
    put_head(out, s.form, n);
    let called = LABEL + head_size(s.form);
    put_part(out, called, s.called);
    let calling = called + 1 + n.called;
    put_part(out, calling, s.calling);
    let data = calling + 1 + n.calling;
    put_part(out, data, s.data);
    octets::put(out, data + 1 + n.data, s.options);
}

// Writes a message, or refuses it.
// Stays: apart from `write`, so that the body is checked apart from the laws that `write` names.
fn write_parts(parts: Parts, buffer: &mut [u8]) -> Result<usize, WriteRefusal>
    ensures answer { result ≡ write_answer (seen parts.entry) (length buffer.old) }
    ensures buffer { buffer.new ≡ buffer_after (seen parts.entry) buffer.old result }
{
    let slices = Slices::from(parts);
    let n = slices.lengths();
    let size = measure(parts.form, n)?;
    if buffer.len() < size {
        return Err(WriteRefusal::ShortBuffer);
    }
    fill(slices, n, buffer);
    Ok(size)
}

// Writes a message into the front of a buffer, its label first, and answers how many octets it
// has; what stands behind them stays. Parts follow one another without gaps. Options that have
// octets are written as they are, also where they are only the end mark; UDT and UDTS have
// none. A refused message leaves the buffer as it was.
pub fn write(parts: Parts, buffer: &mut [u8]) -> Result<usize, WriteRefusal>
    ensures answer { result ≡ write_answer (seen parts.entry) (length buffer.old) }
    ensures buffer { buffer.new ≡ buffer_after (seen parts.entry) buffer.old result }
    ensures reads_back { ReadsBack (seen parts.entry) buffer.new result }
    ensures written_reads_back { WrittenReadsBack }
    ensures read_writes_back { ReadWritesBack }
    ensures read_is_message { ReadIsMessage }
    ensures rewritten_reads_same { RewrittenReadsSame }
{
    write_parts(parts, buffer)
}
