ghost use Rattle.std.specs.Prelude.{◌≡◌, ◌<◌, true, OnErr};
ghost use Rattle.message.specs.Read.{seen};
ghost use Rattle.outgoing.specs.Classes.{class_number};
ghost use Rattle.outgoing.specs.Puts.{put_outcome, put_by, Behind};
ghost use Rattle.outgoing.specs.Units.{heading_seen, selection, class_octet, unit_message, one_message, segmentation_part, piece_message, piece_messages, Cut};

use crate::classes::Class;
use crate::putting::put_message;
use crate::references::UnitReference;
use address::{Address, Label};
use line::Line;
use message::parts_of_options::{END, SEGMENTATION, SEGMENTATION_LENGTH};
use message::{Form, Options, Parts};
use translation::Cause;

// What a unit goes out with: destination and origin, addresses as they are written, the class that was asked for, whether it
// asks for return, and its sequence number.
// Stays: contents are given beside it, since each piece goes out under the same heading with others.
#[derive(Clone, Copy)]
pub struct Outgoing<'h> {
    pub dpc: u16,
    pub opc: u16,
    pub called: Address<'h>,
    pub calling: Address<'h>,
    pub class: Class,
    pub returns: bool,
    pub sequence: u32,
}

pub(crate) const MOST_HOPS: u8 = 15;

const RETURN_BIT: u8 = 128;

const FIRST_BIT: u8 = 128;

// The link selection: in sequence the low 4 bits of the sequence number, else 0.
// Stays: it takes a class by its number, since any number may be asked for.
pub fn selection(class: u8, sequence: u32) -> u8
    ensures { result ≡ selection class sequence }
{
    if class == Class::InSequence.number() {
        (sequence % 16) as u8
    } else {
        0
    }
}

// The class octet: the protocol class, and the bit that asks for return.
fn class_octet(class: Class, returns: bool) -> u8
    ensures { result ≡ class_octet (class_number class) returns }
{
    class.number() + if returns { RETURN_BIT } else { 0 }
}

// Stays: class and reference are types with their ranges here, where a Segmentation that was read holds plain numbers.
// Segmentation and the end mark. For put_piece, which knows the range.
fn segmentation_part(first: bool, class: Class, remaining: u8, reference: UnitReference) -> [u8; 7]
    requires { remaining < 16 }
    ensures { result ≡ segmentation_part first (class_number class) remaining reference.number }
{
    let first = if first { FIRST_BIT } else { 0 };
    let about = first + 64 * class.number() + remaining;
    let [low, middle, high, _] = reference.number().to_le_bytes();
    [
        SEGMENTATION,
        SEGMENTATION_LENGTH,
        about,
        low,
        middle,
        high,
        END,
    ]
}

// The parts of a message that carries a unit or a piece of it.
fn parts_of<'p>(
    unit: Outgoing<'p>,
    class: Class,
    returns: bool,
    contents: &'p [u8],
    options: &'p [u8],
) -> Parts<'p>
    ensures { seen result ≡ unit_message (heading_seen unit.entry) (class_number class) returns contents.now options.now }
{
    Parts {
        label: Label {
            dpc: unit.dpc,
            opc: unit.opc,
            sls: selection(class.number(), unit.sequence),
        },
        form: Form::Xudt {
            class: class_octet(class, returns),
            hop: MOST_HOPS,
        },
        called: unit.called,
        calling: unit.calling,
        data: contents,
        options: Options::new(options),
    }
}

// Puts a unit on the line in one message.
pub fn put_one<'s, L: Line>(
    line: &mut L,
    unit: Outgoing<'s>,
    contents: &'s [u8],
) -> Result<(), Cause>
    ensures answer { result ≡ put_outcome (L.places line.old) (one_message (heading_seen unit.entry) contents.now) }
    ensures after { Behind L.waiting L.places line.old line.new (put_by result (one_message (heading_seen unit.entry) contents.now)) }
    ensures declined { OnErr result (line.new ≡ line.old) }
{
    put_message(
        line,
        parts_of(unit, unit.class, unit.returns, contents, &[]),
    )
}

// Puts one piece of a unit on the line: of class 1, and the first alone asks for return.
fn put_piece<'s, L: Line>(
    line: &mut L,
    unit: Outgoing<'s>,
    reference: UnitReference,
    first: bool,
    remaining: u8,
    contents: &'s [u8],
) -> Result<(), Cause>
    requires { remaining < 16 }
    ensures answer { result ≡ put_outcome (L.places line.old) (piece_message (heading_seen unit.entry) reference.number first remaining contents.now) }
    ensures after { Behind L.waiting L.places line.old line.new (put_by result (piece_message (heading_seen unit.entry) reference.number first remaining contents.now)) }
{
    let options = segmentation_part(first, unit.class, remaining, reference);
    put_message(
        line,
        parts_of(
            unit,
            Class::InSequence,
            unit.returns && first,
            contents,
            &options,
        ),
    )
}

// Puts a unit on the line in pieces of `each` octets, of which `remaining` follow the first. For a station, which has seen
// that the line has a place for every piece.
pub fn put_pieces<'s, L: Line>(
    line: &mut L,
    unit: Outgoing<'s>,
    reference: UnitReference,
    each: usize,
    remaining: u8,
    contents: &'s [u8],
)
    requires cut { Cut (heading_seen unit) each remaining contents.now }
    requires room { remaining < L.places line.old }
    ensures { Behind L.waiting L.places line.old line.new (piece_messages (heading_seen unit.entry) reference.number each true remaining contents.now) }
{
    for (index, piece) in contents.chunks(each).enumerate() {
        let left = remaining - index as u8;
        let _ = put_piece(line, unit, reference, index == 0, left, piece);
    }
}
