ghost use Rattle.std.specs.Prelude.{◌≡◌};
ghost use Rattle.address.specs.Code.{code_number};
ghost use Rattle.address.specs.Rewrite.{buffer_octets};
ghost use Rattle.message.specs.Read.{seen};
ghost use Rattle.routing.specs.Targets.{code_given};
ghost use Rattle.outgoing.specs.Puts.{put_outcome, put_by, Behind};
ghost use Rattle.outgoing.specs.Returns.{returnable, return_form, return_code, return_message, give_back};

use crate::addressing::{calling_for, lacks_code, or_given};
use crate::labelling::label_to;
use crate::putting::put_message;
use crate::units::MOST_HOPS;
use address::{Address, AddressBuffer, PointCode};
use line::Line;
use message::{Form, Parts};
use routing::{Network, Node, Target, code_of};
use translation::Cause;

// What became of a message with a cause: it was returned to a code, is told to a subsystem here, or was discarded.
#[derive(Clone, Copy)]
pub enum Givenback {
    Returned { code: u16 },
    ToldHere { subsystem: u8 },
    Discarded,
}

// Whether a message is returned where it has a cause.
fn is_returnable(parts: Parts<'_>) -> bool
    ensures { result ≡ returnable (seen parts.entry) }
{
    parts.form.asks_return() && !parts.calling.is_empty()
}

// UDT returns as UDTS, XUDT as XUDTS.
fn return_form(cause: Cause, form: Form) -> Form
    ensures { result ≡ return_form cause form }
{
    let cause = cause.number();
    match form {
        Form::Udt { .. } | Form::Udts { .. } => Form::Udts { cause },
        Form::Xudt { .. } | Form::Xudts { .. } => Form::Xudts {
            cause,
            hop: MOST_HOPS,
        },
    }
}

// The code by which a return is routed: the origin stands for it where the calling address is on subsystem without one.
fn return_code(parts: Parts<'_>) -> Option<PointCode>
    ensures { code_given result ≡ return_code (seen parts.entry) }
{
    if lacks_code(parts.calling) {
        Some(PointCode::of_bits(parts.label.opc))
    } else {
        code_of(parts.calling)
    }
}

// Puts a return on the line: addresses changed over, same data, options and link selection.
fn put_return<L: Line>(
    line: &mut L,
    own: PointCode,
    code: PointCode,
    called: AddressBuffer,
    cause: Cause,
    parts: Parts<'_>,
) -> Result<(), Cause>
    ensures answer { result ≡ put_outcome (L.places line.old) (return_message (code_number own) (code_number code) (buffer_octets called) cause (seen parts.entry)) }
    ensures after { Behind L.waiting L.places line.old line.new (put_by result (return_message (code_number own) (code_number code) (buffer_octets called) cause (seen parts.entry))) }
{
    let called = Address::new(called.octets());
    let calling = calling_for(own, called, parts.called);
    put_message(
        line,
        Parts {
            label: label_to(code, own, parts.label.sls),
            form: return_form(cause, parts.form),
            called,
            calling: or_given(&calling, parts.called),
            ..parts
        },
    )
}

// Returns a message with a cause, where it asks for that: it is routed and addressed as what is sent, by its calling address.
// At the own code it is told to the subsystem; where it can not go it is discarded, as all others with a cause.
#[tactic(auto, unfolding(crate::specs::Returns::give_back))]
pub fn give_back<L: Line, N: Network>(
    line: &mut L,
    node: &Node<'_, N>,
    cause: Cause,
    parts: Parts<'_>,
) -> Givenback
    ensures answer { result ≡ (give_back (N.told node.now.network.now) (code_number node.now.code) (L.places line.old) cause (seen parts.entry)).done }
    ensures after { Behind L.waiting L.places line.old line.new (give_back (N.told node.now.network.now) (code_number node.now.code) (L.places line.old) cause (seen parts.entry)).sent }
{
    if !is_returnable(parts) {
        return Givenback::Discarded;
    }
    match node.target_for(return_code(parts), parts.calling) {
        Ok(Target::Here { subsystem }) => Givenback::ToldHere { subsystem },
        Ok(Target::Away { code, called }) => {
            match put_return(line, node.code, code, called, cause, parts) {
                Ok(()) => Givenback::Returned {
                    code: code.number(),
                },
                Err(_) => Givenback::Discarded,
            }
        }
        Err(_) => Givenback::Discarded,
    }
}
