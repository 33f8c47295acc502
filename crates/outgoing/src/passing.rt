ghost use Rattle.std.specs.Prelude.{◌≡◌, OnErr};
ghost use Rattle.address.specs.Code.{code_number};
ghost use Rattle.address.specs.Rewrite.{buffer_octets};
ghost use Rattle.message.specs.Read.{seen};
ghost use Rattle.outgoing.specs.Addressed.{message_passed_on};
ghost use Rattle.outgoing.specs.Puts.{put_outcome, put_by, Behind};

use crate::addressing::{completion, or_given};
use crate::labelling::label_to;
use crate::putting::put_message;
use address::{Address, AddressBuffer, PointCode};
use line::Line;
use message::{Form, Parts};
use translation::Cause;

// Passes a message on to another code, in this form and with this called address.
pub fn pass_on<L: Line>(
    line: &mut L,
    own: PointCode,
    code: PointCode,
    form: Form,
    called: AddressBuffer,
    parts: Parts<'_>,
) -> Result<(), Cause>
    ensures answer { result ≡ put_outcome (L.places line.old) (message_passed_on (code_number own) (code_number code) form (buffer_octets called) (seen parts.entry)) }
    ensures after { Behind L.waiting L.places line.old line.new (put_by result (message_passed_on (code_number own) (code_number code) form (buffer_octets called) (seen parts.entry))) }
    ensures declined { OnErr result (line.new ≡ line.old) }
{
    let calling = completion(PointCode::of_bits(parts.label.opc), parts.calling);
    put_message(
        line,
        Parts {
            label: label_to(code, own, parts.label.sls),
            form,
            called: Address::new(called.octets()),
            calling: or_given(&calling, parts.calling),
            ..parts
        },
    )
}
