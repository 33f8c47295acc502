ghost use Rattle.std.specs.Prelude.{◌≡◌, ◌≤◌, length, take, is_some, IfSome, OnErr};
ghost use Rattle.message.specs.Read.{seen};
ghost use Rattle.writing.specs.Write.{encode};
ghost use Rattle.outgoing.specs.Puts.{fits_line, put_outcome, put_by, Behind};

use line::Line;
use line::queue::MESSAGE_MOST;
use message::Parts;
use translation::Cause;
use writing::write;

// Writes a message into the front of a buffer that any line message fits, and answers how long it is; none where it does not
// fit a line.
fn compose(parts: Parts<'_>, buffer: &mut [u8]) -> Option<usize>
    requires { length buffer.old ≡ 272 }
    ensures fits { is_some result ≡ fits_line (seen parts.entry) }
    ensures written { IfSome result (λ n. (12 ≤ n) × (n ≤ 272) × (take n buffer.new ≡ encode (seen parts.entry))) }
{
    write(parts, buffer).ok()
}

// Writes a message of these parts and puts it on a line: cause 7 where it does not fit, cause 6 where the line has no place.
pub fn put_message<L: Line>(line: &mut L, parts: Parts<'_>) -> Result<(), Cause>
    ensures answer { result ≡ put_outcome (L.places line.old) (seen parts.entry) }
    ensures after { Behind L.waiting L.places line.old line.new (put_by result (seen parts.entry)) }
    ensures declined { OnErr result (line.new ≡ line.old) }
{
    let mut buffer = [0u8; MESSAGE_MOST];
    let length = compose(parts, &mut buffer).ok_or(Cause::Unqualified)?;
    line.put(&buffer[0..length])
        .map_err(|_| Cause::NetworkCongestion)
}
