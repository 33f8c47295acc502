// When a line declines a put or a take.
ghost use Rattle.std.specs.Prelude.{◌≡◌};
ghost use Rattle.line.specs.Meaning.{put_answer, take_test};

use crate::queue::{MESSAGE_LEAST, MESSAGE_MOST};
use crate::refusal::LineRefusal;

// Whether a message of so many octets may be put on a line with so many places left.
pub fn may_put(places: usize, octets: usize) -> Result<(), LineRefusal>
    ensures { result ≡ put_answer places octets }
{
    if !(MESSAGE_LEAST..=MESSAGE_MOST).contains(&octets) {
        return Err(LineRefusal::BadLength);
    }
    if places == 0 {
        return Err(LineRefusal::NoPlace);
    }
    Ok(())
}

// Whether a message may be taken into a buffer of so many octets from a line on which so many wait.
pub fn may_take(count: usize, octets: usize) -> Result<(), LineRefusal>
    ensures { result ≡ take_test count octets tt }
{
    if count == 0 {
        return Err(LineRefusal::NothingWaiting);
    }
    if octets < MESSAGE_MOST {
        return Err(LineRefusal::ShortBuffer);
    }
    Ok(())
}
