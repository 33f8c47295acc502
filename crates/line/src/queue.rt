// A line: messages wait on it, oldest first, and it tells how many places it has left. What any line means is said by the trait's ghost members, so code above is written and proved once for every line.
ghost use Rattle.std.specs.Prelude.{◌≡◌, ℕ, ◌+◌, ◌-◌, ◌<◌, ◌≤◌, true, false, List, [], length, is_ok, IfOk};
ghost use Rattle.line.specs.Meaning.{all_fit, least_places, least_octets, most_octets, put_answer, put_after, take_answer, take_after, take_buffer};

use crate::refusal::LineRefusal;

// The fewest and the most octets of a message on a line.
pub const MESSAGE_LEAST: usize = 5;

pub const MESSAGE_MOST: usize = 272;

pub trait Line {
    // The messages that wait, oldest first, each by its octets.
    ghost waiting: { Self → List (List ℕ) };

    // How many places are left: a message is declined for want of a place exactly at 0.
    ghost places: { Self → ℕ };

    // Puts a message behind those that wait. Places fall by at most one and never rise.
    fn put(&mut self, message: &[u8]) -> Result<(), LineRefusal>
        ensures answer { result ≡ put_answer (places self.old) (length message.now) }
        ensures messages { waiting self.new ≡ put_after result (waiting self.old) message.now }
        ensures least { places self.old ≤ places self.new + 1 }
        ensures most { places self.new ≤ places self.old }
        ensures declined { is_ok result ≡ false → self.new ≡ self.old };

    // Moves the oldest message to the front of the buffer and answers its length. Places do not fall.
    fn take(&mut self, buffer: &mut [u8]) -> Result<usize, LineRefusal>
        ensures answer { result ≡ take_answer (waiting self.old) (length buffer.old) }
        ensures bounds { IfOk result (λ n. (least_octets ≤ n) × (n ≤ most_octets) × (most_octets ≤ length buffer.old)) }
        ensures messages { waiting self.new ≡ take_after result (waiting self.old) }
        ensures octets { buffer.new ≡ take_buffer result (waiting self.old) buffer.old }
        ensures least { places self.old ≤ places self.new }
        ensures declined { is_ok result ≡ false → self.new ≡ self.old };

    // How many places are left. Changes nothing.
    fn places(&self) -> usize
        ensures { result ≡ places self.now };

    // An empty line has at least 16 places.
    ghost roomy: { (s : Self) → waiting s ≡ [] → least_places ≤ places s };

    // Each message that waits has 5 to 272 octets.
    ghost fitting: { (s : Self) → all_fit (waiting s) ≡ true };
}
