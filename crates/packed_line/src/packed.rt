ghost use Rattle.std.specs.Prelude.{◌≡◌, ◌+◌, ◌*◌, ◌<◌, ◌≤◌, min, length, vec_len};
ghost use Rattle.packed_line.specs.Pack.{Held, Placed, messages, octets_of, uses};

// A line in the first total octets of its area, 65,536 at most: used octets of messages end to end from the front, the oldest first, and an index of count entries from the end down, with two octets of a message's offset and two of its length. The area belongs to the line until it is closed.
// Stays: one area of fixed size, told octet for octet; a VecDeque would take memory at each put.
#[derive(Drop)]
pub struct PackedLine {
    pub(crate) area: Vec<u8>,
    pub(crate) total: usize,
    pub(crate) used: usize,
    pub(crate) count: usize,
    ghost whole: { total ≡ min (vec_len area) 65536 },
    ghost enough: { 4416 ≤ total },
    ghost room: { used + 4 * count ≤ total },
    ghost counted: { length (messages area.items total count) ≡ count },
    ghost spent: { uses (messages area.items total count) ≡ used + 4 * count },
    ghost ends: { octets_of area.items total count ≡ used },
    ghost placed: { Placed area.items total count },
    ghost held: { Held area.items total count },
}
