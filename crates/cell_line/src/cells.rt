ghost use Rattle.std.specs.Prelude.{◌≡◌, ◌/◌, ◌<◌, ◌≤◌, length, vec_len};
ghost use Rattle.cell_line.specs.Ring.{Held, cell_octets, messages};

// A line in cells of 274 octets: two octets with the message's length, low octet first, and then the message. The messages that wait stand in the cells from head on, count of them, and the ring goes on at cell 0 after the last cell. The area belongs to the line until it is closed.
// Stays: one area of fixed size, told octet for octet; a VecDeque would take memory at each put.
#[derive(Drop)]
pub struct CellLine {
    pub(crate) area: Vec<u8>,
    pub(crate) cells: usize,
    pub(crate) head: usize,
    pub(crate) count: usize,
    ghost whole: { cells ≡ vec_len area / cell_octets },
    ghost enough: { 16 ≤ cells },
    ghost headin: { head < cells },
    ghost countin: { count ≤ cells },
    ghost counted: { length (messages area.items cells head count) ≡ count },
    ghost held: { Held area.items cells head count },
}
