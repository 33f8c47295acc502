ghost use Rattle.std.specs.Prelude.{◌≤◌, length};
ghost use Rattle.octets.specs.Short.{short_octets};

use octets::ShortOctets;

// An address has at least so many octets, and at most so many.
pub const ADDRESS_LEAST: usize = 2;

pub const ADDRESS_MOST: usize = 32;

// The mark by which a station tells units apart: the origin's point code, the subsystem here, the octets of the calling address,
// and the local reference. The reference lies before the address, so that a record has no gap there.
#[derive(Clone, Copy)]
pub struct StationMark {
    pub(crate) opc: u16,
    pub(crate) subsystem: u8,
    pub(crate) reference: u32,
    pub(crate) calling: ShortOctets<ADDRESS_MOST>,
    ghost long: { 2 ≤ length (short_octets calling) },
}
