// Numbers in two octets of an area, low octet first. These functions are for the lines above, and ask that what they reach lies inside the area.
ghost use Rattle.std.specs.Prelude.{◌≡◌, ◌+◌, ◌<◌, ◌≤◌, length};
ghost use Rattle.octets.specs.Over.{over};
ghost use Rattle.line.specs.Written.{two, two_octets};

use octets::put;

// The number in the two octets at a place, low octet first.
pub fn read_two(area: &[u8], at: usize) -> usize
    requires { at + 2 ≤ length area.now }
    ensures value { result ≡ two area.now at }
    ensures bound { result < 65536 }
{
    u16::from_le_bytes([area[at], area[at + 1]]) as usize
}

// Writes a number into the two octets at a place, low octet first.
pub fn write_two(area: &mut [u8], at: usize, n: usize)
    requires { (at + 2 ≤ length area.old) × (n < 65536) }
    ensures { area.new ≡ over area.old at (two_octets n) }
{
    put(area, at, &(n as u16).to_le_bytes());
}
