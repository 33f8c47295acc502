// Octets written into the middle of others, and few octets in memory of their own. For the
// crates that write labels, addresses and messages.
#![tactic(auto)]

ghost use Rattle.std.specs.Prelude.{◌≡◌, ◌+◌, ◌≤◌, length};
ghost use Rattle.octets.specs.Over.{over};

pub mod short;
pub mod short_octets;

pub use short::ShortOctets;

// Writes the octets at a place, all others stay. Only for the crates above, which show that
// there is room.
#[tactic(auto, using(crate::proofs::Over::over_part))]
pub fn put(out: &mut [u8], at: usize, octets: &[u8])
    requires { at + length octets.now ≤ length out.old }
    ensures { out.new ≡ over out.old at octets.now }
{
    out[at..at + octets.len()].copy_from_slice(octets);
}
