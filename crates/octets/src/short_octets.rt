ghost use Rattle.std.specs.Prelude.{◌≡◌, ◌≤◌, cond, length, take, nat_le, Some, None};
ghost use Rattle.octets.specs.Short.{short_octets, short_found};

use crate::short::ShortOctets;

impl<const N: usize> ShortOctets<N> {
    // A copy of the octets; none where they are more than N.
    // Stays: a test with one way to fail; a TryFrom would add an error that says no more.
    pub fn new(octets: &[u8]) -> Option<ShortOctets<N>>
        ensures { short_found result ≡ cond (nat_le (length octets.now) N) (Some octets.now) None }
    {
        if octets.len() > N {
            return None;
        }
        let mut front = [0u8; N];
        front[..octets.len()].copy_from_slice(octets);
        Some(ShortOctets {
            octets: front,
            length: octets.len(),
        })
    }

    // The first so many of the octets. Only for the crates above, which show that there are so
    // many.
    pub fn of_front(octets: [u8; N], length: usize) -> ShortOctets<N>
        requires { length ≤ N }
        ensures { short_octets result ≡ take length octets.entry }
    {
        ShortOctets { octets, length }
    }

    pub fn octets(&self) -> &[u8]
        ensures { result.now ≡ short_octets self.now }
    {
        let all = &self.octets[..];
        &all[..self.length]
    }
}
