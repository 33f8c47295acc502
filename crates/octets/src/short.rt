ghost use Rattle.std.specs.Prelude.{◌≤◌};

// At most N octets, in memory of their own: the first `length` of `octets`.
// Stays: an array with its length, since a Vec would need a heap.
#[derive(Clone, Copy)]
pub struct ShortOctets<const N: usize> {
    pub(crate) octets: [u8; N],
    pub(crate) length: usize,
    ghost fits: { length ≤ N },
}
