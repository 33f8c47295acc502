ghost use Rattle.std.specs.Prelude.{◌≤◌};

// The size of a piece: how many pieces remain after it, 15 at most, and the octets of its data, 255 at most.
#[derive(Clone, Copy, PartialEq, Eq, Debug)]
pub struct PieceSize {
    pub(crate) remaining: u8,
    pub(crate) len: usize,
    ghost few: { remaining ≤ 15 },
    ghost short: { len ≤ 255 },
}
