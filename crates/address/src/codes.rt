ghost use Rattle.std.specs.Prelude.{◌<◌};

// A point code: the number of a node of the network, 0 to 16,383.
#[derive(Clone, Copy, PartialEq, Eq, Debug)]
pub struct PointCode {
    pub(crate) value: u16,
    ghost fits: { value < 16384 },
}
