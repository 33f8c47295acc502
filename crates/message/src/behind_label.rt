ghost use Rattle.std.specs.Prelude.{◌≤◌, length};

use crate::reading::Pointers;

// A message behind its label: its octets, 268 at most, and its pointers.
#[derive(Clone, Copy)]
pub struct Body<'a> {
    pub(crate) octets: &'a [u8],
    pub(crate) pointers: Pointers,
    ghost short: { length octets.now ≤ 268 },
    ghost early: { pointers.at ≤ 3 },
}
