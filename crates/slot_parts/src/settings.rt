ghost use Rattle.std.specs.Prelude.{◌≤◌};

// A station's own point code, 0 to 16,383, and T, the ticks that an opening has, 10 to 20.
#[derive(Clone, Copy)]
pub struct Settings {
    pub(crate) code: u16,
    pub(crate) ticks: u8,
    ghost small: { code ≤ 16383 },
    ghost long: { 10 ≤ ticks },
    ghost short: { ticks ≤ 20 },
}
