ghost use Rattle.std.specs.Prelude.{◌≡◌};
ghost use Rattle.prefix_list.specs.Prefixes.{all_below};

// Whether every digit is below a limit.
pub(crate) fn all_below(digits: &[u8], limit: u8) -> bool
    ensures { result ≡ all_below limit digits.now }
{
    digits.iter().all(|d| *d < limit)
}
