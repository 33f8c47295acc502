// Octets as hexadecimal text: two digits an octet, lower case where it is written and either
// case where it is read; a lone `-` stands for no octets.
#![tactic(auto)]

ghost use Rattle.std.specs.Prelude.{◌≡◌, ◌<◌, [], ◌++◌, IfSome, IfOk, string_bytes, OnOk};
ghost use Rattle.hexadecimal.specs.Hexadecimal.{digit_value, pair_value, digit_text, octets_on, octets_in, octet_text, text_of, Made, ReadsBack};
ghost use Rattle.hexadecimal.specs.declared.NoOctets.TheVariants.{NoMemory};

use std::alloc::{AllocError, AllocFailed, Global};
use thiserror::Error;

// Why a word is no octets.
#[derive(Clone, Copy, PartialEq, Eq, Debug, Error)]
pub enum NoOctets {
    #[error("octets are an even number of hexadecimal digits, or `-` for none")]
    NotHexadecimal,
    #[error("out of memory")]
    NoMemory,
}

impl<T: Drop> From<AllocFailed<T>> for NoOctets {
    ghost from_gives = { λ _ e. e ≡ NoMemory };

    fn from(_failed: AllocFailed<T>) -> NoOctets {
        NoOctets::NoMemory
    }
}

// Stays: digits by their ranges, as the text's definition tells them; char's own way would go through two casts.
fn digit_value(b: u8) -> Option<u8>
    ensures value { result ≡ digit_value b }
    ensures bound { IfSome result (λ v. v < 16) }
{
    match b {
        b'0'..=b'9' => Some(b - b'0'),
        b'A'..=b'F' => Some(b - b'A' + 10),
        b'a'..=b'f' => Some(b - b'a' + 10),
        _ => None,
    }
}

fn digit_text(v: u8) -> u8
    requires { v < 16 }
    ensures { result ≡ digit_text v }
{
    if v < 10 { v + b'0' } else { v - 10 + b'a' }
}

// The octet of two digits.
fn pair_value(high: u8, low: u8) -> Option<u8>
    ensures { result ≡ pair_value high low }
{
    Some(16 * digit_value(high)? + digit_value(low)?)
}

// The octets of digits, two digits each.
fn octets_of_digits(heap: Global, text: &[u8]) -> Result<Vec<u8>, NoOctets>
    ensures { Made (octets_on [] text.now) result }
{
    let mut out = Vec::new(heap);
    // Stays: two digits and what is behind them by a pattern, which a loop over chunks would test again.
    let mut rest = text;
    while let [high, low, behind @ ..] = rest {
        out.push(pair_value(*high, *low).ok_or(NoOctets::NotHexadecimal)?)?;
        rest = behind;
    }
    if !rest.is_empty() {
        return Err(NoOctets::NotHexadecimal);
    }
    Ok(out)
}

// The octets that a word stands for.
pub fn octets_of(heap: Global, word: &str) -> Result<Vec<u8>, NoOctets>
    ensures value { Made (octets_in word.now) result }
    ensures reads_back { ReadsBack }
{
    match word.as_bytes() {
        [] => Err(NoOctets::NotHexadecimal),
        [b'-'] => Ok(Vec::new(heap)),
        text => octets_of_digits(heap, text),
    }
}

// Adds the two digits of an octet.
fn push_octet(out: &mut String, x: u8) -> Result<(), AllocError>
    ensures { OnOk result (string_bytes out.new ≡ string_bytes out.old ++ octet_text x) }
{
    out.push(digit_text(x / 16) as char)?;
    out.push(digit_text(x % 16) as char)
}

// The text of octets.
pub fn text_of(heap: Global, octets: &[u8]) -> Result<String, AllocError>
    ensures { IfOk result (λ s. string_bytes s ≡ text_of octets.now) }
{
    let mut out = String::new(heap);
    if octets.is_empty() {
        out.push('-')?;
        return Ok(out);
    }
    for x in octets {
        push_octet(&mut out, *x)?;
    }
    Ok(out)
}
