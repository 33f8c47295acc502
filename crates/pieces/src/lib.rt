// How long the pieces are in which a unit goes out. A unit that fits one XUDT goes in one,
// without segmentation; a longer one goes in pieces, each an XUDT with segmentation.
#![tactic(auto)]

ghost use Rattle.std.specs.Prelude.{◌≡◌, ◌≤◌, IfSome};
ghost use Rattle.std.specs.Option.{unwrap_or};
ghost use Rattle.pieces.specs.Pieces.{piece_count, in_range, count_answer, count_found, length_answer, length_found, AddsUp, Fewest, Figures};

// A line message has at most 272 octets. Label, fixed part, pointers and three length octets
// take 14 of them; segmentation with its end mark takes 7 more.
const ONE_MESSAGE: usize = 258;

pub const ONE_PIECE: usize = 251;

const MOST_UNIT: usize = 3_952;

const MOST_PIECES: usize = 16;

const LEAST_ADDRESS: usize = 2;

const MOST_ADDRESS: usize = 32;

// The number of pieces of a unit that can be sent at all, however many they are.
fn count_of(called: usize, calling: usize, length: usize) -> usize
    requires { (called ≤ 32) × ((calling ≤ 32) × ((1 ≤ length) × (length ≤ 3952))) }
    ensures value { result ≡ piece_count called calling length }
    ensures bound { 1 ≤ result }
{
    if length <= ONE_MESSAGE - called - calling {
        1
    } else {
        length.div_ceil(ONE_PIECE - called - calling)
    }
}

// Whether addresses and unit have lengths that can be sent.
// Stays: three lengths side by side, as the functions for C pass them.
fn in_range(called: usize, calling: usize, length: usize) -> bool
    ensures { result ≡ in_range called calling length }
{
    (LEAST_ADDRESS..=MOST_ADDRESS).contains(&called)
        && (LEAST_ADDRESS..=MOST_ADDRESS).contains(&calling)
        && (1..=MOST_UNIT).contains(&length)
}

// In how many messages a unit of so many octets goes out, between a called and a calling
// address of these lengths: 1 where it goes in one. None where an address length is not 2 to
// 32, the unit is not 1 to 3,952 octets, or it would take more than 16 pieces.
#[tactic(auto, using(crate::proofs::Cuts::fewest, crate::proofs::Cuts::figures))]
pub fn piece_count(called: usize, calling: usize, length: usize) -> Option<usize>
    ensures value { unwrap_or result 0 ≡ count_answer called calling length }
    ensures found { result ≡ count_found called calling length }
    ensures some { IfSome result (λ k. (1 ≤ k) × (k ≤ 16)) }
    ensures fewest { Fewest }
    ensures figures { Figures }
{
    if !in_range(called, calling, length) {
        return None;
    }
    let count = count_of(called, calling, length);
    (count <= MOST_PIECES).then_some(count)
}

// The length of the piece of a number, from 0; none where there is no such piece.
pub fn piece_length(called: usize, calling: usize, length: usize, index: usize) -> Option<usize>
    ensures value { unwrap_or result 0 ≡ length_answer called calling length index }
    ensures found { result ≡ length_found called calling length index }
    ensures adds_up { AddsUp }
{
    if index >= piece_count(called, calling, length)? {
        return None;
    }
    if length <= ONE_MESSAGE - called - calling {
        return Some(length);
    }
    let each = ONE_PIECE - called - calling;
    Some(each.min(length.saturating_sub(index * each)))
}
