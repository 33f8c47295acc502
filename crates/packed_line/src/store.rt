// The octets of a packed line.
ghost use Rattle.std.specs.Prelude.{◌≡◌, ℕ, ◌+◌, ◌-◌, ◌*◌, ◌/◌, ◌<◌, ◌≤◌, length};
ghost use Rattle.octets.specs.Over.{over};
ghost use Rattle.packed_line.specs.Pack.{entry_octets, entry_start, length_of, lowered, offset_of};

use line::pair::{read_two, write_two};

// The octets of an entry of the index.
pub(crate) const ENTRY: usize = 4;

// Writes an entry of the index at a place.
#[tactic(auto, using(octets::proofs::Over::over_more))]
pub(crate) fn write_entry(area: &mut [u8], at: usize, off: usize, len: usize)
    requires { (at + 4 ≤ length area.old) × ((off < 65536) × (len < 65536)) }
    ensures { area.new ≡ over area.old at (entry_octets off len) }
{
    write_two(area, at, off);
    write_two(area, at + 2, len);
}

// Moves entry k + 1 to entry k, its offset lowered by n.
fn move_entry(area: &mut [u8], total: usize, k: usize, n: usize)
    requires { (4 * (k + 2) ≤ total) × ((total ≤ length area.old) × (n ≤ offset_of area.old total (k + 1))) }
    ensures { area.new ≡ over area.old (entry_start total k) (entry_octets (offset_of area.old total (k + 1) - n) (length_of area.old total (k + 1))) }
{
    let from = total - ENTRY * (k + 2);
    let off = read_two(area, from);
    let len = read_two(area, from + 2);
    write_entry(area, from + ENTRY, off - n, len);
}

// Moves every entry but the first one place up, its offset lowered by n.
#[tactic(auto, using(crate::specs::Index::lowered_next_offset, crate::specs::Index::lowered_next_length, crate::specs::Index::lowered_more, crate::specs::Index::lowered_none))]
pub(crate) fn lower_index(area: &mut [u8], total: usize, count: usize, n: usize)
    requires size { (0 < count) × ((4 * count ≤ total) × (total ≤ length area.old)) }
    requires above { (k : ℕ) → k < count - 1 → n ≤ offset_of area.old total (k + 1) }
    ensures { area.new ≡ lowered area.old total n (count - 1) }
{
    // Stays: by number, since after a loop over chunks_exact_mut a proof knows only the area's length.
    for k in 0..count - 1 {
        move_entry(area, total, k, n);
    }
}
