// What a host program in C may ask: whether octets are a line message, and how long the
// pieces of a unit are. The header is include/mezgalt.h.
#![tactic(auto)]

ghost use Rattle.std.specs.Prelude.{◌≡◌};
ghost use Rattle.host.specs.Host.{check_number, check_offset};
ghost use Rattle.message.specs.Read.{parse};
ghost use Rattle.pieces.specs.Pieces.{count_answer, length_answer};

// The number of the fault of the octets, label included, and its offset through `offset`;
// both 0 where they are a message.
#[unsafe(no_mangle)]
pub extern "C" fn mezgalt_check(octets: &[u8], offset: &mut u32) -> u32
    ensures number { result ≡ check_number (parse octets.now) }
    ensures place { offset.new ≡ check_offset (parse octets.now) }
{
    // Stays: numbers and an offset through a reference, as the interface to C needs them.
    match message::read(octets) {
        Ok(_) => {
            *offset = 0;
            0
        }
        Err(e) => {
            *offset = e.offset as u32;
            e.fault.number() as u32
        }
    }
}

// In how many messages a unit goes out; 0 where it cannot.
#[unsafe(no_mangle)]
pub extern "C" fn mezgalt_piece_count(called: u32, calling: u32, length: u32) -> u32
    ensures { result ≡ count_answer called calling length }
{
    // Stays: 0 where there is none, as the interface to C tells it.
    pieces::piece_count(called as usize, calling as usize, length as usize).unwrap_or(0) as u32
}

// The length of the piece of a number, from 0; 0 where there is none.
#[unsafe(no_mangle)]
pub extern "C" fn mezgalt_piece_length(called: u32, calling: u32, length: u32, index: u32) -> u32
    ensures { result ≡ length_answer called calling length index }
{
    // Stays: 0 where there is none, as the interface to C tells it.
    pieces::piece_length(
        called as usize,
        calling as usize,
        length as usize,
        index as usize,
    )
    .unwrap_or(0) as u32
}
