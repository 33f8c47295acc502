ghost use Rattle.std.specs.Prelude.{◌≡◌};
ghost use Rattle.address.specs.Code.{code_number};
ghost use Rattle.address.specs.Rewrite.{buffer_found};
ghost use Rattle.outgoing.specs.Addressed.{lacks_code, completed, or_given};
ghost use Rattle.outgoing.specs.Returns.{calling_for};

use address::{Address, AddressBuffer, PointCode};

// Whether an address is on subsystem and has no code.
pub(crate) fn lacks_code(address: Address<'_>) -> bool
    ensures { result ≡ lacks_code address.entry.octets.now }
{
    address.is_good() && address.on_subsystem() && address.code().is_none()
}

// The address with this code, where it lacks one.
#[tactic(auto, using(crate::proofs::Codes::completes), unfolding(crate::specs::Addressed::completed))]
pub(crate) fn completion(code: PointCode, address: Address<'_>) -> Option<AddressBuffer>
    ensures { or_given (buffer_found result) address.entry.octets.now ≡ completed (code_number code) address.entry.octets.now }
{
    if lacks_code(address) {
        address.with_code(code)
    } else {
        None
    }
}

// The calling address of what goes out to this called one, where it is written anew: with the own code, where it lacks one and
// the called address is on title.
pub fn calling_for(
    own: PointCode,
    called: Address<'_>,
    calling: Address<'_>,
) -> Option<AddressBuffer>
    ensures { or_given (buffer_found result) calling.entry.octets.now ≡ calling_for (code_number own) called.entry.octets.now calling.entry.octets.now }
{
    if called.on_subsystem() {
        None
    } else {
        completion(own, calling)
    }
}

// An address where it was written anew, else as given.
pub fn or_given<'b>(anew: &'b Option<AddressBuffer>, given: Address<'b>) -> Address<'b>
    ensures { result.octets.now ≡ or_given (buffer_found anew.now) given.entry.octets.now }
{
    match anew {
        Some(buffer) => Address::new(buffer.octets()),
        None => given,
    }
}
