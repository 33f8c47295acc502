ghost use Rattle.std.specs.Prelude.{◌≡◌, ◌+◌, ◌≤◌, true, cond, ◌&&◌, ◌∷◌, ◌++◌, length, Some};
ghost use Rattle.address.specs.Address.{address_ok, subsystem_of, on_subsystem_of};
ghost use Rattle.address.specs.Rewrite.{Bounded, buffer_octets, indicator_with, composed, rewrite_with, rewrite, rewritten, buffer_found, Rewriting};

use crate::addresses;
use crate::addresses::{Address, LEAST};
use crate::buffers::AddressBuffer;
use crate::codes::PointCode;

// What becomes of the code of an address that is written anew.
#[derive(Clone, Copy)]
pub enum CodeChange {
    Keep,
    Remove,
    Put(PointCode),
}

// The indicator anew: bit 8 and the title's kind stay.
fn new_indicator(indicator: u8, on_subsystem: bool, code: bool, subsystem: bool) -> u8
    ensures { result ≡ indicator_with indicator on_subsystem code subsystem }
{
    let told = 64 * on_subsystem as u8 + 2 * subsystem as u8 + code as u8;
    indicator / 128 * 128 + indicator / 4 % 16 * 4 + told
}

// An address of its parts.
fn compose(indicator: u8, code: &[u8], subsystem: &[u8], title: &[u8]) -> AddressBuffer
    requires { length code.now + length subsystem.now + length title.now ≤ 31 }
    ensures { buffer_octets result ≡ composed indicator code.now subsystem.now title.now }
{
    let mut octets = [0u8; 32];
    octets[0] = indicator;
    octets::put(&mut octets, 1, code);
    let at = 1 + code.len();
    octets::put(&mut octets, at, subsystem);
    let end = at + subsystem.len();
    octets::put(&mut octets, end, title);
    AddressBuffer::of_front(octets, end + title.len())
}

// The address with these octets for its code.
fn with_code_octets(
    octets: &[u8],
    on_subsystem: bool,
    code: &[u8],
    subsystem: Option<u8>,
) -> AddressBuffer
    requires { (Bounded octets.now) × (length code.now ≤ 2) }
    ensures { buffer_octets result ≡ rewrite_with on_subsystem code.now subsystem octets.now }
{
    let place = addresses::title_place(octets[0]);
    let title = &octets[place..];
    let indicator = new_indicator(
        octets[0],
        on_subsystem,
        code.len() == 2,
        subsystem.is_some(),
    );
    compose(indicator, code, subsystem.as_slice(), title)
}

// The address with another code, or none.
#[tactic(auto, unfolding(crate::specs::Rewrite::rewrite))]
fn with_change(
    octets: &[u8],
    on_subsystem: bool,
    code: CodeChange,
    subsystem: Option<u8>,
) -> AddressBuffer
    requires { Bounded octets.now }
    ensures { buffer_octets result ≡ rewrite on_subsystem code subsystem octets.now }
{
    match code {
        CodeChange::Keep => {
            let end = 1 + 2 * (octets[0] % 2) as usize;
            with_code_octets(octets, on_subsystem, &octets[1..end], subsystem)
        }
        CodeChange::Remove => with_code_octets(octets, on_subsystem, &[], subsystem),
        CodeChange::Put(c) => with_code_octets(
            octets,
            on_subsystem,
            &c.number().to_le_bytes(),
            subsystem,
        ),
    }
}

impl<'a> Address<'a> {
    // The address written anew: routed on subsystem or on title, with its code kept, removed or
    // put in, with this subsystem or none, and the same title. None where the octets are no
    // address, or nothing would be left of it.
    // Stays: routing is one bit of the indicator here; the enum of it is a rule's, in a crate above.
    #[tactic(auto, using(crate::proofs::Rewrites::good_bounded, crate::proofs::Rewrites::rewriting))]
    pub fn rewritten(
        self,
        on_subsystem: bool,
        code: CodeChange,
        subsystem: Option<u8>,
    ) -> Option<AddressBuffer>
        ensures value { buffer_found result ≡ rewritten on_subsystem code subsystem self.entry.octets.now }
        ensures rewriting { Rewriting }
    {
        if !self.is_good() {
            return None;
        }
        let anew = with_change(self.octets, on_subsystem, code, subsystem);
        (anew.octets().len() >= LEAST).then_some(anew)
    }

    // The same address routed on subsystem or on title.
    pub fn routed_on(self, on_subsystem: bool) -> Option<AddressBuffer>
        ensures { buffer_found result ≡ rewritten on_subsystem CodeChange.Keep (subsystem_of self.entry.octets.now) self.entry.octets.now }
    {
        self.rewritten(on_subsystem, CodeChange::Keep, self.subsystem())
    }

    // The same address with this code.
    pub fn with_code(self, code: PointCode) -> Option<AddressBuffer>
        ensures { buffer_found result ≡ rewritten (on_subsystem_of self.entry.octets.now) (CodeChange.Put code) (subsystem_of self.entry.octets.now) self.entry.octets.now }
    {
        self.rewritten(self.on_subsystem(), CodeChange::Put(code), self.subsystem())
    }

    // The same address without a code.
    pub fn without_code(self) -> Option<AddressBuffer>
        ensures { buffer_found result ≡ rewritten (on_subsystem_of self.entry.octets.now) CodeChange.Remove (subsystem_of self.entry.octets.now) self.entry.octets.now }
    {
        self.rewritten(self.on_subsystem(), CodeChange::Remove, self.subsystem())
    }

    // The same address with this subsystem.
    pub fn with_subsystem(self, subsystem: u8) -> Option<AddressBuffer>
        ensures { buffer_found result ≡ rewritten (on_subsystem_of self.entry.octets.now) CodeChange.Keep (Some subsystem) self.entry.octets.now }
    {
        self.rewritten(self.on_subsystem(), CodeChange::Keep, Some(subsystem))
    }
}
