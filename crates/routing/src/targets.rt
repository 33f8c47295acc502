ghost use Rattle.std.specs.Prelude.{◌≡◌, None};
ghost use Rattle.address.specs.Address.{code_of};
ghost use Rattle.address.specs.Code.{code_number};
ghost use Rattle.routing.specs.Meanings.{translated_by};
ghost use Rattle.routing.specs.Targets.{target_of, code_given, nonzero, goes_to, at_subsystem, translated_target, at_title, untitled_target, titled_target, target_for};

use crate::networks::Network;
use crate::nodes::Node;
use address::{Address, AddressBuffer, PointCode};
use translation::{Cause, Routing};

// Where a message that a station sends or returns goes: to a subsystem at the own code, or to another code, with the called
// address that is written.
#[derive(Clone, Copy)]
pub enum Target {
    Here {
        subsystem: u8,
    },
    Away {
        code: PointCode,
        called: AddressBuffer,
    },
}

const NO_SUBSYSTEM: u8 = 0;

// The point code in an address, where it has one.
pub fn code_of(address: Address<'_>) -> Option<PointCode>
    ensures { code_given result ≡ code_of address.entry.octets.now }
{
    address.code().map(PointCode::of_bits)
}

fn is_nonzero(subsystem: Option<u8>) -> bool
    ensures { result ≡ nonzero subsystem }
{
    subsystem.is_some_and(|number| number != NO_SUBSYSTEM)
}

// To a code, with the address as given and its way of routing as decided.
fn away(on_subsystem: bool, code: PointCode, address: Address<'_>) -> Result<Target, Cause>
    ensures { target_of result ≡ goes_to None on_subsystem (code_number code) address.entry.octets.now }
{
    let called = address.routed_on(on_subsystem).ok_or(Cause::NoTranslation)?;
    Ok(Target::Away { code, called })
}

impl<'n, N: Network> Node<'n, N> {
    // To the subsystem of the address, at a code.
    fn to_subsystem(&self, code: PointCode, address: Address<'_>) -> Result<Target, Cause>
        ensures { target_of result ≡ at_subsystem (N.told self.now.network.now).codes (N.told self.now.network.now).subsystems (code_number self.now.code) (code_number code) address.entry.octets.now }
    {
        let subsystem = address.subsystem();
        self.network
            .trial(self.code, Routing::OnSubsystem, code, subsystem)?;
        if code != self.code {
            return away(true, code, address);
        }
        let subsystem = subsystem.ok_or(Cause::NoTranslation)?;
        Ok(Target::Here { subsystem })
    }

    // Where the title leads.
    fn by_title(&self, address: Address<'_>) -> Result<Target, Cause>
        ensures { target_of result ≡ translated_target (code_number self.now.code) (translated_by (N.told self.now.network.now) (code_number self.now.code) address.entry.octets.now) }
    {
        let found = self.network.translate(self.code, address)?;
        if found.route.code != self.code {
            return Ok(Target::Away {
                code: found.route.code,
                called: found.called,
            });
        }
        let subsystem = found.route.subsystem.ok_or(Cause::NoTranslation)?;
        Ok(Target::Here { subsystem })
    }

    // To a code on title: translated at the own one, else on to the code if that is up.
    fn to_title(&self, code: PointCode, address: Address<'_>) -> Result<Target, Cause>
        ensures { target_of result ≡ at_title (N.told self.now.network.now) (code_number self.now.code) (code_number code) address.entry.octets.now }
    {
        if code == self.code {
            return self.by_title(address);
        }
        self.network.code_trial(self.code, code)?;
        away(false, code, address)
    }

    // Where an address with a title leads.
    fn titled_target(&self, code: Option<PointCode>, address: Address<'_>) -> Result<Target, Cause>
        ensures { target_of result ≡ titled_target (N.told self.now.network.now) (code_number self.now.code) (code_given code) address.entry.octets.now }
    {
        match code {
            None => self.by_title(address),
            Some(code) if address.on_subsystem() && is_nonzero(address.subsystem()) => {
                self.to_subsystem(code, address)
            }
            Some(code) => self.to_title(code, address),
        }
    }

    // Where an address without a title leads.
    fn untitled_target(
        &self,
        code: Option<PointCode>,
        address: Address<'_>,
    ) -> Result<Target, Cause>
        ensures { target_of result ≡ untitled_target (N.told self.now.network.now).codes (N.told self.now.network.now).subsystems (code_number self.now.code) (code_given code) address.entry.octets.now }
    {
        match code {
            Some(code) if is_nonzero(address.subsystem()) => self.to_subsystem(code, address),
            _ => Err(Cause::NoTranslation),
        }
    }

    // Where a message with this called address goes from here, or the cause why nowhere. The code is the address's own one, or
    // what stands for it.
    // Stays: the code beside its address, since a return may be routed by its origin's.
    #[tactic(auto, unfolding(crate::specs::Targets::target_for))]
    pub fn target_for(&self, code: Option<PointCode>, address: Address<'_>) -> Result<Target, Cause>
        ensures { target_of result ≡ target_for (N.told self.now.network.now) (code_number self.now.code) (code_given code) address.entry.octets.now }
    {
        if address.has_title() {
            self.titled_target(code, address)
        } else {
            self.untitled_target(code, address)
        }
    }
}
